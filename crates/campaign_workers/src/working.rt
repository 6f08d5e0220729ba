ghost use Rattle.std.specs.Prelude.{◌≡◌, ◌≢◌, ◌∷◌, ℕ, [], true, ◌↔◌, OnOk, OnErr, MatchOption};
ghost use Rattle.campaign_core.specs.declared.call.Call.{Call};
ghost use Rattle.campaign_core.specs.declared.call.Reply.{Reply};
ghost use Rattle.campaign_core.specs.Ranges.{has_range};
ghost use Rattle.campaign_core.specs.History.{out_of};
ghost use Rattle.turn_book.specs.Views.{IsSameSeat};
ghost use Rattle.campaign.specs.Passes.{pass_of, work_of, IsOf, Saw, Says};
ghost use Rattle.campaign_workers.specs.Working.{is_short, DidWork, SameOut, Works};

use campaign::{Campaign, Claim, Pass};
use campaign_core::{Job, Share, Work};
use ra_base::{OutOfMemory, Pause};
use std::alloc::Global;
use std::sync::Wait;
use std::thread::Parker;
use std::time::Duration;

/// How many milliseconds a worker sleeps before it claims again where a claim was idle.
const IDLE_MILLIS: u64 = 10;

/// How a worker ended: by what its last claim was answered, or without memory.
#[derive(Clone, Copy, Debug, PartialEq, Eq)]
pub enum WorkEnd {
    /// All samples up to the target were given out.
    Idle,
    /// The campaign is sealed, and all its samples were given out.
    Drained,
    /// The campaign is cancelled.
    Cancelled,
    /// A share found no memory. It was given up, and the campaign cancelled.
    OutOfMemory,
}

impl WorkEnd {
    /// Whether it ended without memory.
    pub fn is_short(self) -> bool
        ensures { result ≡ is_short self }
    {
        matches!(self, WorkEnd::OutOfMemory)
    }
}

/// A worker's pass, and how it ended.
#[derive(Drop)]
pub struct Worked<W: Work> {
    pub pass: Pass<W>,
    pub end: WorkEnd,
}

/// Claims shares, runs their samples and deposits what they came to, until a claim gives none. Where a claim
/// is idle and `wait_idle` is true, it sleeps for a moment and claims again. It may wait for the pass that has
/// the book.
pub fn work<R: Wait, W: Work, J: Job<W>, P: Pause>(
    rt: &R,
    alloc: Global,
    campaign: &Campaign<W>,
    mut pass: Pass<W>,
    job: &mut J,
    pause: &P,
    wait_idle: bool,
) -> Worked<W>
    requires pass { IsOf campaign.now pass }
    requires job { J.serves job.old (work_of campaign.now) }
    ensures pass { IsOf campaign.now result.pass }
    ensures work { DidWork (pass_of pass) result.end (pass_of result.pass) }
    ensures same { IsSameSeat (pass_of pass) (pass_of result.pass) }
    ensures idle { wait_idle ≡ true → result.end ≢ WorkEnd.Idle }
    ensures job { (work : W) → (J.serves job.old work ↔ J.serves job.new work) }
{
    let end = work_on(rt, alloc, campaign, &mut pass, job, pause, wait_idle);
    Worked { pass, end }
}

/// The same with a pass that is lent.
pub fn work_on<R: Wait, W: Work, J: Job<W>, P: Pause>(
    rt: &R,
    alloc: Global,
    campaign: &Campaign<W>,
    pass: &mut Pass<W>,
    job: &mut J,
    pause: &P,
    wait_idle: bool,
) -> WorkEnd
    requires pass { IsOf campaign.now pass.old }
    requires job { J.serves job.old (work_of campaign.now) }
    ensures pass { IsOf campaign.now pass.new }
    ensures work { DidWork (pass_of pass.old) result (pass_of pass.new) }
    ensures same { IsSameSeat (pass_of pass.old) (pass_of pass.new) }
    ensures idle { wait_idle ≡ true → result ≢ WorkEnd.Idle }
    ensures job { (work : W) → (J.serves job.old work ↔ J.serves job.new work) }
{
    // Nobody wakes it: it sleeps for its time, so that a worker without work costs next to nothing.
    let sleeper = Parker::new();
    for _ in rt.forever() {
        match turn(rt, alloc, campaign, pass, job, pause) {
            None => {}
            Some(end) => {
                if end != WorkEnd::Idle || !wait_idle {
                    return end;
                }
                sleeper.park_timeout(rt, Duration::from_millis(IDLE_MILLIS));
            }
        }
    }
    unreachable!()
}

// One claim, and the share that it gives.
fn turn<R: Wait, W: Work, J: Job<W>, P: Pause>(
    rt: &R,
    alloc: Global,
    campaign: &Campaign<W>,
    pass: &mut Pass<W>,
    job: &mut J,
    pause: &P,
) -> Option<WorkEnd>
    requires pass { IsOf campaign.now pass.old }
    requires job { J.serves job.old (work_of campaign.now) }
    ensures pass { IsOf campaign.now pass.new }
    ensures work { MatchOption result
        (Works (pass_of pass.old) (pass_of pass.new) × SameOut (pass_of pass.old) (pass_of pass.new))
        (λ end. DidWork (pass_of pass.old) end (pass_of pass.new)) }
    ensures job { (work : W) → (J.serves job.old work ↔ J.serves job.new work) }
{
    match campaign.claim(pass) {
        Claim::Range(share) => match run_share(rt, alloc, campaign, pass, job, pause, share) {
            Ok(()) => None,
            Err(_none) => {
                campaign.cancel(pass);
                Some(WorkEnd::OutOfMemory)
            }
        },
        Claim::Moved {
            before: _,
            after: _,
        } => None,
        Claim::Idle => Some(WorkEnd::Idle),
        Claim::Drained => Some(WorkEnd::Drained),
        Claim::Cancelled => Some(WorkEnd::Cancelled),
    }
}

// Runs a share's samples and deposits what they came to. Without memory the share is given up.
fn run_share<R: Wait, W: Work, J: Job<W>, P: Pause>(
    rt: &R,
    alloc: Global,
    campaign: &Campaign<W>,
    pass: &mut Pass<W>,
    job: &mut J,
    pause: &P,
    share: Share,
) -> Result<(), OutOfMemory>
    requires pass { IsOf campaign.now pass.old }
    requires job { J.serves job.old (work_of campaign.now) }
    requires out { has_range (out_of (pass_of pass.old).calls) share ≡ true }
    ensures pass { IsOf campaign.now pass.new }
    ensures same { IsSameSeat (pass_of pass.old) (pass_of pass.new) }
    ensures done { OnOk result ((number : ℕ) × Says (pass_of pass.old)
        (Call.Deposit share.first share.count) (Reply.Deposited number) (pass_of pass.new)) }
    ensures err { OnErr result (Saw (pass_of pass.old) (pass_of pass.new)) }
    ensures job { (work : W) → (J.serves job.old work ↔ J.serves job.new work) }
{
    pause.before(share.first(), share.count());
    match job.run(alloc, share) {
        Ok(done) => match campaign.deposit(rt, pass, done) {
            Ok(_number) => Ok(()),
            Err((done, none)) => {
                done.abandon();
                Err(none)
            }
        },
        Err((share, none)) => {
            share.abandon();
            Err(none)
        }
    }
}
