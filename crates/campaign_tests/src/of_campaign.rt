ghost use Rattle.std.specs.Prelude.{◌≡◌, ◌≢◌, ◌≤◌, ◌∷◌, [], true, IfOk};
ghost use Rattle.std.specs.Thread.{IsSync};
ghost use Rattle.ra_base.specs.declared.limits.TheConstants.{MOST_SAMPLES, MOST_BLOCK};
ghost use Rattle.campaign_core.specs.Ranges.{has_range, AreSame};
ghost use Rattle.campaign_core.specs.History.{out_of};
ghost use Rattle.turn_book.specs.Views.{IsSameSeat};
ghost use Rattle.campaign.specs.Passes.{pass_of, IsFirst, IsOf, KeepsOthers, KeepsOut};

use campaign::{Campaign, Claim, Extend, Interim, NotFinished, Pass};
use campaign_core::{Done, SampleRange, Share, Work};
use ra_base::OutOfMemory;
use std::alloc::Global;
use std::process::Abort;
use std::sync::Wait;
use std::test::Fail;
use std::thread::{Threads, join, yield_now};

// A work whose sum is the list of its ranges, whose samples are enough, and which finds memory to merge where
// it is told so.
#[derive(Drop)]
struct Listing {
    finds: bool,
}

impl Work for Listing {
    ghost use Rattle.std.proofs.Common.{◌∙◌, refl, true};
    ghost use Rattle.campaign_core.specs.Ranges.{AreSame};

    type Sum = Vec<SampleRange>;

    ghost stands = { λ work sum ranges. AreSame sum.items ranges };

    ghost is_enough = { λ work ranges. true };

    fn empty(&self, alloc: Global) -> Result<Vec<SampleRange>, OutOfMemory> {
        Ok(Vec::new(alloc))
    }

    fn merge(
        &self,
        into: &mut Vec<SampleRange>,
        more: &Vec<SampleRange>,
    ) -> Result<(), OutOfMemory> {
        if !self.finds {
            return Err(OutOfMemory);
        }
        into.extend_from_slice(more.as_slice())?;
        Ok(())
    }

    fn copy(&self, alloc: Global, sum: &Vec<SampleRange>) -> Result<Vec<SampleRange>, OutOfMemory> {
        let mut copy = Vec::new(alloc);
        copy.extend_from_slice(sum.as_slice())?;
        Ok(copy)
    }

    fn enough(&self, _sum: &Vec<SampleRange>) -> bool {
        true
    }

    ghost stands_by_samples = { λ work sum xs ys same s weight. s weight ∙ same weight };

    ghost enough_by_samples = { λ work xs ys same. refl };
}

fn opened(
    alloc: Global,
    target: u32,
    block: u32,
    finds: bool,
) -> Result<(Campaign<Listing>, Pass<Listing>), Fail>
    requires target { (1 ≤ target) × (target ≤ MOST_SAMPLES) }
    requires block { (1 ≤ block) × (block ≤ MOST_BLOCK) }
    ensures pass { IfOk result (λ opened. IsOf opened.0 opened.1) }
    ensures first { IfOk result (λ opened. IsFirst target block (pass_of opened.1)) }
{
    match Campaign::open(alloc, Listing { finds }, target, block) {
        Ok(opened) => Ok(opened),
        Err((_work, none)) => Err(none.into()),
    }
}

// A claim that gives a share.
fn claimed(rt: &impl Abort, campaign: &Campaign<Listing>, pass: &mut Pass<Listing>) -> Share
    requires { IsOf campaign.now pass.old }
    ensures pass { IsOf campaign.now pass.new }
    ensures out { has_range (out_of (pass_of pass.new).calls) result ≡ true }
    ensures keeps { KeepsOut (pass_of pass.old) (pass_of pass.new) }
    ensures same { IsSameSeat (pass_of pass.old) (pass_of pass.new) }
{
    match campaign.claim(pass) {
        Claim::Range(share) => share,
        Claim::Cancelled => panic!(rt; "cancelled"),
        Claim::Drained => panic!(rt; "drained"),
        Claim::Idle => panic!(rt; "idle"),
        Claim::Moved {
            before: _,
            after: _,
        } => panic!(rt; "moved"),
    }
}

// The share with the list of its range.
fn done(rt: &impl Abort, alloc: Global, share: Share) -> Done<Listing>
    ensures share { result.share ≡ share }
    ensures sum { AreSame result.sum.items (share ∷ []) }
{
    let range = SampleRange {
        first: share.first(),
        count: share.count(),
    };
    let mut list = Vec::new(alloc);
    match list.push(range) {
        Ok(()) => Done::of(share, list),
        Err(_none) => panic!(rt; "no memory"),
    }
}

// A deposit of a share that is out.
fn deposited<R: Wait + Abort>(
    rt: &R,
    alloc: Global,
    campaign: &Campaign<Listing>,
    pass: &mut Pass<Listing>,
    share: Share,
) -> u32
    requires pass { IsOf campaign.now pass.old }
    requires out { has_range (out_of (pass_of pass.old).calls) share ≡ true }
    ensures pass { IsOf campaign.now pass.new }
    ensures keeps { KeepsOthers share.first (pass_of pass.old) (pass_of pass.new) }
    ensures same { IsSameSeat (pass_of pass.old) (pass_of pass.new) }
{
    let done = done(rt, alloc, share);
    match campaign.deposit(rt, pass, done) {
        Ok(number) => number,
        Err((_done, _none)) => panic!(rt; "no memory"),
    }
}

// How a claim is refused. A share is given up.
fn refused(campaign: &Campaign<Listing>, pass: &mut Pass<Listing>) -> &'static str
    requires { IsOf campaign.now pass.old }
    ensures pass { IsOf campaign.now pass.new }
    ensures keeps { KeepsOut (pass_of pass.old) (pass_of pass.new) }
    ensures same { IsSameSeat (pass_of pass.old) (pass_of pass.new) }
{
    match campaign.claim(pass) {
        Claim::Range(share) => {
            share.abandon();
            "range"
        }
        Claim::Cancelled => "cancelled",
        Claim::Drained => "drained",
        Claim::Idle => "idle",
        Claim::Moved {
            before: _,
            after: _,
        } => "moved",
    }
}

fn extended(campaign: &Campaign<Listing>, pass: &mut Pass<Listing>, more: u32) -> Extend
    requires pass { IsOf campaign.now pass.old }
    requires more { (1 ≤ more) × (more ≤ MOST_SAMPLES) }
    ensures pass { IsOf campaign.now pass.new }
    ensures keeps { KeepsOut (pass_of pass.old) (pass_of pass.new) }
    ensures same { IsSameSeat (pass_of pass.old) (pass_of pass.new) }
{
    campaign.extend(pass, more)
}

fn cancelled(campaign: &Campaign<Listing>, pass: &mut Pass<Listing>)
    requires { IsOf campaign.now pass.old }
    ensures pass { IsOf campaign.now pass.new }
    ensures keeps { KeepsOut (pass_of pass.old) (pass_of pass.new) }
    ensures same { IsSameSeat (pass_of pass.old) (pass_of pass.new) }
{
    campaign.cancel(pass);
}

// A report.
fn reported<R: Wait + Abort>(
    rt: &R,
    alloc: Global,
    campaign: &Campaign<Listing>,
    pass: &mut Pass<Listing>,
) -> Interim<Listing>
    requires { IsOf campaign.now pass.old }
    ensures pass { IsOf campaign.now pass.new }
    ensures keeps { KeepsOut (pass_of pass.old) (pass_of pass.new) }
    ensures same { IsSameSeat (pass_of pass.old) (pass_of pass.new) }
{
    match campaign.interim(rt, alloc, pass) {
        Ok(report) => report,
        Err(_none) => panic!(rt; "no memory"),
    }
}

// The runs of a report as text.
fn check(
    rt: &impl Abort,
    alloc: Global,
    report: &Interim<Listing>,
    runs: &str,
) -> Result<(), Fail> {
    assert_eq!(rt; format!(in alloc; "{:?}", report.runs)?.as_str(), runs);
    assert!(rt; report.enough != report.runs.is_empty());
    Ok(())
}

#[test]
fn one_pass_is_answered_as_worked_out(rt: HostRuntime) -> Result<(), Fail> {
    let alloc = rt.alloc();
    let (campaign, mut pass) = opened(alloc, 5, 2, true)?;
    let first = claimed(&rt, &campaign, &mut pass);
    claimed(&rt, &campaign, &mut pass).abandon();
    let third = claimed(&rt, &campaign, &mut pass);
    let idle = refused(&campaign, &mut pass);
    let now = extended(&campaign, &mut pass, 3);
    let fourth = claimed(&rt, &campaign, &mut pass);
    assert_eq!(rt; idle, "idle");
    assert!(rt; now == Extend::Now { target: 8 });
    assert_eq!(rt; first.first(), 0);
    assert_eq!(rt; third.first(), 4);
    assert_eq!(rt; fourth.first(), 5);
    let counts = [first.count(), third.count(), fourth.count()];
    let one = deposited(&rt, alloc, &campaign, &mut pass, fourth);
    let two = deposited(&rt, alloc, &campaign, &mut pass, first);
    let early = reported(&rt, alloc, &campaign, &mut pass);
    cancelled(&campaign, &mut pass);
    let stopped = refused(&campaign, &mut pass);
    let three = deposited(&rt, alloc, &campaign, &mut pass, third);
    assert!(rt; counts == [2, 1, 2]);
    assert!(rt; one == 1 && two == 2 && three == 3);
    assert_eq!(rt; stopped, "cancelled");
    assert!(rt; extended(&campaign, &mut pass, 1) == Extend::Cancelled);
    check(
        &rt,
        alloc,
        &early,
        "Runs { list: [Run { first: 0, last: 1 }, Run { first: 5, last: 6 }] }",
    )?;
    let late = reported(&rt, alloc, &campaign, &mut pass);
    check(
        &rt,
        alloc,
        &late,
        "Runs { list: [Run { first: 0, last: 1 }, Run { first: 4, last: 6 }] }",
    )
}

#[test]
fn passes_claim_in_turn_and_are_joined(rt: HostRuntime) -> Result<(), Fail> {
    let alloc = rt.alloc();
    let (campaign, mut pass) = opened(alloc, 6, 2, true)?;
    let mut other = campaign.split_pass(&mut pass);
    let first = claimed(&rt, &campaign, &mut pass);
    let second = claimed(&rt, &campaign, &mut other);
    let third = claimed(&rt, &campaign, &mut pass);
    assert_eq!(rt; third.first(), 4);
    let places = [first.first(), second.first()];
    first.abandon();
    third.abandon();
    let one = deposited(&rt, alloc, &campaign, &mut other, second);
    assert!(rt; places == [0, 2] && one == 1);
    campaign.seal(&mut pass);
    assert_eq!(rt; refused(&campaign, &mut other), "drained");
    assert!(rt; extended(&campaign, &mut other, 1) == Extend::Sealed);
    match campaign.finish(pass) {
        Ok(_end) => panic!(rt; "finished early"),
        Err(not) => {
            let NotFinished {
                campaign,
                mut pass,
                made,
                joined,
            } = not;
            assert!(rt; made == 2 && joined == 1);
            campaign.join_pass(&mut pass, other);
            let Ok(end) = campaign.finish(pass) else {
                panic!(rt; "not finished")
            };
            assert!(rt; end.gate.sealed && end.gate.next == 6);
            assert_eq!(rt; end.runs.len(), 1);
            assert_eq!(rt; end.sum.len(), 1);
            Ok(())
        }
    }
}

#[test]
fn what_finds_no_memory_comes_back(rt: HostRuntime) -> Result<(), Fail> {
    let alloc = rt.alloc();
    let (campaign, mut pass) = opened(alloc, 6, 2, false)?;
    let share = claimed(&rt, &campaign, &mut pass);
    let done = done(&rt, alloc, share);
    match campaign.deposit(&rt, &mut pass, done) {
        Ok(_number) => panic!(rt; "deposited"),
        Err((done, _none)) => {
            assert!(rt; done.share.first() == 0 && done.share.count() == 2 && done.sum.len() == 1);
            done.abandon();
        }
    }
    let report = reported(&rt, alloc, &campaign, &mut pass);
    assert!(rt; report.gate.next == 2 && report.runs.is_empty() && !report.enough);
    drop(campaign.split_pass(&mut pass));
    match campaign.finish(pass) {
        Ok(_end) => panic!(rt; "finished without a pass"),
        Err(not) => {
            assert!(rt; not.made == 2 && not.joined == 1);
            Ok(())
        }
    }
}

#[test]
fn four_threads_do_the_work(rt: HostRuntime) -> Result<(), Fail> {
    let alloc = rt.alloc();
    let (campaign, pass) = opened(alloc, 25, 2, true)?;
    let pass = four_work(&rt, alloc, &campaign, pass, false);
    let Ok(end) = campaign.finish(pass) else {
        panic!(rt; "not finished")
    };
    assert!(rt; end.gate.next == 25 && end.gate.target == 25);
    assert_eq!(rt; end.sum.len(), 13);
    assert_eq!(rt;
        format!(in alloc; "{:?}", end.runs)?.as_str(),
        "Runs { list: [Run { first: 0, last: 24 }] }"
    );
    Ok(())
}

#[test]
fn a_report_and_a_seal_stand_between(rt: HostRuntime) -> Result<(), Fail> {
    let alloc = rt.alloc();
    let (campaign, pass) = opened(alloc, 25, 2, true)?;
    let pass = four_work(&rt, alloc, &campaign, pass, true);
    let Ok(end) = campaign.finish(pass) else {
        panic!(rt; "not finished")
    };
    assert!(rt; end.gate.sealed && end.gate.next >= 25 && end.gate.next <= end.gate.target);
    assert!(rt; end.gate.target == 28 || end.gate.target == 25);
    assert_eq!(rt; end.runs.len(), 1);
    assert_eq!(rt; end.runs.get(0).first, 0);
    Ok(())
}

// Four callers claim and deposit on threads of their own; the last of them only watches, if it is told to.
fn four_work<R: Threads + Wait + Abort + Sync>(
    rt: &R,
    alloc: Global,
    campaign: &Campaign<Listing>,
    pass: Pass<Listing>,
    watches: bool,
) -> Pass<Listing>
    requires pass { IsOf campaign.now pass }
    requires opening { ((pass_of pass).number ≡ 0) × ((pass_of pass).made ≡ 1) }
    ensures { IsOf campaign.now result × ((pass_of result).number ≡ 0) }
{
    let mut first = pass;
    let second = campaign.split_pass(&mut first);
    let third = campaign.split_pass(&mut first);
    let fourth = campaign.split_pass(&mut first);
    let ((mut first, second), (third, fourth)) = join(
        rt,
        move || -> (Pass<Listing>, Pass<Listing>)
            requires { IsSync R.row × IsOf campaign.now first × IsOf campaign.now second }
            ensures one { IsOf campaign.entry.now result.0 × IsSameSeat (pass_of first) (pass_of result.0) }
            ensures two { IsOf campaign.entry.now result.1 × IsSameSeat (pass_of second) (pass_of result.1) }
        { two_work(rt, alloc, campaign, first, second, false) },
        move || -> (Pass<Listing>, Pass<Listing>)
            requires { IsSync R.row × IsOf campaign.now third × IsOf campaign.now fourth }
            ensures one { IsOf campaign.entry.now result.0 × IsSameSeat (pass_of third) (pass_of result.0) }
            ensures two { IsOf campaign.entry.now result.1 × IsSameSeat (pass_of fourth) (pass_of result.1) }
        { two_work(rt, alloc, campaign, third, fourth, watches) },
    );
    campaign.join_pass(&mut first, second);
    campaign.join_pass(&mut first, third);
    campaign.join_pass(&mut first, fourth);
    first
}

fn two_work<R: Threads + Wait + Abort + Sync>(
    rt: &R,
    alloc: Global,
    campaign: &Campaign<Listing>,
    first: Pass<Listing>,
    second: Pass<Listing>,
    watches: bool,
) -> (Pass<Listing>, Pass<Listing>)
    requires first { IsOf campaign.now first }
    requires second { IsOf campaign.now second }
    ensures first { IsOf campaign.now result.0 × IsSameSeat (pass_of first) (pass_of result.0) }
    ensures second { IsOf campaign.now result.1 × IsSameSeat (pass_of second) (pass_of result.1) }
{
    join(
        rt,
        move || -> Pass<Listing>
            requires { IsOf campaign.now first }
            ensures { IsOf campaign.entry.now result × IsSameSeat (pass_of first) (pass_of result) }
        { worked(rt, alloc, campaign, first, false) },
        move || -> Pass<Listing>
            requires { IsSync R.row × IsOf campaign.now second }
            ensures { IsOf campaign.entry.now result × IsSameSeat (pass_of second) (pass_of result) }
        { worked(rt, alloc, campaign, second, watches) },
    )
}

// Claims and deposits until nothing is left, or watches.
fn worked<R: Wait + Abort>(
    rt: &R,
    alloc: Global,
    campaign: &Campaign<Listing>,
    mut pass: Pass<Listing>,
    watches: bool,
) -> Pass<Listing>
    requires { IsOf campaign.now pass }
    ensures { IsOf campaign.now result × IsSameSeat (pass_of pass) (pass_of result) }
{
    if watches {
        return watched(rt, alloc, campaign, pass);
    }
    for _ in rt.forever() {
        match campaign.claim(&mut pass) {
            Claim::Range(share) => {
                deposited(rt, alloc, campaign, &mut pass, share);
            }
            Claim::Cancelled => return pass,
            Claim::Drained => return pass,
            Claim::Idle => return pass,
            Claim::Moved {
                before: _,
                after: _,
            } => yield_now(),
        }
    }
    unreachable!()
}

// Reports, asks for more, and seals.
fn watched<R: Wait + Abort>(
    rt: &R,
    alloc: Global,
    campaign: &Campaign<Listing>,
    mut pass: Pass<Listing>,
) -> Pass<Listing>
    requires { IsOf campaign.now pass }
    ensures { IsOf campaign.now result × IsSameSeat (pass_of pass) (pass_of result) }
{
    let report = reported(rt, alloc, campaign, &mut pass);
    assert!(rt; report.gate.next <= 25);
    extended(campaign, &mut pass, 3);
    campaign.seal(&mut pass);
    pass
}
