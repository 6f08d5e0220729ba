ghost use Rattle.std.specs.Prelude.{◌≡◌, ◌≤◌, ◌<◌, ◌+◌, false, All, length, vec_capacity};
ghost use Rattle.std.specs.Thread.{IsSend, IsSync};
ghost use Rattle.campaign.specs.Passes.{pass_of, work_of, IsOf};
ghost use Rattle.campaign_workers.specs.Crews.{CrewWorks, Joins, Reached};
ghost use Rattle.campaign_workers.specs.Working.{DidWork};

use crate::working::{WorkEnd, work_on};
use campaign::{Campaign, Pass};
use campaign_core::{Job, Work};
use ra_base::Pause;
use std::alloc::Global;
use std::sync::Wait;
use std::thread::{Threads, join};

/// The opening pass with the jobs of its workers.
#[derive(Drop)]
pub(crate) struct Crew<W: Work, J: Drop> {
    pub(crate) pass: Pass<W>,
    pub(crate) jobs: Vec<J>,
    /// Whether a worker ended without memory.
    pub(crate) short: bool,
}

/// Has a worker for each job work at once, each with a pass that is split off and joined back. The worker of
/// the last job is started first and runs beside the others.
#[cycle(crew)]
pub(crate) fn run_crew<R: Threads + Wait + Sync, W: Work, J: Job<W> + Send, P: Pause + Sync>(
    rt: &R,
    alloc: Global,
    campaign: &Campaign<W>,
    mut pass: Pass<W>,
    mut jobs: Vec<J>,
    pause: &P,
) -> Crew<W, J>
    requires pass { IsOf campaign.now pass }
    requires opening { (pass_of pass).number ≡ 0 }
    requires room { (pass_of pass).made + length jobs.items ≤ u32.MAX }
    requires jobs { All (λ job. J.serves job (work_of campaign.now)) jobs.items }
    ensures pass { IsOf campaign.now result.pass }
    ensures joins { Joins (length jobs.items) (pass_of pass) (pass_of result.pass) }
    ensures works { result.short ≡ false → CrewWorks (pass_of pass) (pass_of result.pass) }
    ensures reached { result.short ≡ false → 0 < length jobs.items
        → Reached (pass_of pass) (pass_of result.pass) }
    ensures many { length result.jobs.items ≡ length jobs.items }
    ensures room { vec_capacity result.jobs ≡ vec_capacity jobs }
    ensures jobs { All (λ job. J.serves job (work_of campaign.now)) result.jobs.items }
{
    let Some(mut job) = jobs.pop() else {
        return Crew {
            pass,
            jobs,
            short: false,
        };
    };
    let mine = campaign.split_pass(&mut pass);
    let worker = move || -> (Pass<W>, WorkEnd, J)
        requires { IsSync R.row × IsSync P.row × IsSend J.row × IsOf campaign.now mine
            × J.serves job (work_of campaign.now) }
        ensures pass { IsOf campaign.entry.now result.0 }
        ensures work { DidWork (pass_of mine) result.1 (pass_of result.0) }
        ensures job { J.serves result.2 (work_of campaign.entry.now) }
    {
        let mut pass = mine;
        let end = work_on(rt, alloc, campaign, &mut pass, &mut job, pause, false);
        (pass, end, job)
    };
    let others = move || -> Crew<W, J>
        requires { IsSync R.row × IsSync P.row × IsSend J.row × IsOf campaign.now pass
            × ((pass_of pass).number ≡ 0) × ((pass_of pass).made + length jobs.items ≤ u32.MAX)
            × All (λ job. J.serves job (work_of campaign.now)) jobs.items }
        ensures pass { IsOf campaign.entry.now result.pass }
        ensures joins { Joins (length jobs.items) (pass_of pass) (pass_of result.pass) }
        ensures works { result.short ≡ false → CrewWorks (pass_of pass) (pass_of result.pass) }
        ensures many { length result.jobs.items ≡ length jobs.items }
        ensures room { vec_capacity result.jobs ≡ vec_capacity jobs }
        ensures jobs { All (λ job. J.serves job (work_of campaign.entry.now)) result.jobs.items }
    { run_crew(rt, alloc, campaign, pass, jobs, pause) };
    let ((other, end, job), mut rest) = join(rt, worker, others);
    campaign.join_pass(&mut rest.pass, other);
    rest.jobs.push_reserved(job);
    rest.short = rest.short | end.is_short();
    rest
}
