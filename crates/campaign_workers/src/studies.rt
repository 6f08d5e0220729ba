ghost use Rattle.std.specs.Prelude.{◌≡◌, ◌≤◌, ◌+◌, ℕ, false, All, IfOk, length};
ghost use Rattle.ra_base.specs.declared.limits.TheConstants.{MOST_SAMPLES, MOST_BLOCK};
ghost use Rattle.campaign.specs.Passes.{pass_of, work_of, IsOf};
ghost use Rattle.campaign_workers.specs.Standing.{StandsAt};
ghost use Rattle.campaign_workers.specs.Studies.{IsStudySum};

use crate::crew::{Crew, run_crew};
use campaign::{Campaign, Extend};
use campaign_core::{Job, Work};
use ra_base::{OutOfMemory, Pause};
use std::alloc::Global;
use std::sync::Wait;
use std::thread::Threads;

/// Runs the samples from 0 on, `samples` of them in the first round and as many more in each further one, until
/// they are enough or there are `most` of them, and answers their sum. Each job has a worker of its own, which
/// runs up to `block` samples at a time. It may wait for other threads. Where a worker or a report finds no
/// memory there is no sum.
pub fn study<R: Threads + Wait + Sync, W: Work, J: Job<W> + Send, P: Pause + Sync>(
    rt: &R,
    alloc: Global,
    work: W,
    jobs: Vec<J>,
    samples: u32,
    block: u32,
    most: u32,
    pause: &P,
) -> Result<W::Sum, OutOfMemory>
    requires jobs { (1 ≤ length jobs.items) × (length jobs.items ≤ 64) }
    requires serve { All (λ job. J.serves job work) jobs.items }
    requires samples { (1 ≤ samples) × (samples ≤ most) }
    requires most { most ≤ MOST_SAMPLES }
    requires block { (1 ≤ block) × (block ≤ MOST_BLOCK) }
    ensures { IfOk result (IsStudySum W.stands W.is_enough work samples most) }
{
    let Ok((campaign, pass)) = Campaign::open(alloc, work, samples, block) else {
        return Err(OutOfMemory);
    };
    let crew = Crew {
        pass,
        jobs,
        short: false,
    };
    run_rounds(rt, alloc, &campaign, crew, samples, most, pause)
}

// Round after round until the samples are enough or the most.
fn run_rounds<R: Threads + Wait + Sync, W: Work, J: Job<W> + Send, P: Pause + Sync>(
    rt: &R,
    alloc: Global,
    campaign: &Campaign<W>,
    mut crew: Crew<W, J>,
    samples: u32,
    most: u32,
    pause: &P,
) -> Result<W::Sum, OutOfMemory>
    requires pass { IsOf campaign.now crew.pass }
    requires jobs { (1 ≤ length crew.jobs.items) × (length crew.jobs.items ≤ 64) }
    requires serve { All (λ job. J.serves job (work_of campaign.now)) crew.jobs.items }
    requires samples { (1 ≤ samples) × (samples ≤ most) }
    requires most { most ≤ MOST_SAMPLES }
    requires stands { StandsAt 0 samples (pass_of crew.pass) }
    requires made { (pass_of crew.pass).made ≡ 1 }
    ensures { IfOk result (IsStudySum W.stands W.is_enough (work_of campaign.now) samples most) }
{
    let mut goal = samples;
    loop {
        crew = run_round(rt, alloc, campaign, crew, pause);
        if crew.short {
            return Err(OutOfMemory);
        }
        let report = campaign.interim(rt, alloc, &mut crew.pass)?;
        if report.enough || goal == most {
            return Ok(report.sum);
        }
        let more = samples.min(most - goal);
        let Extend::Now { target } = campaign.extend(&mut crew.pass, more) else {
            unreachable!()
        };
        goal = target;
    }
}

// All samples up to the target.
fn run_round<R: Threads + Wait + Sync, W: Work, J: Job<W> + Send, P: Pause + Sync>(
    rt: &R,
    alloc: Global,
    campaign: &Campaign<W>,
    crew: Crew<W, J>,
    pause: &P,
) -> Crew<W, J>
    requires pass { IsOf campaign.now crew.pass }
    requires opening { (pass_of crew.pass).number ≡ 0 }
    requires room { (pass_of crew.pass).made + length crew.jobs.items ≤ u32.MAX }
    requires some { 1 ≤ length crew.jobs.items }
    requires jobs { All (λ job. J.serves job (work_of campaign.now)) crew.jobs.items }
    ensures pass { IsOf campaign.now result.pass }
    ensures stands { result.short ≡ false → (next goal : ℕ)
        → StandsAt next goal (pass_of crew.pass) → StandsAt goal goal (pass_of result.pass) }
    ensures made { (pass_of result.pass).made ≡ (pass_of crew.pass).made + length crew.jobs.items }
    ensures many { length result.jobs.items ≡ length crew.jobs.items }
    ensures jobs { All (λ job. J.serves job (work_of campaign.now)) result.jobs.items }
{
    let Crew {
        pass,
        jobs,
        short: _,
    } = crew;
    run_crew(rt, alloc, campaign, pass, jobs, pause)
}
