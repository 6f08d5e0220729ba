//! A console: lines are answered while workers run, and then the final report is written.
ghost use Rattle.std.specs.Prelude.{◌≡◌, ◌≤◌, ◌+◌, length, map};
ghost use Rattle.ra_base.specs.declared.limits.TheConstants.{MOST_WORKERS};
ghost use Rattle.campaign_core.specs.Ranges.{samples_of, runs_of};
ghost use Rattle.campaign_core.specs.History.{gate_of, deposits_of};
ghost use Rattle.system_model.specs.System.{zone_count};
ghost use Rattle.sample_run.specs.SampleWorks.{StandsFor};
ghost use Rattle.report_text.specs.GateText.{interim_text};
ghost use Rattle.campaign.specs.Passes.{block_of, pass_of, target_of, work_of, IsFirst, IsOf, IsWhole};
ghost use Rattle.campaign_console.specs.LineEnds.{outside_of};
ghost use Rattle.campaign_console.specs.Together.{HasRan};
ghost use Rattle.campaign_console.specs.Ends.{Closes, ClosesRan, EndsAs};

use crate::lines::LinesEnd;
use crate::sharing::SharedSamples;
use crate::together::{Ran, run_together};
use campaign::{Campaign, Finished, Pass};
use ra_base::{Console, Pause, Sink, Text};
use report_text::put_interim;
use sample_run::SampleWork;
use std::alloc::Global;
use std::sync::Wait;
use std::thread::Threads;
use system_model::System;

/// How a console ended.
#[derive(Clone, Copy, Debug, PartialEq, Eq)]
pub enum ConsoleEnd {
    /// All lines were read, and the final report was written.
    Finished,
    /// The same, and a line cancelled the campaign.
    Cancelled,
    /// A read failed.
    ReadFault,
    /// The write of an answer or of the final report failed.
    WriteFault,
    /// A line, a worker or the final report found no memory.
    OutOfMemory,
}

/// How a console ended, and what its campaign came to.
#[derive(Drop)]
pub struct ConsoleDone<'a> {
    pub end: ConsoleEnd,
    pub finished: Finished<SampleWork<'a>>,
}

/// Answers the lines of a console by calls of the campaign's opening pass, while so many workers run its
/// samples with passes of their own. At the end of the lines it seals the campaign; at a fault or want of
/// memory before that it cancels it and reads no more. Then the workers end, and unless there was a fault or
/// want of memory the final report is written. Want of memory stands before any other end. It may wait for
/// its workers.
pub fn console<'a, R: Threads + Wait + Sync, C: Console + Send, O: Sink + Send, P: Pause + Sync>(
    rt: &R,
    alloc: Global,
    campaign: Campaign<SampleWork<'a>>,
    mut pass: Pass<SampleWork<'a>>,
    system: &'a System,
    seed: u64,
    workers: u8,
    lines: &mut C,
    out: &mut O,
    pause: &P,
) -> ConsoleDone<'a>
    requires pass { IsOf campaign pass }
    requires first { IsFirst (target_of campaign) (block_of campaign) (pass_of pass) }
    requires system { (work_of campaign).system ≡ system.now }
    requires seed { (work_of campaign).seed ≡ seed }
    requires workers { (1 ≤ workers) × (workers ≤ MOST_WORKERS) }
    // What the last pass has seen is the campaign's one history.
    ensures whole { IsWhole (pass_of result.finished.last.value) }
    ensures target { (pass_of result.finished.last.value).target ≡ target_of campaign.entry }
    ensures block { (pass_of result.finished.last.value).block ≡ block_of campaign.entry }
    ensures joined { ((pass_of result.finished.last.value).made ≡ workers + 1)
        × (length (pass_of result.finished.last.value).joined ≡ workers) }
    ensures work { result.finished.work ≡ work_of campaign.entry }
    ensures gate { result.finished.gate
        ≡ gate_of (target_of campaign.entry) (pass_of result.finished.last.value).seen }
    ensures runs { result.finished.runs ≡ runs_of (deposits_of (pass_of result.finished.last.value).seen) }
    ensures sum { StandsFor (work_of campaign.entry).system (work_of campaign.entry).seed
        result.finished.sum (map samples_of result.finished.runs) }
    // What stands at the end, by that history.
    ensures ends { EndsAs result.end (work_of campaign.entry)
        (outside_of C.left C.answers C.faults O.held O.faults lines.old out.old)
        (outside_of C.left C.answers C.faults O.held O.faults lines.new out.new)
        (pass_of result.finished.last.value) }
{
    let ran = run_shared(
        rt, alloc, &campaign, &mut pass, system, seed, workers, lines, out, pause,
    );
    let Ok(finished) = campaign.finish(pass) else {
        unreachable!()
    };
    let end = close(alloc, system, ran, &finished, out);
    ConsoleDone { end, finished }
}

// The lines are answered while the workers run.
fn run_shared<'a, R: Threads + Wait + Sync, C: Console + Send, O: Sink + Send, P: Pause + Sync>(
    rt: &R,
    alloc: Global,
    campaign: &Campaign<SampleWork<'a>>,
    pass: &mut Pass<SampleWork<'a>>,
    system: &'a System,
    seed: u64,
    workers: u8,
    lines: &mut C,
    out: &mut O,
    pause: &P,
) -> Ran
    requires pass { IsOf campaign.now pass.old }
    requires opening { (pass_of pass.old).number ≡ 0 }
    requires made { (pass_of pass.old).made ≡ 1 }
    requires system { (work_of campaign.now).system ≡ system.now }
    requires seed { (work_of campaign.now).seed ≡ seed }
    ensures pass { IsOf campaign.now pass.new }
    ensures opening { (pass_of pass.new).number ≡ 0 }
    ensures ran { HasRan (work_of campaign.now) workers result
        (outside_of C.left C.answers C.faults O.held O.faults lines.old out.old)
        (outside_of C.left C.answers C.faults O.held O.faults lines.new out.new)
        (pass_of pass.old) (pass_of pass.new) }
{
    let shared = SharedSamples {
        campaign,
        system,
        seed,
        pause,
    };
    run_together(rt, alloc, &shared, pass, workers, lines, out)
}

// How the console ends, with the final report where all lines were read and no worker was short of memory.
fn close<'a, O: Sink>(
    alloc: Global,
    system: &System,
    ran: Ran,
    finished: &Finished<SampleWork<'a>>,
    out: &mut O,
) -> ConsoleEnd
    requires zones { length finished.now.sum.zones ≡ zone_count system.now }
    ensures { ClosesRan ran.short ran.lines result finished.now.gate.cancelled
        (O.held out.old) (O.held out.new) (O.faults out.old) (O.faults out.new)
        (interim_text system.now.zone_names finished.now.gate finished.now.runs finished.now.sum) }
{
    if ran.short {
        return ConsoleEnd::OutOfMemory;
    }
    match ran.lines {
        LinesEnd::AllRead => write_final(alloc, system, finished, out),
        LinesEnd::ReadFault => ConsoleEnd::ReadFault,
        LinesEnd::WriteFault => ConsoleEnd::WriteFault,
        LinesEnd::OutOfMemory => ConsoleEnd::OutOfMemory,
    }
}

// Writes the final report.
fn write_final<'a, O: Sink>(
    alloc: Global,
    system: &System,
    finished: &Finished<SampleWork<'a>>,
    out: &mut O,
) -> ConsoleEnd
    requires zones { length finished.now.sum.zones ≡ zone_count system.now }
    ensures { Closes result finished.now.gate.cancelled
        (O.held out.old) (O.held out.new) (O.faults out.old) (O.faults out.new)
        (interim_text system.now.zone_names finished.now.gate finished.now.runs finished.now.sum) }
{
    let mut text = Text::new(alloc);
    if put_interim(
        &mut text,
        system,
        finished.gate,
        &finished.runs,
        &finished.sum,
    )
    .is_err()
    {
        return ConsoleEnd::OutOfMemory;
    }
    if out.write(text.bytes()).is_err() {
        return ConsoleEnd::WriteFault;
    }
    if finished.gate.cancelled {
        ConsoleEnd::Cancelled
    } else {
        ConsoleEnd::Finished
    }
}
