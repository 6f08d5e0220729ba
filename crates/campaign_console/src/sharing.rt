//! What the lines of a console and its workers share.
ghost use Rattle.std.specs.Prelude.{◌≡◌, ◌≢◌, ◌+◌, ℕ};
ghost use Rattle.campaign.specs.Passes.{pass_of, work_of, IsOf};
ghost use Rattle.campaign_workers.specs.declared.working.WorkEnd.{WorkEnd};
ghost use Rattle.campaign_workers.specs.Working.{DidWork};
ghost use Rattle.campaign_console.specs.declared.together.Ran.{Ran};
ghost use Rattle.campaign_console.specs.LineEnds.{outside_of, Outside};
ghost use Rattle.campaign_console.specs.Together.{lines_alone, with_worker, HasRoom};

use crate::lines::{LinesEnd, answer_lines};
use campaign::{Campaign, Pass};
use campaign_workers::{WorkEnd, work_on};
use ra_base::{Console, Pause, Sink};
use sample_run::{Runner, SampleWork};
use std::alloc::Global;
use std::sync::Wait;
use system_model::System;

/// A campaign that the lines of a console and workers share. The lines have its opening pass, of the type
/// `K`, and each worker a pass of its own, of the type `M`.
pub(crate) trait Sharing<K, M> {
    /// A pass is the opening one of this campaign.
    ghost keeps: { Self → K → Type 0 };

    /// A pass is a worker's of this campaign.
    ghost owns: { Self → M → Type 0 };

    /// How many passes the opening one made, itself included.
    ghost made: { K → ℕ };

    /// The opening pass made a pass for a worker.
    ghost splits: { K → K → M → Type 0 };

    /// A worker worked up to its end.
    ghost worked: { M → WorkEnd → M → Type 0 };

    /// Lines were answered while so many workers ran.
    ghost ran: { Self → ℕ → Ran → Outside → Outside → K → K → Type 0 };

    /// Makes a pass for a worker.
    fn split(&self, pass: &mut K) -> M
        requires pass { keeps self.now pass.old }
        requires room { HasRoom (made pass.old) 1 }
        ensures pass { keeps self.now pass.new }
        ensures other { owns self.now result }
        ensures made { made pass.new ≡ made pass.old + 1 }
        ensures splits { splits pass.old pass.new result };

    /// Works until the campaign is cancelled, or sealed and all its samples given out.
    fn work<R: Wait>(&self, rt: &R, alloc: Global, pass: &mut M) -> WorkEnd
        requires { owns self.now pass.old }
        ensures pass { owns self.now pass.new }
        ensures worked { worked pass.old result pass.new };

    /// Answers lines up to an end.
    fn answer<R: Wait, C: Console, O: Sink>(
        &self,
        rt: &R,
        alloc: Global,
        pass: &mut K,
        lines: &mut C,
        out: &mut O,
    ) -> LinesEnd
        requires { keeps self.now pass.old }
        ensures pass { keeps self.now pass.new }
        ensures ran { ran self.now 0 (lines_alone result)
            (outside_of C.left C.answers C.faults O.held O.faults lines.old out.old)
            (outside_of C.left C.answers C.faults O.held O.faults lines.new out.new) pass.old pass.new };

    /// Takes in the pass of a worker that came to its end.
    fn take_in(&self, pass: &mut K, other: M)
        requires pass { keeps self.now pass.old }
        requires other { owns self.now other }
        requires worked { (v : K) × (u : K) × (m : M) × (end : WorkEnd) × splits v u m × worked m end other }
        ensures pass { keeps self.now pass.new }
        ensures ran { (workers : ℕ) (before now : Outside) (some : Ran) (v u : K) (m : M) (end : WorkEnd)
            → splits v u m → worked m end other → ran self.now workers some before now u pass.old
            → ran self.now (workers + 1) (with_worker some end) before now v pass.new };
}

/// The campaign of a console over a system's samples under a seed.
#[derive(Drop)]
pub(crate) struct SharedSamples<'c, 'a, P> {
    pub(crate) campaign: &'c Campaign<SampleWork<'a>>,
    pub(crate) system: &'a System,
    pub(crate) seed: u64,
    pub(crate) pause: &'c P,
}

impl<'c, 'a, P: Pause> Sharing<Pass<SampleWork<'a>>, Pass<SampleWork<'a>>>
    for SharedSamples<'c, 'a, P> {
    ghost use Rattle.std.specs.Prelude.{◌≡◌};
    ghost use Rattle.campaign.specs.Passes.{pass_of, work_of, IsOf};
    ghost use Rattle.campaign_console.specs.Together.{IsSampled, SplitsOff, Worked, HasRan};

    ghost keeps = { λ s pass. IsOf s.campaign.now pass × ((pass_of pass).number ≡ 0)
        × IsSampled (work_of s.campaign.now) s.system.now s.seed };

    ghost owns = { λ s pass. IsOf s.campaign.now pass
        × IsSampled (work_of s.campaign.now) s.system.now s.seed };

    ghost made = { λ pass. (pass_of pass).made };

    ghost splits = { λ v u m. SplitsOff (pass_of v) (pass_of u) (pass_of m) };

    ghost worked = { λ m end n. Worked (pass_of m) end (pass_of n) };

    ghost ran = { λ s workers ran before now v w.
        HasRan (work_of s.campaign.now) workers ran before now (pass_of v) (pass_of w) };

    fn split(&self, pass: &mut Pass<SampleWork<'a>>) -> Pass<SampleWork<'a>> {
        self.campaign.split_pass(pass)
    }

    fn work<R: Wait>(&self, rt: &R, alloc: Global, pass: &mut Pass<SampleWork<'a>>) -> WorkEnd {
        run_worker(
            rt,
            alloc,
            self.campaign,
            pass,
            self.system,
            self.seed,
            self.pause,
        )
    }

    fn answer<R: Wait, C: Console, O: Sink>(
        &self,
        rt: &R,
        alloc: Global,
        pass: &mut Pass<SampleWork<'a>>,
        lines: &mut C,
        out: &mut O,
    ) -> LinesEnd {
        answer_lines(rt, alloc, self.campaign, pass, self.system, lines, out)
    }

    fn take_in(&self, pass: &mut Pass<SampleWork<'a>>, other: Pass<SampleWork<'a>>) {
        self.campaign.join_pass(pass, other);
    }
}

// Runs samples until the campaign is cancelled, or sealed and all its samples given out. Without memory for
// that it cancels.
fn run_worker<'a, R: Wait, P: Pause>(
    rt: &R,
    alloc: Global,
    campaign: &Campaign<SampleWork<'a>>,
    pass: &mut Pass<SampleWork<'a>>,
    system: &'a System,
    seed: u64,
    pause: &P,
) -> WorkEnd
    requires pass { IsOf campaign.now pass.old }
    requires system { (work_of campaign.now).system ≡ system.now }
    requires seed { (work_of campaign.now).seed ≡ seed }
    ensures pass { IsOf campaign.now pass.new }
    ensures work { DidWork (pass_of pass.old) result (pass_of pass.new) }
    ensures busy { result ≢ WorkEnd.Idle }
{
    match Runner::new(alloc, system, seed) {
        Ok(mut runner) => work_on(rt, alloc, campaign, pass, &mut runner, pause, true),
        Err(_none) => {
            campaign.cancel(pass);
            WorkEnd::OutOfMemory
        }
    }
}
