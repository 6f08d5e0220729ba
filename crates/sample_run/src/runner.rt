ghost use Rattle.std.specs.Prelude.{◌≡◌, ◌<◌, IfOk, OnOk, IfErr, List, length, map};
ghost use Rattle.std.specs.Borrow.{sem};
ghost use Rattle.system_model.specs.System.{zone_count, hour_count};
ghost use Rattle.sample_run.specs.Trace.{place_of, hour_of, is_refusal, HasLines, HasBroken, CountsAt};
ghost use Rattle.sample_totals.specs.declared.outcomes.HourOutcome.{HourOutcome};
ghost use Rattle.sample_run.specs.Run.{IsRun, IsLeast, HasFigures};

use crate::hours::Hours;
use crate::traces::{TraceError, give_hour};
use ra_base::OutOfMemory;
use sample_totals::{Recorder, SampleResult};
use std::alloc::Global;
use std::marker::Model;
use system_model::System;

/// Runs samples of a system under a seed. Each sample has exactly one run, whatever ran before it.
#[derive(Drop)]
pub struct Runner<'a> {
    hours: Hours<'a>,
    result: SampleResult,
}

impl<'a> Model for Runner<'a> {
    ghost use Rattle.sample_run.specs.Run.{Simulation};
    ghost use Rattle.sample_run.specs.Ready.{IsReady};

    ghost Value = { Simulation };

    ghost view = { λ r. record { system = r.hours.system; seed = r.hours.seed } };

    ghost invariant = { λ r. IsReady r.hours.system r.result };
}

impl<'a> Runner<'a> {
    ghost use Rattle.sample_run.specs.Keeps.{Keeps};

    /// A runner of a system. Only this call takes memory.
    pub fn new(alloc: Global, system: &'a System, seed: u64) -> Result<Runner<'a>, OutOfMemory>
        ensures { IfOk result (λ r. r ≡ record { system = system.now; seed = seed }) }
    {
        Ok(Runner {
            hours: Hours::new(alloc, system, seed)?,
            result: SampleResult::new(alloc, system.zones(), system.hours())?,
        })
    }

    /// Runs a sample, and answers what it came to. It takes no memory.
    pub fn run(&mut self, sample: u32) -> &SampleResult
        ensures* keeps { sem 𝓛 (Keeps self.entry) }
        // The sample has one run, and these are its figures.
        ensures figures { HasFigures self.old.system self.old.seed sample result.now.figures }
        ensures zones { length result.now.figures.zones ≡ zone_count self.old.system }
        // In each of its hours no feasible dispatch leaves less load unserved.
        ensures hours { (run : List HourOutcome) → IsRun self.old.system self.old.seed sample run
            → IsLeast self.old.system self.old.seed sample run }
    {
        let hours = self.hours.count();
        self.hours.start(sample);
        self.result.clear();
        self.result.add_hour(self.hours.outcome());
        for _hour in 1..hours {
            self.hours.next();
            self.result.add_hour(self.hours.outcome());
        }
        &self.result
    }

    /// Goes through the hours of a sample, and gives each to the recorders, in their order. At an error the
    /// recorders before its place have their lines for the hours up to its hour, and the others those for
    /// the hours before it. Only the recorders may take memory.
    pub fn trace<R: Recorder>(&mut self, sample: u32, recorders: &mut [R]) -> Result<(), TraceError>
        ensures runner { self.new ≡ self.old }
        // Each recorder gains its lines for the hours of the sample's one run. In each of these hours no
        // feasible dispatch leaves less load unserved.
        ensures ok { OnOk result (HasLines self.old.system self.old.seed sample
            (map R.seen recorders.old) (map R.seen recorders.new)) }
        ensures ok_counts { OnOk result (map R.refusals recorders.new ≡ map R.refusals recorders.old) }
        ensures err { IfErr result (λ e.
            HasBroken self.old.system self.old.seed sample (place_of e) (hour_of e)
            (map R.seen recorders.old) (map R.seen recorders.new)) }
        ensures err_place { IfErr result (λ e. place_of e < length recorders.old) }
        ensures err_hour { IfErr result (λ e. hour_of e < hour_count self.old.system) }
        ensures err_counts { IfErr result (λ e. CountsAt (place_of e) (is_refusal e)
            (map R.refusals recorders.old) (map R.refusals recorders.new)) }
    {
        let hours = self.hours.count();
        self.hours.start(sample);
        give_hour(self.hours.outcome(), recorders)?;
        for _hour in 1..hours {
            self.hours.next();
            give_hour(self.hours.outcome(), recorders)?;
        }
        Ok(())
    }

    /// How many zones the system has.
    pub(crate) fn zones(&self) -> u8
        ensures { result ≡ zone_count self.now.system }
    {
        self.hours.zones()
    }
}
