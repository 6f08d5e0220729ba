ghost use Rattle.std.specs.Prelude.{◌≡◌, IfSome};
ghost use Rattle.sample_totals.specs.Estimates.{IsPrecision};

use campaign_core::Work;
use ra_base::OutOfMemory;
use sample_totals::{Part, Totals};
use std::alloc::Global;
use std::marker::Model;
use system_model::System;

/// Work over the samples of a system under a seed. The sum of samples is the totals of their runs, and whether
/// samples are enough is told by their unserved energy.
#[derive(Drop)]
pub struct SampleWork<'a> {
    system: &'a System,
    seed: u64,
    precision: Option<u16>,
}

impl<'a> Model for SampleWork<'a> {
    ghost use Rattle.std.specs.Prelude.{IfSome};
    ghost use Rattle.sample_totals.specs.Estimates.{IsPrecision};
    ghost use Rattle.sample_run.specs.SampleWorks.{WorkTerms};

    ghost Value = { WorkTerms };

    ghost view = { λ w. record {
      system = w.system.now;
      seed = w.seed;
      precision = w.precision;
    } };

    ghost invariant = { λ w. IfSome w.precision IsPrecision };
}

impl<'a> SampleWork<'a> {
    /// The work over a system's samples under a seed. Samples are enough at a precision in thousandths of the
    /// mean of their unserved energy, from 1 to 1000; without one any number of samples is enough.
    pub fn new(system: &'a System, seed: u64, precision: Option<u16>) -> SampleWork<'a>
        requires { IfSome precision IsPrecision }
        ensures { result ≡ record { system = system.now; seed = seed; precision = precision } }
    {
        SampleWork {
            system,
            seed,
            precision,
        }
    }
}

impl<'a> Work for SampleWork<'a> {
    ghost use Rattle.sample_run.specs.SampleWorks.{StandsFor, are_enough};
    ghost use Rattle.sample_run.specs.SameSamples.{stands_same, enough_same};

    type Sum = Totals;

    ghost stands = { λ work sum ranges. StandsFor work.system work.seed sum ranges };

    ghost is_enough = { λ work ranges. are_enough work.system work.seed work.precision ranges };

    fn empty(&self, alloc: Global) -> Result<Totals, OutOfMemory> {
        Totals::new(alloc, self.system.zones())
    }

    fn merge(&self, into: &mut Totals, more: &Totals) -> Result<(), OutOfMemory> {
        into.merge(more)
    }

    fn copy(&self, alloc: Global, sum: &Totals) -> Result<Totals, OutOfMemory> {
        sum.copy(alloc)
    }

    fn enough(&self, sum: &Totals) -> bool {
        let energy = sum.part(Part::Unserved);
        sample_totals::enough(energy, sum.samples(), self.precision)
    }

    ghost stands_by_samples = { λ work sum xs ys same s. stands_same work.system work.seed sum xs ys same s };

    ghost enough_by_samples = { λ work xs ys same.
        enough_same work.system work.seed work.precision xs ys same };
}
