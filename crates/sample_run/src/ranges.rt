ghost use Rattle.std.specs.Prelude.{◌≡◌, ◌+◌, ◌≤◌, [], ◌∷◌, IfOk, IfErr};
ghost use Rattle.ra_base.specs.declared.limits.TheConstants.{MOST_SAMPLES};
ghost use Rattle.campaign_core.specs.Ranges.{range};
ghost use Rattle.sample_run.specs.SampleWorks.{StandsFor};

use crate::{Runner, SampleWork};
use campaign_core::{Done, Job, Share};
use ra_base::OutOfMemory;
use sample_totals::Totals;
use std::alloc::Global;

impl<'a> Runner<'a> {
    /// Runs the samples of a share, and answers the share with their totals. Without memory the share comes
    /// back.
    pub fn run_range(
        &mut self,
        alloc: Global,
        share: Share,
    ) -> Result<Done<SampleWork<'a>>, (Share, OutOfMemory)>
        ensures runner { self.new ≡ self.old }
        ensures share { IfOk result (λ done. done.share ≡ share) }
        // The totals are those of the one run of each of its samples.
        ensures sum { IfOk result (λ done. StandsFor self.old.system self.old.seed done.sum (share ∷ [])) }
        ensures err { IfErr result (λ e. e.0 ≡ share) }
    {
        match self.totals_of(alloc, share.first(), share.count()) {
            Ok(totals) => Ok(Done::of(share, totals)),
            Err(none) => Err((share, none)),
        }
    }

    // The totals of so many samples from one on.
    fn totals_of(&mut self, alloc: Global, first: u32, count: u32) -> Result<Totals, OutOfMemory>
        requires { first + count ≤ MOST_SAMPLES }
        ensures runner { self.new ≡ self.old }
        ensures sum { IfOk result (λ totals. StandsFor self.old.system self.old.seed totals
            (range first count ∷ [])) }
    {
        let mut totals = Totals::new(alloc, self.zones())?;
        for sample in first..first + count {
            totals.add(self.run(sample))?;
        }
        Ok(totals)
    }
}

impl<'a> Job<SampleWork<'a>> for Runner<'a> {
    ghost use Rattle.sample_run.specs.SampleWorks.{IsWorkOf};

    ghost serves = { λ runner work. IsWorkOf runner work };

    fn run(
        &mut self,
        alloc: Global,
        share: Share,
    ) -> Result<Done<SampleWork<'a>>, (Share, OutOfMemory)> {
        self.run_range(alloc, share)
    }
}
