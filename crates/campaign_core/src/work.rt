ghost use Rattle.std.specs.Prelude.{◌≡◌, ◌<◌, Bool, List, [], ◌∷◌, ◌++◌, IfOk, IfErr, OnOk, OnErr, ◌↔◌};
ghost use Rattle.campaign_core.specs.declared.run.SampleRange.{SampleRange};
ghost use Rattle.campaign_core.specs.Ranges.{AreSame, AreDisjoint, total};

use crate::Share;
use ra_base::OutOfMemory;
use std::alloc::Global;

/// Work over numbered samples, of which ranges are done apart and their sums merged.
///
/// Two meanings depend on the work's value: for which ranges a sum stands, and whether ranges are enough. The
/// order of ranges and their cutting matter to neither.
pub trait Work: Drop + Send + Sync {
    type Sum: Drop + Send;

    /// A sum stands for ranges of samples.
    ghost stands: { Self → Self.Sum → List SampleRange → Type 0 };

    /// Whether these ranges are enough.
    ghost is_enough: { Self → List SampleRange → Bool };

    /// The sum of no range.
    fn empty(&self, alloc: Global) -> Result<Self::Sum, OutOfMemory>
        ensures { IfOk result (λ sum. stands self.now sum []) };

    /// Adds a sum to another. Without memory it stands for what it stood for.
    fn merge(&self, into: &mut Self::Sum, more: &Self::Sum) -> Result<(), OutOfMemory>
        requires { (xs : List SampleRange) × (ys : List SampleRange)
            × stands self.now into.old xs × stands self.now more.now ys × AreDisjoint (xs ++ ys) }
        ensures both { OnOk result ((xs ys : List SampleRange) → AreDisjoint (xs ++ ys)
            → stands self.now into.old xs → stands self.now more.now ys
            → stands self.now into.new (xs ++ ys)) }
        ensures err { OnErr result ((xs : List SampleRange)
            → stands self.now into.old xs → stands self.now into.new xs) };

    /// A second sum that stands for what the first one stands for.
    fn copy(&self, alloc: Global, sum: &Self::Sum) -> Result<Self::Sum, OutOfMemory>
        ensures { IfOk result (λ copy. (xs : List SampleRange)
            → stands self.now sum.now xs → stands self.now copy xs) };

    /// Whether the ranges that a sum stands for are enough.
    fn enough(&self, sum: &Self::Sum) -> bool
        requires { (xs : List SampleRange) × stands self.now sum.now xs × (0 < total (λ sample. 1) xs) }
        ensures { (xs : List SampleRange) → stands self.now sum.now xs → result ≡ is_enough self.now xs };

    ghost stands_by_samples: { (work : Self) (sum : Self.Sum) (xs ys : List SampleRange)
        → AreSame xs ys → stands work sum xs → stands work sum ys };

    ghost enough_by_samples: { (work : Self) (xs ys : List SampleRange)
        → AreSame xs ys → is_enough work xs ≡ is_enough work ys };
}

/// What a share came to: the share and the sum of its samples. It must be spent.
#[derive(Debug)]
pub struct Done<W: Work> {
    pub share: Share,
    pub sum: W::Sum,
}

impl<W: Work> Done<W> {
    pub fn of(share: Share, sum: W::Sum) -> Done<W>
        ensures share { result.share ≡ share }
        ensures sum { result.sum ≡ sum }
    {
        Done { share, sum }
    }

    pub fn into_parts(self) -> (Share, W::Sum)
        ensures share { result.0 ≡ self.share }
        ensures sum { result.1 ≡ self.sum }
    {
        let Done { share, sum } = self;
        (share, sum)
    }

    /// Gives it up: nothing will be deposited for it.
    pub fn abandon(self) {
        let Done { share, sum: _ } = self;
        share.abandon();
    }
}

/// One who does work: it runs the samples of shares.
pub trait Job<W: Work>: Drop {
    /// The job does this work.
    ghost serves: { Self → W → Type 0 };

    /// Runs the samples of a share. Without memory the share comes back.
    fn run(&mut self, alloc: Global, share: Share) -> Result<Done<W>, (Share, OutOfMemory)>
        ensures share { IfOk result (λ done. done.share ≡ share) }
        ensures sum { IfOk result (λ done. (work : W)
            → serves self.old work → W.stands work done.sum (share ∷ [])) }
        ensures err { IfErr result (λ e. e.0 ≡ share) }
        ensures same { (work : W) → (serves self.old work ↔ serves self.new work) };
}

/// A book in which deposits are kept.
pub trait Booked: Drop + Send {
    type Label;

    /// What is written on the book.
    ghost label: { Self → Self.Label };

    /// The book stands for these deposited ranges.
    ghost keeps: { Self → List SampleRange → Type 0 };
}
