ghost use Rattle.std.specs.Prelude.{◌≡◌, ◌≤◌, ◌∷◌, ◌++◌, [], List, IfOk, OnOk, OnErr};
ghost use Rattle.campaign_core.specs.declared.run.SampleRange.{SampleRange};
ghost use Rattle.campaign_core.specs.Ranges.{samples_of, AreDisjoint};
ghost use Rattle.campaign.specs.Books.{IsBook};

use campaign_core::{Booked, Run, Work};
use ra_base::OutOfMemory;
use std::alloc::Global;
use std::snapshot::Snapshot;

/// What was deposited: the ranges in order, and their sum.
#[derive(Drop)]
pub struct Book<W: Work> {
    pub(crate) work: Snapshot<W>,
    pub(crate) ranges: Vec<Run>,
    pub(crate) sum: W::Sum,
}

impl<W: Work> Booked for Book<W> {
    ghost use Rattle.campaign.specs.Books.{IsBook};

    type Label = W;

    ghost label = { λ book. book.work.value };

    ghost keeps = { IsBook W.stands };
}

impl<W: Work> Book<W> {
    /// The book of a work in which nothing was deposited.
    pub(crate) fn empty(alloc: Global, work: &W) -> Result<Book<W>, OutOfMemory>
        ensures book { IfOk result (λ book. IsBook W.stands book []) }
        ensures work { IfOk result (λ book. book.work.value ≡ work.now) }
    {
        let sum = work.empty(alloc)?;
        Ok(Book {
            work: Snapshot::of(work),
            ranges: Vec::new(alloc),
            sum,
        })
    }

    /// Enters a range and its sum. Without memory the book stands for what it stood for.
    pub(crate) fn add(&mut self, work: &W, range: Run, sum: &W::Sum) -> Result<(), OutOfMemory>
        requires work { self.old.work.value ≡ work.now }
        requires range { range.first ≤ range.last }
        requires sum { W.stands work.now sum.now (samples_of range ∷ []) }
        requires book { (ranges : List SampleRange) × IsBook W.stands self.old ranges
            × AreDisjoint (ranges ++ samples_of range ∷ []) }
        ensures work { self.new.work.value ≡ self.old.work.value }
        ensures book { OnOk result ((ranges : List SampleRange) → IsBook W.stands self.old ranges
            → AreDisjoint (ranges ++ samples_of range ∷ [])
            → IsBook W.stands self.new (ranges ++ samples_of range ∷ [])) }
        ensures err { OnErr result ((ranges : List SampleRange)
            → IsBook W.stands self.old ranges → IsBook W.stands self.new ranges) }
    {
        self.ranges.reserve(1)?;
        work.merge(&mut self.sum, sum)?;
        self.ranges.push_reserved(range);
        Ok(())
    }

    /// A second list of the ranges, and a second sum.
    pub(crate) fn copies(&self, alloc: Global, work: &W) -> Result<(Vec<Run>, W::Sum), OutOfMemory>
        requires { self.now.work.value ≡ work.now }
        ensures list { IfOk result (λ copies. copies.0.items ≡ self.now.ranges.items) }
        ensures sum { IfOk result (λ copies. (ranges : List SampleRange)
            → IsBook W.stands self.now ranges → W.stands work.now copies.1 ranges) }
    {
        let mut list = Vec::new(alloc);
        list.extend_from_slice(self.ranges.as_slice())?;
        let sum = work.copy(alloc, &self.sum)?;
        Ok((list, sum))
    }
}
