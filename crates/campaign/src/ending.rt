ghost use Rattle.std.specs.Prelude.{◌≡◌, ◌+◌, ◌<◌, IfOk, IfErr, length, map};
ghost use Rattle.campaign_core.specs.Ranges.{runs_of, samples_of};
ghost use Rattle.campaign_core.specs.History.{gate_of, deposits_of};
ghost use Rattle.campaign.specs.Passes.{pass_of, work_of, IsOf, IsWhole};

use crate::book::Book;
use crate::campaign::{Campaign, Counted, Pass, Shared};
use campaign_core::{Gate, Runs, Work};
use std::snapshot::Snapshot;
use turn_book::Closed;

/// What a campaign came to. What its last pass has seen is the whole history.
#[derive(Drop)]
pub struct Finished<W: Work> {
    pub work: W,
    pub gate: Gate,
    pub runs: Runs,
    /// The sum of the samples of the runs.
    pub sum: W::Sum,
    pub last: Snapshot<Pass<W>>,
}

/// A campaign of which a pass wasn't joined.
#[derive(Drop)]
pub struct NotFinished<W: Work> {
    pub campaign: Campaign<W>,
    pub pass: Pass<W>,
    /// How many passes were made, the opening one included.
    pub made: u32,
    /// How many passes the opening one is, those that it took in included.
    pub joined: u32,
}

impl<W: Work> Shared<Book<W>, W> {
    /// Ends the campaign of the opening pass, where it took in all others. It waits for nobody.
    pub fn finish(self, pass: Pass<W>) -> Result<Finished<W>, NotFinished<W>>
        requires pass { IsOf self pass }
        requires opening { (pass_of pass).number ≡ 0 }
        ensures last { IfOk result (λ end. end.last.value ≡ pass) }
        ensures all { IfOk result (λ end. length (pass_of pass).joined + 1 ≡ (pass_of pass).made) }
        ensures whole { IfOk result (λ end. IsWhole (pass_of pass)) }
        ensures work { IfOk result (λ end. end.work ≡ work_of self) }
        ensures gate { IfOk result (λ end. end.gate ≡ gate_of (pass_of pass).target (pass_of pass).seen) }
        ensures runs { IfOk result (λ end. end.runs ≡ runs_of (deposits_of (pass_of pass).seen)) }
        ensures sum { IfOk result (λ end. W.stands (work_of self) end.sum (map samples_of end.runs)) }
        ensures back { IfErr result (λ e. (e.campaign ≡ self) × (e.pass ≡ pass)) }
        ensures counts { IfErr result (λ e. (e.made ≡ (pass_of pass).made)
            × (e.joined ≡ length (pass_of pass).joined + 1) × (e.joined < e.made)) }
    {
        if pass.joined < pass.made {
            let made = pass.made;
            let joined = pass.joined;
            return Err(NotFinished {
                campaign: self,
                pass,
                made,
                joined,
            });
        }
        let last = Snapshot::of(&pass);
        let Shared {
            book,
            work,
            block: _,
        } = self;
        let Counted {
            seat,
            made: _,
            joined: _,
        } = pass;
        let Closed {
            book,
            gate,
            deposits: _,
        } = book.close(seat);
        let Book {
            work: _,
            ranges,
            sum,
        } = book;
        Ok(Finished {
            work,
            gate,
            runs: Runs::of(ranges),
            sum,
            last,
        })
    }
}
