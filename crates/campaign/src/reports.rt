ghost use Rattle.std.specs.Prelude.{◌≡◌, IfOk, OnErr, map};
ghost use Rattle.campaign_core.specs.declared.call.Call.{Call};
ghost use Rattle.campaign_core.specs.declared.call.Reply.{Reply};
ghost use Rattle.campaign_core.specs.Ranges.{samples_of};
ghost use Rattle.turn_book.specs.Views.{IsSameSeat};
ghost use Rattle.campaign.specs.Passes.{is_enough_of, pass_of, work_of, IsOf, Saw, Says};

use crate::book::Book;
use crate::campaign::{Pass, Shared};
use campaign_core::{Call, Gate, Runs, Work};
use ra_base::OutOfMemory;
use std::alloc::Global;
use std::sync::Wait;

/// What was deposited so far.
#[derive(Drop)]
pub struct Interim<W: Work> {
    pub gate: Gate,
    pub runs: Runs,
    /// The sum of the samples of the runs.
    pub sum: W::Sum,
    /// Whether these samples are enough. No sample is never enough.
    pub enough: bool,
}

impl<W: Work> Shared<Book<W>, W> {
    /// Reports what was deposited so far, all at one point of the history. It may wait for the pass that has
    /// the book. Without memory no report was made.
    pub fn interim<R: Wait>(
        &self,
        rt: &R,
        alloc: Global,
        pass: &mut Pass<W>,
    ) -> Result<Interim<W>, OutOfMemory>
        requires { IsOf self.now pass.old }
        ensures pass { IsOf self.now pass.new }
        ensures made { IfOk result (λ report. Says (pass_of pass.old) Call.Interim
            (Reply.Interim report.gate report.runs) (pass_of pass.new)) }
        ensures sum { IfOk result (λ report.
            W.stands (work_of self.now) report.sum (map samples_of report.runs)) }
        ensures enough { IfOk result (λ report.
            report.enough ≡ is_enough_of W.is_enough (work_of self.now) report.runs) }
        ensures err { OnErr result (Saw (pass_of pass.old) (pass_of pass.new)) }
        ensures same { IsSameSeat (pass_of pass.old) (pass_of pass.new) }
    {
        let held = self.book.take(rt, &mut pass.seat);
        match held.book().copies(alloc, &self.work) {
            Ok((list, sum)) => {
                let gate = self.book.look(&mut pass.seat, Call::Interim);
                self.book.leave(&mut pass.seat, held);
                let runs = Runs::of(list);
                let enough = !runs.is_empty() && self.work.enough(&sum);
                Ok(Interim {
                    gate,
                    runs,
                    sum,
                    enough,
                })
            }
            Err(none) => {
                self.book.leave(&mut pass.seat, held);
                Err(none)
            }
        }
    }
}
