ghost use Rattle.std.specs.Prelude.{◌≡◌, ◌≤◌, ◌∷◌, [], true, IfOk, IfErr, OnErr};
ghost use Rattle.ra_base.specs.declared.limits.TheConstants.{MOST_SAMPLES};
ghost use Rattle.campaign_core.specs.declared.call.Call.{Call};
ghost use Rattle.campaign_core.specs.declared.call.Reply.{Reply};
ghost use Rattle.campaign_core.specs.Ranges.{has_range, AreDisjoint};
ghost use Rattle.campaign_core.specs.History.{deposits_of, out_of, ranges_of};
ghost use Rattle.turn_book.specs.Views.{IsSameSeat};
ghost use Rattle.campaign.specs.Passes.{pass_of, work_of, IsOf, Claims, Extends, HasOut, Saw, Says};

use crate::book::Book;
use crate::campaign::{Pass, Shared};
use campaign_core::{Call, Done, Gate, Run, Share, Work};
use ra_base::OutOfMemory;
use ra_base::limits::MOST_SAMPLES;
use std::sync::Wait;

/// The answer to a claim.
#[derive(Debug)]
pub enum Claim {
    /// The campaign is cancelled.
    Cancelled,
    /// The campaign is sealed, and all samples up to its target were given out.
    Drained,
    /// All samples up to the target were given out; an extension may add some.
    Idle,
    /// The samples of this share are to be run.
    Range(Share),
    /// Between the look at the gate and the exchange another call changed it. Nothing was asked.
    Moved { before: Gate, after: Gate },
}

/// The answer to an extension.
#[derive(Clone, Copy, Debug, PartialEq, Eq)]
pub enum Extend {
    /// The campaign is cancelled.
    Cancelled,
    /// The campaign is sealed.
    Sealed,
    /// The target, in samples, would pass the most that a study may have. It stays.
    TooMany { target: u32 },
    /// The new target, in samples.
    Now { target: u32 },
    /// Between the look at the gate and the exchange another call changed it. Nothing was asked.
    Moved { before: Gate, after: Gate },
}

impl<W: Work> Shared<Book<W>, W> {
    /// Asks for samples to run: at most a block of them, of which none was given before, to whatever pass. It
    /// waits for nobody and takes no memory.
    pub fn claim(&self, pass: &mut Pass<W>) -> Claim
        requires { IsOf self.now pass.old }
        ensures pass { IsOf self.now pass.new }
        ensures claimed { Claims (pass_of pass.old) result (pass_of pass.new) }
        ensures out { HasOut result (pass_of pass.new) }
        ensures apart { AreDisjoint (ranges_of (pass_of pass.new).seen) }
        ensures same { IsSameSeat (pass_of pass.old) (pass_of pass.new) }
    {
        let before = self.book.look(&mut pass.seat, Call::Claim);
        if before.cancelled {
            return Claim::Cancelled;
        }
        if before.next == before.target {
            return if before.sealed {
                Claim::Drained
            } else {
                Claim::Idle
            };
        }
        let first = before.next;
        let count = self.block.min(before.target - first);
        let next = Gate {
            next: first + count,
            ..before
        };
        match self.book.swap_gate(&mut pass.seat, before, next) {
            Ok(()) => Claim::Range(Share::of(first, count)),
            Err(after) => Claim::Moved { before, after },
        }
    }

    /// Asks for `more` samples behind the target. It waits for nobody and takes no memory.
    pub fn extend(&self, pass: &mut Pass<W>, more: u32) -> Extend
        requires pass { IsOf self.now pass.old }
        requires more { (1 ≤ more) × (more ≤ MOST_SAMPLES) }
        ensures pass { IsOf self.now pass.new }
        ensures extended { Extends (pass_of pass.old) more result (pass_of pass.new) }
        ensures same { IsSameSeat (pass_of pass.old) (pass_of pass.new) }
    {
        let before = self.book.look(&mut pass.seat, Call::Extend { more });
        if before.cancelled {
            return Extend::Cancelled;
        }
        if before.sealed {
            return Extend::Sealed;
        }
        let target = before.target + more;
        if target > MOST_SAMPLES {
            return Extend::TooMany {
                target: before.target,
            };
        }
        let next = Gate { target, ..before };
        match self.book.swap_gate(&mut pass.seat, before, next) {
            Ok(()) => Extend::Now { target },
            Err(after) => Extend::Moved { before, after },
        }
    }

    /// Seals the campaign, also where it is sealed: no extension is taken any more.
    pub fn seal(&self, pass: &mut Pass<W>)
        requires { IsOf self.now pass.old }
        ensures pass { IsOf self.now pass.new }
        ensures sealed { Says (pass_of pass.old) Call.Seal Reply.Marked (pass_of pass.new) }
        ensures same { IsSameSeat (pass_of pass.old) (pass_of pass.new) }
    {
        self.book.mark_sealed(&mut pass.seat);
    }

    /// Cancels the campaign, also where it is cancelled: no samples are given out any more. Deposits are
    /// still taken.
    pub fn cancel(&self, pass: &mut Pass<W>)
        requires { IsOf self.now pass.old }
        ensures pass { IsOf self.now pass.new }
        ensures cancelled { Says (pass_of pass.old) Call.Cancel Reply.Marked (pass_of pass.new) }
        ensures same { IsSameSeat (pass_of pass.old) (pass_of pass.new) }
    {
        self.book.mark_cancelled(&mut pass.seat);
    }

    /// How far the campaign is: one load of the gate.
    pub fn progress(&self, pass: &mut Pass<W>) -> Gate
        requires { IsOf self.now pass.old }
        ensures pass { IsOf self.now pass.new }
        ensures asked { Says (pass_of pass.old) Call.Progress (Reply.Progress result) (pass_of pass.new) }
        ensures same { IsSameSeat (pass_of pass.old) (pass_of pass.new) }
    {
        self.book.look(&mut pass.seat, Call::Progress)
    }

    /// Enters what a share came to, and answers the number of deposits. It may wait for the pass that has the
    /// book. Without memory the same share and sum come back, and the share is still out.
    pub fn deposit<R: Wait>(
        &self,
        rt: &R,
        pass: &mut Pass<W>,
        done: Done<W>,
    ) -> Result<u32, (Done<W>, OutOfMemory)>
        requires pass { IsOf self.now pass.old }
        requires out { has_range (out_of (pass_of pass.old).calls) done.share ≡ true }
        requires sum { W.stands (work_of self.now) done.sum (done.share ∷ []) }
        ensures pass { IsOf self.now pass.new }
        ensures made { IfOk result (λ number. Says (pass_of pass.old)
            (Call.Deposit done.share.first done.share.count) (Reply.Deposited number) (pass_of pass.new)) }
        ensures once { AreDisjoint (deposits_of (pass_of pass.new).seen) }
        ensures err { IfErr result (λ e. (e.0.share ≡ done.share) × (e.0.sum ≡ done.sum)) }
        ensures unchanged { OnErr result (Saw (pass_of pass.old) (pass_of pass.new)) }
        ensures same { IsSameSeat (pass_of pass.old) (pass_of pass.new) }
    {
        let (share, sum) = done.into_parts();
        let first = share.first();
        let count = share.count();
        let range = Run {
            first,
            last: first + count - 1,
        };
        let mut held = self.book.take(rt, &mut pass.seat);
        match held.book_mut().add(&self.work, range, &sum) {
            Ok(()) => {
                share.abandon();
                Ok(self.book.deposit(&mut pass.seat, held, first, count))
            }
            Err(none) => {
                self.book.leave(&mut pass.seat, held);
                Err((Done::of(share, sum), none))
            }
        }
    }
}
