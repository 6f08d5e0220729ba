ghost use Rattle.std.specs.Prelude.{◌≡◌, ◌≤◌, ◌<◌, ◌≢◌, ◌++◌, IfOk, IfErr};
ghost use Rattle.ra_base.specs.declared.limits.TheConstants.{MOST_SAMPLES, MOST_BLOCK};
ghost use Rattle.campaign_core.specs.Ranges.{AreDisjoint};
ghost use Rattle.campaign_core.specs.History.{out_of};
ghost use Rattle.turn_book.specs.Views.{newcomer, with_made, TakesIn};
ghost use Rattle.campaign.specs.Passes.{block_of, pass_of, target_of, work_of, HasBoth, IsOf, IsFirst};

use crate::book::Book;
use campaign_core::{Booked, Work};
use ra_base::OutOfMemory;
use std::alloc::Global;
use turn_book::{BookSeat, TurnBook};

/// A campaign that runs. Contracts see its work, its opening target and its block.
pub type Campaign<W> = Shared<Book<W>, W>;

/// What one caller has seen and done. It may go to another thread.
pub type Pass<W> = Counted<Book<W>>;

/// A turn book with the work and the block of a campaign.
#[derive(Drop)]
pub struct Shared<B: Booked, W> {
    pub(crate) book: TurnBook<B>,
    pub(crate) work: W,
    pub(crate) block: u32,
}

/// A seat, with counts of the passes that were made and joined.
#[derive(Drop)]
pub struct Counted<B> {
    pub(crate) seat: BookSeat<B>,
    // Of the opening pass: how many passes were made, itself included.
    pub(crate) made: u32,
    // How many passes this one is, those that it took in included.
    pub(crate) joined: u32,
}

impl<W: Work> Shared<Book<W>, W> {
    /// A campaign of `target` samples that gives out `block` of them at a time, and its opening pass. Without
    /// memory the work comes back.
    pub fn open(
        alloc: Global,
        work: W,
        target: u32,
        block: u32,
    ) -> Result<(Campaign<W>, Pass<W>), (W, OutOfMemory)>
        requires target { (1 ≤ target) × (target ≤ MOST_SAMPLES) }
        requires block { (1 ≤ block) × (block ≤ MOST_BLOCK) }
        ensures pass { IfOk result (λ opened. IsOf opened.0 opened.1) }
        ensures campaign { IfOk result (λ opened. (work_of opened.0 ≡ work)
            × (target_of opened.0 ≡ target) × (block_of opened.0 ≡ block)) }
        ensures first { IfOk result (λ opened. IsFirst target block (pass_of opened.1)) }
        ensures err { IfErr result (λ e. e.0 ≡ work) }
    {
        let Ok(book) = Book::empty(alloc, &work) else {
            return Err((work, OutOfMemory));
        };
        match TurnBook::open(alloc, book, target, block) {
            Ok((book, seat)) => {
                let campaign = Shared { book, work, block };
                let pass = Counted {
                    seat,
                    made: 1,
                    joined: 1,
                };
                Ok((campaign, pass))
            }
            Err((_book, none)) => Err((work, none)),
        }
    }

    /// Makes another pass, which has seen what the opening pass has seen.
    pub fn split_pass(&self, pass: &mut Pass<W>) -> Pass<W>
        requires pass { IsOf self.now pass.old }
        requires opening { (pass_of pass.old).number ≡ 0 }
        requires room { (pass_of pass.old).made < u32.MAX }
        ensures pass { IsOf self.now pass.new }
        ensures other { IsOf self.now result }
        ensures made { pass_of pass.new ≡ with_made (pass_of pass.old) }
        ensures view { pass_of result ≡ newcomer (pass_of pass.old) }
    {
        let seat = self.book.split(&mut pass.seat);
        pass.made += 1;
        Counted {
            seat,
            made: 0,
            joined: 1,
        }
    }

    /// Takes in another pass: its history, its calls, its shares and its numbers.
    pub fn join_pass(&self, keep: &mut Pass<W>, other: Pass<W>)
        requires keep { IsOf self.now keep.old }
        requires other { IsOf self.now other }
        requires opening { (pass_of other).number ≢ 0 }
        ensures keep { IsOf self.now keep.new }
        ensures joined { TakesIn (pass_of keep.old) (pass_of other) (pass_of keep.new) }
        ensures out { HasBoth (pass_of keep.old) (pass_of other) (pass_of keep.new) }
        ensures apart { AreDisjoint (out_of (pass_of keep.old).calls ++ out_of (pass_of other).calls) }
    {
        let Counted {
            seat,
            made: _,
            joined,
        } = other;
        self.book.join(&mut keep.seat, seat);
        keep.joined = keep.joined.saturating_add(joined);
    }
}
