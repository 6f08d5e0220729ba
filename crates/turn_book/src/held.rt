ghost use Rattle.std.specs.Prelude.{◌≡◌};
ghost use Rattle.std.specs.Borrow.{Lends, sem};
ghost use Rattle.turn_book.specs.contracts.seats.Held.{the_row};
ghost use Rattle.turn_book.specs.Seated.{held_book, with_book};

use crate::seats::Held;

impl<B> Held<B> {
    /// The book that is held.
    pub fn book(&self) -> &B
        ensures { result.now ≡ held_book self.now }
    {
        &self.book
    }

    /// The same, to be changed. When the borrow ends, what was written through it is held.
    pub fn book_mut(&mut self) -> &mut B
        ensures* writes_back { sem 𝓛 (Lends (the_row B.row) B.row self.entry result (with_book self.old)) }
        ensures value { result.now ≡ held_book self.old }
    {
        &mut self.book
    }
}
