ghost use Rattle.std.specs.Prelude.{◌≡◌};

use crate::rule::Turns;
use crate::view::{Opening, View};
use atomic_table::{Seat, Table};
use campaign_core::Booked;
use std::alloc::Global;

/// Two words and a book that callers share by reference. Contracts see its opening target, its block and the
/// book that it was opened with, whose label every book has that it lends.
#[derive(Drop)]
pub struct TurnBook<B: Booked> {
    pub(crate) table: Table<Option<B>, View<B>, Opening<B>, Turns<B>, Global>,
    ghost sized: { (table.shared.table_id.words ≡ 2) × (table.shared.table_id.slots ≡ 1) },
}

/// What one caller has seen and done. It may go to another thread.
#[derive(Drop)]
pub struct BookSeat<B> {
    pub(crate) seat: Seat<Option<B>, View<B>>,
    // While the seat holds the book: the turn's word as it was found.
    pub(crate) turn: u64,
}

/// A book that a seat holds. It must be spent by `leave` or `deposit`.
pub struct Held<B> {
    pub(crate) book: B,
}
