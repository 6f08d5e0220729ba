ghost use Rattle.std.specs.Prelude.{◌≡◌, ◌≢◌, ℕ, ◌+◌, ◌==◌, ◌<◌, ◌≤◌, ◌∷◌, ◌++◌, [], true, false, length, Some, IfOk, IfErr, OnOk, MatchBool};
ghost use Rattle.ra_base.specs.declared.limits.TheConstants.{MOST_SAMPLES, MOST_BLOCK};
ghost use Rattle.campaign_core.specs.declared.call.Call.{Call};
ghost use Rattle.campaign_core.specs.Ranges.{range, has_range};
ghost use Rattle.campaign_core.specs.History.{gate_of, deposits_of, out_of};
ghost use Rattle.turn_book.specs.Words.{IsTurn};
ghost use Rattle.turn_book.specs.Views.{call_between, newcomer, opening_view, with_hold, with_made, Deposits, IsExchange, IsSameSeat, Looks, Makes, MayLook, Sees, Takes, TakesIn};
ghost use Rattle.turn_book.specs.Seated.{IsOf, held_book, opening_of, view_of};

use crate::rule::{
    Asked, Cancels, Exchange, Leave, Look, Mark, Newcomer, Put, Seals, Settle, Take, TakeIn,
};
use crate::seats::{BookSeat, Held, TurnBook};
use crate::view::Opening;
use crate::words::{CANCELLED, SEALED, gate_from, word_of};
use atomic_table::{Refused, Table};
use campaign_core::{Booked, Call, Gate};
use ra_base::OutOfMemory;
use std::alloc::Global;
use std::marker::Brand;
use std::snapshot::Snapshot;
use std::sync::Wait;
use std::thread::yield_now;

/// What a book comes to at its end.
#[derive(Drop)]
pub struct Closed<B> {
    pub book: B,
    pub gate: Gate,
    /// How many deposits there are.
    pub deposits: u32,
}

impl<B: Booked> TurnBook<B> {
    /// A book that stands for no range, for a campaign of `target` samples in blocks of `block`, and the
    /// opening seat. Without memory the book comes back.
    pub fn open(
        alloc: Global,
        book: B,
        target: u32,
        block: u32,
    ) -> Result<(TurnBook<B>, BookSeat<B>), (B, OutOfMemory)>
        requires book { B.keeps book [] }
        requires target { (1 ≤ target) × (target ≤ MOST_SAMPLES) }
        requires block { (1 ≤ block) × (block ≤ MOST_BLOCK) }
        ensures seat { IfOk result (λ opened. IsOf opened.0 opened.1) }
        ensures opening { IfOk result (λ opened. ((opening_of opened.0).target ≡ target)
            × ((opening_of opened.0).block ≡ block) × ((opening_of opened.0).book.value ≡ book)) }
        ensures view { IfOk result (λ opened. view_of opened.1 ≡ opening_view book target block) }
        ensures err { IfErr result (λ e. e.0 ≡ book) }
    {
        let opening = Opening {
            target,
            block,
            book: Snapshot::of(&book),
        };
        let gate = word_of(Gate {
            next: 0,
            target,
            sealed: false,
            cancelled: false,
        });
        let Ok(mut slots) = Vec::with_capacity(alloc, 1) else {
            return Err((book, OutOfMemory));
        };
        slots.push_reserved(Some(book));
        match Table::new(alloc, &[gate, 0], slots, &opening) {
            Ok((table, seat)) => Ok((TurnBook { table }, BookSeat { seat, turn: 0 })),
            Err(Refused { mut slots }) => {
                let Some(Some(book)) = slots.pop() else {
                    unreachable!()
                };
                Err((book, OutOfMemory))
            }
        }
    }

    /// Loads the gate. A call that the gate decides is made there; before a claim that would give a range, or
    /// an extension that would raise the target, the seat sees that gate alone.
    pub fn look(&self, seat: &mut BookSeat<B>, call: Call) -> Gate
        requires seat { IsOf self.now seat.old }
        requires call { MayLook (view_of seat.old) call }
        ensures seat { IsOf self.now seat.new }
        ensures looked { Looks (view_of seat.old) call result (view_of seat.new) }
        ensures same { IsSameSeat (view_of seat.old) (view_of seat.new) }
    {
        self.look_at::<Brand>(seat, call)
    }

    fn look_at<J: Asked>(&self, seat: &mut BookSeat<B>, call: Call) -> Gate
        requires seat { IsOf self.now seat.old }
        requires asked { call ≡ J.call }
        requires call { MayLook (view_of seat.old) call }
        ensures seat { IsOf self.now seat.new }
        ensures looked { Looks (view_of seat.old) call result (view_of seat.new) }
        ensures same { IsSameSeat (view_of seat.old) (view_of seat.new) }
    {
        let word = self.table.shared.load::<Look<J>>(&mut seat.seat, 0);
        gate_from(word)
    }

    /// Exchanges the gate, where it is the old one, for one that follows by a claim or an extension, which is
    /// then made. The other gate comes back where another was found.
    pub fn swap_gate(&self, seat: &mut BookSeat<B>, old: Gate, new: Gate) -> Result<(), Gate>
        requires seat { IsOf self.now seat.old }
        requires step { IsExchange (view_of seat.old).block old new }
        ensures seat { IsOf self.now seat.new }
        ensures made { OnOk result (Makes (view_of seat.old) (call_between old new) old (view_of seat.new)) }
        ensures other { IfErr result (λ other.
            (other ≢ old) × Sees (view_of seat.old) other (view_of seat.new)) }
        ensures same { IsSameSeat (view_of seat.old) (view_of seat.new) }
    {
        self.exchange_gate::<Brand>(seat, old, new)
    }

    fn exchange_gate<J: Asked>(
        &self,
        seat: &mut BookSeat<B>,
        old: Gate,
        new: Gate,
    ) -> Result<(), Gate>
        requires seat { IsOf self.now seat.old }
        requires asked { J.call ≡ call_between old new }
        requires step { IsExchange (view_of seat.old).block old new }
        ensures seat { IsOf self.now seat.new }
        ensures made { OnOk result (Makes (view_of seat.old) (call_between old new) old (view_of seat.new)) }
        ensures other { IfErr result (λ other.
            (other ≢ old) × Sees (view_of seat.old) other (view_of seat.new)) }
        ensures same { IsSameSeat (view_of seat.old) (view_of seat.new) }
    {
        let expected = word_of(old);
        let next = word_of(new);
        let found = self
            .table
            .shared
            .compare_exchange::<Exchange<J>>(&mut seat.seat, 0, expected, next);
        if found == expected {
            return Ok(());
        }
        Err(gate_from(found))
    }

    /// Seals the campaign, also where it is sealed, and answers the gate before.
    pub fn mark_sealed(&self, seat: &mut BookSeat<B>) -> Gate
        requires { IsOf self.now seat.old }
        ensures seat { IsOf self.now seat.new }
        ensures made { Makes (view_of seat.old) Call.Seal result (view_of seat.new) }
        ensures same { IsSameSeat (view_of seat.old) (view_of seat.new) }
    {
        let word = self
            .table
            .shared
            .fetch_or::<Mark<Seals>>(&mut seat.seat, 0, SEALED);
        gate_from(word)
    }

    /// Cancels the campaign, also where it is cancelled, and answers the gate before.
    pub fn mark_cancelled(&self, seat: &mut BookSeat<B>) -> Gate
        requires { IsOf self.now seat.old }
        ensures seat { IsOf self.now seat.new }
        ensures made { Makes (view_of seat.old) Call.Cancel result (view_of seat.new) }
        ensures same { IsSameSeat (view_of seat.old) (view_of seat.new) }
    {
        let word = self
            .table
            .shared
            .fetch_or::<Mark<Cancels>>(&mut seat.seat, 0, CANCELLED);
        gate_from(word)
    }
}

impl<B: Booked> TurnBook<B> {
    /// Takes the book, and sees the whole history. It may wait for the seat that holds the book.
    pub fn take<R: Wait>(&self, rt: &R, seat: &mut BookSeat<B>) -> Held<B>
        requires seat { IsOf self.now seat.old }
        requires free { (view_of seat.old).holds ≡ false }
        ensures seat { IsOf self.now seat.new }
        ensures taken { Takes (view_of seat.old) (view_of seat.new) }
        ensures book { B.keeps (held_book result) (deposits_of (view_of seat.new).seen) }
        ensures label { B.label (held_book result) ≡ B.label (opening_of self.now).book.value }
    {
        let mut turn = 0;
        for _ in rt.forever() {
            match self.try_take(seat, turn) {
                Ok(held) => return held,
                Err(found) => turn = found,
            }
            yield_now();
        }
        unreachable!()
    }

    // Takes the book where the turn has this word, and else answers a word to try next.
    fn try_take(&self, seat: &mut BookSeat<B>, turn: u64) -> Result<Held<B>, u64>
        requires seat { IsOf self.now seat.old }
        requires free { (view_of seat.old).holds ≡ false }
        requires turn { IsTurn turn }
        ensures seat { IsOf self.now seat.new }
        ensures taken { OnOk result (Takes (view_of seat.old) (view_of seat.new)) }
        ensures book { IfOk result (λ held. B.keeps (held_book held) (deposits_of (view_of seat.new).seen)) }
        ensures label { IfOk result (λ held.
            B.label (held_book held) ≡ B.label (opening_of self.now).book.value) }
        ensures other { IfErr result (λ next. IsTurn next × (view_of seat.new ≡ view_of seat.old)) }
    {
        let found = self
            .table
            .shared
            .compare_exchange::<Take>(&mut seat.seat, 1, turn, turn + 1);
        if found != turn {
            return Err(found - found % 2);
        }
        seat.turn = turn;
        let slot = self.table.shared.exchange(&mut seat.seat, 0, None);
        Ok(Held {
            book: slot.unwrap(),
        })
    }

    /// Brings the book home as it stands for the deposits that were found.
    pub fn leave(&self, seat: &mut BookSeat<B>, held: Held<B>)
        requires seat { IsOf self.now seat.old }
        requires holds { (view_of seat.old).holds ≡ true }
        requires book { B.keeps (held_book held) (deposits_of (view_of seat.old).seen) }
        requires label { B.label (held_book held) ≡ B.label (opening_of self.now).book.value }
        ensures seat { IsOf self.now seat.new }
        ensures left { view_of seat.new ≡ with_hold false (view_of seat.old) }
    {
        let Held { book } = held;
        drop(self.table.shared.exchange(&mut seat.seat, 0, Some(book)));
        let turn = seat.turn;
        self.table.shared.swap::<Leave>(&mut seat.seat, 1, turn);
    }

    /// Brings the book home with one more deposit, of a range that is out at this seat, and answers the number
    /// of deposits.
    pub fn deposit(&self, seat: &mut BookSeat<B>, held: Held<B>, first: u32, count: u32) -> u32
        requires seat { IsOf self.now seat.old }
        requires holds { (view_of seat.old).holds ≡ true }
        requires out { has_range (out_of (view_of seat.old).calls) (range first count) ≡ true }
        requires book { B.keeps (held_book held)
            (deposits_of (view_of seat.old).seen ++ range first count ∷ []) }
        requires label { B.label (held_book held) ≡ B.label (opening_of self.now).book.value }
        ensures seat { IsOf self.now seat.new }
        ensures made { Deposits (view_of seat.old) first count result (view_of seat.new) }
    {
        self.put_back::<Brand>(seat, held, first, count)
    }

    fn put_back<J: Asked>(
        &self,
        seat: &mut BookSeat<B>,
        held: Held<B>,
        first: u32,
        count: u32,
    ) -> u32
        requires seat { IsOf self.now seat.old }
        requires asked { J.call ≡ Call.Deposit first count }
        requires holds { (view_of seat.old).holds ≡ true }
        requires out { has_range (out_of (view_of seat.old).calls) (range first count) ≡ true }
        requires book { B.keeps (held_book held)
            (deposits_of (view_of seat.old).seen ++ range first count ∷ []) }
        requires label { B.label (held_book held) ≡ B.label (opening_of self.now).book.value }
        ensures seat { IsOf self.now seat.new }
        ensures made { Deposits (view_of seat.old) first count result (view_of seat.new) }
    {
        let Held { book } = held;
        drop(self.table.shared.exchange(&mut seat.seat, 0, Some(book)));
        let turn = seat.turn + 2;
        self.table.shared.swap::<Put<J>>(&mut seat.seat, 1, turn);
        (turn / 2) as u32
    }

    /// Makes another seat, which has seen what the opening seat has seen.
    pub fn split(&self, seat: &mut BookSeat<B>) -> BookSeat<B>
        requires seat { IsOf self.now seat.old }
        requires opening { (view_of seat.old).number ≡ 0 }
        requires free { (view_of seat.old).holds ≡ false }
        requires room { (view_of seat.old).made < u32.MAX }
        ensures seat { IsOf self.now seat.new }
        ensures other { IsOf self.now result }
        ensures made { view_of seat.new ≡ with_made (view_of seat.old) }
        ensures view { view_of result ≡ newcomer (view_of seat.old) }
    {
        let other = self.table.shared.split_seat::<Newcomer>(&mut seat.seat);
        BookSeat {
            seat: other,
            turn: 0,
        }
    }

    /// Takes in another seat: its history, its calls and its numbers.
    pub fn join(&self, keep: &mut BookSeat<B>, other: BookSeat<B>)
        requires keep { IsOf self.now keep.old }
        requires other { IsOf self.now other }
        requires opening { (view_of other).number ≢ 0 }
        requires free { ((view_of keep.old).holds ≡ false) × ((view_of other).holds ≡ false) }
        ensures keep { IsOf self.now keep.new }
        ensures joined { TakesIn (view_of keep.old) (view_of other) (view_of keep.new) }
    {
        let BookSeat { seat, turn: _ } = other;
        self.table.shared.join_seat::<TakeIn>(&mut keep.seat, seat);
        self.table.shared.load::<Settle>(&mut keep.seat, 0);
    }
}

impl<B: Booked> TurnBook<B> {
    /// Ends the campaign of the opening seat, which took in all others: the seat has seen the whole history.
    pub fn close(self, seat: BookSeat<B>) -> Closed<B>
        requires seat { IsOf self seat }
        requires opening { (view_of seat).number ≡ 0 }
        requires free { (view_of seat).holds ≡ false }
        requires all { length (view_of seat).joined + 1 ≡ (view_of seat).made }
        ensures gate { result.gate ≡ gate_of (view_of seat).target (view_of seat).seen }
        ensures deposits { result.deposits ≡ length (deposits_of (view_of seat).seen) }
        ensures book { B.keeps result.book (deposits_of (view_of seat).seen) }
        ensures label { B.label result.book ≡ B.label (opening_of self).book.value }
    {
        let TurnBook { table } = self;
        let BookSeat { seat, turn: _ } = seat;
        let mut closed = table.close_with(seat);
        let gate = gate_from(closed.word(0));
        let deposits = (closed.word(1) / 2) as u32;
        let slot = closed.take(0);
        closed.free();
        Closed {
            book: slot.unwrap(),
            gate,
            deposits,
        }
    }
}
