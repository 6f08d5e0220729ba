use crate::view::{Opening, View};
use atomic_table::{Join, Play, Split, TableRule};
use campaign_core::{Booked, Call};
use std::marker::{Brand, PhantomData};

/// The rule of the words, the book and the seats.
pub struct Turns<B> {
    of: PhantomData<B>,
}

impl<B: Booked> TableRule<Option<B>, View<B>, Opening<B>> for Turns<B> {
    ghost use Rattle.turn_book.specs.Views.{opening_view};
    ghost use Rattle.turn_book.specs.Kept.{IsKept};

    ghost holds = { IsKept B.keeps B.label };

    ghost first = { λ k. opening_view k.book.value k.target k.block };
}

/// Which call a step makes. Each step of a program picks it.
pub trait Asked {
    ghost use Rattle.campaign_core.specs.declared.call.Call.{Call};

    ghost call: { Call };
}

impl Asked for Brand {
    ghost use Rattle.campaign_core.specs.declared.call.Call.TheVariants.{Claim};

    ghost call = { Claim };
}

/// The call of a step that seals.
pub struct Seals;

impl Asked for Seals {
    ghost use Rattle.campaign_core.specs.declared.call.Call.TheVariants.{Seal};

    ghost call = { Seal };
}

/// The call of a step that cancels.
pub struct Cancels;

impl Asked for Cancels {
    ghost use Rattle.campaign_core.specs.declared.call.Call.TheVariants.{Cancel};

    ghost call = { Cancel };
}

/// A load of the gate.
pub struct Look<J> {
    of: PhantomData<J>,
}

impl<B, J: Asked> Play<Option<B>, View<B>> for Look<J> {
    ghost use Rattle.turn_book.specs.Steps.{Looked};

    ghost then = { Looked J.call };
}

/// An exchange of the gate.
pub struct Exchange<J> {
    of: PhantomData<J>,
}

impl<B, J: Asked> Play<Option<B>, View<B>> for Exchange<J> {
    ghost use Rattle.turn_book.specs.Steps.{Exchanged};

    ghost then = { Exchanged J.call };
}

/// A mark on the gate.
pub struct Mark<J> {
    of: PhantomData<J>,
}

impl<B, J: Asked> Play<Option<B>, View<B>> for Mark<J> {
    ghost use Rattle.turn_book.specs.Steps.{Marks};

    ghost then = { Marks J.call };
}

/// An exchange of the turn, by which the book leaves where it was in.
pub struct Take;

impl<B: Booked> Play<Option<B>, View<B>> for Take {
    ghost use Rattle.turn_book.specs.Steps.{Took};

    ghost then = { Took B.keeps B.label };
}

/// A swap of the turn, by which the book comes home without a deposit.
pub struct Leave;

impl<B> Play<Option<B>, View<B>> for Leave {
    ghost use Rattle.turn_book.specs.Steps.{Left};

    ghost then = { Left };
}

/// A swap of the turn, by which the book comes home with one more deposit.
pub struct Put<J> {
    of: PhantomData<J>,
}

impl<B, J: Asked> Play<Option<B>, View<B>> for Put<J> {
    ghost use Rattle.turn_book.specs.Steps.{PutBack};

    ghost then = { PutBack J.call };
}

/// A load after a join, by which what the other seat had seen is known to begin what is seen.
pub struct Settle;

impl<B> Play<Option<B>, View<B>> for Settle {
    ghost use Rattle.turn_book.specs.Steps.{Settled};

    ghost then = { Settled };
}

/// The opening seat makes another.
pub struct Newcomer;

impl<B> Split<View<B>> for Newcomer {
    ghost use Rattle.turn_book.specs.Views.{with_made, newcomer};

    ghost left = { with_made };

    ghost right = { newcomer };
}

/// A seat takes in another.
pub struct TakeIn;

impl<B> Join<View<B>> for TakeIn {
    ghost use Rattle.turn_book.specs.Views.{taken_in, spent};

    ghost both = { taken_in };

    ghost spent = { spent };
}
