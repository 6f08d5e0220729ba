ghost use Rattle.std.specs.Prelude.{◌≡◌, ◌∷◌, ◌++◌, [], true, false, Some, IfOk};
ghost use Rattle.std.specs.Thread.{IsSync};
ghost use Rattle.turn_book.specs.Seated.{IsOf, view_of};
ghost use Rattle.turn_book.specs.Views.{IsOpening, IsSameSeat};

use campaign_core::{Booked, Call, Gate, SampleRange};
use ra_base::OutOfMemory;
use std::alloc::Global;
use std::process::Abort;
use std::sync::Wait;
use std::test::Fail;
use std::thread::{Threads, join};
use turn_book::{BookSeat, TurnBook};

// A book that is the list of the deposited ranges.
#[derive(Drop)]
struct List {
    name: u32,
    ranges: Vec<SampleRange>,
}

impl Booked for List {
    ghost use Rattle.std.specs.Prelude.{◌≡◌};

    type Label = u32;

    ghost label = { λ list. list.name };

    ghost keeps = { λ list ranges. list.ranges.items ≡ ranges };
}

// A campaign of 6 samples in blocks of 2.
fn opened(alloc: Global) -> Result<(TurnBook<List>, BookSeat<List>), Fail>
    ensures seat { IfOk result (λ opened. IsOf opened.0 opened.1) }
    ensures view { IfOk result (λ opened. IsOpening (view_of opened.1)) }
    ensures block { IfOk result (λ opened. (view_of opened.1).block ≡ 2) }
{
    let list = List {
        name: 7,
        ranges: Vec::new(alloc),
    };
    match TurnBook::open(alloc, list, 6, 2) {
        Ok(opened) => Ok(opened),
        Err((_list, none)) => Err(none.into()),
    }
}

#[test]
fn an_exchange_finds_another_gate(rt: HostRuntime) -> Result<(), Fail> {
    let (book, mut first) = opened(rt.alloc())?;
    let mut second = book.split(&mut first);
    let start = Gate {
        next: 0,
        target: 6,
        sealed: false,
        cancelled: false,
    };
    let seen = book.look(&mut first, Call::Extend { more: 1 });
    assert!(rt; seen == start);
    let found = book.look(&mut second, Call::Claim);
    assert!(rt; found == start);
    let claimed = Gate { next: 2, ..start };
    assert!(rt; book.swap_gate(&mut second, start, claimed).is_ok());
    let raised = Gate { target: 7, ..start };
    let moved = book.swap_gate(&mut first, start, raised);
    assert!(rt; moved == Err(claimed));

    let held = book.take(&rt, &mut second);
    assert_eq!(rt; held.book().name, 7);
    book.leave(&mut second, held);
    assert!(rt; book.mark_sealed(&mut second) == claimed);
    book.mark_cancelled(&mut second);
    book.join(&mut first, second);
    let end = book.close(first);
    assert_eq!(rt; end.deposits, 0);
    assert!(rt; end.gate.sealed && end.gate.cancelled);
    assert_eq!(rt; end.gate.next, 2);
    assert!(rt; end.book.ranges.is_empty());
    Ok(())
}

#[test]
fn two_threads_share_a_book(rt: HostRuntime) -> Result<(), Fail> {
    let (book, mut first) = opened(rt.alloc())?;
    let second = book.split(&mut first);
    let (mut first, second) = shared(&rt, &book, first, second);
    book.join(&mut first, second);
    let end = book.close(first);
    assert!(rt; end.gate.sealed && !end.gate.cancelled);
    assert_eq!(rt; end.deposits, 0);
    assert_eq!(rt; end.book.name, 7);
    Ok(())
}

// One thread seals while another takes the book and brings it home.
fn shared<R: Threads + Wait + Sync>(
    rt: &R,
    book: &TurnBook<List>,
    first: BookSeat<List>,
    second: BookSeat<List>,
) -> (BookSeat<List>, BookSeat<List>)
    requires first { IsOf book.now first }
    requires second { IsOf book.now second × ((view_of second).holds ≡ false) }
    ensures first { IsOf book.now result.0 × IsSameSeat (view_of first) (view_of result.0) }
    ensures second { IsOf book.now result.1 × IsSameSeat (view_of second) (view_of result.1) }
{
    join(
        rt,
        move || -> BookSeat<List>
            requires { IsOf book.now first }
            ensures { IsOf book.entry.now result × IsSameSeat (view_of first) (view_of result) }
        { sealed(book, first) },
        move || -> BookSeat<List>
            requires { IsSync R.row × IsOf book.now second × ((view_of second).holds ≡ false) }
            ensures { IsOf book.entry.now result × IsSameSeat (view_of second) (view_of result) }
        { visited(rt, book, second) },
    )
}

fn sealed(book: &TurnBook<List>, mut seat: BookSeat<List>) -> BookSeat<List>
    requires { IsOf book.now seat }
    ensures { IsOf book.now result × IsSameSeat (view_of seat) (view_of result) }
{
    book.mark_sealed(&mut seat);
    seat
}

fn visited<R: Wait>(rt: &R, book: &TurnBook<List>, mut seat: BookSeat<List>) -> BookSeat<List>
    requires { IsOf book.now seat × ((view_of seat).holds ≡ false) }
    ensures { IsOf book.now result × IsSameSeat (view_of seat) (view_of result) }
{
    let held = book.take(rt, &mut seat);
    book.leave(&mut seat, held);
    seat
}
