ghost use Rattle.std.specs.Prelude.{◌≡◌, nat_le};

use campaign_core::{Call, Core, Done, Job, Reply, Run, Runs, Share, Work, replies};
use ra_base::OutOfMemory;
use std::alloc::Global;
use std::process::Abort;
use std::test::Fail;

// Counts samples, of which some are enough.
#[derive(Drop)]
struct Counting {
    most: u32,
}

impl Work for Counting {
    ghost use Rattle.std.specs.Prelude.{◌≡◌, nat_le};
    ghost use Rattle.std.proofs.Common.{◌∙◌, ap};
    ghost use Rattle.campaign_core.specs.Ranges.{total};

    type Sum = u32;

    ghost stands = { λ work sum ranges. sum ≡ total (λ sample. 1) ranges };

    ghost is_enough = { λ work ranges. nat_le work.most (total (λ sample. 1) ranges) };

    fn empty(&self, alloc: Global) -> Result<u32, OutOfMemory> {
        Ok(0)
    }

    fn merge(&self, into: &mut u32, more: &u32) -> Result<(), OutOfMemory> {
        *into += *more;
        Ok(())
    }

    fn copy(&self, alloc: Global, sum: &u32) -> Result<u32, OutOfMemory> {
        Ok(*sum)
    }

    fn enough(&self, sum: &u32) -> bool {
        *sum >= self.most
    }

    ghost stands_by_samples = { λ work sum xs ys same s. s ∙ same (λ sample. 1) };

    ghost enough_by_samples = { λ work xs ys same. ap (λ n. nat_le work.most n) (same (λ sample. 1)) };
}

// Counts the samples of its shares.
#[derive(Drop)]
struct Counter;

impl Job<Counting> for Counter {
    ghost use Rattle.std.specs.Prelude.{⊤};

    ghost serves = { λ job work. ⊤ };

    fn run(&mut self, alloc: Global, share: Share) -> Result<Done<Counting>, (Share, OutOfMemory)> {
        let count = share.count();
        Ok(Done::of(share, count))
    }
}

// Replies to calls on a new campaign are those that were worked out by hand.
fn check(rt: &impl Abort, alloc: Global, replies: &[Reply], expected: &[&str]) -> Result<(), Fail> {
    assert_eq!(rt; replies.len(), expected.len());
    for (reply, text) in replies.iter().zip(expected) {
        assert_eq!(rt; format!(in alloc; "{reply:?}")?.as_str(), *text);
    }
    Ok(())
}

#[test]
fn campaigns_reply_as_worked_out(rt: HostRuntime) -> Result<(), Fail> {
    let alloc = rt.alloc();
    let calls = [
        Call::Claim,
        Call::Claim,
        Call::Claim,
        Call::Claim,
        Call::Extend { more: 3 },
        Call::Claim,
        Call::Deposit { first: 5, count: 2 },
        Call::Deposit { first: 0, count: 2 },
        Call::Interim,
        Call::Cancel,
        Call::Claim,
        Call::Deposit { first: 4, count: 1 },
        Call::Extend { more: 1 },
        Call::Interim,
    ];
    let expected = [
        "Range { first: 0, count: 2 }",
        "Range { first: 2, count: 2 }",
        "Range { first: 4, count: 1 }",
        "Idle",
        "Now { target: 8 }",
        "Range { first: 5, count: 2 }",
        "Deposited { number: 1 }",
        "Deposited { number: 2 }",
        "Interim { gate: Gate { next: 7, target: 8, sealed: false, cancelled: false }, \
         runs: Runs { list: [Run { first: 0, last: 1 }, Run { first: 5, last: 6 }] } }",
        "Marked",
        "Cancelled",
        "Deposited { number: 3 }",
        "Cancelled",
        "Interim { gate: Gate { next: 7, target: 8, sealed: false, cancelled: true }, \
         runs: Runs { list: [Run { first: 0, last: 1 }, Run { first: 4, last: 6 }] } }",
    ];
    check(
        &rt,
        alloc,
        replies(alloc, 5, 2, &calls)?.as_slice(),
        &expected,
    )?;
    let calls = [
        Call::Extend { more: 1 },
        Call::Claim,
        Call::Seal,
        Call::Extend { more: 1 },
        Call::Progress,
    ];
    let expected = [
        "TooMany { target: 1000000 }",
        "Range { first: 0, count: 10000 }",
        "Marked",
        "Sealed",
        "Progress(Gate { next: 10000, target: 1000000, sealed: true, cancelled: false })",
    ];
    check(
        &rt,
        alloc,
        replies(alloc, 1_000_000, 10_000, &calls)?.as_slice(),
        &expected,
    )?;
    let calls = [Call::Claim, Call::Seal, Call::Claim];
    let expected = ["Range { first: 0, count: 2 }", "Marked", "Drained"];
    check(
        &rt,
        alloc,
        replies(alloc, 2, 3, &calls)?.as_slice(),
        &expected,
    )
}

#[test]
fn shares_are_counted_and_ranges_joined(rt: HostRuntime) -> Result<(), Fail> {
    let alloc = rt.alloc();
    let work = Counting { most: 3 };
    let done = match Counter.run(alloc, Share::of(4, 3)) {
        Ok(done) => done,
        Err((share, none)) => {
            share.abandon();
            return Err(none.into());
        }
    };
    let (share, sum) = done.into_parts();
    assert_eq!(rt; share.first(), 4);
    assert_eq!(rt; share.count(), 3);
    assert_eq!(rt; sum, 3);
    Done::<Counting>::of(share, sum).abandon();
    assert_eq!(rt; work.copy(alloc, &sum)?, 3);
    assert_eq!(rt; work.empty(alloc)?, 0);

    let list = [
        Run { first: 5, last: 6 },
        Run { first: 0, last: 1 },
        Run { first: 2, last: 3 },
    ];
    let runs = Runs::of(list.to_vec(alloc)?);
    assert_eq!(rt; runs.len(), 2);
    assert_eq!(rt; runs.get(0), Run { first: 0, last: 3 });
    assert_eq!(rt; runs.get(1), Run { first: 5, last: 6 });
    assert!(rt; !runs.is_empty());

    let mut core = Core::open(alloc, 1, 1)?;
    check(
        &rt,
        alloc,
        &[core.apply(Call::Claim)?],
        &["Range { first: 0, count: 1 }"],
    )
}
