ghost use Rattle.std.specs.Prelude.{◌≡◌, ◌≤◌, ◌<◌, All, IfOk, length};
ghost use Rattle.ra_base.specs.declared.limits.TheConstants.{MOST_SAMPLES, MOST_BLOCK};

use campaign::Campaign;
use campaign_core::{Done, Job, SampleRange, Share, Work};
use campaign_workers::{WorkEnd, Worked, study, work};
use ra_base::{NoPause, OutOfMemory, Pause};
use std::alloc::Global;
use std::process::Abort;
use std::sync::Wait;
use std::sync::atomic::{AtomicU64, Ordering};
use std::test::Fail;
use std::thread::Threads;

// A work whose sum is the list of its ranges, of which so many samples are enough.
#[derive(Drop)]
struct Listing {
    wanted: u32,
}

// Ranges, and how many samples they have.
#[derive(Drop)]
struct Listed {
    ranges: Vec<SampleRange>,
    count: u32,
}

impl Work for Listing {
    ghost use Rattle.std.specs.Prelude.{◌≡◌, nat_le};
    ghost use Rattle.std.proofs.Common.{◌∙◌, ap};
    ghost use Rattle.campaign_core.specs.Ranges.{total, AreSame};

    type Sum = Listed;

    ghost stands = { λ work sum ranges. AreSame sum.ranges.items ranges
        × (sum.count ≡ total (λ sample. 1) ranges) };

    ghost is_enough = { λ work ranges. nat_le work.wanted (total (λ sample. 1) ranges) };

    fn empty(&self, alloc: Global) -> Result<Listed, OutOfMemory> {
        Ok(Listed {
            ranges: Vec::new(alloc),
            count: 0,
        })
    }

    fn merge(&self, into: &mut Listed, more: &Listed) -> Result<(), OutOfMemory> {
        into.ranges.extend_from_slice(more.ranges.as_slice())?;
        into.count += more.count;
        Ok(())
    }

    fn copy(&self, alloc: Global, sum: &Listed) -> Result<Listed, OutOfMemory> {
        let mut ranges = Vec::new(alloc);
        ranges.extend_from_slice(sum.ranges.as_slice())?;
        Ok(Listed {
            ranges,
            count: sum.count,
        })
    }

    fn enough(&self, sum: &Listed) -> bool {
        sum.count >= self.wanted
    }

    ghost stands_by_samples = { λ work sum xs ys same s.
        (λ weight. s.0 weight ∙ same weight, s.1 ∙ same (λ sample. 1)) };

    ghost enough_by_samples = { λ work xs ys same. ap (λ n. nat_le work.wanted n) (same (λ sample. 1)) };
}

// A job that lists the range of its share, where it finds memory.
#[derive(Drop)]
struct Lister {
    finds: bool,
}

impl Job<Listing> for Lister {
    ghost use Rattle.std.specs.Prelude.{⊤};

    ghost serves = { λ job work. ⊤ };

    fn run(&mut self, alloc: Global, share: Share) -> Result<Done<Listing>, (Share, OutOfMemory)> {
        if !self.finds {
            return Err((share, OutOfMemory));
        }
        let count = share.count();
        let range = SampleRange {
            first: share.first(),
            count,
        };
        let mut ranges = Vec::new(alloc);
        let Ok(()) = ranges.push(range) else {
            return Err((share, OutOfMemory));
        };
        Ok(Done::of(share, Listed { ranges, count }))
    }
}

// Counts the samples that it was told of.
#[derive(Drop)]
struct Counted {
    samples: AtomicU64,
}

impl Pause for Counted {
    fn before(&self, _first: u32, count: u32) {
        self.samples.fetch_add(u64::from(count), Ordering::SeqCst);
    }
}

// The ranges of a study with so many workers, in order.
fn studied<R: Threads + Wait + Sync>(
    rt: &R,
    alloc: Global,
    workers: usize,
    wanted: u32,
    samples: u32,
    most: u32,
) -> Result<Vec<SampleRange>, Fail>
    requires workers { (1 ≤ workers) × (workers ≤ 64) }
    requires samples { (1 ≤ samples) × (samples ≤ most) × (most ≤ MOST_SAMPLES) }
{
    let mut jobs = Vec::new(alloc);
    for _ in 0..workers {
        jobs.push(Lister { finds: true })?;
    }
    let sum = study(
        rt,
        alloc,
        Listing { wanted },
        jobs,
        samples,
        3,
        most,
        &NoPause,
    )?;
    let Listed {
        mut ranges,
        count: _,
    } = sum;
    ranges.sort_unstable_by_key(|range| range.first);
    Ok(ranges)
}

// The ranges of a study, as text.
fn check(
    rt: &impl Abort,
    alloc: Global,
    ranges: Vec<SampleRange>,
    expected: &[(u32, u32)],
) -> Result<(), Fail> {
    assert_eq!(rt; ranges.len(), expected.len());
    for (range, wanted) in ranges.as_slice().iter().zip(expected) {
        assert_eq!(rt; range.first, wanted.0);
        assert_eq!(rt; range.count, wanted.1);
    }
    Ok(())
}

#[test]
fn studies_end_at_the_first_round_that_is_enough(rt: HostRuntime) -> Result<(), Fail> {
    let alloc = rt.alloc();
    let two_rounds = [(0, 3), (3, 1), (4, 3), (7, 1)];
    check(&rt, alloc, studied(&rt, alloc, 2, 7, 4, 100)?, &two_rounds)?;
    check(&rt, alloc, studied(&rt, alloc, 1, 7, 4, 100)?, &two_rounds)?;
    let most = [(0, 3), (3, 1), (4, 2)];
    check(&rt, alloc, studied(&rt, alloc, 2, 60, 4, 6)?, &most)?;
    let one_round = [(0, 3), (3, 1)];
    check(&rt, alloc, studied(&rt, alloc, 3, 4, 4, 4)?, &one_round)
}

#[test]
fn workers_end_by_their_last_claim(rt: HostRuntime) -> Result<(), Fail> {
    let alloc = rt.alloc();
    let Ok((campaign, pass)) = Campaign::open(alloc, Listing { wanted: 0 }, 5, 2) else {
        panic!(rt; "no memory")
    };
    let mut job = Lister { finds: true };
    let pause = Counted {
        samples: AtomicU64::new(0),
    };
    let Worked { mut pass, end } = work(&rt, alloc, &campaign, pass, &mut job, &pause, false);
    assert!(rt; end == WorkEnd::Idle);
    campaign.seal(&mut pass);
    let Worked { mut pass, end } = work(&rt, alloc, &campaign, pass, &mut job, &pause, true);
    assert!(rt; end == WorkEnd::Drained);
    campaign.cancel(&mut pass);
    let Worked { pass, end } = work(&rt, alloc, &campaign, pass, &mut job, &pause, true);
    assert!(rt; end == WorkEnd::Cancelled);
    assert_eq!(rt; pause.samples.load(Ordering::SeqCst), 5);
    let Ok(end) = campaign.finish(pass) else {
        panic!(rt; "not finished")
    };
    assert_eq!(rt;
        format!(in alloc; "{:?}", end.runs)?.as_str(),
        "Runs { list: [Run { first: 0, last: 4 }] }"
    );
    check(&rt, alloc, end.sum.ranges, &[(0, 2), (2, 2), (4, 1)])
}

#[test]
fn a_worker_without_memory_cancels(rt: HostRuntime) -> Result<(), Fail> {
    let alloc = rt.alloc();
    let Ok((campaign, pass)) = Campaign::open(alloc, Listing { wanted: 0 }, 5, 2) else {
        panic!(rt; "no memory")
    };
    let mut job = Lister { finds: false };
    let Worked { mut pass, end } = work(&rt, alloc, &campaign, pass, &mut job, &NoPause, true);
    assert!(rt; end.is_short());
    let gate = campaign.progress(&mut pass);
    assert!(rt; gate.cancelled && gate.next == 2);
    Ok(())
}
