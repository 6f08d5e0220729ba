//! What no contract says: that the workers of a study run at once and claim their shares.

use crate::answers::{DAY, NEVER_OUT, ZONE, quietly, shelf_of, words_of};
use crate::consoles::totals_of;
use ra_base::{MemorySink, Pause, Status};
use std::sync::atomic::{AtomicU64, Ordering};
use std::test::Fail;

const TURNS: u32 = 200_000_000;

// Holds the share that begins with sample 0 until the three behind it have come.
#[derive(Drop)]
struct HoldsTheFirst {
    come: AtomicU64,
    waited: AtomicU64,
}

impl Pause for HoldsTheFirst {
    fn before(&self, first: u32, _count: u32) {
        if first > 0 {
            self.come.fetch_add(1, Ordering::SeqCst);
            return;
        }
        for _ in 0..TURNS {
            if self.come.load(Ordering::SeqCst) == 3 {
                return;
            }
        }
        // Nobody else came: there was no second worker, or the shares were dealt out beforehand.
        self.waited.fetch_add(1, Ordering::SeqCst);
    }
}

// Eight samples in shares of two: while one worker is held in the first share, the other runs the three behind it.
#[test]
fn workers_run_at_once_and_claim_their_shares(rt: HostRuntime) -> Result<(), Fail> {
    let alloc = rt.alloc();
    let words = words_of(alloc, "study F --samples 8 --block 2 --workers 2")?;
    let mut shelf = shelf_of(alloc, &[ZONE, NEVER_OUT, DAY])?;
    let mut out = MemorySink::new(alloc, 1000)?;
    let mut err = MemorySink::new(alloc, 1000)?;
    let pause = HoldsTheFirst {
        come: AtomicU64::new(0),
        waited: AtomicU64::new(0),
    };
    let status = quietly(&rt, alloc, &words, &mut shelf, &mut out, &mut err, &pause);
    assert_eq!(rt; status, Status::Done);
    assert_eq!(rt; pause.waited.load(Ordering::SeqCst), 0);
    assert_eq!(rt; out.bytes(), totals_of(alloc, 8, false)?.as_bytes());
    Ok(())
}
