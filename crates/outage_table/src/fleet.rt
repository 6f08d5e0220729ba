//! The entries of a whole fleet, low ends and high ends each in a list of their own until all units are in.
ghost use Rattle.std.specs.Prelude.{◌≡◌, ℕ, ◌+◌, ◌^◌, ◌<◌, ◌≤◌, length, slice_index, vec_len, All, IfOk, OnOk};
ghost use Rattle.fixed_interval.specs.Rounding.{floor_div};
ghost use Rattle.system_model.specs.Rates.{AreRates};
ghost use Rattle.outage_table.specs.States.{total_capacity};
ghost use Rattle.outage_table.specs.Table.{AreEntries};
ghost use Rattle.outage_table.specs.Fleet.{moved, AreFalling, AreJoined};

use crate::high::{HighEnds, add_high, fill};
use crate::units::PooledUnit;
use fixed_interval::{Enclosure, Share};
use ra_base::OutOfMemory;
use ra_base::limits::MOST_TABLE_MW;
use std::alloc::{AllocError, Global};

/// 1, in units of 2^-60.
const WHOLE: u64 = 1 << 60;

/// The entries of these units' table.
pub fn entries_of(alloc: Global, units: &[PooledUnit]) -> Result<Vec<Enclosure>, OutOfMemory>
    requires rated { All (λ unit. AreRates unit.rates) units.now }
    requires small { total_capacity units.now ≤ MOST_TABLE_MW }
    ensures { IfOk result (λ entries. AreEntries entries.items units.now) }
{
    let mut low = Vec::new(alloc);
    let mut high = HighEnds {
        near: Vec::new(alloc),
        far: Vec::new(alloc),
    };
    low.push(WHOLE)?;
    high.near.push(WHOLE)?;
    let mut total = 0;
    for unit in units {
        let share = Share::new(u64::from(unit.rates.f), u64::from(unit.rates.r));
        add_low(&mut low, unit.capacity as usize, share)?;
        add_high(&mut high, unit.capacity as usize, share)?;
        total += unit.capacity as usize;
    }
    fill(&mut high.near, &high.far, total + 1)?;
    joined(alloc, &low, &high.near, total + 1)
}

// One more unit in the low ends.
fn add_low(ends: &mut Vec<u64>, capacity: usize, share: Share) -> Result<(), AllocError>
    requires falling { AreFalling (slice_index ends.old.items) }
    requires fits { vec_len ends.old + capacity < 2 ^ 32 }
    ensures ok { OnOk result ((x : ℕ) → slice_index ends.new.items x
        ≡ moved floor_div share.out share.all capacity (slice_index ends.old.items) x) }
    ensures len { OnOk result (vec_len ends.new ≤ vec_len ends.old + capacity) }
{
    let len = ends.len() + capacity;
    ends.resize(len, 0)?;
    mix_low(ends, capacity, share);
    trim(ends);
    Ok(())
}

// The last end goes first, so that each is made from ends that are still as they were.
fn mix_low(ends: &mut [u64], capacity: usize, share: Share)
    requires { AreFalling (slice_index ends.old) }
    ensures { (x : ℕ) → x < length ends.old
        → slice_index ends.new x ≡ moved floor_div share.out share.all capacity (slice_index ends.old) x }
{
    for x in (0..ends.len()).rev() {
        let up_end = ends[x];
        let out_end = ends[x.saturating_sub(capacity)];
        ends[x] = up_end + share.floor(out_end - up_end);
    }
}

// Leaves the zeros at the end out.
fn trim(ends: &mut Vec<u64>)
    ensures same { (x : ℕ) → slice_index ends.new.items x ≡ slice_index ends.old.items x }
    ensures len { vec_len ends.new ≤ vec_len ends.old }
{
    let mut len = ends.len();
    'zeros: while len > 0 {
        if ends[len - 1] > 0 {
            break;
        }
        len -= 1;
    }
    ends.truncate(len);
}

// The first `len` low and high ends, side by side.
fn joined(
    alloc: Global,
    low: &[u64],
    high: &[u64],
    len: usize,
) -> Result<Vec<Enclosure>, OutOfMemory>
    requires { (x : ℕ) → x < len → slice_index low.now x ≤ slice_index high.now x }
    ensures { IfOk result (λ entries. AreJoined entries.items low.now high.now len) }
{
    let mut entries = Vec::with_capacity(alloc, len)?;
    for x in 0..len {
        entries.push(Enclosure {
            low: u128::from(end_at(low, x)),
            high: u128::from(end_at(high, x)),
        })?;
    }
    Ok(entries)
}

fn end_at(ends: &[u64], x: usize) -> u64
    ensures { result ≡ slice_index ends.now x }
{
    if x < ends.len() { ends[x] } else { 0 }
}
