//! The high ends of a fleet. Far out they are small numbers on a long staircase, and kept by the
//! places where its steps end.
ghost use Rattle.std.specs.Prelude.{◌≡◌, ℕ, ◌+◌, ◌-◌, ◌^◌, ◌<◌, ◌≤◌, length, slice_index, vec_len, max, OnOk};
ghost use Rattle.fixed_interval.specs.Rounding.{ceil_div};
ghost use Rattle.outage_table.specs.Fleet.{moved, AreFalling, height, end_of, AreDescending, raised_bound};

use fixed_interval::Share;
use std::alloc::AllocError;

/// Ends up to this one are kept by bounds, where all behind them are.
const MOST_FAR: u64 = 1_500;

/// High ends by MW of outage.
#[derive(Drop)]
pub struct HighEnds {
    /// The first ends, one by one.
    pub near: Vec<u64>,
    /// From where on the ends behind them are below 1, below 2 and so on.
    pub far: Vec<usize>,
}

/// One more unit in the high ends.
pub fn add_high(ends: &mut HighEnds, capacity: usize, share: Share) -> Result<(), AllocError>
    requires falling { AreFalling (end_of ends.old.near.items ends.old.far.items) }
    requires descending { AreDescending ends.old.far.items }
    requires few { vec_len ends.old.near + capacity < 2 ^ 32 }
    requires within { (i : ℕ) → slice_index ends.old.far.items i + capacity < 2 ^ 32 }
    ensures ok { OnOk result ((x : ℕ) → end_of ends.new.near.items ends.new.far.items x
        ≡ moved ceil_div share.out share.all capacity (end_of ends.old.near.items ends.old.far.items) x) }
    ensures descending { OnOk result (AreDescending ends.new.far.items) }
    ensures few { (most : ℕ) → vec_len ends.old.near ≤ most
        → ((i : ℕ) → slice_index ends.old.far.items i ≤ most)
        → OnOk result (vec_len ends.new.near ≤ most + capacity) }
    ensures within { (most : ℕ) → vec_len ends.old.near ≤ most
        → ((i : ℕ) → slice_index ends.old.far.items i ≤ most)
        → OnOk result ((i : ℕ) → slice_index ends.new.far.items i ≤ most + capacity) }
{
    if share.out == 0 {
        return Ok(());
    }
    let len = ends
        .near
        .len()
        .max(calm_from(&ends.far, capacity, share.small() as usize))
        + capacity;
    fill(&mut ends.near, &ends.far, len)?;
    mix_high(&mut ends.near, capacity, share);
    raise(&mut ends.far, capacity);
    settle(&mut ends.near, &mut ends.far)
}

// From where on no end is more than `small` below the end `capacity` places before it.
fn calm_from(bounds: &[usize], capacity: usize, small: usize) -> usize
    requires descending { AreDescending bounds.now }
    requires within { (i : ℕ) → slice_index bounds.now i + capacity < 2 ^ 32 }
    ensures calm { (x : ℕ) → result + capacity ≤ x
        → height bounds.now (x - capacity) ≤ height bounds.now x + small }
    ensures within { result ≤ slice_index bounds.now 0 }
{
    for at in 0..bounds.len().saturating_sub(small) {
        if bounds[at] < bounds[at + small] + capacity {
            return bounds[at + small];
        }
    }
    0
}

/// Keeps the first `len` ends one by one.
pub fn fill(near: &mut Vec<u64>, bounds: &[usize], len: usize) -> Result<(), AllocError>
    requires { AreDescending bounds.now }
    ensures ok { OnOk result ((x : ℕ)
        → end_of near.new.items bounds.now x ≡ end_of near.old.items bounds.now x) }
    ensures len { OnOk result (vec_len near.new ≡ max (vec_len near.old) len) }
{
    let mut end = bounds.len();
    for x in near.len()..len {
        end = height_at(bounds, end, x);
        near.push(end as u64)?;
    }
    Ok(())
}

// How many bounds lie past `x`, which are `most` or fewer.
fn height_at(bounds: &[usize], most: usize, x: usize) -> usize
    requires descending { AreDescending bounds.now }
    requires within { most ≤ length bounds.now }
    requires enough { height bounds.now x ≤ most }
    ensures { result ≡ height bounds.now x }
{
    let mut count = most;
    'near: while count > 0 {
        if bounds[count - 1] > x {
            break;
        }
        count -= 1;
    }
    count
}

// The last end goes first, so that each is made from ends that are still as they were.
fn mix_high(ends: &mut [u64], capacity: usize, share: Share)
    requires { AreFalling (slice_index ends.old) }
    ensures { (x : ℕ) → x < length ends.old
        → slice_index ends.new x ≡ moved ceil_div share.out share.all capacity (slice_index ends.old) x }
{
    let near = capacity.min(ends.len());
    'far: for x in (near..ends.len()).rev() {
        let up_end = ends[x];
        let out_end = ends[x - capacity];
        ends[x] = up_end + share.ceil(out_end - up_end);
    }
    'near: for x in (0..near).rev() {
        let up_end = ends[x];
        let first = ends[0];
        ends[x] = up_end + share.ceil(first - up_end);
    }
}

// Where an end is below the one `capacity` places before it, it rises by 1.
fn raise(bounds: &mut [usize], capacity: usize)
    requires { (i : ℕ) → slice_index bounds.old i + capacity < 2 ^ 32 }
    ensures { (k : ℕ) → k < length bounds.old
        → slice_index bounds.new k ≡ raised_bound bounds.old capacity k }
{
    let mut before = u32::MAX as usize;
    for at in 0..bounds.len() {
        let bound = bounds[at];
        bounds[at] = before.min(bound + capacity);
        before = bound;
    }
}

// Leaves out the bounds that aren't past the ends that are kept one by one. Small ones of these go to the
// bounds.
fn settle(near: &mut Vec<u64>, bounds: &mut Vec<usize>) -> Result<(), AllocError>
    requires falling { (x y : ℕ) → x ≤ y
        → end_of near.old.items bounds.old.items y ≤ end_of near.old.items bounds.old.items x }
    requires descending { AreDescending bounds.old.items }
    ensures ok { OnOk result ((x : ℕ) → end_of near.new.items bounds.new.items x
        ≡ end_of near.old.items bounds.old.items x) }
    ensures descending { OnOk result (AreDescending bounds.new.items) }
    ensures len { OnOk result (vec_len near.new ≤ vec_len near.old) }
    ensures within { (most : ℕ) → vec_len near.old ≤ most
        → ((i : ℕ) → slice_index bounds.old.items i ≤ most)
        → OnOk result ((i : ℕ) → slice_index bounds.new.items i ≤ most) }
{
    let past = height_at(bounds, bounds.len(), near.len());
    bounds.truncate(past);
    take_over(near, bounds)
}

// The last ends of those that are kept one by one go to the bounds, as long as they are small.
fn take_over(near: &mut Vec<u64>, bounds: &mut Vec<usize>) -> Result<(), AllocError>
    requires falling { (x y : ℕ) → x ≤ y
        → end_of near.old.items bounds.old.items y ≤ end_of near.old.items bounds.old.items x }
    requires descending { AreDescending bounds.old.items }
    requires past { (i : ℕ) → i < vec_len bounds.old → vec_len near.old < slice_index bounds.old.items i }
    ensures ok { OnOk result ((x : ℕ) → end_of near.new.items bounds.new.items x
        ≡ end_of near.old.items bounds.old.items x) }
    ensures descending { OnOk result (AreDescending bounds.new.items) }
    ensures len { OnOk result (vec_len near.new ≤ vec_len near.old) }
    ensures within { (most : ℕ) → vec_len near.old ≤ most
        → ((i : ℕ) → slice_index bounds.old.items i ≤ most)
        → OnOk result ((i : ℕ) → slice_index bounds.new.items i ≤ most) }
{
    let mut len = near.len();
    'last: while len > 0 {
        let end = near[len - 1];
        if end > MOST_FAR {
            break;
        }
        bounds.resize(end as usize, len)?;
        len -= 1;
    }
    near.truncate(len);
    Ok(())
}
