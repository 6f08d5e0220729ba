ghost use Rattle.std.specs.Prelude.{◌≡◌, ℕ, ◌+◌, ◌-◌, ◌*◌, ◌<◌, ◌≤◌, length, slice_index_or, vec_len, OnOk, OnErr};
ghost use Rattle.fixed_interval.specs.Enclosure.{one};
ghost use Rattle.fixed_interval.specs.Rounding.{floor_div, ceil_div};
ghost use Rattle.outage_table.specs.Table.{IsFilledUp, AreFallingEntries, AreMixed};

use fixed_interval::{Enclosure, Share};
use std::alloc::AllocError;

/// Fills the entries up with zeros. Without memory they stay as they were.
pub fn lengthen(entries: &mut Vec<Enclosure>, len: usize) -> Result<(), AllocError>
    requires { vec_len entries.old ≤ len }
    ensures ok { OnOk result (IsFilledUp entries.old.items entries.new.items len) }
    ensures err { OnErr result (entries.new.items ≡ entries.old.items) }
{
    entries.resize(len, Enclosure { low: 0, high: 0 })
}

/// Each entry moves towards the entry `capacity` before it, or the first one. The last goes first, so
/// that each is made from entries that are still as they were.
pub fn mix_all(entries: &mut [Enclosure], capacity: usize, share: Share)
    requires { AreFallingEntries entries.old }
    ensures { AreMixed entries.old entries.new capacity share.out share.all }
{
    for x in (0..entries.len()).rev() {
        let up_end = entries[x];
        let out_end = entries[x.saturating_sub(capacity)];
        entries[x] = towards(up_end, out_end, share);
    }
}

// What an entry has, and the share of what a greater one has more, each end rounded outward.
fn towards(up_end: Enclosure, out_end: Enclosure, share: Share) -> Enclosure
    requires low { up_end.low ≤ out_end.low }
    requires high { up_end.high ≤ out_end.high }
    requires part { out_end.high ≤ one }
    ensures low { result.low
        ≡ up_end.low + floor_div (share.out * (out_end.low - up_end.low)) share.all }
    ensures high { result.high
        ≡ up_end.high + ceil_div (share.out * (out_end.high - up_end.high)) share.all }
{
    let low = share.floor((out_end.low - up_end.low) as u64);
    let high = share.ceil((out_end.high - up_end.high) as u64);
    Enclosure {
        low: up_end.low + u128::from(low),
        high: up_end.high + u128::from(high),
    }
}
