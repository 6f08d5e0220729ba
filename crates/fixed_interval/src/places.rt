ghost use Rattle.std.specs.Prelude.{◌≡◌, ◌+◌, ◌*◌, ◌^◌, ◌<◌, ◌≤◌, ◌++◌, OnOk, OnErr};
ghost use Rattle.fixed_interval.specs.Enclosure.{one};
ghost use Rattle.fixed_interval.specs.Rounding.{floor_div, ceil_div};
ghost use Rattle.fixed_interval.specs.Places.{places_text, low_text, high_text};

use crate::enclosure::Enclosure;
use itoa::write_digits;
use ra_base::{OutOfMemory, Text};

/// 1, in units of 2^-60.
const ONE: u128 = 1 << 60;

/// 1, in units of 10^-12.
const PLACES: u64 = 1_000_000_000_000;

/// A value with 12 places after the point.
#[derive(Clone, Copy)]
struct Decimal {
    /// The whole part.
    whole: u64,
    /// What stands behind the point, in units of 10^-12.
    behind: u64,
    ghost below: { behind < 10 ^ 12 },
}

/// Writes the low end with 12 places after the point, rounded down.
pub fn put_low(out: &mut Text, a: Enclosure) -> Result<(), OutOfMemory>
    ensures ok { OnOk result (out.new ≡ out.old ++ low_text a) }
    ensures err { OnErr result (out.new ≡ out.old) }
{
    put_places(out, rounded_down(a.low))
}

/// Writes the high end with 12 places after the point, rounded up.
pub fn put_high(out: &mut Text, a: Enclosure) -> Result<(), OutOfMemory>
    ensures ok { OnOk result (out.new ≡ out.old ++ high_text a) }
    ensures err { OnErr result (out.new ≡ out.old) }
{
    put_places(out, rounded_up(a.high))
}

// An end with 12 places, rounded down. The whole part goes by itself, since the product of an end and
// 10^12 needs more than 128 bits.
fn rounded_down(end: u128) -> Decimal
    requires { end ≤ 2 ^ 100 }
    ensures { result.whole * (10 ^ 12) + result.behind ≡ floor_div (end * (10 ^ 12)) one }
{
    let part = end % ONE * u128::from(PLACES);
    Decimal {
        whole: (end / ONE) as u64,
        behind: (part / ONE) as u64,
    }
}

// An end with 12 places, rounded up.
fn rounded_up(end: u128) -> Decimal
    requires { end ≤ 2 ^ 100 }
    ensures { result.whole * (10 ^ 12) + result.behind ≡ ceil_div (end * (10 ^ 12)) one }
{
    let part = end % ONE * u128::from(PLACES);
    let whole = (end / ONE) as u64;
    let behind = ((part + (ONE - 1)) / ONE) as u64;
    if behind < PLACES {
        return Decimal { whole, behind };
    }
    Decimal {
        whole: whole + 1,
        behind: 0,
    }
}

// Writes a value with all its places.
fn put_places(out: &mut Text, value: Decimal) -> Result<(), OutOfMemory>
    ensures ok { OnOk result (out.new ≡ out.old ++ places_text (value.whole * (10 ^ 12) + value.behind)) }
    ensures err { OnErr result (out.new ≡ out.old) }
{
    let mut digits = [b'0'; 33];
    // A 1 before the places keeps their leading zeros, and then gives way to the point.
    let point = write_digits(PLACES + value.behind, &mut digits, 33);
    digits[point] = b'.';
    let start = write_digits(value.whole, &mut digits, point);
    out.push(&digits[start..])
}
