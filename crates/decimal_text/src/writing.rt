//! Decimal texts at the end of a text.
ghost use Rattle.std.specs.Prelude.{◌≡◌, ◌^◌, ◌<◌, ◌≤◌, ◌++◌, OnOk, OnErr, Ok, ℕ};
ghost use Rattle.decimal_text.specs.DecimalText.{whole_text, fixed_text, IsNumeralOf, IsFraction};
ghost use Rattle.decimal_text.specs.Reading.{whole_of, billionths_of};

use crate::powers::power_of_ten;
use itoa::Buffer;
use ra_base::{OutOfMemory, Text};

// A point and as many zeros as there may be places.
const POINT_AND_ZEROS: &[u8; 13] = b".000000000000";

/// Appends the value's decimal digits, without leading zeros. Without memory the text stays as it was.
pub fn put_whole(out: &mut Text, value: u128) -> Result<(), OutOfMemory>
    ensures ok { OnOk result (out.new ≡ out.old ++ whole_text value) }
    ensures err { OnErr result (out.new ≡ out.old) }
{
    let mut buffer = Buffer::new();
    out.push(buffer.format(value).as_bytes())
}

/// Appends `value / 10^places` with exactly `places` digits behind the point, 1 to 12. Without memory the text
/// stays as it was.
pub fn put_fixed(out: &mut Text, value: u128, places: u8) -> Result<(), OutOfMemory>
    requires some { 1 ≤ places }
    requires few { places ≤ 12 }
    ensures ok { OnOk result (out.new ≡ out.old ++ fixed_text value places) }
    ensures err { OnErr result (out.new ≡ out.old) }
{
    let unit = u128::from(power_of_ten(places));
    let mut whole = Buffer::new();
    let mut behind = Buffer::new();
    let digits = behind.format((value % unit) as u64).as_bytes();
    let zeros = usize::from(places) - digits.len();
    out.push_three(
        whole.format(value / unit).as_bytes(),
        &POINT_AND_ZEROS[..1 + zeros],
        digits,
    )
}

/// The law of the texts, which does nothing: what `put_whole` and `put_fixed` write is a numeral worth what
/// was written, with as many digits behind the point as were asked for, and it is read again.
pub fn texts_are_read_again()
    ensures whole { (value : ℕ) → value < 2 ^ 128 → IsNumeralOf (whole_text value) value }
    ensures fixed { (value places : ℕ) → value < 2 ^ 128 → 1 ≤ places
        → IsFraction (fixed_text value places) value places }
    ensures whole_again { (value : ℕ) → value ≤ 10 ^ 18 → whole_of (whole_text value) ≡ Ok value }
    ensures billionths_again { (value : ℕ) → value ≤ 10 ^ 18
        → billionths_of (fixed_text value 9) ≡ Ok value }
{}
