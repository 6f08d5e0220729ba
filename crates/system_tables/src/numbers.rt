//! Whole numbers, of which most fields are plain digits.
ghost use Rattle.std.specs.Prelude.{◌≡◌, ◌≤◌, ◌^◌, IfOk, IfSome, Ok};
ghost use Rattle.decimal_text.specs.Reading.{whole_of};

use decimal_text::{NumberFault, read_whole};

// The most digits of a number that surely isn't too large.
const PLAIN_DIGITS: usize = 18;

// The number that 1 to 18 digits write: what most fields are, read in one go.
fn plain_number(field: &[u8]) -> Option<u64>
    ensures exact { IfSome result (λ number. whole_of field.now ≡ Ok number) }
    ensures small { IfSome result (λ number. number ≤ 10 ^ 18) }
{
    if field.is_empty() || field.len() > PLAIN_DIGITS {
        return None;
    }
    let mut number = 0;
    for byte in field {
        if !byte.is_ascii_digit() {
            return None;
        }
        number = number * 10 + u64::from(*byte - b'0');
    }
    Some(number)
}

/// The whole number that a field spells, or its fault.
pub(crate) fn whole_number(field: &[u8]) -> Result<u64, NumberFault>
    ensures exact { result ≡ whole_of field.now }
    ensures small { IfOk result (λ number. number ≤ 10 ^ 18) }
{
    if let Some(number) = plain_number(field) {
        return Ok(number);
    }
    read_whole(field)
}
