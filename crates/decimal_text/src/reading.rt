//! Fields read as numbers, exactly or refused with the place of their first fault.
ghost use Rattle.std.specs.Prelude.{◌≡◌, ℕ, IfOk, IfErr, Result, Err};
ghost use Rattle.decimal_text.specs.Faults.{IsWholeAnswer, IsBillionthsAnswer};
ghost use Rattle.decimal_text.specs.Reading.{numeral_of, up_to_limit, whole_of, billionths_of};
ghost use Rattle.decimal_text.specs.Scanning.{AreFit, ReadsNumeral};
ghost use Rattle.decimal_text.specs.declared.fault.NumberFault.{NumberFault};

use crate::NumberFault;
use crate::scaling::{LIMIT, first_below_one, scaled};
use crate::scanning::{Parts, scan};

// The most bytes that a field may have.
const MOST_BYTES: usize = 40;

// The parts of the numeral that the field spells.
fn parts_of(field: &[u8]) -> Result<Parts<'_>, NumberFault>
    ensures ok { IfOk result (ReadsNumeral (numeral_of field.now)) }
    ensures fit { IfOk result AreFit }
    ensures err { IfErr result (λ e. numeral_of field.now ≡ Err e) }
{
    if field.is_empty() {
        return Err(NumberFault::Empty);
    }
    if field.len() > MOST_BYTES {
        return Err(NumberFault::TooLarge);
    }
    match scan(field) {
        Ok(parts) => Ok(parts),
        Err(unread) => Err(NumberFault::NotANumber {
            at: (field.len() - unread.len()) as u32,
        }),
    }
}

// The number, unless it is past the limit.
fn within_limit(number: u64) -> Result<u64, NumberFault>
    ensures { result ≡ up_to_limit number }
{
    if number > LIMIT {
        return Err(NumberFault::TooLarge);
    }
    Ok(number)
}

// Reads a whole number.
fn whole(field: &[u8]) -> Result<u64, NumberFault>
    ensures { result ≡ whole_of field.now }
{
    let parts = parts_of(field)?;
    if let Some(at) = first_below_one(&parts) {
        return Err(NumberFault::NotWhole { at });
    }
    within_limit(scaled(&parts, 0))
}

// Reads billionths.
fn billionths(field: &[u8]) -> Result<u64, NumberFault>
    ensures { result ≡ billionths_of field.now }
{
    let parts = parts_of(field)?;
    within_limit(scaled(&parts, 9))
}

/// The whole number that the field spells, at most 10^18. `155.0`, `1.55e2` and `155` are one number.
///
/// The answer is the one that the grammar of numerals gives to the field: the value, or the first fault.
pub fn read_whole(field: &[u8]) -> Result<u64, NumberFault>
    ensures answer { IsWholeAnswer field.now result }
    // No other answer is one.
    ensures only { (r : Result ℕ NumberFault) → IsWholeAnswer field.now r → result ≡ r }
    // As a function of the bytes.
    ensures exact { result ≡ whole_of field.now }
{
    whole(field)
}

/// The number that the field spells in billionths, rounded down, at most 10^18.
///
/// The answer is the one that the grammar of numerals gives to the field: the value, or the first fault.
pub fn read_billionths(field: &[u8]) -> Result<u64, NumberFault>
    ensures answer { IsBillionthsAnswer field.now result }
    // No other answer is one.
    ensures only { (r : Result ℕ NumberFault) → IsBillionthsAnswer field.now r → result ≡ r }
    // As a function of the bytes.
    ensures exact { result ≡ billionths_of field.now }
{
    billionths(field)
}
