//! A field taken apart into the parts of a numeral.
ghost use Rattle.std.specs.Prelude.{◌≡◌, ◌+◌, ◌^◌, ◌<◌, ◌≤◌, ℕ, List, Option, Err, length, unwrap_or, IfOk, IfErr, IsTrue, ◌↔◌, ◌⊎◌, []};
ghost use Rattle.std.specs.Str.Parse.{AllDigits, digits_value};
ghost use Rattle.decimal_text.specs.Numeral.{Sign, Minus};
ghost use Rattle.decimal_text.specs.Reading.{nothing, read_on};
ghost use Rattle.decimal_text.specs.Scanning.{SplitsDigits, SplitsPoint, SplitsSign, ReadsParts, AreFit};

/// The parts of a numeral that say what it is worth.
#[derive(Clone, Copy)]
pub struct Parts<'a> {
    /// The digits before the point.
    pub whole: &'a [u8],
    /// The digits behind it.
    pub behind: &'a [u8],
    /// By how many powers of ten the exponent raises.
    pub raised: u128,
    /// By how many it lowers.
    pub lowered: u128,
}

// As many digits as stand at the front, and what follows them.
fn split_digits(bytes: &[u8]) -> (&[u8], &[u8])
    ensures { SplitsDigits bytes.now result.0.now result.1.now }
{
    for (i, byte) in bytes.iter().enumerate() {
        if !byte.is_ascii_digit() {
            return bytes.split_at(i);
        }
    }
    bytes.split_at(bytes.len())
}

// The digits behind a point, where one stands in front, and what follows them.
fn split_point(bytes: &[u8]) -> (&[u8], &[u8])
    ensures { (f : Option (List ℕ)) × SplitsPoint bytes.now f result.1.now
        × (result.0.now ≡ unwrap_or f []) }
{
    match bytes.split_first() {
        Some((b'.', rest)) => split_digits(rest),
        _ => bytes.split_at(0),
    }
}

// Whether a minus stands in front, and what follows a sign.
fn split_sign(bytes: &[u8]) -> (bool, &[u8])
    ensures { (s : Sign) × SplitsSign bytes.now s result.1.now × (IsTrue result.0 ↔ (s ≡ Minus)) }
{
    match bytes.split_first() {
        Some((b'-', rest)) => (true, rest),
        Some((b'+', rest)) => (false, rest),
        _ => (false, bytes),
    }
}

// Whether a digit stands on either side of a point.
fn has_digit(whole: &[u8], behind: &[u8]) -> bool
    ensures { IsTrue result ↔ (0 < length whole.now + length behind.now) }
{
    !whole.is_empty() || !behind.is_empty()
}

// Whether an exponent begins so.
fn is_letter(byte: u8) -> bool
    ensures { IsTrue result ↔ ((byte ≡ 101) ⊎ (byte ≡ 69)) }
{
    byte == b'e' || byte == b'E'
}

// The number that an exponent's digits write.
fn number_of(digits: &[u8]) -> u128
    requires few { length digits.now ≤ 38 }
    requires digits { AllDigits 10 digits.now }
    ensures value { result ≡ digits_value 10 digits.now }
    ensures small { result < 10 ^ 38 }
{
    let mut number = 0;
    for digit in digits {
        number = number * 10 + u128::from(*digit - b'0');
    }
    number
}

/// The parts of the numeral that the field spells, or the bytes where it stops being one.
pub fn scan(field: &[u8]) -> Result<Parts<'_>, &[u8]>
    requires { length field.now ≤ 40 }
    ensures read { IfOk result (ReadsParts (read_on nothing field.now)) }
    ensures fit { IfOk result AreFit }
    ensures err { IfErr result (λ rest. read_on nothing field.now ≡ Err rest.now) }
{
    let (whole, after_whole) = split_digits(field);
    let (behind, rest) = split_point(after_whole);
    if !has_digit(whole, behind) {
        return Err(rest);
    }
    let Some((letter, after_letter)) = rest.split_first() else {
        return Ok(Parts {
            whole,
            behind,
            raised: 0,
            lowered: 0,
        });
    };
    if !is_letter(*letter) {
        return Err(rest);
    }
    let (is_minus, after_sign) = split_sign(after_letter);
    let (digits, unread) = split_digits(after_sign);
    if digits.is_empty() {
        return Err(unread);
    }
    if !unread.is_empty() {
        return Err(unread);
    }
    let exponent = number_of(digits);
    if is_minus {
        return Ok(Parts {
            whole,
            behind,
            raised: 0,
            lowered: exponent,
        });
    }
    Ok(Parts {
        whole,
        behind,
        raised: exponent,
        lowered: 0,
    })
}
