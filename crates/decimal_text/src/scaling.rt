//! What the parts of a numeral are worth, and the first digit below one.
ghost use Rattle.std.specs.Prelude.{◌≡◌, ◌+◌, ◌*◌, ◌^◌, ◌<◌, ◌≤◌, length, IfSome};
ghost use Rattle.std.specs.Str.Parse.{AllDigits, digits_value_after};
ghost use Rattle.decimal_text.specs.Numeral.{Numeral};
ghost use Rattle.decimal_text.specs.Reading.{scaled, first_not_zero, first_below_one};
ghost use Rattle.decimal_text.specs.Scanning.{HasParts, AreFit, IsKept, kept_of, capped};

use crate::powers::power_of_ten;
use crate::scanning::Parts;

/// The largest number that is answered, 10^18.
pub const LIMIT: u64 = 1_000_000_000_000_000_000;

// Stands for each number above the limit.
const PAST_LIMIT: u64 = 1_000_000_000_000_000_001;

// How many digits on each side of the point weigh one or more, and how many zeros follow them.
#[derive(Clone, Copy)]
struct Kept {
    before: usize,
    after: usize,
    zeros: u128,
}

// The digits of the numeral by ten to the shift that weigh one or more.
fn kept_digits(parts: &Parts<'_>, shift: u8) -> Kept
    requires fit { AreFit parts.now }
    ensures { let p = parts.now in
        IsKept (kept_of p shift) p.whole.now p.behind.now result.before result.after result.zeros }
{
    let whole = parts.whole.len() as u128;
    let behind = parts.behind.len() as u128;
    let kept = (whole + u128::from(shift) + parts.raised).saturating_sub(parts.lowered);
    Kept {
        before: kept.min(whole) as usize,
        after: kept.saturating_sub(whole).min(behind) as usize,
        zeros: kept.saturating_sub(whole + behind),
    }
}

// The number that the digits write behind those of another, or one past the limit.
fn with_digits(start: u64, digits: &[u8]) -> u64
    requires small { start ≤ 10 ^ 18 + 1 }
    requires digits { AllDigits 10 digits.now }
    ensures { result ≡ capped (digits_value_after 10 start digits.now) }
{
    let mut number = start;
    for digit in digits {
        number = (number * 10 + u64::from(*digit - b'0')).min(PAST_LIMIT);
    }
    number
}

// The number with zeros behind it, or one past the limit.
fn with_zeros(number: u64, zeros: u128) -> u64
    requires { number ≤ 10 ^ 18 + 1 }
    ensures { result ≡ capped (number * 10 ^ zeros) }
{
    if number == 0 {
        return 0;
    }
    if zeros > 18 {
        return PAST_LIMIT;
    }
    let grown = u128::from(number) * u128::from(power_of_ten(zeros as u8));
    grown.min(u128::from(PAST_LIMIT)) as u64
}

/// The numeral by ten to the shift, rounded down, or one past the limit.
pub fn scaled(parts: &Parts<'_>, shift: u8) -> u64
    requires fit { AreFit parts.now }
    ensures { (n : Numeral) → HasParts n parts.now → result ≡ capped (scaled shift n) }
{
    let kept = kept_digits(parts, shift);
    let whole = with_digits(0, &parts.whole[..kept.before]);
    let number = with_digits(whole, &parts.behind[..kept.after]);
    with_zeros(number, kept.zeros)
}

// How many zeros stand in front, where another digit follows.
fn first_not_zero(digits: &[u8]) -> Option<usize>
    ensures value { result ≡ first_not_zero digits.now }
    ensures within { IfSome result (λ k. k < length digits.now) }
{
    for (i, digit) in digits.iter().enumerate() {
        if *digit != b'0' {
            return Some(i);
        }
    }
    None
}

/// The place of the first digit other than 0 whose weight is below one.
pub fn first_below_one(parts: &Parts<'_>) -> Option<u32>
    requires fit { AreFit parts.now }
    ensures { (n : Numeral) → HasParts n parts.now → result ≡ first_below_one n }
{
    let kept = kept_digits(parts, 0);
    if let Some(zeros) = first_not_zero(&parts.whole[kept.before..]) {
        return Some((kept.before + zeros) as u32);
    }
    let zeros = first_not_zero(&parts.behind[kept.after..])?;
    Some((parts.whole.len() + 1 + kept.after + zeros) as u32)
}
