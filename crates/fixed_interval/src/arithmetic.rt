ghost use Rattle.std.specs.Prelude.{◌≡◌, ℕ, ◌+◌, ◌*◌, ◌^◌, ◌<◌, ◌≤◌};
ghost use Rattle.fixed_interval.specs.Enclosure.{one, Encloses};
ghost use Rattle.fixed_interval.specs.Rounding.{floor_div, ceil_div};

use crate::enclosure::Enclosure;

/// The mean of two enclosed parts of 1, `up` with the weight `r` and `out` with the weight `f`, each
/// end rounded outward.
pub fn mix(up: Enclosure, out: Enclosure, f: u64, r: u64) -> Enclosure
    requires up_is_part { up.high ≤ one }
    requires out_is_part { out.high ≤ one }
    requires f_bounded { f ≤ 10 ^ 18 }
    requires r_bounded { r ≤ 10 ^ 18 }
    requires weighed { 0 < f + r }

    ensures low { result.low ≡ floor_div (r * up.low + f * out.low) (f + r) }
    ensures high { result.high ≡ ceil_div (r * up.high + f * out.high) (f + r) }
    ensures part { result.high ≤ one }

    // Each end is off the exact mean of the ends by less than one unit.
    ensures low_close { r * up.low + f * out.low < (result.low + 1) * (f + r) }
    ensures high_close { result.high * (f + r) < r * up.high + f * out.high + (f + r) }

    // The mean of any two enclosed values, `a / m` and `b / n`, is enclosed.
    ensures encloses { (a m b n : ℕ) → Encloses up a m → Encloses out b n
        → Encloses result (r * (a * n) + f * (b * m)) ((f + r) * (m * n)) }
{
    Enclosure {
        low: low_mean(up.low, out.low, f, r),
        high: high_mean(up.high, out.high, f, r),
    }
}

/// The sum of two enclosed values.
pub fn add(a: Enclosure, b: Enclosure) -> Enclosure
    requires { a.high + b.high ≤ 2 ^ 100 }

    ensures low { result.low ≡ a.low + b.low }
    ensures high { result.high ≡ a.high + b.high }
    ensures encloses { (p m q n : ℕ) → Encloses a p m → Encloses b q n
        → Encloses result (p * n + q * m) (m * n) }
{
    Enclosure {
        low: a.low + b.low,
        high: a.high + b.high,
    }
}

/// A whole multiple of an enclosed value.
pub fn scale(a: Enclosure, times: u32) -> Enclosure
    requires { a.high * times ≤ 2 ^ 100 }

    ensures low { result.low ≡ a.low * times }
    ensures high { result.high ≡ a.high * times }
    ensures encloses { (p m : ℕ) → Encloses a p m → Encloses result (p * times) m }
{
    Enclosure {
        low: a.low * u128::from(times),
        high: a.high * u128::from(times),
    }
}

// The mean of two ends, rounded down. Where `out` is the larger end, as in each table of outages,
// only what it has more is weighed: far out in a table that is too little to be divided.
fn low_mean(up: u128, out: u128, f: u64, r: u64) -> u128
    requires up_is_part { up ≤ one }
    requires out_is_part { out ≤ one }
    requires f_bounded { f ≤ 10 ^ 18 }
    requires r_bounded { r ≤ 10 ^ 18 }
    requires weighed { 0 < f + r }
    ensures { result ≡ floor_div (r * up + f * out) (f + r) }
{
    let weight = u128::from(f) + u128::from(r);
    if out < up {
        return (u128::from(r) * up + u128::from(f) * out) / weight;
    }
    let more = u128::from(f) * u128::from((out - up) as u64);
    if more < weight {
        return up;
    }
    up + more / weight
}

// The mean of two ends, rounded up.
fn high_mean(up: u128, out: u128, f: u64, r: u64) -> u128
    requires up_is_part { up ≤ one }
    requires out_is_part { out ≤ one }
    requires f_bounded { f ≤ 10 ^ 18 }
    requires r_bounded { r ≤ 10 ^ 18 }
    requires weighed { 0 < f + r }
    ensures { result ≡ ceil_div (r * up + f * out) (f + r) }
{
    let weight = u128::from(f) + u128::from(r);
    if out < up {
        return (u128::from(r) * up + u128::from(f) * out + (weight - 1)) / weight;
    }
    let more = u128::from(f) * u128::from((out - up) as u64);
    if more == 0 {
        return up;
    }
    if more < weight {
        return up + 1;
    }
    up + (more + (weight - 1)) / weight
}
