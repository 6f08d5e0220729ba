ghost use Rattle.std.specs.Prelude.{◌≡◌, ◌<◌, ◌≤◌, ◌+◌, ◌*◌, IfSome, IsNone, ◌↔◌};
ghost use Rattle.ra_base.specs.declared.limits.TheConstants.{MOST_SAMPLES};
ghost use Rattle.sample_totals.specs.declared.results.TheConstants.{MOST_UNSERVED};
ghost use Rattle.sample_totals.specs.Estimates.{AreSums, FitsMore, FitBoth, with_value, joined_sums, mean_of, error_of, IsGreatestWithin, is_enough, IsPrecision};

/// The plain sum of a figure over samples, and the sum of its squares.
#[derive(Clone, Copy, Debug, PartialEq, Eq)]
pub struct Sums {
    /// The sum.
    pub total: u128,
    /// The sum of the squares.
    pub squares: u128,
}

impl Sums {
    /// These sums and one more value.
    pub(crate) fn with(self, value: u64) -> Sums
        requires small { value ≤ MOST_UNSERVED }
        requires fits { FitsMore self }
        ensures { result ≡ with_value self value }
    {
        let value = u128::from(value);
        Sums {
            total: self.total + value,
            squares: self.squares + value * value,
        }
    }

    /// These sums and others.
    pub(crate) fn plus(self, more: Sums) -> Sums
        requires { FitBoth self more }
        ensures { result ≡ joined_sums self more }
    {
        Sums {
            total: self.total + more.total,
            squares: self.squares + more.squares,
        }
    }
}

/// The mean over so many samples in thousandths, rounded down.
pub fn mean(sums: Sums, samples: u32) -> u128
    requires some { 0 < samples }
    requires few { samples ≤ MOST_SAMPLES }
    requires sums { AreSums sums samples }
    ensures { result ≡ mean_of sums samples }
{
    1000 * sums.total / u128::from(samples)
}

/// The standard error of the mean over so many samples in thousandths, rounded down: the root of
/// `(N * Q - S^2) / (N^2 * (N - 1))` for `N` samples with the sum `S` and the sum of squares `Q`.
/// One sample has none.
pub fn error(sums: Sums, samples: u32) -> Option<u128>
    requires some { 0 < samples }
    requires few { samples ≤ MOST_SAMPLES }
    requires sums { AreSums sums samples }
    ensures one { IsNone result ↔ (samples ≡ 1) }
    ensures greatest { IfSome result (IsGreatestWithin sums samples) }
    ensures value { result ≡ error_of sums samples }
{
    if samples == 1 {
        return None;
    }
    let n = u128::from(samples);
    let spread = 1_000_000 * (n * sums.squares - sums.total * sums.total);
    Some((spread / (n * n * (n - 1))).isqrt())
}

/// Whether so many samples are enough: there is no precision, or there are two or more and their standard
/// error is at most `precision` thousandths of the mean. For `N` samples with the sum `S` and the sum of
/// squares `Q` that is `10^6 * (N * Q - S^2) <= precision^2 * S^2 * (N - 1)`.
pub fn enough(sums: Sums, samples: u32, precision: Option<u16>) -> bool
    requires some { 0 < samples }
    requires few { samples ≤ MOST_SAMPLES }
    requires sums { AreSums sums samples }
    requires precision { IfSome precision IsPrecision }
    ensures { result ≡ is_enough sums samples precision }
{
    let Some(precision) = precision else {
        return true;
    };
    if samples < 2 {
        return false;
    }
    let n = u128::from(samples);
    let precision = u128::from(precision);
    let square = sums.total * sums.total;
    let spread = 1_000_000 * (n * sums.squares - square);
    // A product that 128 bits don't hold is above each spread.
    spread <= (precision * precision * square).saturating_mul(n - 1)
}
