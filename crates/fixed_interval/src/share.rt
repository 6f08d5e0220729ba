ghost use Rattle.std.specs.Prelude.{◌≡◌, ℕ, ◌+◌, ◌*◌, ◌^◌, ◌<◌, ◌≤◌, min};
ghost use Rattle.fixed_interval.specs.Rounding.{floor_div, ceil_div};

/// 2^64.
const WORD: u128 = 1 << 64;

/// The part `out / all` of a whole, of which one division makes ready what many parts are taken by.
#[derive(Clone, Copy, Debug, PartialEq, Eq)]
pub struct Share {
    /// The weight of the part.
    pub out: u64,
    /// The weight of the whole.
    pub all: u64,
    /// The share in units of 2^-64, rounded down.
    reciprocal: u64,
    /// The share of so much and of less is below 1. It is 0 where the share is 0.
    small: u64,
    ghost weighed: { 0 < all },
    ghost part: { out ≤ all },
    ghost below: { reciprocal * all ≤ 2 ^ 64 * out },
    ghost above: { 2 ^ 64 * out ≤ (reciprocal + 1) * all },
    ghost less: { out * small < all },
    ghost none: { out ≡ 0 → small ≡ 0 },
}

impl Share {
    /// The share of the weight `out` against the weight `up`.
    pub fn new(out: u64, up: u64) -> Share
        requires out_bounded { out ≤ 10 ^ 18 }
        requires up_bounded { up ≤ 10 ^ 18 }
        requires weighed { 0 < out + up }
        ensures out { result.out ≡ out }
        ensures all { result.all ≡ out + up }
    {
        let all = out + up;
        let quotient = u128::from(out) * WORD / u128::from(all);
        let reciprocal = quotient.min(WORD - 1) as u64;
        Share {
            out,
            all,
            reciprocal,
            small: below_one(out, all),
        }
    }

    /// The share of a difference, rounded down.
    #[inline]
    pub fn floor(self, difference: u64) -> u64
        ensures value { result ≡ floor_div (self.out * difference) self.all }
        ensures part { result ≤ difference }
    {
        if difference <= self.small {
            return 0;
        }
        let product = u128::from(difference) * u128::from(self.reciprocal);
        let rest = product % WORD;
        if rest + u128::from(difference) < WORD {
            return (product / WORD) as u64;
        }
        self.divided(difference)
    }

    /// The share of a difference, rounded up.
    #[inline]
    pub fn ceil(self, difference: u64) -> u64
        ensures value { result ≡ ceil_div (self.out * difference) self.all }
        ensures part { result ≤ difference }
    {
        if difference <= self.small {
            return difference.min(1);
        }
        let product = u128::from(difference) * u128::from(self.reciprocal);
        let rest = product % WORD;
        if rest > 0 && rest + u128::from(difference) < WORD {
            return (product / WORD) as u64 + 1;
        }
        self.divided_up(difference)
    }

    /// The share of so much or of less is 0 or below 1, so that a difference, whatever it is, is
    /// rounded up to 1.
    #[inline]
    pub fn small(self) -> u64
        ensures { (d : ℕ) → d ≤ result → ceil_div (self.out * d) self.all ≡ min d 1 }
    {
        self.small
    }

    // Too near to a whole number for the reciprocal to tell.
    #[cold]
    fn divided(self, difference: u64) -> u64
        ensures value { result ≡ floor_div (self.out * difference) self.all }
        ensures part { result ≤ difference }
    {
        (u128::from(self.out) * u128::from(difference) / u128::from(self.all)) as u64
    }

    #[cold]
    fn divided_up(self, difference: u64) -> u64
        ensures value { result ≡ ceil_div (self.out * difference) self.all }
        ensures part { result ≤ difference }
    {
        let all = u128::from(self.all);
        ((u128::from(self.out) * u128::from(difference) + (all - 1)) / all) as u64
    }
}

// The most of which the share is below 1, or 0 where the share is 0.
fn below_one(out: u64, all: u64) -> u64
    requires { 0 < all }
    ensures less { out * result < all }
    ensures none { out ≡ 0 → result ≡ 0 }
{
    if out == 0 {
        return 0;
    }
    (all - 1) / out
}
