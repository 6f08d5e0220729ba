ghost use Rattle.std.specs.Prelude.{◌^◌, ◌≤◌};

/// A value is certainly at least `low` and at most `high`, both in units of 2^-60.
#[derive(Clone, Copy, Debug, PartialEq, Eq)]
pub struct Enclosure {
    /// What the value is not below.
    pub low: u128,
    /// What the value is not above.
    pub high: u128,
    ghost ordered: { low ≤ high },
    ghost bounded: { high ≤ 2 ^ 100 },
}
