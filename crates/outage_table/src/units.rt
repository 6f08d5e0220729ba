use system_model::Rates;

/// A generating unit of the pool, wherever it stands.
#[derive(Clone, Copy, Debug, PartialEq, Eq)]
pub struct PooledUnit {
    /// What it gives while it is in service, in MW.
    pub capacity: u32,
    /// How it fails and is repaired.
    pub rates: Rates,
}
