ghost use Rattle.std.specs.Prelude.{◌≡◌, ℕ, ◌*◌, ◌^◌, ◌<◌, ◌≤◌, ◌↔◌, IfOk};
ghost use Rattle.system_model.specs.Rates.{AreRates};
ghost use Rattle.outage_chronology.specs.Masks.{compared};
ghost use Rattle.ra_base.specs.declared.limits.TheConstants.{BILLION as A_BILLION};

use crate::components::{component_count, rates_of};
use ra_base::OutOfMemory;
use ra_base::limits::BILLION;
use std::alloc::Global;
use system_model::System;

/// A word decides by one comparison with a threshold: for each component the three that stand in the
/// place of its rates, in lists apart.
#[derive(Drop)]
pub(crate) struct Thresholds {
    /// At hour 0 a component is out where the word is below this.
    pub starts_out: Vec<u32>,
    /// Later it fails while it is up where the word is below this.
    pub fails: Vec<u32>,
    /// Later it returns while it is out where the word is below this.
    pub is_repaired: Vec<u32>,
}

/// The least word that isn't below `part / whole` of all 2^32 words.
fn least_word(part: u32, whole: u32) -> u64
    requires { 0 < whole }
    ensures { (word : ℕ) → (word < result) ↔ (word * whole < part * 2 ^ 32) }
{
    ((u64::from(part) << 32) + (u64::from(whole) - 1)) / u64::from(whole)
}

/// The same as it is kept: of all words, those that are compared as below it are those that are below
/// `part / whole` of all 2^32. A word is compared as 2^32 - 2 at most, since no threshold is 2^32 - 1.
fn threshold(part: u32, whole: u32) -> u32
    requires some { 0 < whole }
    requires share { part ≤ whole }
    requires most { whole ≤ 2 * A_BILLION }
    ensures { (word : ℕ) → word < 2 ^ 32 → (compared word < result) ↔ (word * whole < part * 2 ^ 32) }
{
    least_word(part, whole).min(u64::from(u32::MAX)) as u32
}

impl Thresholds {
    ghost use Rattle.outage_chronology.specs.Thresholds.{AreThresholds};

    /// The thresholds of a system's components.
    pub fn of(alloc: Global, system: &System) -> Result<Thresholds, OutOfMemory>
        ensures { IfOk result (λ thresholds. AreThresholds system.now thresholds) }
    {
        let count = component_count(system);
        let mut starts_out = Vec::with_capacity(alloc, count as usize)?;
        let mut fails = Vec::with_capacity(alloc, count as usize)?;
        let mut is_repaired = Vec::with_capacity(alloc, count as usize)?;
        for component in 0..count {
            let rates = rates_of(system, component);
            starts_out.push(threshold(rates.f, rates.f + rates.r))?;
            fails.push(threshold(rates.f, BILLION))?;
            is_repaired.push(threshold(rates.r, BILLION))?;
        }
        Ok(Thresholds {
            starts_out,
            fails,
            is_repaired,
        })
    }
}
