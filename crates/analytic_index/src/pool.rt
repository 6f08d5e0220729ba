ghost use Rattle.std.specs.Prelude.{◌≡◌, IfOk};
ghost use Rattle.system_model.specs.System.{IsValid};
ghost use Rattle.analytic_index.specs.Pool.{pooled_units};

use outage_table::PooledUnit;
use ra_base::OutOfMemory;
use std::alloc::Global;
use system_model::{Rates, System};

/// A unit that a system doesn't have, and that is put in behind its own.
#[derive(Clone, Copy, Debug, PartialEq, Eq)]
pub struct NewUnit {
    /// What it gives while it is in service, in MW.
    pub capacity: u32,
    /// How it fails and is repaired.
    pub rates: Rates,
}

/// The system's units, wherever they stand, and the extra one behind them.
pub(crate) fn pooled(
    alloc: Global,
    system: &System,
    extra: Option<NewUnit>,
) -> Result<Vec<PooledUnit>, OutOfMemory>
    ensures value { IfOk result (λ units. units.items ≡ pooled_units system.now extra) }
    ensures valid { IsValid system.now }
{
    let mut units = Vec::with_capacity(alloc, system.units() as usize + 1)?;
    for at in 0..system.units() {
        let unit = system.unit(at);
        units.push(PooledUnit {
            capacity: unit.capacity,
            rates: unit.rates,
        })?;
    }
    if let Some(unit) = extra {
        let last = PooledUnit {
            capacity: unit.capacity,
            rates: unit.rates,
        };
        units.push(last)?;
    }
    Ok(units)
}
