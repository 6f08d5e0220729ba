ghost use Rattle.std.specs.Prelude.{◌≡◌, ℕ, ◌+◌, ◌-◌, ◌*◌, ◌<◌, ◌≤◌, [], ◌∷◌, ◌++◌, length, All, slice_index_or, IfOk};
ghost use Rattle.fixed_interval.specs.Enclosure.{one};
ghost use Rattle.fixed_interval.specs.Rounding.{floor_div, ceil_div};
ghost use Rattle.system_model.specs.Rates.{AreRates};
ghost use Rattle.load_model.specs.Need.{AreNetHours, need_of, no_net_hour};
ghost use Rattle.outage_table.specs.States.{total_capacity, all_weight};
ghost use Rattle.outage_table.specs.Grid.{unserved_grid};
ghost use Rattle.analytic_index.specs.Pool.{IsExtra, IsNewUnit, pool_of};
ghost use Rattle.analytic_index.specs.Index.{needs_of, shifted_needs, IsIndex, EnclosesIndex, IsNarrow, AreEndsWithin};
ghost use Rattle.analytic_index.specs.Kept.{AreUnserved};

use crate::indices::Index;
use crate::pool::{NewUnit, pooled};
use fixed_interval::{Enclosure, add, scale};
use load_model::NetLoad;
use outage_table::{AddError, OutageTable};
use ra_base::OutOfMemory;
use ra_base::limits::{MOST_POOLED_MW, MOST_TABLE_MW};
use std::alloc::Global;
use std::marker::Model;
use system_model::System;

/// 1, in units of 2^-60.
const ONE: Enclosure = Enclosure {
    low: 1 << 60,
    high: 1 << 60,
};

/// Nothing.
const NONE: Enclosure = Enclosure { low: 0, high: 0 };

/// The indices of a system with or without an extra unit, seen as the pool that they are about.
///
/// Only `new` and `with_unit` take memory. Hours count from 0.
#[derive(Drop)]
pub struct Analysis {
    table: OutageTable,
    loads: NetLoad,
    // What is unserved under a need of 0 MW, 1 MW and so on up to the table's total.
    unserved: Vec<Enclosure>,
}

impl Model for Analysis {
    ghost use Rattle.analytic_index.specs.Pool.{Pool};
    ghost use Rattle.analytic_index.specs.Kept.{IsKept};

    ghost Value = { Pool };

    ghost view = { λ a. record { units = a.table; hours = a.loads } };

    ghost invariant = { λ a. IsKept a.unserved.items a.table };
}

impl Analysis {
    /// The analysis of the system, with the extra unit behind its own where there is one.
    pub fn new(
        alloc: Global,
        system: &System,
        extra: Option<NewUnit>,
    ) -> Result<Analysis, OutOfMemory>
        requires { IsExtra extra }
        ensures pool { IfOk result (λ analysis. analysis ≡ pool_of system.now extra) }
        ensures rated { IfOk result (λ analysis. All (λ unit. AreRates unit.rates) analysis.units) }
        ensures small { extra ≡ None
            → IfOk result (λ analysis. total_capacity analysis.units ≤ MOST_POOLED_MW) }
    {
        let units = pooled(alloc, system, extra)?;
        let table = OutageTable::of_units(alloc, &units)?;
        let loads = NetLoad::new(alloc, system)?;
        let unserved = unserved_sums(alloc, &table)?;
        Ok(Analysis {
            table,
            loads,
            unserved,
        })
    }

    /// The analysis of the same system with this unit behind its own, which is what `new` gives, in the
    /// time that one unit takes.
    pub fn with_unit(
        &self,
        alloc: Global,
        system: &System,
        unit: NewUnit,
    ) -> Result<Analysis, OutOfMemory>
        requires pool { self.now ≡ pool_of system.now None }
        requires unit { IsNewUnit unit }
        requires small { total_capacity self.now.units + unit.capacity ≤ MOST_TABLE_MW }
        ensures pool { IfOk result (λ analysis. analysis ≡ pool_of system.now (Some unit)) }
        ensures rated { IfOk result (λ analysis. All (λ unit. AreRates unit.rates) analysis.units) }
    {
        let table = table_with(alloc, &self.table, unit)?;
        let loads = NetLoad::new(alloc, system)?;
        let unserved = unserved_sums(alloc, &table)?;
        Ok(Analysis {
            table,
            loads,
            unserved,
        })
    }

    /// The index over all hours.
    pub fn index(&self) -> Index
        ensures written { IsIndex result self.now.units (needs_of self.now.hours) }
        ensures encloses { EnclosesIndex result self.now.units (needs_of self.now.hours) }
        ensures possible { 0 < all_weight self.now.units }
        ensures width { IsNarrow result self.now.units (needs_of self.now.hours) }
    {
        self.sum_of_hours(0, 0)
    }

    /// The index of one hour alone: the probability that less is in service than is needed, and the
    /// expected MW that aren't served.
    pub fn hourly(&self, hour: u32) -> Index
        requires { hour < length self.now.hours }
        ensures written { IsIndex result self.now.units
            (need_of (slice_index_or self.now.hours hour no_net_hour) ∷ []) }
        ensures encloses { EnclosesIndex result self.now.units
            (need_of (slice_index_or self.now.hours hour no_net_hour) ∷ []) }
        ensures possible { 0 < all_weight self.now.units }
        ensures width { IsNarrow result self.now.units
            (need_of (slice_index_or self.now.hours hour no_net_hour) ∷ []) }
    {
        self.index_of_hour(self.loads.need(hour))
    }

    /// The index over all hours under `more` MW of further load and `less` MW of further supply. Each
    /// hour's net load is shifted before it is cut at 0.
    pub fn index_shifted(&self, less: u32, more: u32) -> Index
        requires less { less ≤ MOST_POOLED_MW }
        requires more { more ≤ MOST_POOLED_MW }
        ensures written { IsIndex result self.now.units (shifted_needs less more self.now.hours) }
        ensures encloses { EnclosesIndex result self.now.units (shifted_needs less more self.now.hours) }
        ensures possible { 0 < all_weight self.now.units }
        ensures width { IsNarrow result self.now.units (shifted_needs less more self.now.hours) }

        // No end grows with `less` or falls with `more`.
        ensures falls { (l m : ℕ) → less ≤ l → m ≤ more
            → AreEndsWithin self.now.units (shifted_needs l m self.now.hours) result }
    {
        self.sum_of_hours(less, more)
    }

    /// The outage table of the units.
    pub fn table(&self) -> &OutageTable
        ensures { result.now ≡ self.now.units }
    {
        &self.table
    }

    /// The net loads of the hours.
    pub fn loads(&self) -> &NetLoad
        ensures { result.now ≡ self.now.hours }
    {
        &self.loads
    }

    // The index over all hours with shifted needs, hour by hour.
    fn sum_of_hours(&self, less: u32, more: u32) -> Index
        requires less { less ≤ MOST_POOLED_MW }
        requires more { more ≤ MOST_POOLED_MW }
        ensures written { IsIndex result self.now.units (shifted_needs less more self.now.hours) }
        ensures rated { All (λ unit. AreRates unit.rates) self.now.units }
    {
        let mut lole = NONE;
        let mut eue = NONE;
        for hour in self.loads.net_hours() {
            let index = self.index_of_hour(hour.shifted(less, more));
            lole = add(lole, index.lole);
            eue = add(eue, index.eue);
        }
        Index { lole, eue }
    }

    // The index of an hour with this need.
    fn index_of_hour(&self, need: u32) -> Index
        requires { need ≤ MOST_TABLE_MW }
        ensures written { IsIndex result self.now.units (need ∷ []) }
        ensures part { result.lole.high ≤ one }
        ensures bound { result.eue.high ≤ MOST_TABLE_MW * one }
        ensures rated { All (λ unit. AreRates unit.rates) self.now.units }
    {
        // One MW more than can be spared, or everything.
        let too_much = (self.table.total() + 1).saturating_sub(need);
        Index {
            lole: self.table.at_least(too_much),
            eue: self.unserved_under(need),
        }
    }

    // The expected MW that are unserved under a need. Past the whole capacity each further MW is.
    fn unserved_under(&self, need: u32) -> Enclosure
        requires { need ≤ MOST_TABLE_MW }
        ensures low { result.low ≡ unserved_grid floor_div self.now.units need }
        ensures high { result.high ≡ unserved_grid ceil_div self.now.units need }
        ensures bound { result.high ≤ need * one }
    {
        let total = self.table.total();
        if need <= total {
            return self.unserved[need as usize];
        }
        add(self.unserved[total as usize], scale(ONE, need - total))
    }
}

// The table with one more unit.
fn table_with(alloc: Global, table: &OutageTable, unit: NewUnit) -> Result<OutageTable, OutOfMemory>
    requires rated { AreRates unit.rates }
    requires small { total_capacity table.now + unit.capacity ≤ MOST_TABLE_MW }
    ensures { IfOk result (λ with_unit. with_unit ≡ table.now
        ++ record { capacity = unit.capacity; rates = unit.rates } ∷ []) }
{
    let mut with_unit = table.copy(alloc)?;
    match with_unit.add_unit(unit.capacity, unit.rates) {
        Ok(()) => Ok(with_unit),
        Err(AddError::OutOfMemory) => Err(OutOfMemory),
        Err(AddError::TooLarge { .. }) => unreachable!(),
    }
}

// What is unserved under each need up to the table's total.
fn unserved_sums(alloc: Global, table: &OutageTable) -> Result<Vec<Enclosure>, OutOfMemory>
    ensures { IfOk result (λ sums. AreUnserved sums.items table.now (total_capacity table.now + 1)) }
{
    let total = table.total();
    let mut sums = Vec::with_capacity(alloc, total as usize + 1)?;
    let mut sum = NONE;
    sums.push(sum)?;
    for most in 0..total {
        sum = add(sum, table.at_least(total - most));
        sums.push(sum)?;
    }
    Ok(sums)
}
