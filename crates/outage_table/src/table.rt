ghost use Rattle.std.specs.Prelude.{◌≡◌, ℕ, ◌+◌, ◌-◌, ◌*◌, ◌<◌, ◌≤◌, [], ◌∷◌, ◌++◌, length, All, IfOk, OnOk, OnErr};
ghost use Rattle.fixed_interval.specs.Enclosure.{one, Encloses};
ghost use Rattle.fixed_interval.specs.Rounding.{floor_div, ceil_div};
ghost use Rattle.system_model.specs.Rates.{AreRates};
ghost use Rattle.outage_table.specs.States.{total_capacity, all_weight, outage_weight, short_weight, lack_weight};
ghost use Rattle.outage_table.specs.Grid.{grid, unserved_grid};
ghost use Rattle.outage_table.specs.Refusal.{AnswersTotal};

use crate::entries::{lengthen, mix_all};
use crate::error::AddError;
use crate::fleet::entries_of;
use crate::limits::ONE;
use crate::units::PooledUnit;
use fixed_interval::{Enclosure, Share, add};
use ra_base::OutOfMemory;
use ra_base::limits::MOST_TABLE_MW;
use std::alloc::Global;
use std::marker::Model;
use system_model::Rates;

/// The capacity outage table of a list of units, in the order in which they were added.
#[derive(Drop)]
pub struct OutageTable {
    units: Vec<PooledUnit>,
    entries: Vec<Enclosure>,
}

impl Model for OutageTable {
    ghost use Rattle.std.specs.Prelude.{List};
    ghost use Rattle.outage_table.specs.declared.units.PooledUnit.{PooledUnit};
    ghost use Rattle.outage_table.specs.Table.{IsTable};

    ghost Value = { List PooledUnit };

    ghost view = { λ t. t.units.items };

    ghost invariant = { λ t. IsTable t.entries.items t.units.items };
}

impl OutageTable {
    /// The table without units.
    pub fn empty(alloc: Global) -> Result<OutageTable, OutOfMemory>
        ensures { IfOk result (λ table. table ≡ []) }
    {
        let mut entries = Vec::new(alloc);
        let certain = Enclosure {
            low: ONE,
            high: ONE,
        };
        entries.push(certain)?;
        Ok(OutageTable {
            units: Vec::new(alloc),
            entries,
        })
    }

    /// The table of these units, as if they were added one after the other. It answers that memory
    /// isn't found also where there are 4,294,967,296 of them.
    pub fn of_units(alloc: Global, units: &[PooledUnit]) -> Result<OutageTable, OutOfMemory>
        requires rated { All (λ unit. AreRates unit.rates) units.now }
        requires small { total_capacity units.now ≤ MOST_TABLE_MW }
        ensures { IfOk result (λ table. table ≡ units.now) }
    {
        if units.len() >= u32::MAX as usize {
            return Err(OutOfMemory);
        }
        let entries = entries_of(alloc, units)?;
        Ok(OutageTable {
            units: Vec::from_slice(alloc, units)?,
            entries,
        })
    }

    /// A table of the same units.
    pub fn copy(&self, alloc: Global) -> Result<OutageTable, OutOfMemory>
        ensures { IfOk result (λ table. table ≡ self.now) }
    {
        Ok(OutageTable {
            units: Vec::from_slice(alloc, &self.units)?,
            entries: Vec::from_slice(alloc, &self.entries)?,
        })
    }

    /// Adds a unit of so many MW after the others. A refusal leaves the table as it was.
    ///
    /// # Errors
    /// `TooLarge` exactly where the new total would pass 400,000 MW, with that total; it is tested
    /// first. `OutOfMemory` where memory isn't found, or where the table has 4,294,967,295 units.
    pub fn add_unit(&mut self, capacity: u32, rates: Rates) -> Result<(), AddError>
        requires { AreRates rates }
        ensures ok { OnOk result (self.new ≡ self.old ++ record { capacity = capacity; rates = rates } ∷ []) }
        ensures too_large { AnswersTotal result (total_capacity self.old + capacity) }
        ensures err { OnErr result (self.new ≡ self.old) }
    {
        let total = u64::from(self.total()) + u64::from(capacity);
        if total > u64::from(MOST_TABLE_MW) {
            return Err(AddError::TooLarge { total });
        }
        if self.units.len() >= u32::MAX as usize {
            return Err(AddError::OutOfMemory);
        }
        self.units.push(PooledUnit { capacity, rates })?;
        match lengthen(&mut self.entries, total as usize + 1) {
            Ok(()) => {
                let share = Share::new(u64::from(rates.f), u64::from(rates.r));
                mix_all(&mut self.entries, capacity as usize, share);
                Ok(())
            }
            Err(e) => {
                self.units.pop();
                Err(AddError::from(e))
            }
        }
    }

    /// The capacity of all units, in MW.
    pub fn total(&self) -> u32
        ensures value { result ≡ total_capacity self.now }
        ensures small { result ≤ MOST_TABLE_MW }
    {
        (self.entries.len() - 1) as u32
    }

    /// The number of units.
    pub fn units(&self) -> u32
        ensures { result ≡ length self.now }
    {
        self.units.len() as u32
    }

    /// The probability that an outage of `x` MW or more is there. It takes no memory.
    pub fn at_least(&self, x: u32) -> Enclosure
        ensures low { result.low ≡ grid floor_div self.now x }
        ensures high { result.high ≡ grid ceil_div self.now x }

        // By the definition on states: the weight of those with such an outage, over the weight of all.
        ensures encloses { Encloses result (outage_weight self.now 0 x) (all_weight self.now) }
        ensures possible { 0 < all_weight self.now }
        ensures width { result.high ≤ result.low + 2 * length self.now }

        // Less than a need is in service where more is out than can be spared.
        ensures short { (need : ℕ) → x ≡ total_capacity self.now + 1 - need
            → Encloses result (short_weight self.now 0 need) (all_weight self.now) }

        ensures certain { x ≡ 0 → (result.low ≡ one) × (result.high ≡ one) }
        ensures past { total_capacity self.now < x → (result.low ≡ 0) × (result.high ≡ 0) }
        ensures part { result.high ≤ one }

        // A larger outage is not written as more probable.
        ensures falls { (y : ℕ) → x ≤ y
            → (grid floor_div self.now y ≤ result.low) × (grid ceil_div self.now y ≤ result.high) }
    {
        self.entry(x as usize)
    }

    /// The expected MW that are unserved in an hour with this need. It takes no memory.
    pub fn unserved(&self, need: u32) -> Enclosure
        requires { need ≤ MOST_TABLE_MW }

        ensures low { result.low ≡ unserved_grid floor_div self.now need }
        ensures high { result.high ≡ unserved_grid ceil_div self.now need }

        // By the definition on states: what they lack by their weight, over the weight of all.
        ensures encloses { Encloses result (lack_weight self.now 0 need) (all_weight self.now) }
        ensures possible { 0 < all_weight self.now }
        ensures width { result.high ≤ result.low + 2 * length self.now * need }

        // Under a larger need no less is written as unserved.
        ensures rises { (more : ℕ) → need ≤ more
            → (result.low ≤ unserved_grid floor_div self.now more)
            × (result.high ≤ unserved_grid ceil_div self.now more) }
    {
        let total = (self.entries.len() - 1) as u32;
        let mut sum = Enclosure { low: 0, high: 0 };
        for most in 0..need {
            sum = add(sum, self.at_least(total.saturating_sub(most)));
        }
        sum
    }

    // The written entry, which is 0 past the last one.
    fn entry(&self, x: usize) -> Enclosure
        ensures low { result.low ≡ grid floor_div self.now x }
        ensures high { result.high ≡ grid ceil_div self.now x }
        ensures rated { All (λ unit. AreRates unit.rates) self.now }
    {
        if x >= self.entries.len() {
            return Enclosure { low: 0, high: 0 };
        }
        self.entries[x]
    }
}
