//! The system that is made from a number, and its tables.
ghost use Rattle.std.specs.Prelude.{◌≡◌, IfOk};
ghost use Rattle.system_model.specs.System.{IsValid};
ghost use Rattle.system_maker.specs.MadeSystem.{made_system};
ghost use Rattle.system_maker.specs.MadeTables.{made_tables};
ghost use Rattle.system_tables.specs.Tables.{Reads};

use crate::components::{add_interfaces, add_lines, add_storages, add_units, add_zones};
use crate::hours::add_hours;
use crate::tables::plain_tables;
use ra_base::{OutOfMemory, TableBytes};
use std::alloc::Global;
use system_model::{Draft, System};

// How many different systems there are. Numbers that leave the same rest make the same one.
const VARIANTS: u64 = 1_000;

/// The system that the number makes: three zones with 96 units of 7,200 MW together, three interfaces, five
/// lines, two storages and 8,784 hours. Numbers that leave the same rest by 1,000 make the same one. The rule is
/// this suite's own. It is refused for want of memory alone.
#[tactic(auto, unfolding(crate::specs::MadeSystem::system_of_variant), using(crate::proofs::MadeLaws::made_counts))]
pub fn make(alloc: Global, number: u64) -> Result<System, OutOfMemory>
    ensures made { IfOk result (λ system. system ≡ made_system number) }
    ensures valid { IfOk result IsValid }
{
    let variant = (number % VARIANTS) as u32;
    let mut draft = Draft::new(alloc);
    add_zones(alloc, &mut draft)?;
    add_units(alloc, variant, &mut draft)?;
    add_interfaces(alloc, &mut draft)?;
    add_lines(alloc, &mut draft)?;
    add_storages(alloc, &mut draft)?;
    add_hours(alloc, variant, &mut draft)?;
    Ok(draft.finish())
}

/// The seven tables of the system that the number makes, in the order of their definitions: commas between
/// fields, a line feed behind each record, no quotes and no spaces. They are read as that system. They are
/// refused for want of memory alone.
#[tactic(auto, using(crate::proofs::MadePlain::made_read))]
pub fn make_tables(alloc: Global, number: u64) -> Result<TableBytes, OutOfMemory>
    ensures bytes { IfOk result (λ tables. tables ≡ made_tables number) }
    ensures reads { IfOk result (λ tables. Reads tables (made_system number)) }
{
    let system = make(alloc, number)?;
    plain_tables(alloc, &system)
}
