//! The system that seven tables spell, or their first fault.
ghost use Rattle.std.specs.Prelude.{◌≡◌, ◌<◌, [], OnOk, IsSome};
ghost use Rattle.system_model.specs.System.{no_parts, zone_count, hour_count};
ghost use Rattle.system_tables.specs.Outcome.{Gives, GivesNow};
ghost use Rattle.system_tables.specs.SameColumns.{HaveSameColumns};
ghost use Rattle.system_tables.specs.Tables.{bytes_of, system_of, HaveOneOutcome, HaveSameRecords};

use crate::faults::ReadError;
use crate::hours::read_hours;
use crate::interfaces::read_interfaces;
use crate::lines::read_lines;
use crate::names::Names;
use crate::storages::read_storages;
use crate::units::read_units;
use crate::zones::read_zones;
use ra_base::{TableBytes, Text};
use std::alloc::Global;
use system_model::{Draft, System};

// The bytes of a table that is there.
fn required(table: &Option<Text>) -> &[u8]
    requires there { IsSome table.now }
    ensures { result.now ≡ bytes_of table.now }
{
    let Some(text) = table else { unreachable!() };
    text.bytes()
}

// Reads the tables in their order.
#[tactic(auto, unfolding(crate::specs::Tables::system_of))]
fn read_tables(
    alloc: Global,
    tables: &TableBytes,
    zones: &mut Names,
    interfaces: &mut Names,
    draft: &mut Draft,
) -> Result<(), ReadError>
    requires zones { IsSome tables.now.zones }
    requires units { IsSome tables.now.units }
    requires load { IsSome tables.now.load }
    requires no_zones { zones.old ≡ [] }
    requires no_interfaces { interfaces.old ≡ [] }
    requires empty { draft.old ≡ no_parts }
    ensures exact { GivesNow (system_of tables.now) result draft.new }
    ensures zone { OnOk result (0 < zone_count draft.new) }
    ensures hour { OnOk result (0 < hour_count draft.new) }
{
    read_zones(alloc, required(&tables.zones), draft, zones)?;
    read_units(alloc, required(&tables.units), zones, draft)?;
    read_interfaces(alloc, &tables.interfaces, zones, interfaces, draft)?;
    read_lines(alloc, &tables.lines, zones, interfaces, draft)?;
    read_storages(alloc, &tables.storages, zones, draft)?;
    read_hours(
        alloc,
        required(&tables.load),
        &tables.variable,
        zones,
        draft,
    )
}

/// The system that the tables spell, or their first fault. The tables `zones`, `units` and `load` are there;
/// each other one that isn't there has no rows.
///
/// Tables are taken in the order of `TableName`, rows in their order, and columns in the order of the table's
/// definition, whatever their order in the file is. Want of memory is an answer of its own.
#[tactic(auto, using(crate::proofs::SameColumnsLaws::table_laws))]
pub fn read_system(alloc: Global, tables: &TableBytes) -> Result<System, ReadError>
    requires zones { IsSome tables.now.zones }
    requires units { IsSome tables.now.units }
    requires load { IsSome tables.now.load }
    // The answer is the system or the first fault.
    ensures answer { Gives (system_of tables.now) result }
    // There is no other.
    ensures one_outcome { HaveOneOutcome tables.now }
    // Quotes, spaces and line ends say nothing.
    ensures same_records { (other : TableBytes) → HaveSameRecords tables.now other →
        system_of other ≡ system_of tables.now }
    // The order of columns and further columns say nothing.
    ensures same_columns { (other : TableBytes) → HaveSameColumns tables.now other →
        system_of other ≡ system_of tables.now }
{
    let mut draft = Draft::new(alloc);
    let mut zones = Names::new(alloc);
    let mut interfaces = Names::new(alloc);
    read_tables(alloc, tables, &mut zones, &mut interfaces, &mut draft)?;
    Ok(draft.finish())
}
