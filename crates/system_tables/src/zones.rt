//! The table of zones.
ghost use Rattle.std.specs.Prelude.{◌≡◌, ◌+◌, ◌<◌, ◌≤◌, [], ◌∷◌, length, OnOk, MatchResult, Ok, Err};
ghost use Rattle.system_model.specs.System.{SystemParts, no_parts};
ghost use Rattle.system_tables.specs.Faults.{in_turn};
ghost use Rattle.system_tables.specs.Outcome.{GivesNow};
ghost use Rattle.system_tables.specs.Zones.{zone_columns_in, zone_in, some_zone_in, zone_rows_in, with_zones};
ghost use Rattle.system_tables.specs.SoFar.{AreZonesSoFar};

use crate::columns::{FoundColumn, column};
use crate::faults::{Cause, Column, Place, ReadError, TableFault, refuse};
use crate::fields::{new_zone_name, shape};
use crate::headers::header;
use crate::names::Names;
use crate::records::Records;
use ra_base::TableName;
use ra_base::limits::MOST_ZONES;
use std::alloc::Global;
use system_model::Draft;

// The columns of the table.
#[derive(Clone, Copy)]
struct ZoneColumns {
    name: FoundColumn,
}

// The columns that the header names.
#[tactic(auto, unfolding(crate::specs::Zones::zone_columns_in))]
fn zone_columns(header: &Records<'_>) -> Result<ZoneColumns, TableFault>
    ensures { result ≡ zone_columns_in header.now.row }
{
    let name = column(TableName::Zones, Column::Fixed(0), header, b"name")?;
    Ok(ZoneColumns { name })
}

// Adds the zone of the row that was read last.
#[tactic(auto, unfolding(crate::specs::Zones::zone_in))]
fn add_zone(
    draft: &mut Draft,
    names: &mut Names,
    columns: ZoneColumns,
    width: usize,
    row: &Records<'_>,
) -> Result<(), ReadError>
    requires so_far { AreZonesSoFar draft.old names.old }
    ensures exact { GivesNow (zone_in columns width draft.old row.now.row) result draft.new }
    ensures so_far { OnOk result (AreZonesSoFar draft.new names.new) }
{
    let count = names.len() as u32;
    let place = Place {
        table: TableName::Zones,
        row: count + 2,
    };
    shape(place, u32::from(MOST_ZONES), count, width, row)?;
    new_zone_name(place, columns.name, row, names)?;
    draft.push_zone(row.field(columns.name.at))?;
    Ok(())
}

// Adds the zones of the rows that are left.
fn add_zones(
    draft: &mut Draft,
    names: &mut Names,
    columns: ZoneColumns,
    width: usize,
    rows: &mut Records<'_>,
) -> Result<(), ReadError>
    requires so_far { AreZonesSoFar draft.old names.old }
    ensures exact { GivesNow (in_turn (zone_in columns width) draft.old rows.old.rest) result draft.new }
    ensures so_far { OnOk result (AreZonesSoFar draft.new names.new) }
{
    'rows: while rows.next()? {
        add_zone(draft, names, columns, width, rows)?;
    }
    Ok(())
}

// That there is a zone.
#[tactic(auto, unfolding(crate::specs::Zones::some_zone_in))]
fn some_zone(names: &Names) -> Result<(), TableFault>
    ensures exact { (s : SystemParts) → s.zone_names ≡ names.now →
        MatchResult result (λ _. some_zone_in s ≡ Ok s) (λ e. some_zone_in s ≡ Err e) }
    ensures some { OnOk result (0 < length names.now) }
{
    let place = Place {
        table: TableName::Zones,
        row: 2,
    };
    refuse(
        names.len() == 0,
        place.fault(Column::Fixed(0), Cause::Empty),
    )
}

/// Adds the zones of the table, and their names.
#[tactic(auto, unfolding(crate::specs::Zones::zone_rows_in))]
pub(crate) fn read_zones(
    alloc: Global,
    table: &[u8],
    draft: &mut Draft,
    names: &mut Names,
) -> Result<(), ReadError>
    requires empty { draft.old ≡ no_parts }
    requires no_names { names.old ≡ [] }
    ensures exact { GivesNow (with_zones draft.old table.now) result draft.new }
    ensures so_far { OnOk result (AreZonesSoFar draft.new names.new) }
    ensures some { OnOk result (0 < length names.new) }
{
    let mut rows = Records::new(alloc, table);
    header(TableName::Zones, &mut rows)?;
    let columns = zone_columns(&rows)?;
    let width = rows.len();
    add_zones(draft, names, columns, width, &mut rows)?;
    some_zone(names)?;
    Ok(())
}
