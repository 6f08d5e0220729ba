//! The table of units.
ghost use Rattle.std.specs.Prelude.{◌≡◌, ◌+◌, ◌<◌, ◌≤◌, [], ◌∷◌, length, OnOk, IfOk};
ghost use Rattle.system_model.specs.Components.{IsUnitAmong};
ghost use Rattle.system_tables.specs.Faults.{in_turn, table_in};
ghost use Rattle.system_tables.specs.Outcome.{GivesNow};
ghost use Rattle.system_tables.specs.Units.{unit_columns_in, unit_of, unit_in, unit_rows_in, with_units};
ghost use Rattle.system_tables.specs.SoFar.{AreZonesSoFar, AreUnitsRead, AreUnitsSoFar};

use crate::columns::{FoundColumn, column};
use crate::faults::{Column, Place, ReadError, TableFault};
use crate::fields::{
    RateColumns, new_name, pooled_within, rates, reference, shape, some_rate, whole,
};
use crate::headers::header;
use crate::names::Names;
use crate::records::Records;
use ra_base::TableName;
use ra_base::limits::{MOST_POOLED_MW, MOST_UNITS};
use std::alloc::Global;
use system_model::{Draft, Unit};

// The columns of the table.
#[derive(Clone, Copy)]
struct UnitColumns {
    name: FoundColumn,
    zone: FoundColumn,
    capacity: FoundColumn,
    rates: RateColumns,
}

// The columns that the header names.
#[tactic(auto, unfolding(crate::specs::Units::unit_columns_in))]
fn unit_columns(header: &Records<'_>) -> Result<UnitColumns, TableFault>
    ensures { result ≡ unit_columns_in header.now.row }
{
    let table = TableName::Units;
    let name = column(table, Column::Fixed(0), header, b"name")?;
    let zone = column(table, Column::Fixed(1), header, b"zone")?;
    let capacity = column(table, Column::Fixed(2), header, b"capacity")?;
    let failure = column(table, Column::Fixed(3), header, b"failure")?;
    let repair = column(table, Column::Fixed(4), header, b"repair")?;
    Ok(UnitColumns {
        name,
        zone,
        capacity,
        rates: RateColumns { failure, repair },
    })
}

// The unit of a row.
#[tactic(auto, unfolding(crate::specs::Units::unit_of))]
fn unit_of(
    place: Place,
    columns: &UnitColumns,
    zones: &Names,
    row: &Records<'_>,
) -> Result<Unit, TableFault>
    requires few { length zones.now ≤ 255 }
    ensures exact { result ≡ unit_of place columns.now zones.now row.now.row }
    ensures among { IfOk result (IsUnitAmong (length zones.now)) }
{
    let zone = reference(place, columns.zone, row, zones)?;
    let capacity = whole(place, columns.capacity, row, 0, u64::from(MOST_POOLED_MW))?;
    let rates = rates(place, columns.rates, row)?;
    some_rate(place, columns.rates, rates)?;
    Ok(Unit {
        zone,
        capacity: capacity as u32,
        rates,
    })
}

// Adds the unit of the row that was read last.
#[tactic(auto, unfolding(crate::specs::Units::unit_in))]
fn add_unit(
    draft: &mut Draft,
    names: &mut Names,
    pooled: &mut u32,
    zones: &Names,
    columns: &UnitColumns,
    width: usize,
    row: &Records<'_>,
) -> Result<(), ReadError>
    requires so_far { AreUnitsSoFar draft.old zones.now names.old pooled.old }
    ensures exact { GivesNow (unit_in columns.now width draft.old row.now.row) result draft.new }
    ensures so_far { OnOk result (AreUnitsSoFar draft.new zones.now names.new pooled.new) }
{
    let count = names.len() as u32;
    let place = Place {
        table: TableName::Units,
        row: count + 2,
    };
    shape(place, MOST_UNITS, count, width, row)?;
    new_name(place, columns.name, row, names)?;
    let unit = unit_of(place, columns, zones, row)?;
    let sum = *pooled + unit.capacity;
    pooled_within(place, columns.capacity, sum)?;
    draft.push_unit(row.field(columns.name.at), unit)?;
    *pooled = sum;
    Ok(())
}

// Adds the units of the rows that are left.
fn add_units(
    draft: &mut Draft,
    names: &mut Names,
    zones: &Names,
    columns: &UnitColumns,
    width: usize,
    rows: &mut Records<'_>,
) -> Result<(), ReadError>
    requires so_far { AreUnitsSoFar draft.old zones.now names.old 0 }
    ensures exact { GivesNow (in_turn (unit_in columns.now width) draft.old rows.old.rest) result
        draft.new }
    ensures so_far { OnOk result (AreUnitsRead draft.new zones.now) }
{
    let mut pooled = 0;
    'rows: while rows.next()? {
        add_unit(draft, names, &mut pooled, zones, columns, width, rows)?;
    }
    Ok(())
}

// Adds the units of a table whose header stands in front.
#[tactic(auto, unfolding(crate::specs::Units::unit_rows_in))]
fn read_rows(
    draft: &mut Draft,
    names: &mut Names,
    zones: &Names,
    rows: &mut Records<'_>,
) -> Result<(), ReadError>
    requires so_far { AreUnitsSoFar draft.old zones.now names.old 0 }
    ensures exact { GivesNow (table_in TableName.Units rows.old.rest (unit_rows_in draft.old)) result
        draft.new }
    ensures so_far { OnOk result (AreUnitsRead draft.new zones.now) }
{
    header(TableName::Units, rows)?;
    let columns = unit_columns(rows)?;
    let width = rows.len();
    add_units(draft, names, zones, &columns, width, rows)
}

/// Adds the units of the table.
#[tactic(auto, using(crate::proofs::SoFar::start_units))]
pub(crate) fn read_units(
    alloc: Global,
    table: &[u8],
    zones: &Names,
    draft: &mut Draft,
) -> Result<(), ReadError>
    requires so_far { AreZonesSoFar draft.old zones.now }
    ensures exact { GivesNow (with_units draft.old table.now) result draft.new }
    ensures so_far { OnOk result (AreUnitsRead draft.new zones.now) }
{
    let mut names = Names::new(alloc);
    let mut rows = Records::new(alloc, table);
    read_rows(draft, &mut names, zones, &mut rows)
}
