//! The tables of load and of variable generation.
ghost use Rattle.std.specs.Prelude.{◌≡◌, ◌+◌, ◌*◌, ◌<◌, ◌≤◌, [], ◌∷◌, ◌++◌, length, sum, vec_len, All, OnOk, IfOk, replicate, Option, None, ℕ};
ghost use Rattle.ra_base.specs.declared.limits.TheConstants.{MOST_ZONES, MOST_HOURS, MOST_POOLED_MW};
ghost use Rattle.system_model.specs.System.{zone_count, hour_count};
ghost use Rattle.system_tables.specs.SoFar.{AreZones};
ghost use Rattle.system_tables.specs.Faults.{in_turn, table_in};
ghost use Rattle.system_tables.specs.Hours.{amount_column_in, next_column_in, hour_order_in, amount_in, next_amount_in, row_within_in, hours_above, hour_in, hour_rows_in, amounts_in, some_hour_in, all_hours_in, variables_in, hours_of, with_hours, AreAmountRows, IsHoursRead};
ghost use Rattle.system_tables.specs.AmountRows.{no_rows};
ghost use Rattle.system_tables.specs.Outcome.{Gives, GivesNow, GivesRead};

use crate::amount_rows::AmountRows;
use crate::columns::{FoundColumn, column, optional_column};
use crate::faults::{Cause, Column, Place, ReadError, TableFault, refuse};
use crate::fields::{shape, value, whole};
use crate::headers::header;
use crate::names::Names;
use crate::records::Records;
use ra_base::limits::{MOST_HOURS, MOST_POOLED_MW};
use ra_base::{Amounts, OutOfMemory, TableName, Text};
use std::alloc::Global;
use system_model::Draft;

// A zone's column, which `load` has and `variable` may have.
#[tactic(auto, unfolding(crate::specs::Hours::amount_column_in))]
fn amount_column(
    required: bool,
    table: TableName,
    zone: Column,
    header: &Records<'_>,
    name: &[u8],
) -> Result<Option<FoundColumn>, TableFault>
    ensures { result ≡ amount_column_in required table zone header.now.row name.now }
{
    if required {
        let found = column(table, zone, header, name)?;
        return Ok(Some(found));
    }
    optional_column(table, zone, header, name)
}

// Adds the column of each zone.
fn add_zone_columns(
    required: bool,
    table: TableName,
    header: &Records<'_>,
    zones: &Names,
    columns: &mut Vec<Option<FoundColumn>>,
) -> Result<(), ReadError>
    requires few { length zones.now ≤ MOST_ZONES }
    requires none { columns.old.items ≡ [] }
    ensures exact { GivesNow (in_turn (next_column_in required table header.now.row) [] zones.now) result
        columns.new.items }
    ensures size { OnOk result (length columns.new.items ≡ length zones.now) }
{
    for zone in 0..zones.len() {
        add_zone_column(required, table, header, zones.name(zone), columns)?;
    }
    Ok(())
}

// Adds the column of the next zone.
#[tactic(auto, unfolding(crate::specs::Hours::next_column_in))]
fn add_zone_column(
    required: bool,
    table: TableName,
    header: &Records<'_>,
    name: &[u8],
    columns: &mut Vec<Option<FoundColumn>>,
) -> Result<(), ReadError>
    requires few { length columns.old.items < 255 }
    ensures exact { GivesNow (next_column_in required table header.now.row columns.old.items name.now) result
        columns.new.items }
    ensures size { OnOk result (length columns.new.items ≡ length columns.old.items + 1) }
{
    let zone = Column::Zone(columns.len() as u8);
    let found = amount_column(required, table, zone, header, name)?;
    if columns.push(found).is_err() {
        return Err(ReadError::OutOfMemory);
    }
    Ok(())
}

// That the hour is the next one.
#[tactic(auto, unfolding(crate::specs::Hours::hour_order_in))]
fn hour_order(
    place: Place,
    column: Column,
    wanted: Option<u64>,
    found: u64,
) -> Result<(), TableFault>
    ensures { result ≡ hour_order_in place column wanted found }
{
    match wanted {
        None => refuse(
            found > 1,
            place.fault(column, Cause::HourOrder { found, wanted: 0 }),
        ),
        Some(wanted) => refuse(
            found != wanted,
            place.fault(column, Cause::HourOrder { found, wanted }),
        ),
    }
}

// A zone's amount.
#[tactic(auto, unfolding(crate::specs::Hours::amount_in))]
fn amount(place: Place, column: Option<FoundColumn>, row: &Records<'_>) -> Result<u32, TableFault>
    ensures exact { result ≡ amount_in place row.now.row column }
    ensures within { IfOk result (λ mw. mw ≤ MOST_POOLED_MW) }
{
    let Some(found) = column else {
        return Ok(0);
    };
    let mw = whole(place, found, row, 0, u64::from(MOST_POOLED_MW))?;
    Ok(mw as u32)
}

// Reads the amount of each zone, and answers their sum.
fn zone_amounts(
    place: Place,
    columns: &[Option<FoundColumn>],
    row: &Records<'_>,
    amounts: &mut Amounts,
) -> Result<u32, TableFault>
    requires few { length columns.now ≤ MOST_ZONES }
    requires size { length amounts.old ≡ length columns.now }
    ensures exact { GivesRead (in_turn (next_amount_in place row.now.row) [] columns.now) result amounts.new }
    ensures size { length amounts.new ≡ length columns.now }
    ensures total { IfOk result (λ total. total ≡ sum amounts.new) }
{
    let mut total = 0;
    for zone in 0..columns.len() {
        let mw = amount(place, columns[zone], row)?;
        amounts.set(zone, mw);
        total += mw;
    }
    Ok(total)
}

// That the amounts of all zones together are within the limit.
#[tactic(auto, unfolding(crate::specs::Hours::row_within_in))]
fn row_within(place: Place, total: u32) -> Result<(), TableFault>
    ensures exact { result ≡ row_within_in place total }
    ensures within { OnOk result (total ≤ MOST_POOLED_MW) }
{
    refuse(
        MOST_POOLED_MW < total,
        place.fault(
            Column::Whole,
            Cause::OutOfRange {
                value: u64::from(total),
                limit: u64::from(MOST_POOLED_MW),
            },
        ),
    )
}

// Adds the hour of the row that was read last.
#[tactic(auto, unfolding(crate::specs::Hours::hour_in))]
fn add_hour(
    table: TableName,
    limit: u32,
    hour: FoundColumn,
    columns: &[Option<FoundColumn>],
    width: usize,
    row: &Records<'_>,
    wanted: &mut Option<u64>,
    these: &mut Amounts,
    amounts: &mut AmountRows,
) -> Result<(), ReadError>
    requires few { length columns.now ≤ MOST_ZONES }
    requires limit { limit ≤ MOST_HOURS }
    requires size { length these.old ≡ length columns.now }
    requires room { length amounts.old.rows ≤ limit }
    requires rows { AreAmountRows (length columns.now) amounts.old }
    ensures exact { GivesNow
        (hour_in table limit hour columns.now width (hours_above wanted.old amounts.old.rows) row.now.row)
        result (hours_above wanted.new amounts.new.rows) }
    ensures room { OnOk result (length amounts.new.rows ≤ limit) }
    ensures rows { OnOk result (AreAmountRows (length columns.now) amounts.new) }
    ensures size { OnOk result (length these.new ≡ length columns.now) }
{
    let count = amounts.len();
    let place = Place {
        table,
        row: count + 2,
    };
    shape(place, limit, count, width, row)?;
    let found = value(place, hour, row)?;
    hour_order(place, hour.column, *wanted, found)?;
    let total = zone_amounts(place, columns, row, these)?;
    row_within(place, total)?;
    amounts.push(these)?;
    *wanted = Some(found + 1);
    Ok(())
}

// Adds the hours of the rows that are left.
fn add_hours(
    alloc: Global,
    table: TableName,
    limit: u32,
    hour: FoundColumn,
    columns: &[Option<FoundColumn>],
    width: usize,
    rows: &mut Records<'_>,
    amounts: &mut AmountRows,
) -> Result<(), ReadError>
    requires few { length columns.now ≤ MOST_ZONES }
    requires limit { limit ≤ MOST_HOURS }
    requires none { amounts.old ≡ no_rows (length columns.now) }
    ensures exact { IsHoursRead
        (in_turn (hour_in table limit hour columns.now width) (hours_above None []) rows.old.rest)
        result amounts.new.rows }
    ensures room { OnOk result (length amounts.new.rows ≤ limit) }
    ensures rows { OnOk result (AreAmountRows (length columns.now) amounts.new) }
{
    let mut these = Amounts::zeros(alloc, columns.len())?;
    let mut wanted = None;
    'rows: while rows.next()? {
        add_hour(
            table,
            limit,
            hour,
            columns,
            width,
            rows,
            &mut wanted,
            &mut these,
            amounts,
        )?;
    }
    Ok(())
}

// Adds the hours of a table whose header stands in front.
#[tactic(auto, unfolding(crate::specs::Hours::hour_rows_in))]
fn read_rows(
    alloc: Global,
    required: bool,
    table: TableName,
    limit: u32,
    zones: &Names,
    rows: &mut Records<'_>,
    columns: &mut Vec<Option<FoundColumn>>,
    amounts: &mut AmountRows,
) -> Result<(), ReadError>
    requires few { length zones.now ≤ MOST_ZONES }
    requires limit { limit ≤ MOST_HOURS }
    requires no_columns { columns.old.items ≡ [] }
    requires none { amounts.old ≡ no_rows (length zones.now) }
    ensures exact { IsHoursRead (table_in table rows.old.rest (hour_rows_in required table limit zones.now))
        result amounts.new.rows }
    ensures room { OnOk result (length amounts.new.rows ≤ limit) }
    ensures rows { OnOk result (AreAmountRows (length zones.now) amounts.new) }
{
    header(table, rows)?;
    let hour = column(table, Column::Fixed(0), rows, b"hour")?;
    add_zone_columns(required, table, rows, zones, columns)?;
    let width = rows.len();
    add_hours(alloc, table, limit, hour, columns, width, rows, amounts)
}

// Reads the amounts of a table by hour and zone.
fn read_amounts(
    alloc: Global,
    required: bool,
    table: TableName,
    limit: u32,
    zones: &Names,
    bytes: &[u8],
    amounts: &mut AmountRows,
) -> Result<(), ReadError>
    requires few { length zones.now ≤ MOST_ZONES }
    requires limit { limit ≤ MOST_HOURS }
    requires none { amounts.old ≡ no_rows (length zones.now) }
    ensures exact { IsHoursRead (amounts_in required table limit zones.now bytes.now) result
        amounts.new.rows }
    ensures room { OnOk result (length amounts.new.rows ≤ limit) }
    ensures rows { OnOk result (AreAmountRows (length zones.now) amounts.new) }
{
    let mut rows = Records::new(alloc, bytes);
    let mut columns = Vec::new(alloc);
    read_rows(
        alloc,
        required,
        table,
        limit,
        zones,
        &mut rows,
        &mut columns,
        amounts,
    )
}

// That there is an hour.
#[tactic(auto, unfolding(crate::specs::Hours::some_hour_in))]
fn some_hour(hours: u32) -> Result<(), TableFault>
    ensures exact { result ≡ some_hour_in hours }
    ensures some { OnOk result (0 < hours) }
{
    let place = Place {
        table: TableName::Load,
        row: 2,
    };
    refuse(hours == 0, place.fault(Column::Fixed(0), Cause::Empty))
}

// That there are as many hours as wanted.
#[tactic(auto, unfolding(crate::specs::Hours::all_hours_in))]
fn all_hours(hours: u32, wanted: u32) -> Result<(), TableFault>
    requires few { hours ≤ MOST_HOURS }
    ensures exact { result ≡ all_hours_in hours wanted }
    ensures all { OnOk result (wanted ≤ hours) }
{
    let place = Place {
        table: TableName::Variable,
        row: hours + 2,
    };
    refuse(
        hours < wanted,
        place.fault(
            Column::Fixed(0),
            Cause::HourOrder {
                found: u64::from(hours),
                wanted: u64::from(wanted),
            },
        ),
    )
}

// Adds so many hours without variable generation.
fn add_zeros(
    alloc: Global,
    zones: usize,
    hours: u32,
    variables: &mut AmountRows,
) -> Result<(), OutOfMemory>
    requires few { hours ≤ MOST_HOURS }
    requires none { variables.old ≡ no_rows zones }
    ensures { OnOk result (variables.new
        ≡ record (no_rows zones) { rows = replicate hours (replicate zones 0) }) }
{
    let none = Amounts::zeros(alloc, zones)?;
    for _hour in 0..hours {
        variables.push(&none)?;
    }
    Ok(())
}

// Reads the variable generation, where there is such a table.
#[tactic(auto, unfolding(crate::specs::Hours::variables_in), using(crate::proofs::HourLaws::zero_rows))]
fn read_variables(
    alloc: Global,
    hours: u32,
    zones: &Names,
    table: &Option<Text>,
    variables: &mut AmountRows,
) -> Result<(), ReadError>
    requires few { length zones.now ≤ MOST_ZONES }
    requires limit { hours ≤ MOST_HOURS }
    requires none { variables.old ≡ no_rows (length zones.now) }
    ensures exact { GivesNow (variables_in zones.now hours table.now) result variables.new.rows }
    ensures size { OnOk result (length variables.new.rows ≡ hours) }
    ensures rows { OnOk result (AreAmountRows (length zones.now) variables.new) }
{
    let Some(table) = table else {
        add_zeros(alloc, zones.len(), hours, variables)?;
        return Ok(());
    };
    let name = TableName::Variable;
    read_amounts(alloc, false, name, hours, zones, table.bytes(), variables)?;
    all_hours(variables.len(), hours)?;
    Ok(())
}

// Adds the hours to the draft.
fn push_hours(
    alloc: Global,
    draft: &mut Draft,
    loads: &AmountRows,
    variables: &AmountRows,
) -> Result<(), OutOfMemory>
    requires before { draft.old.hours ≡ [] }
    requires few { length loads.now.rows ≤ MOST_HOURS }
    requires size { length variables.now.rows ≡ length loads.now.rows }
    requires loads { AreAmountRows (zone_count draft.old) loads.now }
    requires variables { AreAmountRows (zone_count draft.old) variables.now }
    ensures { OnOk result (draft.new
        ≡ record draft.old { hours = hours_of loads.now.rows variables.now.rows }) }
{
    let mut load = Amounts::zeros(alloc, loads.width())?;
    let mut variable = Amounts::zeros(alloc, variables.width())?;
    for hour in 0..loads.len() {
        loads.copy(hour, &mut load);
        variables.copy(hour, &mut variable);
        draft.push_hour(&load, &variable)?;
    }
    Ok(())
}

// Reads the hours of the two tables.
#[tactic(auto, unfolding(crate::specs::Hours::with_hours))]
fn add_both(
    alloc: Global,
    load: &[u8],
    variable: &Option<Text>,
    zones: &Names,
    draft: &mut Draft,
    loads: &mut AmountRows,
    variables: &mut AmountRows,
) -> Result<(), ReadError>
    requires zones_are { AreZones draft.old zones.now }
    requires before { draft.old.hours ≡ [] }
    requires no_loads { loads.old ≡ no_rows (length zones.now) }
    requires no_variables { variables.old ≡ no_rows (length zones.now) }
    ensures exact { GivesNow (with_hours draft.old load.now variable.now) result draft.new }
    ensures some { OnOk result (0 < hour_count draft.new) }
    ensures zones { OnOk result (draft.new.zone_names ≡ zones.now) }
{
    let name = TableName::Load;
    read_amounts(alloc, true, name, MOST_HOURS, zones, load, loads)?;
    let hours = loads.len();
    some_hour(hours)?;
    read_variables(alloc, hours, zones, variable, variables)?;
    push_hours(alloc, draft, loads, variables)?;
    Ok(())
}

/// Adds the hours of the tables `load` and `variable`; without the latter none has variable generation.
pub(crate) fn read_hours(
    alloc: Global,
    load: &[u8],
    variable: &Option<Text>,
    zones: &Names,
    draft: &mut Draft,
) -> Result<(), ReadError>
    requires zones_are { AreZones draft.old zones.now }
    requires before { draft.old.hours ≡ [] }
    ensures exact { GivesNow (with_hours draft.old load.now variable.now) result draft.new }
    ensures some { OnOk result (0 < hour_count draft.new) }
    ensures zones { OnOk result (draft.new.zone_names ≡ zones.now) }
{
    let mut loads = AmountRows::new(alloc, zones.len());
    let mut variables = AmountRows::new(alloc, zones.len());
    add_both(
        alloc,
        load,
        variable,
        zones,
        draft,
        &mut loads,
        &mut variables,
    )
}
