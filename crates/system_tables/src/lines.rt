//! The table of lines.
ghost use Rattle.std.specs.Prelude.{◌≡◌, ◌+◌, ◌<◌, ◌≤◌, [], ◌∷◌, length, OnOk, IfOk};
ghost use Rattle.system_model.specs.Components.{IsLineAmong};
ghost use Rattle.system_tables.specs.Faults.{in_turn, table_in};
ghost use Rattle.system_tables.specs.Outcome.{GivesNow};
ghost use Rattle.system_tables.specs.Lines.{line_columns_in, line_of, line_in, line_rows_in, with_lines};
ghost use Rattle.system_tables.specs.SoFar.{AreInterfacesSoFar, AreLinesRead, AreLinesSoFar};
ghost use Rattle.system_tables.specs.Tables.{where_there};

use crate::columns::{FoundColumn, column};
use crate::faults::{Column, Place, ReadError, TableFault};
use crate::fields::{RateColumns, new_name, rates, reference, shape, some_rate, whole};
use crate::headers::header;
use crate::names::Names;
use crate::records::Records;
use ra_base::limits::{MOST_LINES, MOST_LINK_MW};
use ra_base::{TableName, Text};
use std::alloc::Global;
use system_model::{Draft, Line};

// The columns of the table.
#[derive(Clone, Copy)]
struct LineColumns {
    name: FoundColumn,
    interface: FoundColumn,
    forward: FoundColumn,
    backward: FoundColumn,
    rates: RateColumns,
}

// The columns that the header names.
#[tactic(auto, unfolding(crate::specs::Lines::line_columns_in))]
fn line_columns(header: &Records<'_>) -> Result<LineColumns, TableFault>
    ensures { result ≡ line_columns_in header.now.row }
{
    let table = TableName::Lines;
    let name = column(table, Column::Fixed(0), header, b"name")?;
    let interface = column(table, Column::Fixed(1), header, b"interface")?;
    let forward = column(table, Column::Fixed(2), header, b"forward")?;
    let backward = column(table, Column::Fixed(3), header, b"backward")?;
    let failure = column(table, Column::Fixed(4), header, b"failure")?;
    let repair = column(table, Column::Fixed(5), header, b"repair")?;
    Ok(LineColumns {
        name,
        interface,
        forward,
        backward,
        rates: RateColumns { failure, repair },
    })
}

// The line of a row.
#[tactic(auto, unfolding(crate::specs::Lines::line_of))]
fn line_of(
    place: Place,
    columns: &LineColumns,
    interfaces: &Names,
    row: &Records<'_>,
) -> Result<Line, TableFault>
    requires few { length interfaces.now ≤ 255 }
    ensures exact { result ≡ line_of place columns.now interfaces.now row.now.row }
    ensures among { IfOk result (IsLineAmong (length interfaces.now)) }
{
    let most = u64::from(MOST_LINK_MW);
    let interface = reference(place, columns.interface, row, interfaces)?;
    let forward = whole(place, columns.forward, row, 0, most)?;
    let backward = whole(place, columns.backward, row, 0, most)?;
    let rates = rates(place, columns.rates, row)?;
    some_rate(place, columns.rates, rates)?;
    Ok(Line {
        interface,
        forward: forward as u32,
        backward: backward as u32,
        rates,
    })
}

// Adds the line of the row that was read last.
#[tactic(auto, unfolding(crate::specs::Lines::line_in))]
fn add_line(
    draft: &mut Draft,
    names: &mut Names,
    zones: &Names,
    interfaces: &Names,
    columns: &LineColumns,
    width: usize,
    row: &Records<'_>,
) -> Result<(), ReadError>
    requires so_far { AreLinesSoFar draft.old zones.now interfaces.now names.old }
    ensures exact { GivesNow (line_in columns.now width draft.old row.now.row) result draft.new }
    ensures so_far { OnOk result (AreLinesSoFar draft.new zones.now interfaces.now names.new) }
{
    let count = names.len() as u32;
    let place = Place {
        table: TableName::Lines,
        row: count + 2,
    };
    shape(place, MOST_LINES, count, width, row)?;
    new_name(place, columns.name, row, names)?;
    let line = line_of(place, columns, interfaces, row)?;
    draft.push_line(row.field(columns.name.at), line)?;
    Ok(())
}

// Adds the lines of the rows that are left.
fn add_lines(
    draft: &mut Draft,
    names: &mut Names,
    zones: &Names,
    interfaces: &Names,
    columns: &LineColumns,
    width: usize,
    rows: &mut Records<'_>,
) -> Result<(), ReadError>
    requires so_far { AreLinesSoFar draft.old zones.now interfaces.now names.old }
    ensures exact { GivesNow (in_turn (line_in columns.now width) draft.old rows.old.rest) result
        draft.new }
    ensures so_far { OnOk result (AreLinesRead draft.new zones.now) }
{
    'rows: while rows.next()? {
        add_line(draft, names, zones, interfaces, columns, width, rows)?;
    }
    Ok(())
}

// Adds the lines of a table whose header stands in front.
#[tactic(auto, unfolding(crate::specs::Lines::line_rows_in))]
fn read_rows(
    draft: &mut Draft,
    names: &mut Names,
    zones: &Names,
    interfaces: &Names,
    rows: &mut Records<'_>,
) -> Result<(), ReadError>
    requires so_far { AreLinesSoFar draft.old zones.now interfaces.now names.old }
    ensures exact { GivesNow (table_in TableName.Lines rows.old.rest (line_rows_in draft.old)) result
        draft.new }
    ensures so_far { OnOk result (AreLinesRead draft.new zones.now) }
{
    header(TableName::Lines, rows)?;
    let columns = line_columns(rows)?;
    let width = rows.len();
    add_lines(draft, names, zones, interfaces, &columns, width, rows)
}

/// Adds the lines of the table, where there is one.
#[tactic(auto, using(crate::proofs::SoFar::start_lines), unfolding(crate::specs::Tables::where_there))]
pub(crate) fn read_lines(
    alloc: Global,
    table: &Option<Text>,
    zones: &Names,
    interfaces: &Names,
    draft: &mut Draft,
) -> Result<(), ReadError>
    requires so_far { AreInterfacesSoFar draft.old zones.now interfaces.now }
    ensures exact { GivesNow (where_there with_lines draft.old table.now) result draft.new }
    ensures so_far { OnOk result (AreLinesRead draft.new zones.now) }
{
    let Some(table) = table else {
        return Ok(());
    };
    let mut names = Names::new(alloc);
    let mut rows = Records::new(alloc, table.bytes());
    read_rows(draft, &mut names, zones, interfaces, &mut rows)
}
