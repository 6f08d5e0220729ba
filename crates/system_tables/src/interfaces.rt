//! The table of interfaces.
ghost use Rattle.std.specs.Prelude.{◌≡◌, ◌+◌, ◌<◌, ◌≤◌, [], ◌∷◌, length, OnOk, IfOk};
ghost use Rattle.system_model.specs.Components.{IsInterfaceAmong};
ghost use Rattle.system_tables.specs.Faults.{in_turn, table_in};
ghost use Rattle.system_tables.specs.Outcome.{GivesNow};
ghost use Rattle.system_tables.specs.Interfaces.{interface_columns_in, interface_of, interface_in, interface_rows_in, with_interfaces};
ghost use Rattle.system_tables.specs.SoFar.{AreUnitsRead, AreInterfacesSoFar};
ghost use Rattle.system_tables.specs.Tables.{where_there};

use crate::columns::{FoundColumn, column};
use crate::faults::{Cause, Column, Place, ReadError, TableFault, refuse};
use crate::fields::{new_name, reference, shape, whole};
use crate::headers::header;
use crate::names::Names;
use crate::records::Records;
use ra_base::limits::{MOST_INTERFACES, MOST_LINK_MW};
use ra_base::{TableName, Text};
use std::alloc::Global;
use system_model::{Draft, Interface};

// The columns of the table.
#[derive(Clone, Copy)]
struct InterfaceColumns {
    name: FoundColumn,
    start: FoundColumn,
    end: FoundColumn,
    forward: FoundColumn,
    backward: FoundColumn,
}

// The columns that the header names.
#[tactic(auto, unfolding(crate::specs::Interfaces::interface_columns_in))]
fn interface_columns(header: &Records<'_>) -> Result<InterfaceColumns, TableFault>
    ensures { result ≡ interface_columns_in header.now.row }
{
    let table = TableName::Interfaces;
    let name = column(table, Column::Fixed(0), header, b"name")?;
    let start = column(table, Column::Fixed(1), header, b"from")?;
    let end = column(table, Column::Fixed(2), header, b"to")?;
    let forward = column(table, Column::Fixed(3), header, b"forward")?;
    let backward = column(table, Column::Fixed(4), header, b"backward")?;
    Ok(InterfaceColumns {
        name,
        start,
        end,
        forward,
        backward,
    })
}

// The interface of a row.
#[tactic(auto, unfolding(crate::specs::Interfaces::interface_of))]
fn interface_of(
    place: Place,
    columns: &InterfaceColumns,
    zones: &Names,
    row: &Records<'_>,
) -> Result<Interface, TableFault>
    requires few { length zones.now ≤ 255 }
    ensures exact { result ≡ interface_of place columns.now zones.now row.now.row }
    ensures among { IfOk result (IsInterfaceAmong (length zones.now)) }
{
    let most = u64::from(MOST_LINK_MW);
    let from = reference(place, columns.start, row, zones)?;
    let to = reference(place, columns.end, row, zones)?;
    let forward = whole(place, columns.forward, row, 0, most)?;
    let backward = whole(place, columns.backward, row, 0, most)?;
    refuse(from == to, place.fault(columns.end.column, Cause::SameZone))?;
    Ok(Interface {
        from,
        to,
        forward: forward as u32,
        backward: backward as u32,
    })
}

// Adds the interface of the row that was read last.
#[tactic(auto, unfolding(crate::specs::Interfaces::interface_in))]
fn add_interface(
    draft: &mut Draft,
    names: &mut Names,
    zones: &Names,
    columns: &InterfaceColumns,
    width: usize,
    row: &Records<'_>,
) -> Result<(), ReadError>
    requires so_far { AreInterfacesSoFar draft.old zones.now names.old }
    ensures exact { GivesNow (interface_in columns.now width draft.old row.now.row) result draft.new }
    ensures so_far { OnOk result (AreInterfacesSoFar draft.new zones.now names.new) }
{
    let count = names.len() as u32;
    let place = Place {
        table: TableName::Interfaces,
        row: count + 2,
    };
    shape(place, MOST_INTERFACES, count, width, row)?;
    new_name(place, columns.name, row, names)?;
    let interface = interface_of(place, columns, zones, row)?;
    draft.push_interface(row.field(columns.name.at), interface)?;
    Ok(())
}

// Adds the interfaces of the rows that are left.
fn add_interfaces(
    draft: &mut Draft,
    names: &mut Names,
    zones: &Names,
    columns: &InterfaceColumns,
    width: usize,
    rows: &mut Records<'_>,
) -> Result<(), ReadError>
    requires so_far { AreInterfacesSoFar draft.old zones.now names.old }
    ensures exact { GivesNow (in_turn (interface_in columns.now width) draft.old rows.old.rest) result
        draft.new }
    ensures so_far { OnOk result (AreInterfacesSoFar draft.new zones.now names.new) }
{
    'rows: while rows.next()? {
        add_interface(draft, names, zones, columns, width, rows)?;
    }
    Ok(())
}

// Adds the interfaces of a table whose header stands in front.
#[tactic(auto, unfolding(crate::specs::Interfaces::interface_rows_in))]
fn read_rows(
    draft: &mut Draft,
    names: &mut Names,
    zones: &Names,
    rows: &mut Records<'_>,
) -> Result<(), ReadError>
    requires so_far { AreInterfacesSoFar draft.old zones.now names.old }
    ensures exact { GivesNow (table_in TableName.Interfaces rows.old.rest (interface_rows_in draft.old))
        result draft.new }
    ensures so_far { OnOk result (AreInterfacesSoFar draft.new zones.now names.new) }
{
    header(TableName::Interfaces, rows)?;
    let columns = interface_columns(rows)?;
    let width = rows.len();
    add_interfaces(draft, names, zones, &columns, width, rows)
}

/// Adds the interfaces of the table, where there is one, and their names.
#[tactic(auto, using(crate::proofs::SoFar::start_interfaces), unfolding(crate::specs::Tables::where_there))]
pub(crate) fn read_interfaces(
    alloc: Global,
    table: &Option<Text>,
    zones: &Names,
    names: &mut Names,
    draft: &mut Draft,
) -> Result<(), ReadError>
    requires so_far { AreUnitsRead draft.old zones.now }
    requires no_names { names.old ≡ [] }
    ensures exact { GivesNow (where_there with_interfaces draft.old table.now) result draft.new }
    ensures so_far { OnOk result (AreInterfacesSoFar draft.new zones.now names.new) }
{
    let Some(table) = table else {
        return Ok(());
    };
    let mut rows = Records::new(alloc, table.bytes());
    read_rows(draft, names, zones, &mut rows)
}
