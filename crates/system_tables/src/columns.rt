//! Columns by their names in the header.
ghost use Rattle.std.specs.Prelude.{◌≡◌};
ghost use Rattle.system_tables.specs.Columns.{found_in, header_fault, column_in, optional_column_in};

use crate::faults::{Cause, Column, Place, TableFault};
use crate::records::Records;
use ra_base::TableName;

/// A column, and the place of its field in each record.
#[derive(Clone, Copy)]
pub(crate) struct FoundColumn {
    pub(crate) column: Column,
    pub(crate) at: usize,
}

/// How a name stands in the header.
#[derive(Clone, Copy)]
enum Found {
    Missing,
    At(usize),
    Twice,
}

// How the name stands in the header.
fn find(header: &Records<'_>, name: &[u8]) -> Found
    ensures { result ≡ found_in header.now.row name.now }
{
    let mut first = None;
    for at in 0..header.len() {
        if header.field(at) != name {
            continue;
        }
        if first.is_some() {
            return Found::Twice;
        }
        first = Some(at);
    }
    match first {
        Some(at) => Found::At(at),
        None => Found::Missing,
    }
}

// A fault of the header.
fn header_fault(table: TableName, column: Column, cause: Cause) -> TableFault
    ensures { result ≡ header_fault table column cause }
{
    Place { table, row: 1 }.fault(column, cause)
}

/// A column that the table has.
#[tactic(auto, unfolding(crate::specs::Columns::column_in))]
pub(crate) fn column(
    table: TableName,
    column: Column,
    header: &Records<'_>,
    name: &[u8],
) -> Result<FoundColumn, TableFault>
    ensures { result ≡ column_in table column header.now.row name.now }
{
    match find(header, name) {
        Found::Missing => Err(header_fault(table, column, Cause::ColumnMissing)),
        Found::At(at) => Ok(FoundColumn { column, at }),
        Found::Twice => Err(header_fault(table, column, Cause::ColumnTwice)),
    }
}

/// A column that the table may have.
#[tactic(auto, unfolding(crate::specs::Columns::optional_column_in))]
pub(crate) fn optional_column(
    table: TableName,
    column: Column,
    header: &Records<'_>,
    name: &[u8],
) -> Result<Option<FoundColumn>, TableFault>
    ensures { result ≡ optional_column_in table column header.now.row name.now }
{
    match find(header, name) {
        Found::Missing => Ok(None),
        Found::At(at) => Ok(Some(FoundColumn { column, at })),
        Found::Twice => Err(header_fault(table, column, Cause::ColumnTwice)),
    }
}
