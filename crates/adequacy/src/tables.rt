//! The tables of a folder, read from a shelf in their order, and the system that they spell.
ghost use Rattle.std.specs.Prelude.{◌≡◌, Ok, Result};
ghost use Rattle.ra_base.specs.Causes.{Counts};
ghost use Rattle.ra_base.specs.declared.table.TableBytes.{TableBytes};
ghost use Rattle.adequacy.specs.declared.tables.FolderError.{FolderError};
ghost use Rattle.adequacy.specs.Folder.{can_be_missing, folder_outcome, read_outcome, no_tables, with_table, table_order, HasRead, ComesTo, is_read_failure};

use ra_base::{Shelf, ShelfError, TableBytes, TableName, Text};
use std::alloc::Global;
use system_model::System;
use system_tables::{ReadError, TableFault, read_system};

/// The tables in the order in which they are read.
const TABLE_ORDER: [TableName; 7] = [
    TableName::Zones,
    TableName::Units,
    TableName::Interfaces,
    TableName::Lines,
    TableName::Storages,
    TableName::Load,
    TableName::Variable,
];

/// Why the tables of a folder are refused.
#[derive(Clone, Copy, Debug, PartialEq, Eq)]
pub enum Refusal {
    /// There is no such table, and a system needs it.
    Missing(TableName),
    /// The table is longer than 64 MiB.
    TooLong(TableName),
    /// The first fault in the tables.
    Fault(TableFault),
}

/// Why a folder gives no system.
#[derive(Clone, Copy, Debug, PartialEq, Eq)]
pub enum FolderError {
    /// Its tables are refused.
    Refused(Refusal),
    /// A read of the shelf failed.
    ReadFault,
    /// Memory wasn't found.
    OutOfMemory,
}

/// The system of a folder, from its tables in their order. Reading ends at the first table that gives a reason
/// to.
pub(crate) fn read_folder<S: Shelf>(
    alloc: Global,
    folder: &str,
    shelf: &mut S,
) -> Result<System, FolderError>
    ensures contents { S.contents shelf.new ≡ S.contents shelf.old }
    ensures reads { (tables : Result TableBytes FolderError) × ComesTo (folder_outcome tables) result
        × HasRead (S.contents shelf.old) folder.now no_tables table_order tables
        (S.reads shelf.old) (S.reads shelf.new) (S.counts shelf.old) (S.counts shelf.new) }
    ensures faults { Counts (is_read_failure result) (S.counts shelf.old).faults (S.counts shelf.new).faults }
{
    let tables = read_tables(alloc, folder, &TABLE_ORDER, empty_tables(), shelf)?;
    match read_system(alloc, &tables) {
        Ok(system) => Ok(system),
        Err(ReadError::Table(fault)) => Err(FolderError::Refused(Refusal::Fault(fault))),
        Err(ReadError::OutOfMemory) => Err(FolderError::OutOfMemory),
    }
}

// No table yet.
fn empty_tables() -> TableBytes
    ensures { result ≡ no_tables }
{
    TableBytes {
        zones: None,
        units: None,
        interfaces: None,
        lines: None,
        storages: None,
        load: None,
        variable: None,
    }
}

// The tables of a folder in this order, on top of those that are there. Reading ends at the first that gives
// a reason to.
fn read_tables<S: Shelf>(
    alloc: Global,
    folder: &str,
    order: &[TableName],
    tables: TableBytes,
    shelf: &mut S,
) -> Result<TableBytes, FolderError>
    ensures contents { S.contents shelf.new ≡ S.contents shelf.old }
    ensures reads { HasRead (S.contents shelf.old) folder.now tables order.now result
        (S.reads shelf.old) (S.reads shelf.new) (S.counts shelf.old) (S.counts shelf.new) }
    ensures faults { Counts (is_read_failure result) (S.counts shelf.old).faults (S.counts shelf.new).faults }
{
    let [table, rest @ ..] = order else {
        return Ok(tables);
    };
    let text = outcome_of(*table, shelf.read(alloc, folder, *table))?;
    read_tables(alloc, folder, rest, set_table(tables, *table, text), shelf)
}

// What a read's answer comes to.
fn outcome_of(
    table: TableName,
    answer: Result<Text, ShelfError>,
) -> Result<Option<Text>, FolderError>
    ensures { result ≡ read_outcome table answer }
{
    match answer {
        Ok(text) => Ok(Some(text)),
        Err(ShelfError::Missing) if may_be_missing(table) => Ok(None),
        Err(ShelfError::Missing) => Err(FolderError::Refused(Refusal::Missing(table))),
        Err(ShelfError::TooLong) => Err(FolderError::Refused(Refusal::TooLong(table))),
        Err(ShelfError::Fault) => Err(FolderError::ReadFault),
        Err(ShelfError::OutOfMemory) => Err(FolderError::OutOfMemory),
    }
}

// Whether a system can do without this table.
fn may_be_missing(table: TableName) -> bool
    ensures { result ≡ can_be_missing table }
{
    match table {
        TableName::Zones | TableName::Units | TableName::Load => false,
        TableName::Interfaces | TableName::Lines | TableName::Storages | TableName::Variable => {
            true
        }
    }
}

// The tables with one of them set.
fn set_table(mut tables: TableBytes, table: TableName, text: Option<Text>) -> TableBytes
    ensures { result ≡ with_table tables table text }
{
    match table {
        TableName::Zones => tables.zones = text,
        TableName::Units => tables.units = text,
        TableName::Interfaces => tables.interfaces = text,
        TableName::Lines => tables.lines = text,
        TableName::Storages => tables.storages = text,
        TableName::Load => tables.load = text,
        TableName::Variable => tables.variable = text,
    }
    tables
}
