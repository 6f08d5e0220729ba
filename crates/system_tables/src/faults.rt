//! The first fault of a system's tables, and the row where it stands.
ghost use Rattle.std.specs.Prelude.{◌≡◌};
ghost use Rattle.system_tables.specs.Faults.{fault_at, refuse};

use decimal_text::NumberFault;
use ra_base::{OutOfMemory, TableName};

/// Where in a row a fault stands.
#[derive(Clone, Copy, Debug, PartialEq, Eq)]
pub enum Column {
    /// The column with this number in the order of the table's definition, from 0.
    Fixed(u8),
    /// The column of the zone with this number, from 0.
    Zone(u8),
    /// No column: the row as a whole.
    Whole,
}

/// What is wrong.
#[derive(Clone, Copy, Debug, PartialEq, Eq)]
pub enum Cause {
    /// The table has no record.
    NoHeader,
    /// No field of the header has the column's name.
    ColumnMissing,
    /// More than one field of the header has it.
    ColumnTwice,
    /// The row hasn't as many fields as the header.
    FieldCount,
    /// The field is no number of its column's kind.
    Number(NumberFault),
    /// The value passes a bound of its column.
    OutOfRange {
        /// The value, in the column's unit.
        value: u64,
        /// The bound that it passes.
        limit: u64,
    },
    /// The name stands above already, or a zone is named `hour`.
    NameTwice,
    /// No row of the other table has the name.
    NameUnknown,
    /// The hour isn't the next one, or hours are missing at the end.
    HourOrder {
        /// The hour that is there, or how many hours there are.
        found: u64,
        /// The hour that belongs there, or how many hours belong there.
        wanted: u64,
    },
    /// The row is past the most rows of its table.
    TooMany {
        /// The most rows.
        limit: u32,
    },
    /// The name has no byte, or the table has no row.
    Empty,
    /// A component could neither fail nor be repaired.
    BothRatesZero,
    /// An interface ends in the zone where it starts.
    SameZone,
}

/// The first fault of the tables: where it stands, and what it is. The header is row 1.
#[derive(Clone, Copy, Debug, PartialEq, Eq)]
pub struct TableFault {
    /// The table.
    pub table: TableName,
    /// The row, counted by records from 1.
    pub row: u32,
    /// The column.
    pub column: Column,
    /// What is wrong.
    pub cause: Cause,
}

/// Why tables give no system.
#[derive(Clone, Copy, Debug, PartialEq, Eq)]
pub enum ReadError {
    /// They have this first fault.
    Table(TableFault),
    /// Memory wasn't found.
    OutOfMemory,
}

impl From<TableFault> for ReadError {
    ghost use Rattle.std.specs.Prelude.{◌≡◌};
    ghost use Rattle.system_tables.specs.declared.faults.ReadError.{ReadError};
    ghost use Rattle.system_tables.specs.declared.faults.ReadError.TheVariants.{Table};

    ghost from_gives = { λ fault e. e ≡ Table fault };

    fn from(fault: TableFault) -> Self {
        ReadError::Table(fault)
    }
}

impl From<OutOfMemory> for ReadError {
    ghost use Rattle.std.specs.Prelude.{◌≡◌};
    ghost use Rattle.system_tables.specs.declared.faults.ReadError.{ReadError};
    ghost use Rattle.system_tables.specs.declared.faults.ReadError.TheVariants.{OutOfMemory};

    ghost from_gives = { λ _ e. e ≡ OutOfMemory };

    fn from(_: OutOfMemory) -> Self {
        ReadError::OutOfMemory
    }
}

/// A row of a table.
#[derive(Clone, Copy)]
pub(crate) struct Place {
    pub(crate) table: TableName,
    pub(crate) row: u32,
}

impl Place {
    /// The fault with this cause in this row.
    pub(crate) fn fault(self, column: Column, cause: Cause) -> TableFault
        ensures { result ≡ fault_at self column cause }
    {
        TableFault {
            table: self.table,
            row: self.row,
            column,
            cause,
        }
    }
}

/// The fault, where the test holds.
pub(crate) fn refuse(test: bool, fault: TableFault) -> Result<(), TableFault>
    ensures { result ≡ refuse test fault }
{
    if test { Err(fault) } else { Ok(()) }
}
