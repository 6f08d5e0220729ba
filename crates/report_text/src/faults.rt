//! The line of a fault in the tables.
ghost use Rattle.std.specs.Prelude.{◌≡◌, ◌++◌, [], map, slice_index_or, codes, OnOk, OnErr};
ghost use Rattle.decimal_text.specs.DecimalText.{whole_text};
ghost use Rattle.report_text.specs.FaultText.{table_text, number_fault_text, cause_text, fixed_column_text, column_text, fault_line};

use crate::counted::put_counted;
use decimal_text::{NumberFault, put_whole};
use ra_base::{OutOfMemory, TableName, Text};
use system_tables::{Cause, Column, TableFault};

// The columns of lines and storages, in the order of their definitions.
const LINE_COLUMNS: [&[u8]; 6] = [
    b"name",
    b"interface",
    b"forward",
    b"backward",
    b"failure",
    b"repair",
];

const STORAGE_COLUMNS: [&[u8]; 11] = [
    b"name",
    b"zone",
    b"charge",
    b"discharge",
    b"energy_kwh",
    b"start_kwh",
    b"charge_efficiency",
    b"discharge_efficiency",
    b"carryover",
    b"failure",
    b"repair",
];

/// Appends the line of a fault in the tables. Without memory the text stays as it was.
pub fn put_table_fault(out: &mut Text, fault: &TableFault) -> Result<(), OutOfMemory>
    ensures ok { OnOk result (out.new ≡ out.old ++ fault_line fault.now) }
    ensures err { OnErr result (out.new ≡ out.old) }
{
    let mut text = out.fresh();
    put_fault(&mut text, fault)?;
    out.append(text)
}

// The same, where the text is given up by the caller if memory isn't found.
#[tactic(auto, unfolding(crate::specs::FaultText::fault_line))]
fn put_fault(out: &mut Text, fault: &TableFault) -> Result<(), OutOfMemory>
    ensures { OnOk result (out.new ≡ out.old ++ fault_line fault.now) }
{
    out.push(b"table ")?;
    out.push(name_of(fault.table))?;
    put_counted(out, b" row ", u64::from(fault.row))?;
    out.push(b" column ")?;
    put_column(out, fault.table, fault.column)?;
    out.push(b": ")?;
    put_cause(out, fault.cause)?;
    out.push(b"\n")
}

// The column of a fault.
fn put_column(out: &mut Text, table: TableName, column: Column) -> Result<(), OutOfMemory>
    ensures { OnOk result (out.new ≡ out.old ++ column_text table column) }
{
    match column {
        Column::Fixed(at) => out.push(fixed_column(table, at)),
        Column::Zone(zone) => put_counted(out, b"zone ", u64::from(zone)),
        Column::Whole => out.push(b"-"),
    }
}

// The name of a column that isn't a zone's.
fn fixed_column(table: TableName, at: u8) -> &'static [u8]
    ensures { result.now ≡ fixed_column_text table at }
{
    match table {
        TableName::Zones => among(&[b"name"], at),
        TableName::Units => among(&[b"name", b"zone", b"capacity", b"failure", b"repair"], at),
        TableName::Interfaces => among(&[b"name", b"from", b"to", b"forward", b"backward"], at),
        TableName::Lines => among(&LINE_COLUMNS, at),
        TableName::Storages => among(&STORAGE_COLUMNS, at),
        TableName::Load | TableName::Variable => among(&[b"hour"], at),
    }
}

// The name at a place, and nothing past the last.
fn among(names: &[&'static [u8]], at: u8) -> &'static [u8]
    ensures { result.now ≡ slice_index_or (map (λ name. name.now) names.now) at [] }
{
    match names.get(usize::from(at)) {
        Some(name) => name,
        None => b"",
    }
}

// What is wrong with a table.
fn put_cause(out: &mut Text, cause: Cause) -> Result<(), OutOfMemory>
    ensures { OnOk result (out.new ≡ out.old ++ cause_text cause) }
{
    match cause {
        Cause::NoHeader => out.push(b"no header"),
        Cause::ColumnMissing => out.push(b"column missing"),
        Cause::ColumnTwice => out.push(b"column twice"),
        Cause::FieldCount => out.push(b"field count"),
        Cause::Number(fault) => put_number_fault(out, fault),
        Cause::OutOfRange { value, limit } => put_range(out, value, limit),
        Cause::NameTwice => out.push(b"name twice"),
        Cause::NameUnknown => out.push(b"name unknown"),
        Cause::HourOrder { found, wanted } => put_hour_order(out, found, wanted),
        Cause::TooMany { limit } => put_counted(out, b"too many rows, limit ", u64::from(limit)),
        Cause::Empty => out.push(b"empty"),
        Cause::BothRatesZero => out.push(b"both rates are zero"),
        Cause::SameZone => out.push(b"same zone"),
    }
}

// Why a field is no number of its kind.
#[tactic(auto, using(decimal_text::proofs::Growing::text_steps))]
fn put_number_fault(out: &mut Text, fault: NumberFault) -> Result<(), OutOfMemory>
    ensures { OnOk result (out.new ≡ out.old ++ number_fault_text fault) }
{
    match fault {
        NumberFault::Empty => out.push(b"empty number"),
        NumberFault::NotANumber { at } => put_counted(out, b"not a number at ", u64::from(at)),
        NumberFault::NotWhole { at } => put_counted(out, b"not whole at ", u64::from(at)),
        NumberFault::TooLarge => out.push(b"number too large"),
    }
}

// A value past its bound.
fn put_range(out: &mut Text, value: u64, limit: u64) -> Result<(), OutOfMemory>
    ensures { OnOk result (out.new ≡ out.old
        ++ whole_text value ++ codes " is out of range, limit " ++ whole_text limit) }
{
    put_whole(out, u128::from(value))?;
    put_counted(out, b" is out of range, limit ", limit)
}

// An hour that isn't the next one.
fn put_hour_order(out: &mut Text, found: u64, wanted: u64) -> Result<(), OutOfMemory>
    ensures { OnOk result (out.new ≡ out.old
        ++ codes "hour " ++ whole_text found ++ codes ", wanted " ++ whole_text wanted) }
{
    put_counted(out, b"hour ", found)?;
    put_counted(out, b", wanted ", wanted)
}

/// The name of a table, as it stands in its file's name and in the lines of refusals.
pub fn name_of(table: TableName) -> &'static [u8]
    ensures { result.now ≡ table_text table }
{
    match table {
        TableName::Zones => b"zones",
        TableName::Units => b"units",
        TableName::Interfaces => b"interfaces",
        TableName::Lines => b"lines",
        TableName::Storages => b"storages",
        TableName::Load => b"load",
        TableName::Variable => b"variable",
    }
}
