use decimal_text::NumberFault;
use ra_base::{OutOfMemory, TableBytes, TableName, Text};
use std::alloc::Global;
use std::process::Abort;
use system_model::{Interface, Line, Rates, Storage, System, Unit};
use system_tables::{Cause, Column, ReadError, TableFault, read_system};

// The texts of the tables of a case.
#[derive(Clone, Copy)]
struct Tables {
    zones: &'static str,
    units: &'static str,
    interfaces: Option<&'static str>,
    lines: Option<&'static str>,
    storages: Option<&'static str>,
    load: &'static str,
    variable: Option<&'static str>,
}

// One zone, one unit and one hour.
const SOUND: Tables = Tables {
    zones: "name\nA\n",
    units: "name,zone,capacity,failure,repair\nU1,A,100,0,1\n",
    interfaces: None,
    lines: None,
    storages: None,
    load: "hour,A\n0,60\n",
    variable: None,
};

fn text_of(alloc: Global, bytes: &str) -> Result<Text, OutOfMemory> {
    let mut text = Text::new(alloc);
    text.push(bytes.as_bytes())?;
    Ok(text)
}

fn optional_text(alloc: Global, bytes: Option<&str>) -> Result<Option<Text>, OutOfMemory> {
    let Some(bytes) = bytes else {
        return Ok(None);
    };
    let text = text_of(alloc, bytes)?;
    Ok(Some(text))
}

fn read(alloc: Global, tables: Tables) -> Result<System, ReadError> {
    let zones = Some(text_of(alloc, tables.zones)?);
    let units = Some(text_of(alloc, tables.units)?);
    let load = Some(text_of(alloc, tables.load)?);
    let tables = TableBytes {
        zones,
        units,
        interfaces: optional_text(alloc, tables.interfaces)?,
        lines: optional_text(alloc, tables.lines)?,
        storages: optional_text(alloc, tables.storages)?,
        load,
        variable: optional_text(alloc, tables.variable)?,
    };
    read_system(alloc, &tables)
}

// The first fault of the tables, where they have one.
fn fault_of(alloc: Global, tables: Tables) -> Option<TableFault> {
    match read(alloc, tables) {
        Err(ReadError::Table(fault)) => Some(fault),
        _ => None,
    }
}

static FAULTS: [(Tables, TableFault); 26] = [
    // A capacity that isn't whole.
    (
        Tables {
            units: "name,zone,capacity,failure,repair\nU1,A,155.5,0,1\n",
            ..SOUND
        },
        TableFault {
            table: TableName::Units,
            row: 2,
            column: Column::Fixed(2),
            cause: Cause::Number(NumberFault::NotWhole { at: 4 }),
        },
    ),
    // An open quote runs to the end, and still gives a record.
    (
        Tables {
            units: "name,zone,capacity,failure,repair\nU1,A,3,0,1\n\"U2,A,4,0,1",
            ..SOUND
        },
        TableFault {
            table: TableName::Units,
            row: 3,
            column: Column::Whole,
            cause: Cause::FieldCount,
        },
    ),
    // An hour is missing.
    (
        Tables {
            load: "hour,A\n0,60\n1,60\n3,60\n",
            ..SOUND
        },
        TableFault {
            table: TableName::Load,
            row: 4,
            column: Column::Fixed(0),
            cause: Cause::HourOrder {
                found: 3,
                wanted: 2,
            },
        },
    ),
    // The first hour is 2.
    (
        Tables {
            load: "hour,A\n2,60\n",
            ..SOUND
        },
        TableFault {
            table: TableName::Load,
            row: 2,
            column: Column::Fixed(0),
            cause: Cause::HourOrder {
                found: 2,
                wanted: 0,
            },
        },
    ),
    // More than 200,000 MW together.
    (
        Tables {
            units: "name,zone,capacity,failure,repair\nU1,A,200000,0,1\nU2,A,1,0,1\n",
            ..SOUND
        },
        TableFault {
            table: TableName::Units,
            row: 3,
            column: Column::Fixed(2),
            cause: Cause::OutOfRange {
                value: 200_001,
                limit: 200_000,
            },
        },
    ),
    // An interface from a zone to itself.
    (
        Tables {
            interfaces: Some("name,from,to,forward,backward\nI,A,A,1,1\n"),
            ..SOUND
        },
        TableFault {
            table: TableName::Interfaces,
            row: 2,
            column: Column::Fixed(2),
            cause: Cause::SameZone,
        },
    ),
    // Both rates are 0.
    (
        Tables {
            units: "name,zone,capacity,failure,repair\nU1,A,100,0,0\n",
            ..SOUND
        },
        TableFault {
            table: TableName::Units,
            row: 2,
            column: Column::Fixed(4),
            cause: Cause::BothRatesZero,
        },
    ),
    // No record.
    (
        Tables { units: "", ..SOUND },
        TableFault {
            table: TableName::Units,
            row: 1,
            column: Column::Whole,
            cause: Cause::NoHeader,
        },
    ),
    // A byte order mark alone.
    (
        Tables {
            units: "\u{feff}",
            ..SOUND
        },
        TableFault {
            table: TableName::Units,
            row: 1,
            column: Column::Whole,
            cause: Cause::NoHeader,
        },
    ),
    // A column is missing.
    (
        Tables {
            units: "name,zone,capacity,failure\nU1,A,100,0\n",
            ..SOUND
        },
        TableFault {
            table: TableName::Units,
            row: 1,
            column: Column::Fixed(4),
            cause: Cause::ColumnMissing,
        },
    ),
    // A column twice.
    (
        Tables {
            units: "name,zone,capacity,failure,repair,name\n",
            ..SOUND
        },
        TableFault {
            table: TableName::Units,
            row: 1,
            column: Column::Fixed(0),
            cause: Cause::ColumnTwice,
        },
    ),
    // No zone.
    (
        Tables {
            zones: "name\n",
            ..SOUND
        },
        TableFault {
            table: TableName::Zones,
            row: 2,
            column: Column::Fixed(0),
            cause: Cause::Empty,
        },
    ),
    // 33 zones.
    (
        Tables {
            zones: "name\nZ0\nZ1\nZ2\nZ3\nZ4\nZ5\nZ6\nZ7\nZ8\nZ9\nZ10\nZ11\nZ12\nZ13\nZ14\nZ15\nZ16\nZ17\nZ18\nZ19\nZ20\nZ21\nZ22\nZ23\nZ24\nZ25\nZ26\nZ27\nZ28\nZ29\nZ30\nZ31\nZ32\n",
            ..SOUND
        },
        TableFault {
            table: TableName::Zones,
            row: 34,
            column: Column::Whole,
            cause: Cause::TooMany { limit: 32 },
        },
    ),
    // An exponent without digits.
    (
        Tables {
            units: "name,zone,capacity,failure,repair\nU1,A,1e,0,1\n",
            ..SOUND
        },
        TableFault {
            table: TableName::Units,
            row: 2,
            column: Column::Fixed(2),
            cause: Cause::Number(NumberFault::NotANumber { at: 2 }),
        },
    ),
    // A number of 41 digits.
    (
        Tables {
            units: "name,zone,capacity,failure,repair\nU1,A,00000000000000000000000000000000000000000,0,1\n",
            ..SOUND
        },
        TableFault {
            table: TableName::Units,
            row: 2,
            column: Column::Fixed(2),
            cause: Cause::Number(NumberFault::TooLarge),
        },
    ),
    // A sign in front.
    (
        Tables {
            units: "name,zone,capacity,failure,repair\nU1,A,-1,0,1\n",
            ..SOUND
        },
        TableFault {
            table: TableName::Units,
            row: 2,
            column: Column::Fixed(2),
            cause: Cause::Number(NumberFault::NotANumber { at: 0 }),
        },
    ),
    // A load past its limit.
    (
        Tables {
            load: "hour,A\n0,200001\n",
            ..SOUND
        },
        TableFault {
            table: TableName::Load,
            row: 2,
            column: Column::Zone(0),
            cause: Cause::OutOfRange {
                value: 200_001,
                limit: 200_000,
            },
        },
    ),
    // Two loads past the limit together.
    (
        Tables {
            zones: "name\nA\nB\n",
            load: "hour,A,B\n0,150000,150000\n",
            ..SOUND
        },
        TableFault {
            table: TableName::Load,
            row: 2,
            column: Column::Whole,
            cause: Cause::OutOfRange {
                value: 300_000,
                limit: 200_000,
            },
        },
    ),
    // A storage that starts with more than it holds.
    (
        Tables {
            storages: Some(
                "name,zone,charge,discharge,energy_kwh,start_kwh,charge_efficiency,discharge_efficiency,carryover,failure,repair\nS,A,1,1,10,11,1,1,1,0,1\n",
            ),
            ..SOUND
        },
        TableFault {
            table: TableName::Storages,
            row: 2,
            column: Column::Fixed(5),
            cause: Cause::OutOfRange {
                value: 11,
                limit: 10,
            },
        },
    ),
    // A carryover below a thousandth.
    (
        Tables {
            storages: Some(
                "name,zone,charge,discharge,energy_kwh,start_kwh,charge_efficiency,discharge_efficiency,carryover,failure,repair\nS,A,1,1,10,10,1,1,0.0005,0,1\n",
            ),
            ..SOUND
        },
        TableFault {
            table: TableName::Storages,
            row: 2,
            column: Column::Fixed(8),
            cause: Cause::OutOfRange { value: 0, limit: 1 },
        },
    ),
    // Fewer hours of variable generation than of load.
    (
        Tables {
            load: "hour,A\n0,1\n1,1\n2,1\n",
            variable: Some("hour,A\n0,1\n1,1\n"),
            ..SOUND
        },
        TableFault {
            table: TableName::Variable,
            row: 4,
            column: Column::Fixed(0),
            cause: Cause::HourOrder {
                found: 2,
                wanted: 3,
            },
        },
    ),
    // More hours of variable generation than of load.
    (
        Tables {
            load: "hour,A\n0,1\n1,1\n",
            variable: Some("hour,A\n0,1\n1,1\n2,1\n"),
            ..SOUND
        },
        TableFault {
            table: TableName::Variable,
            row: 4,
            column: Column::Whole,
            cause: Cause::TooMany { limit: 2 },
        },
    ),
    // A line of an interface that isn't there.
    (
        Tables {
            lines: Some("name,interface,forward,backward,failure,repair\nL,I,1,1,0,1\n"),
            ..SOUND
        },
        TableFault {
            table: TableName::Lines,
            row: 2,
            column: Column::Fixed(1),
            cause: Cause::NameUnknown,
        },
    ),
    // A zone named `hour`.
    (
        Tables {
            zones: "name\nhour\n",
            ..SOUND
        },
        TableFault {
            table: TableName::Zones,
            row: 2,
            column: Column::Fixed(0),
            cause: Cause::NameTwice,
        },
    ),
    // Two faults of one row: an unknown zone, and a capacity that stands before it in the file.
    (
        Tables {
            units: "capacity,name,zone,failure,repair\n1e,U1,B,0,1\n",
            ..SOUND
        },
        TableFault {
            table: TableName::Units,
            row: 2,
            column: Column::Fixed(1),
            cause: Cause::NameUnknown,
        },
    ),
    // Two faults in two tables: the last row of `units`, and the header of `load`.
    (
        Tables {
            units: "name,zone,capacity,failure,repair\nU1,A,100,0,1\nU1,A,100,0,1\n",
            load: "A\n",
            ..SOUND
        },
        TableFault {
            table: TableName::Units,
            row: 3,
            column: Column::Fixed(0),
            cause: Cause::NameTwice,
        },
    ),
];

// A spreadsheet's tables: a byte order mark, line ends of two bytes, quotes, spaces, and columns in another order
// beside further ones.
const SPREADSHEET: Tables = Tables {
    units: "\u{feff}fuel,repair,name,zone,failure,capacity\r\ngas,0.98,\"U, one\",A,0.02,3.0\r\ncoal, 0.98 ,U2,A,2e-2,5\r\n",
    load: "hour,A\r\n1,8\r\n",
    ..SOUND
};

const FULL: Tables = Tables {
    zones: "name\nA\nhours\n",
    units: "name,zone,capacity,failure,repair\nA,hours,155.0,1e-04,.5\n",
    interfaces: Some("name,from,to,forward,backward\nTie,A,hours,400,300\n"),
    lines: Some("name,interface,forward,backward,failure,repair\nTie,Tie,250,200,0.001,0.1\n"),
    storages: Some(
        "name,zone,charge,discharge,energy_kwh,start_kwh,charge_efficiency,discharge_efficiency,carryover,failure,repair\nPumps,A,100,120,400000,200000,0.9,0.95,1.0009999,0,1\n",
    ),
    load: "hours,hour,A\n70,0,50\n80,1,50\n",
    variable: Some("hour,hours\n1,0\n2,5\n"),
};

fn the_spreadsheet_is_read(rt: &impl Abort, system: &System) {
    assert_eq!(rt; system.units(), 2);
    assert_eq!(rt; system.unit_name(0), b"U, one".as_slice());
    let rates = Rates {
        f: 20_000_000,
        r: 980_000_000,
    };
    let gas = Unit {
        zone: 0,
        capacity: 3,
        rates,
    };
    let coal = Unit {
        zone: 0,
        capacity: 5,
        rates,
    };
    assert_eq!(rt; system.unit(0), gas);
    assert_eq!(rt; system.unit(1), coal);
}

fn the_parts_are_read(rt: &impl Abort, system: &System) {
    assert_eq!(rt; system.units(), 1);
    assert_eq!(rt; system.interfaces(), 1);
    assert_eq!(rt; system.lines(), 1);
    assert_eq!(rt; system.storages(), 1);
    let unit = Unit {
        zone: 1,
        capacity: 155,
        rates: Rates {
            f: 100_000,
            r: 500_000_000,
        },
    };
    let tie = Interface {
        from: 0,
        to: 1,
        forward: 400,
        backward: 300,
    };
    let circuit = Line {
        interface: 0,
        forward: 250,
        backward: 200,
        rates: Rates {
            f: 1_000_000,
            r: 100_000_000,
        },
    };
    let pumps = Storage {
        zone: 0,
        charge: 100,
        discharge: 120,
        energy: 400_000,
        start: 200_000,
        charge_eff: 900,
        discharge_eff: 950,
        carry: 1_000,
        rates: Rates {
            f: 0,
            r: 1_000_000_000,
        },
    };
    assert_eq!(rt; system.unit(0), unit);
    assert_eq!(rt; system.interface(0), tie);
    assert_eq!(rt; system.line(0), circuit);
    assert_eq!(rt; system.storage(0), pumps);
}

fn the_hours_are_read(rt: &impl Abort, system: &System) {
    assert_eq!(rt; system.zones(), 2);
    assert_eq!(rt; system.hours(), 2);
    assert_eq!(rt; system.load(0, 0), 50);
    assert_eq!(rt; system.load(0, 1), 70);
    assert_eq!(rt; system.load(1, 1), 80);
    assert_eq!(rt; system.variable(0, 1), 0);
    assert_eq!(rt; system.variable(1, 0), 0);
    assert_eq!(rt; system.variable(1, 1), 5);
}

#[test]
fn tables_are_read_or_their_first_fault_is_named(rt: HostRuntime) {
    for (tables, fault) in &FAULTS {
        assert_eq!(rt; fault_of(rt.alloc(), *tables), Some(*fault));
    }
    let Ok(spreadsheet) = read(rt.alloc(), SPREADSHEET) else {
        panic!(rt; "a spreadsheet is refused");
    };
    the_spreadsheet_is_read(&rt, &spreadsheet);
    let Ok(full) = read(rt.alloc(), FULL) else {
        panic!(rt; "seven tables are refused");
    };
    the_parts_are_read(&rt, &full);
    the_hours_are_read(&rt, &full);
}
