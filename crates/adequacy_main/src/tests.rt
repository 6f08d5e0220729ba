use crate::folder_shelf::FolderShelf;
use crate::std_console::StdConsole;
use crate::std_sink::StdSink;
use ra_base::{Console, ConsoleError, Shelf, ShelfError, Sink, TableName};
use std::fs;
use std::test::Fail;

// A shelf over real folders gives what a file holds, and tells a missing one, one that can't be read (a
// folder in its place) and one that is a byte too long apart.
#[test]
fn real_folders(rt: HostRuntime) -> Result<(), Fail> {
    let alloc = rt.alloc();
    fs::create_dir(&rt, "F")?;
    fs::write(&rt, "F/zones.csv", "name\nA\n")?;
    fs::create_dir(&rt, "F/units.csv")?;
    let whole = vec![in alloc; 65u8; 67_108_864]?;
    fs::write(&rt, "F/load.csv", whole.as_slice())?;
    let longer = vec![in alloc; 65u8; 67_108_865]?;
    fs::write(&rt, "F/lines.csv", longer.as_slice())?;
    let mut shelf = FolderShelf::new(&rt);
    let zones = shelf
        .read(alloc, "F", TableName::Zones)
        .map_err(|_| "zones")?;
    assert_eq!(rt; zones.bytes(), b"name\nA\n".as_slice());
    let load = shelf.read(alloc, "F", TableName::Load).map_err(|_| "load")?;
    assert_eq!(rt; load.bytes().len(), 67_108_864);
    for (folder, table, want) in [
        ("F", TableName::Variable, ShelfError::Missing),
        ("G", TableName::Zones, ShelfError::Missing),
        ("F", TableName::Units, ShelfError::Fault),
        ("F/zones.csv", TableName::Zones, ShelfError::Fault),
        ("F", TableName::Lines, ShelfError::TooLong),
    ] {
        assert_eq!(rt;
            shelf.read(alloc, folder, table).err(),
            Some(want),
            "in {folder}"
        );
    }
    Ok(())
}

// A sink over a real file passes on what it is given, in order.
#[test]
fn real_sink(rt: HostRuntime) -> Result<(), Fail> {
    let mut sink = StdSink::new(fs::create(&rt, "answer")?);
    assert!(rt; sink.write(b"samples 2\n").is_ok());
    assert!(rt; sink.write(b"").is_ok());
    assert!(rt; sink.write(b"hours\n").is_ok());
    assert_eq!(rt;
        fs::read(&rt, "answer")?.as_slice(),
        b"samples 2\nhours\n".as_slice()
    );
    let mut closed = StdSink::new(fs::open(&rt, "answer")?);
    assert!(rt; closed.write(b"x").is_err());
    Ok(())
}

// A console over a real file gives its lines: a carriage return stays, an empty line is one, a long line comes cut
// to 4,097 bytes, the last needs no line feed; then there is none. A folder in the file's place can't be read.
#[test]
fn real_console(rt: HostRuntime) -> Result<(), Fail> {
    let alloc = rt.alloc();
    let mut text = Vec::new(alloc);
    text.extend_from_slice(b"progress\r\n\n")?;
    text.extend_from_slice(&vec![in alloc; 120u8; 5_000]?)?;
    text.extend_from_slice(b"\nseal")?;
    fs::write(&rt, "lines", text.as_slice())?;
    let mut console = StdConsole::new(fs::open(&rt, "lines")?);
    for (length, first) in [
        (9, b"progress\r".as_slice()),
        (0, b""),
        (4_097, b"xxx"),
        (4, b"seal"),
    ] {
        let line = console.line(alloc).map_err(|_| "line")?.ok_or("end")?;
        assert_eq!(rt; line.bytes().len(), length);
        assert!(rt; line.bytes().starts_with(first));
    }
    assert!(rt; console.line(alloc).map_err(|_| "end")?.is_none());
    fs::create_dir(&rt, "H")?;
    let mut folder = StdConsole::new(fs::open(&rt, "H")?);
    assert_eq!(rt; folder.line(alloc).err(), Some(ConsoleError::Fault));
    Ok(())
}
