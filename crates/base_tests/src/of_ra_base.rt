use ra_base::*;
use std::test::Fail;

// A text grows by pieces, also where room was made for more.
#[test]
fn texts(rt: HostRuntime) -> Result<(), Fail> {
    let mut text = Text::new(rt.alloc());
    text.push(b"LOLE")?;
    text.reserve(100)?;
    text.push(b" 2.4")?;
    assert_eq!(rt; text.bytes(), b"LOLE 2.4".as_slice());
    assert_eq!(rt; text.fresh().bytes().len(), 0);
    text.push_three(b"", b" hours", b"\n")?;
    assert_eq!(rt; text.bytes(), b"LOLE 2.4 hours\n".as_slice());
    Ok(())
}

// A text takes another one in, whether it is empty itself or not.
#[test]
fn texts_in_texts(rt: HostRuntime) -> Result<(), Fail> {
    let mut report = Text::new(rt.alloc());
    for line in [b"LOLE 2.4\n", b"EUE 97.1\n"] {
        let mut text = report.fresh();
        text.push(line)?;
        report.append(text)?;
    }
    assert_eq!(rt; report.bytes(), b"LOLE 2.4\nEUE 97.1\n".as_slice());
    Ok(())
}

// Amounts are set one by one.
#[test]
fn amounts(rt: HostRuntime) -> Result<(), Fail> {
    let mut amounts = Amounts::zeros(rt.alloc(), 3)?;
    assert_eq!(rt; amounts.len(), 3);
    assert!(rt; !amounts.is_empty());
    amounts.set(1, 70);
    assert_eq!(rt;
        (amounts.get(0), amounts.get(1), amounts.get(2)),
        (0, 70, 0)
    );
    Ok(())
}

// The codes that the program ends with.
#[test]
fn status_codes(rt: HostRuntime) {
    assert_eq!(rt; Status::Done.code(), 0);
    assert_eq!(rt; Status::Words.code(), 2);
    assert_eq!(rt; Status::Table.code(), 3);
    assert_eq!(rt; Status::ReadFault.code(), 4);
    assert_eq!(rt; Status::WriteFault.code(), 5);
    assert_eq!(rt; Status::OutOfMemory.code(), 6);
    assert_eq!(rt; Status::Cancelled.code(), 7);
    assert_eq!(rt; Status::RecorderRefused.code(), 8);
}

// A shelf gives what was put last, misses what was never put, and fails the reads that it is told to fail.
#[test]
fn shelf_in_memory(rt: HostRuntime) -> Result<(), Fail> {
    let alloc = rt.alloc();
    let mut shelf = MemoryShelf::new(alloc);
    shelf.put("F", TableName::Units, b"old")?;
    shelf.put("F", TableName::Units, b"new")?;
    shelf.put("G", TableName::Load, b"load")?;
    shelf.fail(3)?;
    assert_eq!(rt;
        shelf
            .read(alloc, "F", TableName::Units)
            .map_err(|_| "first")?
            .bytes(),
        b"new".as_slice()
    );
    assert_eq!(rt;
        shelf.read(alloc, "F", TableName::Load).err(),
        Some(ShelfError::Missing)
    );
    assert_eq!(rt;
        shelf.read(alloc, "G", TableName::Load).err(),
        Some(ShelfError::Fault)
    );
    assert_eq!(rt;
        shelf
            .read(alloc, "G", TableName::Load)
            .map_err(|_| "fourth")?
            .bytes(),
        b"load".as_slice()
    );
    Ok(())
}

// A table of 64 MiB is read, one of a byte more is too long.
#[test]
fn longest_table(rt: HostRuntime) -> Result<(), Fail> {
    let alloc = rt.alloc();
    let mut shelf = MemoryShelf::new(alloc);
    let whole = vec![in alloc; 65; 67_108_864]?;
    shelf.put("F", TableName::Load, &whole)?;
    let text = shelf
        .read(alloc, "F", TableName::Load)
        .map_err(|_| "whole")?;
    assert_eq!(rt; text.bytes().len(), 67_108_864);
    let longer = vec![in alloc; 65; 67_108_865]?;
    shelf.put("F", TableName::Load, &longer)?;
    assert_eq!(rt;
        shelf.read(alloc, "F", TableName::Load).err(),
        Some(ShelfError::TooLong)
    );
    Ok(())
}

// A sink takes what fits, and of a piece that doesn't fit its first bytes.
#[test]
fn sink_in_memory(rt: HostRuntime) -> Result<(), Fail> {
    for (capacity, second, held) in [(0, false, 0), (3, false, 3), (5, false, 5), (6, true, 6)] {
        let mut sink = MemorySink::new(rt.alloc(), capacity)?;
        let _ = sink.write(b"abc");
        assert_eq!(rt; sink.write(b"def").is_ok(), second, "at {capacity}");
        assert_eq!(rt; sink.bytes(), &b"abcdef"[..held], "at {capacity}");
    }
    Ok(())
}

// Lines come in their order, the empty one too; a failed call takes none, and behind the last line there is none.
#[test]
fn console_in_memory(rt: HostRuntime) -> Result<(), Fail> {
    let alloc = rt.alloc();
    let mut console = MemoryConsole::new(alloc);
    console.push(b"report")?;
    console.push(b"")?;
    console.push(b"extend 4")?;
    console.fail(2)?;
    let wanted = [
        Ok(Some(6)),
        Err(ConsoleError::Fault),
        Ok(Some(0)),
        Ok(Some(8)),
        Ok(None),
        Ok(None),
    ];
    for (at, length) in wanted.iter().enumerate() {
        let answer = console
            .line(alloc)
            .map(|line| line.map(|text| text.bytes().len()));
        assert_eq!(rt; answer, *length, "call {at}");
    }
    Ok(())
}
