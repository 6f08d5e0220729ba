//! Folders of tables in the file system.
ghost use Rattle.std.specs.Prelude.{None};

use ra_base::limits::MOST_TABLE_BYTES;
use ra_base::{ReadLog, ReadNote, Shelf, ShelfCounts, ShelfError, TableName, Text};
use std::alloc::Global;
use std::io::Read;
use std::rt::Files;
use std::{fs, io};

/// How many bytes are read at once.
const PIECE: usize = 65_536;

/// Reads the table `units` of a folder from its file `units.csv`, and its like. It doesn't tell what the folders
/// hold; it counts each failure, and stands by what its reads have answered.
#[derive(Drop)]
pub struct FolderShelf<'a, R> {
    rt: &'a R,
    counts: ShelfCounts,
    log: ReadLog,
}

impl<'a, R: Files> FolderShelf<'a, R> {
    /// The folders of this runtime.
    pub fn new(rt: &'a R) -> FolderShelf<'a, R> {
        FolderShelf {
            rt,
            counts: ShelfCounts::NONE,
            log: ReadLog::new(),
        }
    }
}

impl<R: Files> Shelf for FolderShelf<'_, R> {
    ghost contents = { λ _. None };

    ghost reads = { λ s. s.log.items };

    ghost counts = { λ s. s.counts };

    fn read(&mut self, alloc: Global, folder: &str, table: TableName) -> Result<Text, ShelfError> {
        let answer = read_file(self.rt, alloc, folder, table);
        self.counts = self.counts.count(&answer);
        self.log = self.log.and(&ReadNote {
            folder,
            table,
            answer: &answer,
        });
        answer
    }
}

fn file_name(table: TableName) -> &'static str {
    match table {
        TableName::Zones => "zones.csv",
        TableName::Units => "units.csv",
        TableName::Interfaces => "interfaces.csv",
        TableName::Lines => "lines.csv",
        TableName::Storages => "storages.csv",
        TableName::Load => "load.csv",
        TableName::Variable => "variable.csv",
    }
}

fn read_file<R: Files>(
    rt: &R,
    alloc: Global,
    folder: &str,
    table: TableName,
) -> Result<Text, ShelfError> {
    let name = file_name(table);
    let Ok(path) = format!(in alloc; "{folder}/{name}") else {
        return Err(ShelfError::OutOfMemory);
    };
    match fs::open(rt, path.as_str()) {
        Ok(file) => read_whole(alloc, file),
        Err(error) => Err(cause(&error, ShelfError::Missing)),
    }
}

// What an error of the system comes to; `absent` where it says that nothing is there.
fn cause(error: &io::Error, absent: ShelfError) -> ShelfError {
    match error.kind() {
        io::ErrorKind::NotFound => absent,
        io::ErrorKind::OutOfMemory => ShelfError::OutOfMemory,
        _ => ShelfError::Fault,
    }
}

// All bytes of a reader, of which no more are held than a table may have.
fn read_whole<F: Read + Drop>(alloc: Global, mut file: F) -> Result<Text, ShelfError> {
    let mut text = Text::new(alloc);
    let Ok(mut piece) = vec![in alloc; 0u8; PIECE] else {
        return Err(ShelfError::OutOfMemory);
    };
    for _ in 0..u64::MAX {
        match file.read(&mut piece) {
            Ok(0) => return Ok(text),
            Ok(count) => take(&mut text, &piece[..count])?,
            Err(error) if error.kind() == io::ErrorKind::Interrupted => {}
            Err(error) => return Err(cause(&error, ShelfError::Fault)),
        }
    }
    Err(ShelfError::Fault)
}

// Appends what was read, while the table isn't too long.
fn take(text: &mut Text, piece: &[u8]) -> Result<(), ShelfError> {
    if text.bytes().len().saturating_add(piece.len()) > MOST_TABLE_BYTES {
        return Err(ShelfError::TooLong);
    }
    text.push(piece).map_err(|_| ShelfError::OutOfMemory)
}
