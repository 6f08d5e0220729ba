ghost use Rattle.std.specs.Prelude.{◌≡◌, ◌↔◌, ◌+◌, ◌-◌, ◌<◌, ◌≤◌, ◌^◌, ◌++◌, [], ◌∷◌, None, Some, Contains, IsErrOf, OnOk, OnErr, List, ℕ, min};
ghost use Rattle.std.specs.Option.{option_copied};
ghost use Rattle.ra_base.specs.Causes.{one_more};
ghost use Rattle.ra_base.specs.Outside.{ReadsAs};
ghost use Rattle.ra_base.specs.Reading.{reading};
ghost use Rattle.ra_base.specs.ShelfCounts.{counted};
ghost use Rattle.ra_base.specs.declared.table.TableName.{TableName};
ghost use Rattle.ra_base.specs.MemoryShelf.{tables_of, failing_of, calls_of, counts_of, no_counts, reads_of, with_table, shelved, is_same};

use crate::limits::MOST_TABLE_BYTES;
use crate::{OutOfMemory, ReadLog, ReadNote, Shelf, ShelfCounts, ShelfError, TableName, Text};
use std::alloc::Global;

/// One stored table; of two at one place the newer counts.
#[derive(Drop)]
struct Entry {
    folder: Text,
    table: TableName,
    bytes: Text,
}

/// Folders of tables in memory, which tell what they hold. Calls of `read` are numbered from 1, and
/// those whose number was given to `fail` count a fault.
#[derive(Drop)]
pub struct MemoryShelf {
    alloc: Global,
    // The newest first.
    entries: Vec<Entry>,
    failing: Vec<u64>,
    calls: u64,
    counts: ShelfCounts,
    log: ReadLog,
}

impl MemoryShelf {
    /// A shelf without tables. It takes no memory.
    pub fn new(alloc: Global) -> MemoryShelf
        ensures tables { (folder : List ℕ) (table : TableName) → tables_of result folder table ≡ None }
        ensures failing { failing_of result ≡ [] }
        ensures calls { calls_of result ≡ 0 }
        ensures counts { counts_of result ≡ no_counts }
        ensures reads { reads_of result ≡ [] }
    {
        MemoryShelf {
            alloc,
            entries: Vec::new(alloc),
            failing: Vec::new(alloc),
            calls: 0,
            counts: ShelfCounts::NONE,
            log: ReadLog::new(),
        }
    }

    /// Sets the bytes of one table of a folder. Without memory the shelf stays as it was.
    pub fn put(&mut self, folder: &str, table: TableName, bytes: &[u8]) -> Result<(), OutOfMemory>
        ensures ok { OnOk result (tables_of self.new
            ≡ with_table (tables_of self.old) folder.now table bytes.now) }
        ensures err { OnErr result (tables_of self.new ≡ tables_of self.old) }
        ensures failing { failing_of self.new ≡ failing_of self.old }
        ensures calls { calls_of self.new ≡ calls_of self.old }
        ensures counts { counts_of self.new ≡ counts_of self.old }
        ensures reads { reads_of self.new ≡ reads_of self.old }
    {
        let mut entry = Entry {
            folder: Text::new(self.alloc),
            table,
            bytes: Text::new(self.alloc),
        };
        entry.folder.push(folder.as_bytes())?;
        entry.bytes.push(bytes)?;
        match self.entries.insert(0, entry) {
            Ok(()) => Ok(()),
            Err(_) => Err(OutOfMemory),
        }
    }

    /// Has the read of that number count a fault. Without memory the shelf stays as it was.
    pub fn fail(&mut self, call: u64) -> Result<(), OutOfMemory>
        requires first { 1 ≤ call }
        requires last { call < 2 ^ 64 - 1 }
        ensures ok { OnOk result (failing_of self.new ≡ failing_of self.old ++ call ∷ []) }
        ensures err { OnErr result (failing_of self.new ≡ failing_of self.old) }
        ensures tables { tables_of self.new ≡ tables_of self.old }
        ensures calls { calls_of self.new ≡ calls_of self.old }
        ensures counts { counts_of self.new ≡ counts_of self.old }
        ensures reads { reads_of self.new ≡ reads_of self.old }
    {
        match self.failing.push(call) {
            Ok(()) => Ok(()),
            Err(_) => Err(OutOfMemory),
        }
    }
}

impl Shelf for MemoryShelf {
    ghost contents = { λ s. Some (tables_of s) };

    ghost reads = { reads_of };

    ghost counts = { counts_of };

    fn read(&mut self, alloc: Global, folder: &str, table: TableName) -> Result<Text, ShelfError>
        ensures contents { Some (tables_of self.new) ≡ Some (tables_of self.old) }
        ensures told { ReadsAs (tables_of self.old folder.now table) result }
        ensures reads { reads_of self.new ≡ reads_of self.old ++ reading folder.now table result ∷ [] }
        ensures counts { counts_of self.new ≡ counted (counts_of self.old) result }
        ensures calls { calls_of self.new ≡ one_more (calls_of self.old) }
        ensures failing { failing_of self.new ≡ failing_of self.old }
        ensures fails { IsErrOf result ShelfError.Fault ↔ Contains (failing_of self.old) (calls_of self.new) }
    {
        self.calls = self.calls.saturating_add(1);
        let answer = if self.failing.contains(&self.calls) {
            Err(ShelfError::Fault)
        } else {
            stored(alloc, &self.entries, folder, table)
        };
        self.counts = self.counts.count(&answer);
        self.log = self.log.and(&ReadNote {
            folder,
            table,
            answer: &answer,
        });
        answer
    }
}

// A copy of the newest of the tables at a place.
fn stored(
    alloc: Global,
    entries: &[Entry],
    folder: &str,
    table: TableName,
) -> Result<Text, ShelfError>
    ensures told { ReadsAs (shelved entries.now folder.now table) result }
    ensures sound { IsErrOf result ShelfError.Fault → ⊥ }
{
    let Some(stored) = find(entries, folder, table) else {
        return Err(ShelfError::Missing);
    };
    if stored.bytes().len() > MOST_TABLE_BYTES {
        return Err(ShelfError::TooLong);
    }
    let mut text = Text::new(alloc);
    match text.push(stored.bytes()) {
        Ok(()) => Ok(text),
        Err(OutOfMemory) => Err(ShelfError::OutOfMemory),
    }
}

impl Entry {
    // Whether it is that table of that folder.
    fn is_at(&self, folder: &str, table: TableName) -> bool
        ensures { result ≡ is_same self.now.folder self.now.table folder.now table }
    {
        self.table as u8 == table as u8 && self.folder.bytes() == folder.as_bytes()
    }
}

// The newest of the tables at a place.
fn find<'a>(entries: &'a [Entry], folder: &str, table: TableName) -> Option<&'a Text>
    ensures { option_copied result ≡ shelved entries.now folder.now table }
{
    for entry in entries {
        if entry.is_at(folder, table) {
            return Some(&entry.bytes);
        }
    }
    None
}
