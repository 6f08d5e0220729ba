//! A table's bytes as records, one at a time, each field without the spaces at its ends.
ghost use Rattle.std.specs.Prelude.{◌≡◌, ◌<◌, [], ◌∷◌, length, slice_index_or, Ok, true, false};
ghost use Rattle.csv.specs.Reading.{strip_bom};
ghost use Rattle.system_tables.specs.Records.{RecordsLeft, has_mark, without_front, without_end, without_spaces, records_of};

use csv::{ByteRecord, Reader, ReaderBuilder};
use ra_base::OutOfMemory;
use std::alloc::Global;
use std::marker::Model;

/// The records of a table: the one that was read last, and those that are left.
#[derive(Drop)]
pub(crate) struct Records<'a> {
    reader: Reader<&'a [u8]>,
    row: ByteRecord,
    // No record is left, or a read failed.
    is_done: bool,
}

impl<'a> Model for Records<'a> {
    ghost use Rattle.system_tables.specs.Records.{RecordsLeft};

    ghost Value = { RecordsLeft };

    ghost use Rattle.system_tables.specs.Reader.{left_of, IsReader};

    ghost view = { left_of };

    ghost invariant = { IsReader };
}

impl<'a> Records<'a> {
    /// All records of a table. It takes no memory.
    pub(crate) fn new(alloc: Global, table: &'a [u8]) -> Records<'a>
        ensures { result ≡ record { row = []; rest = records_of table.now } }
    {
        let reader = ReaderBuilder::new()
            .has_headers(false)
            .flexible(true)
            .from_reader(alloc, without_mark(table));
        Records {
            reader,
            row: ByteRecord::new(alloc),
            is_done: false,
        }
    }

    /// Reads the next record, and says whether there was one. A table's bytes stand in memory, so reading
    /// them fails for want of memory alone.
    pub(crate) fn next(&mut self) -> Result<bool, OutOfMemory>
        ensures found { result ≡ Ok true → self.old.rest ≡ self.new.row ∷ self.new.rest }
        ensures none { result ≡ Ok false → self.old.rest ≡ [] }
    {
        if self.is_done {
            return Ok(false);
        }
        self.is_done = true;
        let Ok(found) = self.reader.read_byte_record(&mut self.row) else {
            return Err(OutOfMemory);
        };
        self.is_done = !found;
        Ok(found)
    }

    /// How many fields the record has that was read last.
    pub(crate) fn len(&self) -> usize
        ensures { result ≡ length self.now.row }
    {
        self.row.len()
    }

    /// A field of the record that was read last; past its end an empty one.
    pub(crate) fn field(&self, at: usize) -> &[u8]
        ensures { result.now ≡ slice_index_or self.now.row at [] }
    {
        match self.row.get(at) {
            Some(field) => trimmed(field),
            None => &[],
        }
    }
}

// Whether the bytes begin with a byte order mark.
fn has_mark(table: &[u8]) -> bool
    ensures { result ≡ has_mark table.now }
{
    table.len() >= 3 && table[0] == 0xEF && table[1] == 0xBB && table[2] == 0xBF
}

// The bytes without a byte order mark in front.
#[tactic(auto, using(crate::proofs::TextLaws::strip_marked, crate::proofs::TextLaws::strip_unmarked))]
fn without_mark(table: &[u8]) -> &[u8]
    ensures { result.now ≡ strip_bom table.now }
{
    if has_mark(table) {
        return &table[3..];
    }
    table
}

// The field without the spaces in front.
#[tactic(auto, using(crate::proofs::TextLaws::front_is))]
fn without_front(field: &[u8]) -> &[u8]
    ensures { result.now ≡ without_front field.now }
{
    for (i, byte) in field.iter().enumerate() {
        if *byte != b' ' {
            return &field[i..];
        }
    }
    &field[field.len()..]
}

// The field without the spaces at its end.
#[tactic(auto, using(crate::proofs::TextLaws::end_is))]
fn without_end(field: &[u8]) -> &[u8]
    ensures { result.now ≡ without_end field.now }
{
    let mut len = field.len();
    'end: while len > 0 {
        if field[len - 1] != b' ' {
            return &field[..len];
        }
        len -= 1;
    }
    &field[..0]
}

// The field without the spaces at its ends.
fn trimmed(field: &[u8]) -> &[u8]
    ensures { result.now ≡ without_spaces field.now }
{
    without_end(without_front(field))
}
