//! What the reads of a shelf have answered. It exists only in proofs and has no bytes.
ghost use Rattle.std.specs.Prelude.{◌≡◌, ◌++◌, [], ◌∷◌, List};
ghost use base.Fml.{ftrue};
ghost use Rattle.ra_base.specs.Reading.{Reading};

use crate::{ShelfError, TableName, Text};
use std::marker::Model;

/// The answers of a shelf's reads, the first one first. A shelf keeps one to stand by what it has answered.
#[derive(Drop)]
pub struct ReadLog {
    pub ghost items: { List Reading },
}

impl Model for ReadLog {
    ghost also_owns = { λ _. ftrue };
}

/// One read with its answer.
#[derive(Clone, Copy)]
pub struct ReadNote<'a> {
    pub folder: &'a str,
    pub table: TableName,
    pub answer: &'a Result<Text, ShelfError>,
}

impl ReadLog {
    ghost use Rattle.ra_base.specs.Noted.{noted};

    /// The log before the first read.
    pub fn new() -> ReadLog
        ensures { result.items ≡ [] }
    {
        ReadLog {}
    }

    /// The log with one more read.
    pub fn and(&self, _note: &ReadNote<'_>) -> ReadLog
        ensures { result.items ≡ self.now.items ++ noted _note.now ∷ [] }
    {
        ReadLog {}
    }
}
