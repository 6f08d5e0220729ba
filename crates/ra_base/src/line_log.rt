//! What the calls of a console have answered. It exists only in proofs and has no bytes.
ghost use Rattle.std.specs.Prelude.{◌≡◌, ◌++◌, [], ◌∷◌, List, ℕ, Option, Result};
ghost use base.Fml.{ftrue};
ghost use Rattle.ra_base.specs.declared.console.ConsoleError.{ConsoleError};

use crate::{ConsoleError, Text};
use std::marker::Model;

/// The answers of a console's calls, the first one first. A console keeps one to stand by what it has answered.
#[derive(Drop)]
pub struct LineLog {
    pub ghost items: { List (Result (Option (List ℕ)) ConsoleError) },
}

impl Model for LineLog {
    ghost also_owns = { λ _. ftrue };
}

/// One call's answer.
#[derive(Clone, Copy)]
pub struct LineNote<'a> {
    pub answer: &'a Result<Option<Text>, ConsoleError>,
}

impl LineLog {
    /// The log before the first call.
    pub fn new() -> LineLog
        ensures { result.items ≡ [] }
    {
        LineLog {}
    }

    /// The log with one more answer.
    pub fn and(&self, _note: &LineNote<'_>) -> LineLog
        ensures { result.items ≡ self.now.items ++ _note.now.answer.now ∷ [] }
    {
        LineLog {}
    }
}
