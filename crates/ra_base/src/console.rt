ghost use Rattle.std.specs.Prelude.{◌≡◌, ◌++◌, [], ◌∷◌, List, ℕ, Option, Result};
ghost use Rattle.ra_base.specs.Causes.{Counts};
ghost use Rattle.ra_base.specs.ConsoleLines.{LinesTold, IsShort, is_line_fault};
ghost use Rattle.ra_base.specs.declared.console.ConsoleError.{ConsoleError};

use crate::Text;
use std::alloc::Global;

/// Why a console gave no answer.
#[derive(Clone, Copy, Debug, PartialEq, Eq)]
pub enum ConsoleError {
    /// The read failed.
    Fault,
    /// Memory wasn't found.
    OutOfMemory,
}

/// Where lines come from while the program runs.
pub trait Console {
    /// The lines that are left, where the console tells them.
    ghost left: { Self → Option (List (List ℕ)) };

    /// What each call so far has answered, the first one first: told or not, a console stands by its answers.
    ghost answers: { Self → List (Result (Option (List ℕ)) ConsoleError) };

    /// How often a read failed.
    ghost faults: { Self → ℕ };

    /// Takes the next line, without its line feed; one of more than 4,096 bytes is cut to its first 4,097 bytes.
    /// `None` is the end of the lines. After an error no line is taken.
    fn line(&mut self, alloc: Global) -> Result<Option<Text>, ConsoleError>
        ensures left { LinesTold (left self.old) (left self.new) result }
        ensures short { IsShort result }
        ensures answers { answers self.new ≡ answers self.old ++ result ∷ [] }
        ensures faults { Counts (is_line_fault result) (faults self.old) (faults self.new) };
}
