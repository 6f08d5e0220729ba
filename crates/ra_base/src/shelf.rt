ghost use Rattle.std.specs.Prelude.{◌≡◌, ◌++◌, [], ◌∷◌, List, Option};
ghost use Rattle.ra_base.specs.Outside.{Tables, ReadsTold};
ghost use Rattle.ra_base.specs.Reading.{Reading, reading};
ghost use Rattle.ra_base.specs.ShelfCounts.{counted};
ghost use Rattle.ra_base.specs.declared.shelf_counts.ShelfCounts.{ShelfCounts};

use crate::{ShelfCounts, TableName, Text};
use std::alloc::Global;
use thiserror::Error;

/// Why a table wasn't read.
#[derive(Clone, Copy, Debug, PartialEq, Eq, Error)]
pub enum ShelfError {
    /// There is no such table.
    #[error("no such table")]
    Missing,
    /// The table is longer than 64 MiB.
    #[error("the table is longer than 64 MiB")]
    TooLong,
    /// The read failed.
    #[error("the read failed")]
    Fault,
    /// Memory wasn't found.
    #[error("out of memory")]
    OutOfMemory,
}

/// Folders of tables, as the program sees them.
pub trait Shelf {
    /// The tables of all folders, where the shelf tells them.
    ghost contents: { Self → Option Tables };

    /// What each read so far has answered, the first one first: told or not, a shelf stands by its answers.
    ghost reads: { Self → List Reading };

    /// How often a table was missing, a table was too long, and a read failed.
    ghost counts: { Self → ShelfCounts };

    /// Reads one table of a folder whole. No read changes what the folders hold.
    fn read(&mut self, alloc: Global, folder: &str, table: TableName) -> Result<Text, ShelfError>
        ensures contents { contents self.new ≡ contents self.old }
        ensures told { ReadsTold (contents self.old) folder.now table result }
        ensures reads { reads self.new ≡ reads self.old ++ reading folder.now table result ∷ [] }
        ensures counts { counts self.new ≡ counted (counts self.old) result };
}
