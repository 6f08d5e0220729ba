//! How often the reads of a shelf found no table, a table that is too long, or failed.
ghost use Rattle.std.specs.Prelude.{◌≡◌};
ghost use Rattle.ra_base.specs.ShelfCounts.{counted};

use crate::{ShelfError, Text};

/// Three counts that never fall. Each stands still at the end of its type.
#[derive(Clone, Copy, Debug, PartialEq, Eq)]
pub struct ShelfCounts {
    /// How often a table was missing.
    pub misses: u64,
    /// How often a table was longer than 64 MiB.
    pub overlong: u64,
    /// How often a read failed.
    pub faults: u64,
}

impl ShelfCounts {
    /// Nothing was counted yet.
    pub const NONE: ShelfCounts = ShelfCounts {
        misses: 0,
        overlong: 0,
        faults: 0,
    };

    /// The counts after a read with this answer.
    pub fn count(self, answer: &Result<Text, ShelfError>) -> ShelfCounts
        ensures { result ≡ counted self answer.now }
    {
        match answer {
            Ok(_) | Err(ShelfError::OutOfMemory) => self,
            Err(ShelfError::Missing) => ShelfCounts {
                misses: self.misses.saturating_add(1),
                overlong: self.overlong,
                faults: self.faults,
            },
            Err(ShelfError::TooLong) => ShelfCounts {
                misses: self.misses,
                overlong: self.overlong.saturating_add(1),
                faults: self.faults,
            },
            Err(ShelfError::Fault) => ShelfCounts {
                misses: self.misses,
                overlong: self.overlong,
                faults: self.faults.saturating_add(1),
            },
        }
    }
}
