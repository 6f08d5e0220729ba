//! The line that words spell.
ghost use Rattle.std.specs.Prelude.{◌≡◌, IfOk};
ghost use Rattle.adequacy.specs.CommandWords.{is_campaign};

use super::Command;
use capacity_credit::{Kind, Measure};
use std::alloc::{AllocError, Global};
use std::marker::Model;

/// The word behind the command: a folder, or for a trial the number of the system to make. It is seen as the
/// list of the word's bytes.
#[derive(Drop)]
pub struct Place {
    text: String,
}

impl Model for Place {
    ghost use Rattle.std.specs.Prelude.{List, ℕ};
    ghost use Rattle.std.specs.String.{string_bytes};

    ghost Value = { List ℕ };

    ghost view = { λ place. string_bytes place.text };
}

impl Place {
    // The place of a word.
    pub(crate) fn new(alloc: Global, word: &str) -> Result<Place, AllocError>
        ensures { IfOk result (λ place. place ≡ word.now) }
    {
        let text = String::from_str(alloc, word)?;
        Ok(Place { text })
    }

    /// The word. It takes no memory.
    pub fn text(&self) -> &str
        ensures { result.now ≡ self.now }
    {
        self.text.as_str()
    }
}

/// What the words ask for. Each option has a field with its value or its default, which is `None` where the
/// command doesn't take the option, and `precision` and `result` also where the option is absent.
///
/// All values are in their ranges, and the most samples aren't fewer than the samples.
#[derive(Drop)]
pub struct Line {
    /// What is asked.
    pub command: Command,
    /// The folder, or the word of the number.
    pub place: Place,
    /// The number of the system to make; 0 where none is made.
    pub number: u64,
    /// How many samples are run, 1 to 1,000,000.
    pub samples: Option<u32>,
    /// The seed of all draws, at most 10^18.
    pub seed: Option<u64>,
    /// How many workers run them, 1 to 64.
    pub workers: Option<u8>,
    /// The samples of one block of work, 1 to 10,000.
    pub block: Option<u32>,
    /// The most samples of a study that goes on until it is precise enough, from the samples to 1,000,000.
    pub most: Option<u32>,
    /// How precise it has to be, in thousandths of the mean, 1 to 1,000.
    pub precision: Option<u16>,
    /// The number of the sample that is shown, at most 999,999.
    pub sample: Option<u32>,
    /// The kind of the one recorder that writes, 1 to 4.
    pub result: Option<u8>,
    /// What a unit's worth is said in.
    pub kind: Option<Kind>,
    /// The index that is compared.
    pub measure: Option<Measure>,
    /// The capacity of the new unit in MW, at most 200,000.
    pub capacity: Option<u32>,
    /// Its failure probability per hour in billionths, at most 10^9.
    pub failure: Option<u32>,
    /// Its repair probability per hour in billionths, at most 10^9, and not 0 where the failure is 0.
    pub repair: Option<u32>,
    /// The greatest candidate for its worth in MW, at most 200,000.
    pub up_to: Option<u32>,
}

impl Model for Line {
    ghost use Rattle.adequacy.specs.LineParts.{IsLine, LineParts};

    ghost Value = { LineParts };

    ghost use Rattle.adequacy.specs.Lines.{parts_of};

    ghost view = { parts_of };

    ghost invariant = { λ line. IsLine (parts_of line) };
}

impl Line {
    /// Whether the command may wait for other threads.
    pub fn waits(&self) -> bool
        ensures { result ≡ is_campaign self.now.command }
    {
        self.command.is_campaign()
    }
}
