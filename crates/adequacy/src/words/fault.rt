//! Why words spell no line.
use super::Command;
use std::alloc::AllocError;

/// The first fault of the words. An option is told by its place in the table of options, from 0.
#[derive(Clone, Copy, Debug, PartialEq, Eq)]
pub enum WordFault {
    /// The words aren't two words and options, each with one value and at most once.
    Usage,
    /// There is no such command.
    NoCommand,
    /// The number of a system to make is no whole number.
    BadNumber,
    /// An option is given that the command doesn't take.
    NotFor { option: u8, command: Command },
    /// An option is absent that the command needs.
    Missing { option: u8 },
    /// An option's value isn't as the table says.
    Bad { option: u8 },
    /// The most samples are fewer than the samples.
    MostBelowSamples,
}

/// Why no line was read.
#[derive(Clone, Copy, Debug, PartialEq, Eq)]
pub enum WordsError {
    /// The words spell none, by this fault.
    Words(WordFault),
    /// Memory wasn't found.
    OutOfMemory,
}

impl From<WordFault> for WordsError {
    ghost use Rattle.std.specs.Prelude.{◌≡◌};
    ghost use Rattle.adequacy.specs.declared.words.fault.WordsError.TheVariants.{Words};

    ghost from_gives = { λ fault error. error ≡ Words fault };

    fn from(fault: WordFault) -> Self {
        WordsError::Words(fault)
    }
}

impl From<AllocError> for WordsError {
    ghost use Rattle.std.specs.Prelude.{◌≡◌};
    ghost use Rattle.adequacy.specs.declared.words.fault.WordsError.TheVariants.{OutOfMemory};

    ghost from_gives = { λ _ error. error ≡ OutOfMemory };

    fn from(_: AllocError) -> Self {
        WordsError::OutOfMemory
    }
}
