//! The table of options: which commands take an option, how its value is read, the value's bounds, and what
//! stands where it is absent.
ghost use Rattle.std.specs.Prelude.{◌≡◌};
ghost use Rattle.adequacy.specs.OptionTable.{most_row, repair_row, takes};

use super::Command;
use ra_base::limits::{BILLION, MOST_BLOCK, MOST_POOLED_MW, MOST_SAMPLES, MOST_WORKERS};

/// The greatest seed and the greatest number of a made system: the greatest value of a numeral.
pub const MOST_SEED: u64 = 1_000_000_000_000_000_000;

/// The number of the last sample that there can be.
pub const LAST_SAMPLE: u32 = MOST_SAMPLES - 1;

/// The greatest precision, in thousandths of the mean.
pub const MOST_PRECISION: u16 = 1_000;

/// The number of the last kind of recorder.
pub const LAST_RECORDER: u8 = 4;

/// The seed where the words name none.
pub const DEFAULT_SEED: u64 = 1;

/// The workers where the words name none.
pub const DEFAULT_WORKERS: u8 = 1;

/// The samples of a block where the words name none.
pub const DEFAULT_BLOCK: u32 = 100;

/// The names of the options, in the order of the table.
pub(crate) const OPTION_NAMES: [&str; 14] = [
    "samples",
    "seed",
    "workers",
    "block",
    "most",
    "precision",
    "sample",
    "result",
    "kind",
    "measure",
    "capacity",
    "failure",
    "repair",
    "up-to",
];

/// The commands that take an option.
#[derive(Clone, Copy)]
pub(crate) enum Takers {
    /// Study, trial and console.
    Campaigns,
    /// Study, trial, console and trace.
    Simulations,
    /// Study and trial.
    Studies,
    /// Trace alone.
    Trace,
    /// Credit alone.
    Credit,
}

impl Takers {
    // Whether the command is one of them.
    pub(crate) fn include(self, command: Command) -> bool
        ensures { result ≡ takes self command }
    {
        match self {
            Takers::Campaigns => command.is_campaign(),
            Takers::Simulations => command.is_campaign() || command == Command::Trace,
            Takers::Studies => matches!(command, Command::Study | Command::Trial),
            Takers::Trace => command == Command::Trace,
            Takers::Credit => command == Command::Credit,
        }
    }
}

/// How the text of a value is read.
#[derive(Clone, Copy)]
pub(crate) enum Reading {
    /// As a whole number.
    Whole,
    /// As a number in billionths.
    Billionths,
    /// As the name of a kind of recorder, which has a number.
    Recorder,
}

/// What stands where an option is absent.
#[derive(Clone, Copy)]
pub(crate) enum Absent {
    /// A fault.
    Missing,
    /// A value.
    Default(u64),
    /// Nothing.
    Nothing,
}

/// A row of the table: an option whose value is a number between two bounds.
#[derive(Clone, Copy)]
pub(crate) struct OptionRow {
    pub(crate) number: u8,
    pub(crate) takers: Takers,
    pub(crate) reading: Reading,
    pub(crate) least: u64,
    pub(crate) most: u64,
    pub(crate) absent: Absent,
}

pub(crate) const SAMPLES: OptionRow = OptionRow {
    number: 0,
    takers: Takers::Campaigns,
    reading: Reading::Whole,
    least: 1,
    most: MOST_SAMPLES as u64,
    absent: Absent::Missing,
};

pub(crate) const SEED: OptionRow = OptionRow {
    number: 1,
    takers: Takers::Simulations,
    reading: Reading::Whole,
    least: 0,
    most: MOST_SEED,
    absent: Absent::Default(DEFAULT_SEED),
};

pub(crate) const WORKERS: OptionRow = OptionRow {
    number: 2,
    takers: Takers::Campaigns,
    reading: Reading::Whole,
    least: 1,
    most: MOST_WORKERS as u64,
    absent: Absent::Default(DEFAULT_WORKERS as u64),
};

pub(crate) const BLOCK: OptionRow = OptionRow {
    number: 3,
    takers: Takers::Campaigns,
    reading: Reading::Whole,
    least: 1,
    most: MOST_BLOCK as u64,
    absent: Absent::Default(DEFAULT_BLOCK as u64),
};

pub(crate) const PRECISION: OptionRow = OptionRow {
    number: 5,
    takers: Takers::Studies,
    reading: Reading::Whole,
    least: 1,
    most: MOST_PRECISION as u64,
    absent: Absent::Nothing,
};

pub(crate) const SAMPLE: OptionRow = OptionRow {
    number: 6,
    takers: Takers::Trace,
    reading: Reading::Whole,
    least: 0,
    most: LAST_SAMPLE as u64,
    absent: Absent::Missing,
};

pub(crate) const RESULT: OptionRow = OptionRow {
    number: 7,
    takers: Takers::Trace,
    reading: Reading::Recorder,
    least: 1,
    most: LAST_RECORDER as u64,
    absent: Absent::Nothing,
};

/// The number of the option that names what a unit's worth is said in.
pub(crate) const KIND: u8 = 8;

/// The number of the option that names the index that is compared.
pub(crate) const MEASURE: u8 = 9;

pub(crate) const CAPACITY: OptionRow = OptionRow {
    number: 10,
    takers: Takers::Credit,
    reading: Reading::Whole,
    least: 0,
    most: MOST_POOLED_MW as u64,
    absent: Absent::Missing,
};

pub(crate) const FAILURE: OptionRow = OptionRow {
    number: 11,
    takers: Takers::Credit,
    reading: Reading::Billionths,
    least: 0,
    most: BILLION as u64,
    absent: Absent::Missing,
};

pub(crate) const UP_TO: OptionRow = OptionRow {
    number: 13,
    takers: Takers::Credit,
    reading: Reading::Whole,
    least: 0,
    most: MOST_POOLED_MW as u64,
    absent: Absent::Missing,
};

// The most samples of a study: the samples themselves where the option is absent.
pub(crate) fn most_row(samples: Option<u32>) -> OptionRow
    ensures { result ≡ most_row samples }
{
    let absent = match samples {
        Some(samples) => Absent::Default(u64::from(samples)),
        None => Absent::Missing,
    };
    OptionRow {
        number: 4,
        takers: Takers::Studies,
        reading: Reading::Whole,
        least: 1,
        most: u64::from(MOST_SAMPLES),
        absent,
    }
}

// A unit that never fails must be one that is repaired.
pub(crate) fn repair_row(failure: Option<u32>) -> OptionRow
    ensures { result ≡ repair_row failure }
{
    let least = if failure == Some(0) { 1 } else { 0 };
    OptionRow {
        number: 12,
        takers: Takers::Credit,
        reading: Reading::Billionths,
        least,
        most: u64::from(BILLION),
        absent: Absent::Missing,
    }
}
