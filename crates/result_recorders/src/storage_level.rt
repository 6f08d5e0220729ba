ghost use Rattle.result_recorders.specs.Lines.{storage_line};

use crate::hour_line::HourLine;
use crate::line_recorder::LineRecorder;
use crate::lines::{put_amounts, put_counted};
use ra_base::{OutOfMemory, Text};
use sample_totals::HourOutcome;

/// Keeps what each device holds after each hour. Its kind is 3.
pub type StorageLevel = LineRecorder<StorageLine>;

/// The lines of `StorageLevel`.
pub struct StorageLine;

impl HourLine for StorageLine {
    ghost KIND = { 3 };

    ghost line = { storage_line };

    const KIND: u8 = 3;

    #[tactic(auto, unfolding(crate::specs::Lines::storage_line))]
    fn put(text: &mut Text, outcome: &HourOutcome) -> Result<(), OutOfMemory> {
        text.reserve(64)?;
        put_counted(text, b"energy ", u128::from(outcome.hour))?;
        put_amounts(text, b"", &outcome.energy)?;
        text.push(b"\n")
    }
}
