ghost use Rattle.result_recorders.specs.Lines.{shortfall_line};

use crate::hour_line::HourLine;
use crate::line_recorder::LineRecorder;
use crate::lines::{put_counted, total_of};
use ra_base::{OutOfMemory, Text};
use sample_totals::HourOutcome;

/// Keeps each hour that falls short, with its unserved load over all zones. Its kind is 2.
pub type Shortfall = LineRecorder<ShortfallLine>;

/// The lines of `Shortfall`.
pub struct ShortfallLine;

impl HourLine for ShortfallLine {
    ghost KIND = { 2 };

    ghost line = { shortfall_line };

    const KIND: u8 = 2;

    #[tactic(auto, unfolding(crate::specs::Lines::shortfall_line))]
    fn put(text: &mut Text, outcome: &HourOutcome) -> Result<(), OutOfMemory> {
        let total = total_of(&outcome.unserved);
        if total == 0 {
            return Ok(());
        }
        text.reserve(64)?;
        put_counted(text, b"shortfall ", u128::from(outcome.hour))?;
        put_counted(text, b" total ", total)?;
        text.push(b"\n")
    }
}
