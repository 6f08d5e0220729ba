ghost use Rattle.result_recorders.specs.Lines.{plain_line};

use crate::hour_line::HourLine;
use crate::line_recorder::LineRecorder;
use crate::lines::{put_amounts, put_counted};
use ra_base::{OutOfMemory, Text};
use sample_totals::HourOutcome;

/// Keeps all of each hour: what each zone lacks, what each device discharges, charges and then holds, and the
/// cut as a mask. Its kind is 1.
pub type Plain = LineRecorder<PlainLine>;

/// The lines of `Plain`.
pub struct PlainLine;

impl HourLine for PlainLine {
    ghost KIND = { 1 };

    ghost line = { plain_line };

    const KIND: u8 = 1;

    #[tactic(auto, unfolding(crate::specs::Lines::plain_line))]
    fn put(text: &mut Text, outcome: &HourOutcome) -> Result<(), OutOfMemory> {
        text.reserve(128)?;
        put_counted(text, b"hour ", u128::from(outcome.hour))?;
        put_amounts(text, b" unserved", &outcome.unserved)?;
        put_amounts(text, b" discharge", &outcome.discharge)?;
        put_amounts(text, b" charge", &outcome.charge)?;
        put_amounts(text, b" energy", &outcome.energy)?;
        put_counted(text, b" cut ", u128::from(outcome.cut))?;
        text.push(b"\n")
    }
}
