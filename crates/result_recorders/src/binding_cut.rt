ghost use Rattle.result_recorders.specs.Lines.{cut_line};

use crate::hour_line::HourLine;
use crate::line_recorder::LineRecorder;
use crate::lines::{put_counted, put_zones, total_of};
use ra_base::{OutOfMemory, Text};
use sample_totals::HourOutcome;

/// Keeps the cut of each hour that has one, by its zones' numbers, with the unserved load over all zones. Its
/// kind is 4.
pub type BindingCut = LineRecorder<CutLine>;

/// The lines of `BindingCut`.
pub struct CutLine;

impl HourLine for CutLine {
    ghost KIND = { 4 };

    ghost line = { cut_line };

    const KIND: u8 = 4;

    #[tactic(auto, unfolding(crate::specs::Lines::cut_line))]
    fn put(text: &mut Text, outcome: &HourOutcome) -> Result<(), OutOfMemory> {
        if outcome.cut == 0 {
            return Ok(());
        }
        text.reserve(64)?;
        put_counted(text, b"cut ", u128::from(outcome.hour))?;
        text.push(b" zones ")?;
        put_zones(text, outcome.cut)?;
        put_counted(text, b" unserved ", total_of(&outcome.unserved))?;
        text.push(b"\n")
    }
}
