ghost use Rattle.std.specs.Prelude.{◌≡◌, ℕ, List, ◌++◌, OnOk, OnErr};
ghost use Rattle.sample_totals.specs.declared.outcomes.HourOutcome.{HourOutcome};

use ra_base::{OutOfMemory, Text};
use sample_totals::HourOutcome;

/// What recorders of one kind have for an hour.
pub trait HourLine {
    /// The kind, as a clause reads it.
    ghost KIND: { ℕ };

    /// The line of an outcome, which is empty where there is nothing to say of it.
    ghost line: { HourOutcome → List ℕ };

    /// The kind.
    const KIND: u8;

    /// Appends the line. Where memory isn't found, the caller gives up what was appended.
    fn put(text: &mut Text, outcome: &HourOutcome) -> Result<(), OutOfMemory>
        ensures { OnOk result (text.new ≡ text.old ++ line outcome.now) };
}

/// Appends the line of an hour at once. Without memory the text stays as it was.
pub(crate) fn put_hour<L: HourLine>(
    text: &mut Text,
    outcome: &HourOutcome,
) -> Result<(), OutOfMemory>
    ensures ok { OnOk result (text.new ≡ text.old ++ L.line outcome.now) }
    ensures err { OnErr result (text.new ≡ text.old) }
{
    let mut line = text.fresh();
    L::put(&mut line, outcome)?;
    text.push(line.bytes())
}
