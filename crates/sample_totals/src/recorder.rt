ghost use Rattle.std.specs.Prelude.{◌≡◌, ℕ, OnOk, OnErr};
ghost use Rattle.ra_base.specs.Causes.{Counts};
ghost use Rattle.sample_totals.specs.Recorders.{Seen, is_refused, with_line};

use crate::outcomes::HourOutcome;

/// A recorder took no hour: its text is as before.
#[derive(Clone, Copy, Debug, PartialEq, Eq)]
pub enum RecorderError {
    /// The recorder refused the hour, and counted it.
    Refused,
    /// Memory wasn't found.
    OutOfMemory,
}

/// Keeps a text of the hours of a sample, a line an hour.
pub trait Recorder: Drop {
    /// What is seen of it: its kind, the line that it has for each outcome, and its text so far.
    ghost seen: { Self → Seen };

    /// How often it refused.
    ghost refusals: { Self → ℕ };

    /// Which kind of recorder it is.
    fn kind(&self) -> u8
        ensures { result ≡ (seen self.now).kind };

    /// Adds the line of an hour to the text.
    fn hour(&mut self, outcome: &HourOutcome) -> Result<(), RecorderError>
        ensures ok { OnOk result (seen self.new ≡ with_line outcome.now (seen self.old)) }
        ensures err { OnErr result (seen self.new ≡ seen self.old) }
        ensures refusals { Counts (is_refused result) (refusals self.old) (refusals self.new) };

    /// The text so far.
    fn text(&self) -> &[u8]
        ensures { result.now ≡ (seen self.now).text };
}

impl Recorder for Box<dyn Recorder> {
    ghost seen = { λ b. (Recorder-box b).seen b.value };

    ghost refusals = { λ b. (Recorder-box b).refusals b.value };

    fn kind(&self) -> u8 {
        (**self).kind()
    }

    fn hour(&mut self, outcome: &HourOutcome) -> Result<(), RecorderError> {
        (**self).hour(outcome)
    }

    fn text(&self) -> &[u8] {
        (**self).text()
    }
}
