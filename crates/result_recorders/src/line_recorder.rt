ghost use Rattle.std.specs.Prelude.{◌≡◌, ◌++◌, [], false, OnOk, OnErr};
ghost use Rattle.sample_totals.specs.Recorders.{Seen, is_refused};

use crate::hour_line::{HourLine, put_hour};
use ra_base::{OutOfMemory, Text};
use sample_totals::{HourOutcome, Recorder, RecorderError};
use std::alloc::Global;
use std::marker::{Model, PhantomData};

/// Keeps the line of each hour, as `L` has it, and refuses none.
#[derive(Drop)]
pub struct LineRecorder<L: HourLine> {
    text: Text,
    line: PhantomData<L>,
}

impl<L: HourLine> Model for LineRecorder<L> {
    ghost use Rattle.std.specs.Prelude.{List, ℕ};

    ghost Value = { List ℕ };

    ghost view = { λ recorder. recorder.text };
}

impl<L: HourLine> LineRecorder<L> {
    /// One with an empty text. It takes no memory.
    pub fn new(alloc: Global) -> LineRecorder<L>
        ensures { result ≡ [] }
    {
        LineRecorder {
            text: Text::new(alloc),
            line: PhantomData,
        }
    }
}

impl<L: HourLine> Recorder for LineRecorder<L> {
    ghost seen = { λ text. record { kind = L.KIND; line = L.line; text = text } };

    ghost refusals = { λ text. 0 };

    fn kind(&self) -> u8 {
        L::KIND
    }

    fn hour(&mut self, outcome: &HourOutcome) -> Result<(), RecorderError>
        ensures ok { OnOk result (self.new ≡ self.old ++ L.line outcome.now) }
        ensures err { OnErr result (self.new ≡ self.old) }
        ensures never { is_refused result ≡ false }
    {
        match put_hour::<L>(&mut self.text, outcome) {
            Ok(()) => Ok(()),
            Err(OutOfMemory) => Err(RecorderError::OutOfMemory),
        }
    }

    fn text(&self) -> &[u8] {
        self.text.bytes()
    }
}
