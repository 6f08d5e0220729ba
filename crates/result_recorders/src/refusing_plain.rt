ghost use Rattle.std.specs.Prelude.{◌≡◌, ◌==◌, ◌++◌, [], OnOk, OnErr};
ghost use Rattle.ra_base.specs.Causes.{Counts};
ghost use Rattle.sample_totals.specs.Recorders.{Seen, is_refused};
ghost use Rattle.result_recorders.specs.Lines.{plain_line};

use crate::hour_line::put_hour;
use crate::plain::PlainLine;
use ra_base::{OutOfMemory, Text};
use sample_totals::{HourOutcome, Recorder, RecorderError};
use std::alloc::Global;
use std::marker::Model;

/// A fake of kind 1 with the lines of `Plain`, which refuses the hour of one number.
#[derive(Drop)]
pub struct RefusingPlain {
    at: u32,
    refusals: u64,
    text: Text,
}

impl Model for RefusingPlain {
    ghost use Rattle.result_recorders.specs.Refusing.{RefusingText};

    ghost Value = { RefusingText };

    ghost view = { λ recorder. record {
      at = recorder.at;
      refusals = recorder.refusals;
      text = recorder.text;
    } };
}

impl RefusingPlain {
    /// One with an empty text that refuses the hour `at`. It takes no memory.
    pub fn new(alloc: Global, at: u32) -> RefusingPlain
        ensures { result ≡ record { at = at; refusals = 0; text = [] } }
    {
        RefusingPlain {
            at,
            refusals: 0,
            text: Text::new(alloc),
        }
    }
}

impl Recorder for RefusingPlain {
    ghost seen = { λ recorder. record { kind = 1; line = plain_line; text = recorder.text } };

    ghost refusals = { λ recorder. recorder.refusals };

    fn kind(&self) -> u8 {
        1
    }

    fn hour(&mut self, outcome: &HourOutcome) -> Result<(), RecorderError>
        ensures ok { OnOk result (self.new.text ≡ self.old.text ++ plain_line outcome.now) }
        ensures err { OnErr result (self.new.text ≡ self.old.text) }
        ensures refusals { Counts (is_refused result) self.old.refusals self.new.refusals }
        ensures refuses { is_refused result ≡ (outcome.now.hour == self.old.at) }
        ensures at { self.new.at ≡ self.old.at }
    {
        if outcome.hour == self.at {
            self.refusals = self.refusals.saturating_add(1);
            return Err(RecorderError::Refused);
        }
        match put_hour::<PlainLine>(&mut self.text, outcome) {
            Ok(()) => Ok(()),
            Err(OutOfMemory) => Err(RecorderError::OutOfMemory),
        }
    }

    fn text(&self) -> &[u8] {
        self.text.bytes()
    }
}
