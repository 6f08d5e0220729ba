//! A sink over any writer, as standard output.
ghost use Rattle.std.specs.Prelude.{◌≡◌, None};

use ra_base::{Sink, SinkFault};
use std::io::Write;

/// Writes each piece whole and at once. It doesn't tell what it wrote, and counts each write that fails,
/// one that takes nothing of a piece that isn't empty among them.
#[derive(Drop)]
pub struct StdSink<W> {
    writer: W,
    faults: u64,
}

impl<W: Write> StdSink<W> {
    /// A sink over this writer.
    pub fn new(writer: W) -> StdSink<W> {
        StdSink { writer, faults: 0 }
    }
}

impl<W: Write> Sink for StdSink<W> {
    ghost held = { λ _. None };

    ghost faults = { λ s. s.faults };

    fn write(&mut self, piece: &[u8]) -> Result<(), SinkFault> {
        if self.writer.write_all(piece).is_ok() && self.writer.flush().is_ok() {
            return Ok(());
        }
        self.faults = self.faults.saturating_add(1);
        Err(SinkFault)
    }
}
