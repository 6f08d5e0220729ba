ghost use Rattle.std.specs.Prelude.{List, ℕ, Option, is_err};
ghost use Rattle.ra_base.specs.Causes.{Counts};
ghost use Rattle.ra_base.specs.Outside.{Writes};

/// A write failed. A first part of the piece, perhaps none of it, was taken.
#[derive(Clone, Copy, Debug, PartialEq, Eq)]
pub struct SinkFault;

/// Where the program writes its answer, or what went wrong.
pub trait Sink {
    /// The bytes that were taken so far, where the sink tells them.
    ghost held: { Self → Option (List ℕ) };

    /// How often a write failed.
    ghost faults: { Self → ℕ };

    /// Appends a piece whole, or counts a failure and takes a first part of it.
    fn write(&mut self, piece: &[u8]) -> Result<(), SinkFault>
        ensures held { Writes (held self.old) (held self.new) piece.now result }
        ensures faults { Counts (is_err result) (faults self.old) (faults self.new) };
}
