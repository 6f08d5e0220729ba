//! The one write of an answer.
ghost use Rattle.ra_base.specs.Causes.{Counts};
ghost use Rattle.adequacy.specs.Endings.{IsWritten, is_sink_failure};

use crate::endings::Failure;
use ra_base::{Sink, Text};

/// Writes a text whole, in one write. Where the write fails, `out` has gained a first part of it.
pub(crate) fn write_text<O: Sink>(text: &Text, out: &mut O) -> Result<(), Failure>
    ensures written { IsWritten text.now result (O.held out.old) (O.held out.new) }
    ensures faults { Counts (is_sink_failure result) (O.faults out.old) (O.faults out.new) }
{
    match out.write(text.bytes()) {
        Ok(()) => Ok(()),
        Err(_) => Err(Failure::WriteFault),
    }
}
