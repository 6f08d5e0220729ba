ghost use Rattle.std.specs.Prelude.{◌≡◌, ◌<◌, OnOk, IfErr, length, map};
ghost use Rattle.sample_totals.specs.Recorders.{with_line};
ghost use Rattle.sample_run.specs.Trace.{place_of, hour_of, is_refusal, with_line_before, CountsAt};

use sample_totals::{HourOutcome, Recorder, RecorderError};

/// Why a trace stopped: at which recorder of the list, and in which hour.
#[derive(Clone, Copy, Debug, PartialEq, Eq)]
pub enum TraceError {
    /// The recorder refused the hour, and counted it.
    Refused {
        /// Its place in the list, from 0.
        at: usize,
        /// The hour, from 0.
        hour: u32,
    },
    /// Memory wasn't found.
    OutOfMemory {
        /// The place of the recorder in the list, from 0.
        at: usize,
        /// The hour, from 0.
        hour: u32,
    },
}

/// Gives an hour's outcome to the recorders, in their order, as far as they take it.
pub(crate) fn give_hour<R: Recorder>(
    outcome: &HourOutcome,
    recorders: &mut [R],
) -> Result<(), TraceError>
    ensures ok { OnOk result (map R.seen recorders.new
        ≡ map (with_line outcome.now) (map R.seen recorders.old)) }
    ensures ok_counts { OnOk result (map R.refusals recorders.new ≡ map R.refusals recorders.old) }
    ensures place { IfErr result (λ e. place_of e < length recorders.old) }
    ensures hour { IfErr result (λ e. hour_of e ≡ outcome.now.hour) }
    ensures err { IfErr result (λ e. map R.seen recorders.new
        ≡ with_line_before (place_of e) outcome.now (map R.seen recorders.old)) }
    ensures err_counts { IfErr result (λ e. CountsAt (place_of e) (is_refusal e)
        (map R.refusals recorders.old) (map R.refusals recorders.new)) }
{
    let hour = outcome.hour;
    for at in 0..recorders.len() {
        match recorders[at].hour(outcome) {
            Ok(()) => {}
            Err(RecorderError::Refused) => return Err(TraceError::Refused { at, hour }),
            Err(RecorderError::OutOfMemory) => return Err(TraceError::OutOfMemory { at, hour }),
        }
    }
    Ok(())
}
