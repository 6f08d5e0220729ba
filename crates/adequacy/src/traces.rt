//! The answer to a trace: one sample's hours go through the chosen recorders, and their texts are written.
ghost use Rattle.std.specs.Prelude.{◌≡◌, IfOk, map};
ghost use Rattle.adequacy.specs.Traces.{HasTraced, IsTraced, is_chosen as chooses, kept, error_of, texts};

use crate::words::TraceTerms;
use ra_base::{OutOfMemory, Text};
use sample_run::{Runner, TraceError};
use sample_totals::Recorder;
use std::alloc::Global;
use system_model::System;

/// Why a text wasn't made.
#[derive(Clone, Copy, Debug, PartialEq, Eq)]
pub enum TextError {
    /// A recorder refused an hour of a trace.
    Refused,
    /// Memory wasn't found.
    OutOfMemory,
}

/// The texts of the chosen recorders, after the hours of a sample. The others are dropped from the list.
pub(crate) fn make_trace_text<R: Recorder>(
    alloc: Global,
    system: &System,
    terms: TraceTerms,
    recorders: &mut Vec<R>,
) -> Result<Text, TextError>
    ensures { IsTraced R.seen R.refusals system.now terms result recorders.old.items recorders.new.items }
{
    keep_chosen(recorders, terms.recorder);
    match trace(alloc, system, terms, recorders) {
        Ok(()) => match texts_of(alloc, recorders) {
            Ok(text) => Ok(text),
            Err(OutOfMemory) => Err(TextError::OutOfMemory),
        },
        Err(error) => Err(error),
    }
}

// Gives the hours of a sample to recorders.
fn trace<R: Recorder>(
    alloc: Global,
    system: &System,
    terms: TraceTerms,
    recorders: &mut [R],
) -> Result<(), TextError>
    ensures { HasTraced R.seen R.refusals system.now terms.seed terms.sample result
        recorders.old recorders.new }
{
    match Runner::new(alloc, system, terms.seed) {
        Ok(mut runner) => {
            let traced = give_hours(&mut runner, terms.sample, recorders);
            // Moved whole into the call, since a drop here would drop each of its lists in this function.
            drop(runner);
            traced
        }
        Err(OutOfMemory) => Err(TextError::OutOfMemory),
    }
}

// Gives the hours of a runner's sample to recorders.
fn give_hours<R: Recorder>(
    runner: &mut Runner<'_>,
    sample: u32,
    recorders: &mut [R],
) -> Result<(), TextError>
    ensures { HasTraced R.seen R.refusals runner.old.system runner.old.seed sample result
        recorders.old recorders.new }
{
    match runner.trace(sample, recorders) {
        Ok(()) => Ok(()),
        Err(error) => Err(text_error(error)),
    }
}

// Drops the recorders whose kind isn't chosen.
fn keep_chosen<R: Recorder>(recorders: &mut Vec<R>, named: Option<u8>)
    ensures { recorders.new.items ≡ kept R.seen named recorders.old.items }
{
    recorders.retain(|recorder| is_chosen(named, recorder.kind()));
}

fn is_chosen(named: Option<u8>, kind: u8) -> bool
    ensures { result ≡ chooses named kind }
{
    match named {
        Some(named) => named == kind,
        None => true,
    }
}

// Why hours that broke off give no text.
fn text_error(error: TraceError) -> TextError
    ensures { result ≡ error_of error }
{
    match error {
        TraceError::Refused { .. } => TextError::Refused,
        TraceError::OutOfMemory { .. } => TextError::OutOfMemory,
    }
}

// The texts of recorders, one behind the other.
fn texts_of<R: Recorder>(alloc: Global, recorders: &[R]) -> Result<Text, OutOfMemory>
    ensures { IfOk result (λ text. text ≡ texts (map R.seen recorders.now)) }
{
    let mut text = Text::new(alloc);
    for recorder in recorders {
        text.push(recorder.text())?;
    }
    Ok(text)
}
