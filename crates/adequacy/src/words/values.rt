//! The values of the options, for a command.
ghost use Rattle.std.specs.Prelude.{◌≡◌, ◌<◌, ◌^◌, IfOk, IfSome, true, is_some, codes};
ghost use Rattle.std.specs.Option.{option_map};
ghost use Rattle.clap.specs.Words.{first_of, found_of, rows_of};
ghost use Rattle.adequacy.specs.CommandWords.{is_credit};
ghost use Rattle.adequacy.specs.OptionTable.{fits, has_fit_default, is_within};
ghost use Rattle.adequacy.specs.OptionFacts.{AreCreditOptions, AreRunOptions, AreTraceOptions};
ghost use Rattle.adequacy.specs.OptionWords.{kind_named, measure_named, number_by, number_in, recorder_named, where_absent};
ghost use Rattle.adequacy.specs.OptionWords.{credit_options_in, kind_for, measure_for, number_for, run_options_in, trace_options_in};

use super::options::{
    Absent, BLOCK, CAPACITY, FAILURE, KIND, MEASURE, OptionRow, PRECISION, RESULT, Reading, SAMPLE,
    SAMPLES, SEED, Takers, UP_TO, WORKERS, most_row, repair_row,
};
use super::{Command, WordFault};
use capacity_credit::{Kind, Measure};
use clap::ArgMatches;
use decimal_text::{read_billionths, read_whole};

/// The options of a run of samples.
#[derive(Clone, Copy)]
pub(crate) struct RunOptions {
    pub(crate) samples: Option<u32>,
    pub(crate) seed: Option<u64>,
    pub(crate) workers: Option<u8>,
    pub(crate) block: Option<u32>,
    pub(crate) most: Option<u32>,
    pub(crate) precision: Option<u16>,
}

/// The options of a trace.
#[derive(Clone, Copy)]
pub(crate) struct TraceOptions {
    pub(crate) sample: Option<u32>,
    pub(crate) result: Option<u8>,
}

/// The options of a credit.
#[derive(Clone, Copy)]
pub(crate) struct CreditOptions {
    pub(crate) kind: Option<Kind>,
    pub(crate) measure: Option<Measure>,
    pub(crate) capacity: Option<u32>,
    pub(crate) failure: Option<u32>,
    pub(crate) repair: Option<u32>,
    pub(crate) up_to: Option<u32>,
}

// The text that the words give under a name.
pub(crate) fn given<'a>(matches: &ArgMatches<'a>, name: &str) -> Option<&'a str>
    ensures { option_map (λ text. text.now) result ≡ first_of name.now (rows_of (found_of matches.now)) }
{
    matches.get_str(name)
}

// The number of a kind of recorder.
fn recorder_named(name: &str) -> Option<u64>
    ensures { result ≡ recorder_named name.now }
{
    match name {
        "plain" => Some(1),
        "shortfall" => Some(2),
        "storage" => Some(3),
        "cut" => Some(4),
        _ => None,
    }
}

fn kind_named(name: &str) -> Option<Kind>
    ensures { result ≡ kind_named name.now }
{
    match name {
        "efc" => Some(Kind::Efc),
        "elcc" => Some(Kind::Elcc),
        _ => None,
    }
}

fn measure_named(name: &str) -> Option<Measure>
    ensures { result ≡ measure_named name.now }
{
    match name {
        "lole" => Some(Measure::Lole),
        "eue" => Some(Measure::Eue),
        _ => None,
    }
}

// The number that a text spells.
fn number_by(reading: Reading, text: &str) -> Option<u64>
    ensures { result ≡ number_by reading text.now }
{
    match reading {
        Reading::Whole => read_whole(text.as_bytes()).ok(),
        Reading::Billionths => read_billionths(text.as_bytes()).ok(),
        Reading::Recorder => recorder_named(text),
    }
}

// The same where it lies between the bounds of a row.
fn number_in(row: OptionRow, text: &str) -> Option<u64>
    ensures value { result ≡ number_in row text.now }
    ensures within { IfSome result (λ value. is_within row value ≡ true) }
{
    let value = number_by(row.reading, text)?;
    if row.least <= value && value <= row.most {
        Some(value)
    } else {
        None
    }
}

// What stands where an option is absent.
fn where_absent(row: OptionRow) -> Result<Option<u64>, WordFault>
    ensures { result ≡ where_absent row.number row.absent }
{
    match row.absent {
        Absent::Missing => Err(WordFault::Missing { option: row.number }),
        Absent::Default(value) => Ok(Some(value)),
        Absent::Nothing => Ok(None),
    }
}

// The value of an option that is a number.
#[tactic(auto, unfolding(crate::specs::OptionWords::number_for))]
fn number_for(
    matches: &ArgMatches<'_>,
    name: &str,
    command: Command,
    row: OptionRow,
) -> Result<Option<u64>, WordFault>
    requires { has_fit_default row ≡ true }
    ensures value { result ≡ number_for command row (first_of name.now (rows_of (found_of matches.now))) }
    ensures fits { IfOk result (λ value. fits command row value ≡ true) }
{
    let takes = row.takers.include(command);
    match given(matches, name) {
        None if takes => where_absent(row),
        None => Ok(None),
        Some(text) if takes => match number_in(row, text) {
            Some(value) => Ok(Some(value)),
            None => Err(WordFault::Bad { option: row.number }),
        },
        Some(_) => Err(WordFault::NotFor {
            option: row.number,
            command,
        }),
    }
}

// The same of a row whose bounds fit 32 bits.
fn number_u32(
    matches: &ArgMatches<'_>,
    name: &str,
    command: Command,
    row: OptionRow,
) -> Result<Option<u32>, WordFault>
    requires default { has_fit_default row ≡ true }
    requires small { row.most < 2 ^ 32 }
    ensures value { result ≡ number_for command row (first_of name.now (rows_of (found_of matches.now))) }
    ensures fits { IfOk result (λ value. fits command row value ≡ true) }
{
    match number_for(matches, name, command, row)? {
        Some(value) => Ok(Some(value as u32)),
        None => Ok(None),
    }
}

// The same of a row whose bounds fit 16 bits.
fn number_u16(
    matches: &ArgMatches<'_>,
    name: &str,
    command: Command,
    row: OptionRow,
) -> Result<Option<u16>, WordFault>
    requires default { has_fit_default row ≡ true }
    requires small { row.most < 2 ^ 16 }
    ensures value { result ≡ number_for command row (first_of name.now (rows_of (found_of matches.now))) }
    ensures fits { IfOk result (λ value. fits command row value ≡ true) }
{
    match number_for(matches, name, command, row)? {
        Some(value) => Ok(Some(value as u16)),
        None => Ok(None),
    }
}

// The same of a row whose bounds fit 8 bits.
fn number_u8(
    matches: &ArgMatches<'_>,
    name: &str,
    command: Command,
    row: OptionRow,
) -> Result<Option<u8>, WordFault>
    requires default { has_fit_default row ≡ true }
    requires small { row.most < 2 ^ 8 }
    ensures value { result ≡ number_for command row (first_of name.now (rows_of (found_of matches.now))) }
    ensures fits { IfOk result (λ value. fits command row value ≡ true) }
{
    match number_for(matches, name, command, row)? {
        Some(value) => Ok(Some(value as u8)),
        None => Ok(None),
    }
}

#[tactic(auto, unfolding(crate::specs::OptionWords::kind_for))]
fn kind_for(matches: &ArgMatches<'_>, command: Command) -> Result<Option<Kind>, WordFault>
    ensures value { result
        ≡ kind_for command (first_of (codes "kind") (rows_of (found_of matches.now))) }
    ensures fits { IfOk result (λ kind. is_some kind ≡ is_credit command) }
{
    let takes = Takers::Credit.include(command);
    match given(matches, "kind") {
        None if takes => Err(WordFault::Missing { option: KIND }),
        None => Ok(None),
        Some(text) if takes => match kind_named(text) {
            Some(kind) => Ok(Some(kind)),
            None => Err(WordFault::Bad { option: KIND }),
        },
        Some(_) => Err(WordFault::NotFor {
            option: KIND,
            command,
        }),
    }
}

#[tactic(auto, unfolding(crate::specs::OptionWords::measure_for))]
fn measure_for(matches: &ArgMatches<'_>, command: Command) -> Result<Option<Measure>, WordFault>
    ensures value { result
        ≡ measure_for command (first_of (codes "measure") (rows_of (found_of matches.now))) }
    ensures fits { IfOk result (λ measure. is_some measure ≡ is_credit command) }
{
    let takes = Takers::Credit.include(command);
    match given(matches, "measure") {
        None if takes => Err(WordFault::Missing { option: MEASURE }),
        None => Ok(None),
        Some(text) if takes => match measure_named(text) {
            Some(measure) => Ok(Some(measure)),
            None => Err(WordFault::Bad { option: MEASURE }),
        },
        Some(_) => Err(WordFault::NotFor {
            option: MEASURE,
            command,
        }),
    }
}

// The options of a run of samples.
#[tactic(auto, unfolding(crate::specs::OptionWords::run_options_in))]
pub(crate) fn read_run_options(
    matches: &ArgMatches<'_>,
    command: Command,
) -> Result<RunOptions, WordFault>
    ensures options { result ≡ run_options_in command (rows_of (found_of matches.now)) }
    ensures fits { IfOk result (AreRunOptions command) }
{
    let samples = number_u32(matches, "samples", command, SAMPLES)?;
    let seed = number_for(matches, "seed", command, SEED)?;
    let workers = number_u8(matches, "workers", command, WORKERS)?;
    let block = number_u32(matches, "block", command, BLOCK)?;
    let most = number_u32(matches, "most", command, most_row(samples))?;
    let precision = number_u16(matches, "precision", command, PRECISION)?;
    Ok(RunOptions {
        samples,
        seed,
        workers,
        block,
        most,
        precision,
    })
}

// The options of a trace.
#[tactic(auto, unfolding(crate::specs::OptionWords::trace_options_in))]
pub(crate) fn read_trace_options(
    matches: &ArgMatches<'_>,
    command: Command,
) -> Result<TraceOptions, WordFault>
    ensures options { result ≡ trace_options_in command (rows_of (found_of matches.now)) }
    ensures fits { IfOk result (AreTraceOptions command) }
{
    let sample = number_u32(matches, "sample", command, SAMPLE)?;
    let recorder = number_u8(matches, "result", command, RESULT)?;
    Ok(TraceOptions {
        sample,
        result: recorder,
    })
}

// The options of a credit.
#[tactic(auto, unfolding(crate::specs::OptionWords::credit_options_in))]
pub(crate) fn read_credit_options(
    matches: &ArgMatches<'_>,
    command: Command,
) -> Result<CreditOptions, WordFault>
    ensures options { result ≡ credit_options_in command (rows_of (found_of matches.now)) }
    ensures fits { IfOk result (AreCreditOptions command) }
{
    let kind = kind_for(matches, command)?;
    let measure = measure_for(matches, command)?;
    let capacity = number_u32(matches, "capacity", command, CAPACITY)?;
    let failure = number_u32(matches, "failure", command, FAILURE)?;
    let repair = number_u32(matches, "repair", command, repair_row(failure))?;
    let up_to = number_u32(matches, "up-to", command, UP_TO)?;
    Ok(CreditOptions {
        kind,
        measure,
        capacity,
        failure,
        repair,
        up_to,
    })
}
