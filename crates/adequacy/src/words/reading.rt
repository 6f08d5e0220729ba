//! The words read into a line.
ghost use Rattle.std.specs.Prelude.{◌≡◌, IfOk, map, codes, true};
ghost use Rattle.std.specs.String.{string_bytes};
ghost use Rattle.clap.specs.Words.{found_of, rows_of};
ghost use Rattle.adequacy.specs.LineParts.{fits_number, is_below};
ghost use Rattle.adequacy.specs.Parse.{IsParse, refusal_of};
ghost use Rattle.adequacy.specs.Words.{IsWordsAnswer, line_in, number_of, text_in};

use super::form::form;
use super::values::{given, read_credit_options, read_run_options, read_trace_options};
use super::{Command, Line, Place, WordFault, WordsError};
use clap::ArgMatches;
use clap::error::ErrorKind;
use decimal_text::read_whole;
use std::alloc::Global;

/// The line that the words spell, without the program's own name, or why there is none.
pub fn read_words(alloc: Global, words: &[String]) -> Result<Line, WordsError>
    // The line or the first fault of the words, exactly; want of memory is free.
    ensures { IsWordsAnswer (map string_bytes words.now) result }
{
    let matches = parse(alloc, words)?;
    let place = Place::new(alloc, text_in(&matches, "place"))?;
    Ok(read_line(&matches, place)?)
}

// What `clap` makes of the words.
fn parse<'a>(alloc: Global, words: &'a [String]) -> Result<ArgMatches<'a>, WordsError>
    ensures { IsParse (map string_bytes words.now) result }
{
    let command = form(alloc)?;
    match command.try_get_matches_from(words) {
        Ok(matches) => Ok(matches),
        Err(error) => Err(refusal(error.kind())),
    }
}

// Why there are no matches, by the kind of `clap`'s error.
fn refusal(kind: ErrorKind) -> WordsError
    ensures { result ≡ refusal_of kind }
{
    match kind {
        ErrorKind::OutOfMemory => WordsError::OutOfMemory,
        _ => WordsError::Words(WordFault::Usage),
    }
}

// The text of a positional.
fn text_in<'a>(matches: &ArgMatches<'a>, name: &str) -> &'a str
    ensures { result.now ≡ text_in name.now (rows_of (found_of matches.now)) }
{
    match given(matches, name) {
        Some(text) => text,
        None => "",
    }
}

// The number of the system that the command makes.
fn number_of(command: Command, place: &str) -> Result<u64, WordFault>
    ensures number { result ≡ number_of command place.now }
    ensures fits { IfOk result (λ number. fits_number command number ≡ true) }
{
    match command {
        Command::Trial => match read_whole(place.as_bytes()) {
            Ok(number) => Ok(number),
            Err(_) => Err(WordFault::BadNumber),
        },
        _ => Ok(0),
    }
}

// Whether there are fewer of the first than of the second.
fn is_below(few: Option<u32>, many: Option<u32>) -> bool
    ensures { result ≡ is_below few many }
{
    match (few, many) {
        (Some(few), Some(many)) => few < many,
        _ => false,
    }
}

// The line that the matches have at a place.
#[tactic(auto, unfolding(crate::specs::Words::line_in))]
fn read_line(matches: &ArgMatches<'_>, place: Place) -> Result<Line, WordFault>
    requires { place ≡ text_in (codes "place") (rows_of (found_of matches.now)) }
    ensures { result ≡ line_in (rows_of (found_of matches.now)) }
{
    let Some(command) = Command::named(text_in(matches, "command")) else {
        return Err(WordFault::NoCommand);
    };
    let number = number_of(command, place.text())?;
    let run = read_run_options(matches, command)?;
    let trace = read_trace_options(matches, command)?;
    let credit = read_credit_options(matches, command)?;
    if is_below(run.most, run.samples) {
        return Err(WordFault::MostBelowSamples);
    }
    Ok(Line {
        command,
        place,
        number,
        samples: run.samples,
        seed: run.seed,
        workers: run.workers,
        block: run.block,
        most: run.most,
        precision: run.precision,
        sample: trace.sample,
        result: trace.result,
        kind: credit.kind,
        measure: credit.measure,
        capacity: credit.capacity,
        failure: credit.failure,
        repair: credit.repair,
        up_to: credit.up_to,
    })
}
