//! The top call: from the words of the command line to the bytes of the answer.
ghost use Rattle.std.specs.Prelude.{◌≡◌, ◌⊎◌, [], Some, Ok, Err, IfOk, Result, map, true, false};
ghost use Rattle.std.specs.String.{string_bytes};
ghost use Rattle.ra_base.specs.Causes.{Counts, Rose};
ghost use Rattle.ra_base.specs.Outside.{Tables};
ghost use Rattle.ra_base.specs.declared.table.TableBytes.{TableBytes};
ghost use Rattle.campaign_console.specs.LineEnds.{outside_of};
ghost use Rattle.system_model.specs.System.{SystemParts};
ghost use Rattle.adequacy.specs.CommandWords.{is_campaign, is_console, is_trial};
ghost use Rattle.adequacy.specs.Commands.{waits};
ghost use Rattle.adequacy.specs.Endings.{Answers, Ends, Reports, Tells, HasRun, HasText, IsAsked, ending_status, is_shelf_failure, is_sink_failure, may_have_written, says_read_fault, says_write_fault, says_written};
ghost use Rattle.adequacy.specs.Folder.{no_tables, HasRead};
ghost use Rattle.adequacy.specs.LineParts.{LineParts};
ghost use Rattle.adequacy.specs.Requests.{IsRequestOf, request_of};
ghost use Rattle.adequacy.specs.Runs.{Answered, FaultCounts, LineRan, MayRun, ReadFaults, RunsOn};
ghost use Rattle.adequacy.specs.Sources.{made_number, system_outcome, tables_read, IsRefused, RunsFor};
ghost use Rattle.adequacy.specs.Traces.{Leaves};
ghost use Rattle.adequacy.specs.Words.{line_of};
ghost use Rattle.adequacy.specs.declared.endings.Failure.{Failure};
ghost use Rattle.adequacy.specs.declared.tables.FolderError.{FolderError};
ghost use Rattle.adequacy.specs.declared.tables.Refusal.{Refusal};
ghost use Rattle.adequacy.specs.declared.words.fault.WordFault.{WordFault};

use crate::commands::make_answer;
use crate::consoles::run_console;
use crate::endings::{Failure, folder_failure, report, words_failure};
use crate::sources::find_system;
use crate::traces::{TextError, make_trace_text};
use crate::waiting::run_waiting;
use crate::words::{Line, Request, read_words};
use crate::writing::write_text;
use ra_base::{Console, OutOfMemory, Pause, Shelf, Sink, Status, Text};
use sample_totals::Recorder;
use std::alloc::Global;
use std::sync::Wait;
use std::thread::Threads;
use system_model::System;

/// Runs the program on the words of its command line, without the program's own name.
///
/// The words name a command, a folder and the command's options: `check FOLDER` tells how large the folder's
/// system is, `table FOLDER` gives its capacity outage table, `index FOLDER` its LOLE and EUE,
/// `credit FOLDER --kind K --measure M ..` brackets what a new unit is worth,
/// `study FOLDER --samples N ..` simulates so many samples, `trial NUMBER --samples N ..` does so on a large
/// system that is made from the number, `trace FOLDER --sample K ..` gives the hours of one sample to recorders and
/// writes their texts, and `console FOLDER --samples N ..` simulates samples and answers the console's lines
/// meanwhile. A trace first drops the recorders whose kind isn't chosen; no other command touches any. The answer
/// goes to `out`; where there is none, one line on `err` says why.
pub fn adequacy<
    T: Threads + Wait + Sync,
    S: Shelf,
    C: Console + Send,
    O: Sink + Send,
    E: Sink,
    P: Pause + Sync,
    R: Recorder,
>(
    rt: &T,
    alloc: Global,
    words: &[String],
    shelf: &mut S,
    console: &mut C,
    out: &mut O,
    err: &mut E,
    pause: &P,
    recorders: &mut Vec<R>,
) -> Status
    // Words that spell no line are refused by their first fault, or memory wasn't found, and nothing is
    // touched but `err`. No other words are refused.
    ensures words { (fault : WordFault) → line_of (map string_bytes words.now) ≡ Err fault →
        (shelf.new ≡ shelf.old) × (console.new ≡ console.old) × (out.new ≡ out.old)
        × (recorders.new ≡ recorders.old)
        × Reports (Failure.Words fault) result (E.held err.old) (E.held err.new)
        (E.faults err.old) (E.faults err.new) }
    ensures refused_words { result ≡ Status.Words →
        (fault : WordFault) × (line_of (map string_bytes words.now) ≡ Err fault) }

    // No run changes what the shelf holds, and a fault is answered exactly where one was counted; but a console that
    // finds no memory says so first.
    ensures contents { S.contents shelf.new ≡ S.contents shelf.old }
    ensures read_fault { ReadFaults result (S.counts shelf.old).faults (S.counts shelf.new).faults
        (C.faults console.old) (C.faults console.new) }
    ensures write_fault { FaultCounts (says_write_fault result) result (O.faults out.old) (O.faults out.new) }
    ensures done { result ≡ Status.Done → err.new ≡ err.old }

    // Only a console asks for lines, and may have written where it isn't done. A trial reads no table.
    ensures asks { (line : LineParts) → line_of (map string_bytes words.now) ≡ Ok line →
        is_console line.command ≡ false →
        (console.new ≡ console.old) × (says_written result ≡ false → out.new ≡ out.old) }
    ensures unread { (line : LineParts) → line_of (map string_bytes words.now) ≡ Ok line →
        is_trial line.command ≡ true → shelf.new ≡ shelf.old }

    // A line runs on what this call's reads answered, whether the shelf tells its contents or not.
    ensures run { (line : LineParts) → line_of (map string_bytes words.now) ≡ Ok line →
        MayRun (S.contents shelf.old) line (map R.seen recorders.old.items) result
        (S.reads shelf.old) (S.reads shelf.new) (S.counts shelf.old) (S.counts shelf.new)
        (outside_of C.left C.answers C.faults O.held O.faults console.old out.old)
        (outside_of C.left C.answers C.faults O.held O.faults console.new out.new)
        (E.held err.old) (E.held err.new) (E.faults err.old) (E.faults err.new) }

    // Where the shelf tells its contents, the run is that of the stored tables, or a read failed.
    ensures told { (line : LineParts) (stored : Tables) → line_of (map string_bytes words.now) ≡ Ok line
        → S.contents shelf.old ≡ Some stored
        → RunsOn stored line (map R.seen recorders.old.items) result
        (S.counts shelf.old) (S.counts shelf.new)
        (outside_of C.left C.answers C.faults O.held O.faults console.old out.old)
        (outside_of C.left C.answers C.faults O.held O.faults console.new out.new)
        (E.held err.old) (E.held err.new) (E.faults err.old) (E.faults err.new) }

    // So stored tables that spell a system are answered where no fault and no refusal was counted, or memory
    // wasn't found;
    ensures answered { (line : LineParts) (stored : Tables) (system : SystemParts) →
        line_of (map string_bytes words.now) ≡ Ok line → S.contents shelf.old ≡ Some stored →
        RunsFor stored line system →
        ¬ Rose (S.counts shelf.old).faults (S.counts shelf.new).faults →
        ¬ Rose (C.faults console.old) (C.faults console.new) →
        ¬ Rose (O.faults out.old) (O.faults out.new) →
        ¬ Leaves R.seen R.refusals (request_of line) Status.RecorderRefused
        recorders.old.items recorders.new.items →
        Answered (request_of line) (map R.seen recorders.old.items) system result
        (outside_of C.left C.answers C.faults O.held O.faults console.old out.old)
        (outside_of C.left C.answers C.faults O.held O.faults console.new out.new)
        ⊎ (result ≡ Status.OutOfMemory) }

    // and stored tables that are refused are refused for that reason, which `err` has then gained.
    ensures refused { (line : LineParts) (stored : Tables) (refusal : Refusal) →
        line_of (map string_bytes words.now) ≡ Ok line → S.contents shelf.old ≡ Some stored →
        IsRefused stored line refusal →
        ¬ Rose (S.counts shelf.old).faults (S.counts shelf.new).faults →
        Tells (Err (Failure.Refused refusal)) result (E.held err.old) (E.held err.new)
        (E.faults err.old) (E.faults err.new)
        ⊎ (result ≡ Status.OutOfMemory) }

    // Only a trace touches recorders: it drops those that aren't chosen, and is refused only where one that it
    // kept counted it.
    ensures recorders { (line : LineParts) → line_of (map string_bytes words.now) ≡ Ok line →
        Leaves R.seen R.refusals (request_of line) result recorders.old.items recorders.new.items }
{
    match ask(alloc, words) {
        Ok(line) => run_line(rt, alloc, &line, shelf, console, out, err, pause, recorders),
        Err(failure) => report(alloc, failure, err),
    }
}

// The line of the words.
fn ask(alloc: Global, words: &[String]) -> Result<Line, Failure>
    ensures asked { IsAsked (line_of (map string_bytes words.now)) result }
{
    match read_words(alloc, words) {
        Ok(line) => Ok(line),
        Err(error) => Err(words_failure(error)),
    }
}

// Runs a line, and tells how it ended.
fn run_line<
    T: Threads + Wait + Sync,
    S: Shelf,
    C: Console + Send,
    O: Sink + Send,
    E: Sink,
    P: Pause + Sync,
    R: Recorder,
>(
    rt: &T,
    alloc: Global,
    line: &Line,
    shelf: &mut S,
    console: &mut C,
    out: &mut O,
    err: &mut E,
    pause: &P,
    recorders: &mut Vec<R>,
) -> Status
    ensures contents { S.contents shelf.new ≡ S.contents shelf.old }
    ensures read_fault { ReadFaults result (S.counts shelf.old).faults (S.counts shelf.new).faults
        (C.faults console.old) (C.faults console.new) }
    ensures write_fault { FaultCounts (says_write_fault result) result (O.faults out.old) (O.faults out.new) }
    ensures done { result ≡ Status.Done → err.new ≡ err.old }
    ensures words { result ≡ Status.Words → ⊥ }
    ensures asks { is_console line.now.command ≡ false →
        (console.new ≡ console.old) × (says_written result ≡ false → out.new ≡ out.old) }
    ensures unread { is_trial line.now.command ≡ true → shelf.new ≡ shelf.old }
    ensures recorders { Leaves R.seen R.refusals (request_of line.now) result
        recorders.old.items recorders.new.items }
    ensures run { LineRan (S.contents shelf.old) line.now (map R.seen recorders.old.items)
        result (S.reads shelf.old) (S.reads shelf.new) (S.counts shelf.old) (S.counts shelf.new)
        (outside_of C.left C.answers C.faults O.held O.faults console.old out.old)
        (outside_of C.left C.answers C.faults O.held O.faults console.new out.new)
        (E.held err.old) (E.held err.new) (E.faults err.old) (E.faults err.new) }
{
    if line.command.is_console() {
        run_console(rt, alloc, line, shelf, console, out, err, pause)
    } else if line.waits() {
        run_waiting(rt, alloc, line, shelf, out, err, pause)
    } else {
        answer(alloc, line, shelf, out, err, recorders)
    }
}

/// Answers a line of a command that waits for nobody, and gives the status. It always returns.
pub fn answer<S: Shelf, O: Sink, E: Sink, R: Recorder>(
    alloc: Global,
    line: &Line,
    shelf: &mut S,
    out: &mut O,
    err: &mut E,
    recorders: &mut Vec<R>,
) -> Status
    requires waits { is_campaign line.now.command ≡ false }
    ensures contents { S.contents shelf.new ≡ S.contents shelf.old }
    ensures read_fault { Counts (says_read_fault result)
        (S.counts shelf.old).faults (S.counts shelf.new).faults }
    ensures write_fault { Counts (says_write_fault result) (O.faults out.old) (O.faults out.new) }
    ensures unwritten { says_written result ≡ false → out.new ≡ out.old }
    ensures done { result ≡ Status.Done → err.new ≡ err.old }
    ensures words { result ≡ Status.Words → ⊥ }
    ensures recorders { Leaves R.seen R.refusals (request_of line.now) result
        recorders.old.items recorders.new.items }
    ensures run { HasRun (S.contents shelf.old) line.now (map R.seen recorders.old.items)
        result (S.reads shelf.old) (S.reads shelf.new) (S.counts shelf.old) (S.counts shelf.new)
        (O.held out.old) (O.held out.new) (E.held err.old) (E.held err.new)
        (E.faults err.old) (E.faults err.new) }
{
    match run(alloc, line, shelf, out, recorders) {
        Ok(()) => Status::Done,
        Err(failure) => report(alloc, failure, err),
    }
}

// Runs a line: reads the folder's tables and writes what answers the line's request for their system.
fn run<S: Shelf, O: Sink, R: Recorder>(
    alloc: Global,
    line: &Line,
    shelf: &mut S,
    out: &mut O,
    recorders: &mut Vec<R>,
) -> Result<(), Failure>
    requires waits { is_campaign line.now.command ≡ false }
    ensures contents { S.contents shelf.new ≡ S.contents shelf.old }
    ensures reads { (tables : Result TableBytes FolderError)
        × HasRead (S.contents shelf.old) line.now.place no_tables (tables_read (made_number line.now)) tables
        (S.reads shelf.old) (S.reads shelf.new) (S.counts shelf.old) (S.counts shelf.new)
        × Ends (request_of line.now) (map R.seen recorders.old.items)
        (system_outcome (made_number line.now) tables) result (O.held out.old) (O.held out.new) }
    ensures read_faults { Counts (is_shelf_failure result)
        (S.counts shelf.old).faults (S.counts shelf.new).faults }
    ensures write_faults { Counts (is_sink_failure result) (O.faults out.old) (O.faults out.new) }
    ensures unwritten { may_have_written result ≡ false → out.new ≡ out.old }
    ensures recorders { Leaves R.seen R.refusals (request_of line.now) (ending_status result)
        recorders.old.items recorders.new.items }
{
    match find_system(alloc, line, shelf) {
        Ok(system) => write_answer(alloc, &system, line.request(), out, recorders),
        Err(error) => Err(folder_failure(error)),
    }
}

// Writes what answers a request for a system, in one write.
fn write_answer<O: Sink, R: Recorder>(
    alloc: Global,
    system: &System,
    request: Request,
    out: &mut O,
    recorders: &mut Vec<R>,
) -> Result<(), Failure>
    requires waits { waits request ≡ false }
    requires terms { (line : LineParts) × IsRequestOf line request }
    ensures answer { Answers request (map R.seen recorders.old.items) system.now
        result (O.held out.old) (O.held out.new) }
    ensures read_faults { is_shelf_failure result ≡ false }
    ensures write_faults { Counts (is_sink_failure result) (O.faults out.old) (O.faults out.new) }
    ensures unwritten { may_have_written result ≡ false → out.new ≡ out.old }
    ensures recorders { Leaves R.seen R.refusals request (ending_status result)
        recorders.old.items recorders.new.items }
{
    match answer_text(alloc, system, request, recorders) {
        Ok(text) => write_text(&text, out),
        Err(TextError::Refused) => Err(Failure::RecorderRefused),
        Err(TextError::OutOfMemory) => Err(Failure::OutOfMemory),
    }
}

// The bytes that answer a request for a system.
fn answer_text<R: Recorder>(
    alloc: Global,
    system: &System,
    request: Request,
    recorders: &mut Vec<R>,
) -> Result<Text, TextError>
    requires waits { waits request ≡ false }
    requires terms { (line : LineParts) × IsRequestOf line request }
    ensures { HasText R.seen R.refusals request system.now result
        recorders.old.items recorders.new.items }
{
    match request {
        Request::Trace(terms) => make_trace_text(alloc, system, terms, recorders),
        _ => match make_answer(alloc, system, request) {
            Ok(text) => Ok(text),
            Err(OutOfMemory) => Err(TextError::OutOfMemory),
        },
    }
}
