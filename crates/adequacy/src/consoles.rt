//! A console's line: a campaign is opened over the samples of the line's system, and lines are answered while its
//! workers run.
ghost use Rattle.std.specs.Prelude.{◌≡◌, ◌⊎◌, Err, List, Result, true};
ghost use Rattle.campaign_console.specs.LineEnds.{outside_of};
ghost use Rattle.ra_base.specs.Causes.{Counts};
ghost use Rattle.ra_base.specs.declared.status.Status.{Status};
ghost use Rattle.ra_base.specs.declared.table.TableBytes.{TableBytes};
ghost use Rattle.sample_totals.specs.Recorders.{Seen};
ghost use Rattle.adequacy.specs.CommandWords.{is_console};
ghost use Rattle.adequacy.specs.Consoles.{ConsoleEnds, HasConsoled, console_ending};
ghost use Rattle.adequacy.specs.Endings.{ending_status, is_sink_failure, says_write_fault};
ghost use Rattle.adequacy.specs.Folder.{no_tables, HasRead};
ghost use Rattle.adequacy.specs.LineParts.{LineParts};
ghost use Rattle.adequacy.specs.Requests.{AreConsoleTerms, console_terms};
ghost use Rattle.adequacy.specs.Runs.{FaultCounts, LineRan, ReadFaults};
ghost use Rattle.adequacy.specs.Sources.{made_number, system_outcome, tables_read};
ghost use Rattle.adequacy.specs.declared.endings.Failure.{Failure};
ghost use Rattle.adequacy.specs.declared.tables.FolderError.{FolderError};

use crate::endings::{Failure, folder_failure, report};
use crate::sources::find_system;
use crate::words::{ConsoleTerms, Line};
use campaign::Campaign;
use campaign_console::{ConsoleEnd, console};
use ra_base::{Console, Pause, Shelf, Sink, Status};
use sample_run::SampleWork;
use std::alloc::Global;
use std::sync::Wait;
use std::thread::Threads;
use system_model::System;

/// Runs a console's line, and tells how it ended.
pub(crate) fn run_console<
    T: Threads + Wait + Sync,
    S: Shelf,
    C: Console + Send,
    O: Sink + Send,
    E: Sink,
    P: Pause + Sync,
>(
    rt: &T,
    alloc: Global,
    line: &Line,
    shelf: &mut S,
    lines: &mut C,
    out: &mut O,
    err: &mut E,
    pause: &P,
) -> Status
    requires console { is_console line.now.command ≡ true }
    ensures contents { S.contents shelf.new ≡ S.contents shelf.old }
    ensures read_fault { ReadFaults result (S.counts shelf.old).faults (S.counts shelf.new).faults
        (C.faults lines.old) (C.faults lines.new) }
    ensures write_fault { FaultCounts (says_write_fault result) result (O.faults out.old) (O.faults out.new) }
    ensures done { result ≡ Status.Done → err.new ≡ err.old }
    ensures words { result ≡ Status.Words → ⊥ }
    ensures refusal { result ≡ Status.RecorderRefused → ⊥ }
    ensures run { (seen : List Seen) → LineRan (S.contents shelf.old) line.now seen
        result (S.reads shelf.old) (S.reads shelf.new) (S.counts shelf.old) (S.counts shelf.new)
        (outside_of C.left C.answers C.faults O.held O.faults lines.old out.old)
        (outside_of C.left C.answers C.faults O.held O.faults lines.new out.new)
        (E.held err.old) (E.held err.new) (E.faults err.old) (E.faults err.new) }
{
    match run(rt, alloc, line, shelf, lines, out, pause) {
        Ok(()) => Status::Done,
        Err(failure) => report(alloc, failure, err),
    }
}

// Runs a line: reads the folder's tables, and answers lines over the samples of their system.
fn run<T: Threads + Wait + Sync, S: Shelf, C: Console + Send, O: Sink + Send, P: Pause + Sync>(
    rt: &T,
    alloc: Global,
    line: &Line,
    shelf: &mut S,
    lines: &mut C,
    out: &mut O,
    pause: &P,
) -> Result<(), Failure>
    requires console { is_console line.now.command ≡ true }
    ensures contents { S.contents shelf.new ≡ S.contents shelf.old }
    ensures ends { (tables : Result TableBytes FolderError)
        × HasRead (S.contents shelf.old) line.now.place no_tables (tables_read (made_number line.now)) tables
        (S.reads shelf.old) (S.reads shelf.new) (S.counts shelf.old) (S.counts shelf.new)
        × ConsoleEnds (console_terms line.now) (system_outcome (made_number line.now) tables) result
        (outside_of C.left C.answers C.faults O.held O.faults lines.old out.old)
        (outside_of C.left C.answers C.faults O.held O.faults lines.new out.new) }
    ensures read_faults { ReadFaults (ending_status result)
        (S.counts shelf.old).faults (S.counts shelf.new).faults (C.faults lines.old) (C.faults lines.new) }
    ensures write_faults { FaultCounts (is_sink_failure result) (ending_status result)
        (O.faults out.old) (O.faults out.new) }
{
    match find_system(alloc, line, shelf) {
        Ok(system) => answer_lines(rt, alloc, &system, line.console_terms(), lines, out, pause),
        Err(error) => Err(folder_failure(error)),
    }
}

// Opens a campaign over the samples of a system, and answers lines while its workers run.
fn answer_lines<T: Threads + Wait + Sync, C: Console + Send, O: Sink + Send, P: Pause + Sync>(
    rt: &T,
    alloc: Global,
    system: &System,
    terms: ConsoleTerms,
    lines: &mut C,
    out: &mut O,
    pause: &P,
) -> Result<(), Failure>
    requires terms { (line : LineParts) × AreConsoleTerms line terms }
    ensures ends { ((result ≡ Err Failure.OutOfMemory) × (lines.new ≡ lines.old) × (out.new ≡ out.old))
        ⊎ HasConsoled system.now terms result
        (outside_of C.left C.answers C.faults O.held O.faults lines.old out.old)
        (outside_of C.left C.answers C.faults O.held O.faults lines.new out.new) }
{
    let work = SampleWork::new(system, terms.seed, None);
    let Ok((campaign, pass)) = Campaign::open(alloc, work, terms.samples, terms.block) else {
        return Err(Failure::OutOfMemory);
    };
    let done = console(
        rt,
        alloc,
        campaign,
        pass,
        system,
        terms.seed,
        terms.workers,
        lines,
        out,
        pause,
    );
    ending_of(done.end)
}

// How a run ends, by how its console did.
fn ending_of(end: ConsoleEnd) -> Result<(), Failure>
    ensures { result ≡ console_ending end }
{
    match end {
        ConsoleEnd::Finished => Ok(()),
        ConsoleEnd::Cancelled => Err(Failure::Cancelled),
        ConsoleEnd::ReadFault => Err(Failure::ReadFault),
        ConsoleEnd::WriteFault => Err(Failure::WriteFault),
        ConsoleEnd::OutOfMemory => Err(Failure::OutOfMemory),
    }
}
