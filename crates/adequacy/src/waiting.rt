//! Lines of the commands whose samples are run by workers, and that ask nothing while these run.
ghost use Rattle.std.specs.Prelude.{◌≡◌, [], None, Result, IfOk, false, true};
ghost use Rattle.ra_base.specs.Causes.{Counts};
ghost use Rattle.ra_base.specs.declared.table.TableBytes.{TableBytes};
ghost use Rattle.adequacy.specs.CommandWords.{is_campaign, is_console, is_trial};
ghost use Rattle.adequacy.specs.Commands.{IsAnswer, waits};
ghost use Rattle.adequacy.specs.Consoles.{console_of};
ghost use Rattle.adequacy.specs.Endings.{Answers, Ends, HasRun, is_shelf_failure, is_sink_failure, may_have_written, says_read_fault, says_write_fault, says_written};
ghost use Rattle.adequacy.specs.Folder.{no_tables, HasRead};
ghost use Rattle.adequacy.specs.LineParts.{LineParts};
ghost use Rattle.adequacy.specs.Requests.{IsRequestOf, request_of};
ghost use Rattle.adequacy.specs.Sources.{made_number, system_outcome, tables_read};
ghost use Rattle.adequacy.specs.declared.tables.FolderError.{FolderError};
ghost use Rattle.ra_base.specs.declared.status.Status.{Status};

use crate::endings::{Failure, folder_failure, report};
use crate::sources::find_system;
use crate::studies::{make_study_text, make_trial_text};
use crate::words::{Line, Request};
use crate::writing::write_text;
use ra_base::{OutOfMemory, Pause, Shelf, Sink, Status, Text};
use std::alloc::Global;
use std::sync::Wait;
use std::thread::Threads;
use system_model::System;

/// Runs a line of a study or a trial, and tells how it ended.
pub(crate) fn run_waiting<T: Threads + Wait + Sync, S: Shelf, O: Sink, E: Sink, P: Pause + Sync>(
    rt: &T,
    alloc: Global,
    line: &Line,
    shelf: &mut S,
    out: &mut O,
    err: &mut E,
    pause: &P,
) -> Status
    requires waits { is_campaign line.now.command ≡ true }
    requires other { is_console line.now.command ≡ false }
    ensures contents { S.contents shelf.new ≡ S.contents shelf.old }
    ensures read_fault { Counts (says_read_fault result)
        (S.counts shelf.old).faults (S.counts shelf.new).faults }
    ensures write_fault { Counts (says_write_fault result) (O.faults out.old) (O.faults out.new) }
    ensures unwritten { says_written result ≡ false → out.new ≡ out.old }
    ensures done { result ≡ Status.Done → err.new ≡ err.old }
    ensures words { result ≡ Status.Words → ⊥ }
    ensures unread { is_trial line.now.command ≡ true → shelf.new ≡ shelf.old }
    ensures run { HasRun (S.contents shelf.old) line.now []
        result (S.reads shelf.old) (S.reads shelf.new) (S.counts shelf.old) (S.counts shelf.new)
        (O.held out.old) (O.held out.new) (E.held err.old) (E.held err.new)
        (E.faults err.old) (E.faults err.new) }
{
    match run(rt, alloc, line, shelf, out, pause) {
        Ok(()) => Status::Done,
        Err(failure) => report(alloc, failure, err),
    }
}

// Runs a line: reads the folder's tables and writes what answers the line's request for their system.
fn run<T: Threads + Wait + Sync, S: Shelf, O: Sink, P: Pause + Sync>(
    rt: &T,
    alloc: Global,
    line: &Line,
    shelf: &mut S,
    out: &mut O,
    pause: &P,
) -> Result<(), Failure>
    requires waits { is_campaign line.now.command ≡ true }
    requires other { is_console line.now.command ≡ false }
    ensures contents { S.contents shelf.new ≡ S.contents shelf.old }
    ensures reads { (tables : Result TableBytes FolderError)
        × HasRead (S.contents shelf.old) line.now.place no_tables (tables_read (made_number line.now)) tables
        (S.reads shelf.old) (S.reads shelf.new) (S.counts shelf.old) (S.counts shelf.new)
        × Ends (request_of line.now) [] (system_outcome (made_number line.now) tables)
        result (O.held out.old) (O.held out.new) }
    ensures unread { is_trial line.now.command ≡ true → shelf.new ≡ shelf.old }
    ensures read_faults { Counts (is_shelf_failure result)
        (S.counts shelf.old).faults (S.counts shelf.new).faults }
    ensures write_faults { Counts (is_sink_failure result) (O.faults out.old) (O.faults out.new) }
    ensures unwritten { may_have_written result ≡ false → out.new ≡ out.old }
{
    match find_system(alloc, line, shelf) {
        Ok(system) => answer(rt, alloc, &system, line.request(), out, pause),
        Err(error) => Err(folder_failure(error)),
    }
}

// Writes what answers a request for a system.
fn answer<T: Threads + Wait + Sync, O: Sink, P: Pause + Sync>(
    rt: &T,
    alloc: Global,
    system: &System,
    request: Request,
    out: &mut O,
    pause: &P,
) -> Result<(), Failure>
    requires waits { waits request ≡ true }
    requires other { console_of request ≡ None }
    requires terms { (line : LineParts) × IsRequestOf line request }
    ensures answer { Answers request [] system.now result (O.held out.old) (O.held out.new) }
    ensures read_faults { is_shelf_failure result ≡ false }
    ensures write_faults { Counts (is_sink_failure result) (O.faults out.old) (O.faults out.new) }
    ensures unwritten { may_have_written result ≡ false → out.new ≡ out.old }
{
    match answer_text(rt, alloc, system, request, pause) {
        Ok(text) => write_text(&text, out),
        Err(OutOfMemory) => Err(Failure::OutOfMemory),
    }
}

// The bytes that answer a request for a system.
fn answer_text<T: Threads + Wait + Sync, P: Pause + Sync>(
    rt: &T,
    alloc: Global,
    system: &System,
    request: Request,
    pause: &P,
) -> Result<Text, OutOfMemory>
    requires waits { waits request ≡ true }
    requires other { console_of request ≡ None }
    requires terms { (line : LineParts) × IsRequestOf line request }
    ensures { IfOk result (IsAnswer request [] system.now) }
{
    match request {
        Request::Study(terms) => make_study_text(rt, alloc, system, terms, pause),
        Request::Trial { terms, .. } => make_trial_text(rt, alloc, system, terms, pause),
        _ => unreachable!(),
    }
}
