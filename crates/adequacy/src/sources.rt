//! Where the system comes from on which a line runs: the tables of its folder spell it, or its number makes it.
ghost use Rattle.std.specs.Prelude.{◌≡◌, true, Ok, Result};
ghost use Rattle.ra_base.specs.Causes.{Counts};
ghost use Rattle.ra_base.specs.declared.table.TableBytes.{TableBytes};
ghost use Rattle.adequacy.specs.CommandWords.{is_trial};
ghost use Rattle.adequacy.specs.Folder.{no_tables, ComesTo, HasRead, is_read_failure};
ghost use Rattle.system_maker.specs.MadeSystem.{made_system};
ghost use Rattle.adequacy.specs.Sources.{made_number, system_outcome, tables_read};
ghost use Rattle.adequacy.specs.declared.tables.FolderError.{FolderError};

use crate::tables::{FolderError, read_folder};
use crate::words::Line;
use ra_base::{OutOfMemory, Shelf};
use std::alloc::Global;
use system_maker::make;
use system_model::System;

/// The system on which a line runs: a trial's is made from its number and no table is read; for any other line
/// the tables of its folder are read.
pub(crate) fn find_system<S: Shelf>(
    alloc: Global,
    line: &Line,
    shelf: &mut S,
) -> Result<System, FolderError>
    ensures contents { S.contents shelf.new ≡ S.contents shelf.old }
    ensures reads { (tables : Result TableBytes FolderError)
        × ComesTo (system_outcome (made_number line.now) tables) result
        × HasRead (S.contents shelf.old) line.now.place no_tables (tables_read (made_number line.now)) tables
        (S.reads shelf.old) (S.reads shelf.new) (S.counts shelf.old) (S.counts shelf.new) }
    ensures faults { Counts (is_read_failure result) (S.counts shelf.old).faults (S.counts shelf.new).faults }
    ensures unread { is_trial line.now.command ≡ true → shelf.new ≡ shelf.old }
{
    if line.command.is_trial() {
        return make_system(alloc, line.number);
    }
    read_folder(alloc, line.place.text(), shelf)
}

// The system that a number makes.
fn make_system(alloc: Global, number: u64) -> Result<System, FolderError>
    ensures { ComesTo (Ok (made_system number)) result }
{
    match make(alloc, number) {
        Ok(system) => Ok(system),
        Err(OutOfMemory) => Err(FolderError::OutOfMemory),
    }
}
