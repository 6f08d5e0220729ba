//! How a run of the program ends, and the line that it leaves on standard error.
ghost use Rattle.std.specs.Prelude.{◌≡◌, ◌++◌, codes, IfOk, Err};
ghost use Rattle.adequacy.specs.Endings.{failure_of, failure_of_words, unread_failure, refusal_line, ErrGains, Reports, Tells};
ghost use Rattle.report_text.specs.FaultText.{table_text};
ghost use Rattle.adequacy.specs.WordFaultText.{word_fault_text};

use crate::tables::{FolderError, Refusal};
use crate::words::{WordFault, WordsError, put_word_fault};
use ra_base::{OutOfMemory, Sink, Status, TableName, Text};
use report_text::{name_of, put_table_fault};
use std::alloc::Global;

/// Why a run ends without its answer.
#[derive(Clone, Copy, Debug, PartialEq, Eq)]
pub enum Failure {
    /// The words spell no line, by their first fault.
    Words(WordFault),
    /// The tables of the folder are refused.
    Refused(Refusal),
    /// A read of the shelf failed.
    ReadFault,
    /// The write of the answer failed.
    WriteFault,
    /// A recorder refused an hour of a trace.
    RecorderRefused,
    /// A line of the console cancelled its campaign.
    Cancelled,
    /// Memory wasn't found.
    OutOfMemory,
}

/// Why there are no words to read.
#[derive(Clone, Copy, Debug, PartialEq, Eq)]
pub enum Unread {
    /// A word is no text.
    NotText,
    /// Memory wasn't found.
    OutOfMemory,
}

/// The failure of a run whose words give no line.
pub(crate) fn words_failure(error: WordsError) -> Failure
    ensures { result ≡ failure_of_words error }
{
    match error {
        WordsError::Words(fault) => Failure::Words(fault),
        WordsError::OutOfMemory => Failure::OutOfMemory,
    }
}

/// The failure of a run whose folder gives no system.
pub(crate) fn folder_failure(error: FolderError) -> Failure
    ensures { result ≡ failure_of error }
{
    match error {
        FolderError::Refused(refusal) => Failure::Refused(refusal),
        FolderError::ReadFault => Failure::ReadFault,
        FolderError::OutOfMemory => Failure::OutOfMemory,
    }
}

/// Writes the line of a failure, in one write, and gives its status. Where there is no memory to write what
/// is wrong with words or tables, the failure is that.
pub(crate) fn report<E: Sink>(alloc: Global, failure: Failure, err: &mut E) -> Status
    ensures { Reports failure result (E.held err.old) (E.held err.new) (E.faults err.old) (E.faults err.new) }
{
    match failure {
        Failure::Words(fault) => match words_text(alloc, fault) {
            Ok(text) => tell(err, text.bytes(), Status::Words),
            Err(OutOfMemory) => tell(err, b"out of memory\n", Status::OutOfMemory),
        },
        Failure::ReadFault => tell(err, b"read fault\n", Status::ReadFault),
        Failure::WriteFault => tell(err, b"write fault\n", Status::WriteFault),
        Failure::RecorderRefused => tell(err, b"recorder refused\n", Status::RecorderRefused),
        Failure::Cancelled => tell(err, b"cancelled\n", Status::Cancelled),
        Failure::OutOfMemory => tell(err, b"out of memory\n", Status::OutOfMemory),
        Failure::Refused(refusal) => match refusal_text(alloc, refusal) {
            Ok(text) => tell(err, text.bytes(), Status::Table),
            Err(OutOfMemory) => tell(err, b"out of memory\n", Status::OutOfMemory),
        },
    }
}

/// Writes why there are no words to read, in one write, and gives the status.
pub fn report_unread<E: Sink>(reason: Unread, err: &mut E) -> Status
    ensures { Tells (Err (unread_failure reason)) result (E.held err.old) (E.held err.new)
        (E.faults err.old) (E.faults err.new) }
{
    match reason {
        Unread::NotText => tell(err, b"words: usage\n", Status::Words),
        Unread::OutOfMemory => tell(err, b"out of memory\n", Status::OutOfMemory),
    }
}

// Writes a line and passes the status on; a failed write of it changes nothing.
fn tell<E: Sink>(err: &mut E, line: &[u8], status: Status) -> Status
    ensures line { ErrGains (E.held err.old) (E.held err.new) (E.faults err.old) (E.faults err.new) line.now }
    ensures status { result ≡ status }
{
    let _ = err.write(line);
    status
}

// The line of a fault in the words.
fn words_text(alloc: Global, fault: WordFault) -> Result<Text, OutOfMemory>
    ensures { IfOk result (λ text. text ≡ word_fault_text fault) }
{
    let mut text = Text::new(alloc);
    put_word_fault(&mut text, fault)?;
    Ok(text)
}

// The line of refused tables.
fn refusal_text(alloc: Global, refusal: Refusal) -> Result<Text, OutOfMemory>
    ensures { IfOk result (λ text. text ≡ refusal_line refusal) }
{
    match refusal {
        Refusal::Missing(table) => absence_text(alloc, table, b" missing\n"),
        Refusal::TooLong(table) => absence_text(alloc, table, b" too long\n"),
        Refusal::Fault(fault) => {
            let mut text = Text::new(alloc);
            put_table_fault(&mut text, &fault)?;
            Ok(text)
        }
    }
}

// The line of a table that isn't read.
fn absence_text(alloc: Global, table: TableName, cause: &[u8]) -> Result<Text, OutOfMemory>
    ensures { IfOk result (λ text. text ≡ codes "table " ++ table_text table ++ cause.now) }
{
    let mut text = Text::new(alloc);
    text.push(b"table ")?;
    text.push(name_of(table))?;
    text.push(cause)?;
    Ok(text)
}
