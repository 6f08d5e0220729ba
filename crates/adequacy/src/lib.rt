//! Resource adequacy of a power system, from the words of a command line to the bytes of an answer.
#![tactic(auto)]

mod commands;
mod consoles;
mod endings;
mod sources;
mod studies;
mod tables;
mod top;
mod traces;
mod waiting;
mod words;
mod writing;

pub use endings::{Failure, Unread, report_unread};
pub use tables::{FolderError, Refusal};
pub use top::{adequacy, answer};
pub use words::{
    Command, ConsoleTerms, CreditTerms, Line, Place, Request, StudyTerms, TraceTerms, WordFault,
    WordsError, put_word_fault, read_words,
};
