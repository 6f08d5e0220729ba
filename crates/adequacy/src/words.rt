//! The words of the command line: read by `clap` as one command of two positionals and fourteen options, and
//! then told apart by the table of options.
mod command;
mod fault;
mod fault_text;
mod form;
mod line;
mod options;
mod reading;
mod request;
mod values;

pub use command::Command;
pub use fault::{WordFault, WordsError};
pub use fault_text::put_word_fault;
pub use line::{Line, Place};
pub use reading::read_words;
pub use request::{ConsoleTerms, CreditTerms, Request, StudyTerms, TraceTerms};
