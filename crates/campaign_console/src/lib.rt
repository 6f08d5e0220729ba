//! Lines that are answered while workers run: each asks for a call on the campaign or for none, and is
//! answered by what the call's reply is in the campaign's one history.
#![tactic(auto)]

mod answers;
mod consoles;
mod lines;
mod requests;
mod sharing;
mod together;

pub use answers::Answer;
pub use consoles::{ConsoleDone, ConsoleEnd, console};
pub use lines::LinesEnd;
pub use requests::Request;
pub use together::Ran;
