//! A running campaign: callers on threads of their own share it by reference, each with a pass. In every
//! schedule their calls stand in one legal history, and their deposits in one book whose sum stands for the
//! ranges that were deposited.
#![tactic(auto)]

mod book;
mod calls;
mod campaign;
mod ending;
mod reports;

pub use book::Book;
pub use calls::{Claim, Extend};
pub use campaign::{Campaign, Counted, Pass, Shared};
pub use ending::{Finished, NotFinished};
pub use reports::Interim;
