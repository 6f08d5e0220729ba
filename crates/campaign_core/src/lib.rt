//! The machine of a campaign of samples: what each call replies, on one thread; and what a campaign shares
//! with those who do its work: ranges of samples, their runs, works, shares and jobs.
//!
//! The crate's definitions say what a legal history of calls is. The running campaign is proved against them.
#![tactic(auto)]

mod call;
mod gate;
mod machine;
mod replying;
mod run;
mod runs;
mod share;
mod work;

pub use call::{Call, Entry, Reply};
pub use gate::Gate;
pub use machine::Core;
pub use replying::replies;
pub use run::{Run, SampleRange};
pub use runs::Runs;
pub use share::Share;
pub use work::{Booked, Done, Job, Work};
