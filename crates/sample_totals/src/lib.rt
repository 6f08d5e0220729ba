//! What an hour of a sample comes to, what its hours come to together, and what samples come to.
#![tactic(auto)]

mod cut_rows;
mod estimates;
mod outcomes;
mod recorder;
mod results;
mod totals;
mod unserved;

pub use cut_rows::CutRow;
pub use estimates::{Sums, enough, error, mean};
pub use outcomes::HourOutcome;
pub use recorder::{Recorder, RecorderError};
pub use results::{MOST_UNSERVED, SampleResult};
pub use totals::{Part, Totals};
