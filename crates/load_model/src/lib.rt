//! What a system's hours need of its units, over all zones together: loads less variable generation,
//! the need that is left, and the peak.
#![tactic(auto)]

mod hours;
mod loads;

pub use hours::{NetHour, Peak};
pub use loads::NetLoad;
