//! One sample of a study: the network of each hour by what is up, its best dispatch, the energies that
//! follow, and the figures that the hours come to.
#![tactic(auto)]

mod ample;
mod both;
mod hours;
mod network;
mod ranges;
mod runner;
mod shapes;
mod traces;
mod up_sums;
mod work;

pub use runner::Runner;
pub use traces::TraceError;
pub use work::SampleWork;
