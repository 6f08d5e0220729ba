//! The random words of a study: draws that are numbered by sample, hour and component, so that each
//! depends on the seed and its own number alone.
#![tactic(auto)]

mod draw;
mod hour_draws;
mod words;

pub use draw::SampleStream;
pub use hour_draws::HourDraws;
