//! Outages hour by hour: which units, storages and lines of a system are up in an hour of a sample.
#![tactic(auto)]

mod chronologies;
mod components;
mod masks;
mod thresholds;

pub use chronologies::Chronology;
