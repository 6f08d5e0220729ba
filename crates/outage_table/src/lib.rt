//! The capacity outage table of a pool of generating units, after Billinton and Allan: for each MW
//! the enclosed probability that at least so much capacity is out, built unit by unit.
#![tactic(auto)]

mod entries;
mod error;
mod fleet;
mod high;
mod limits;
mod table;
mod units;

pub use error::AddError;
pub use table::OutageTable;
pub use units::PooledUnit;
