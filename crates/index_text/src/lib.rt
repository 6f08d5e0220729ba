//! The texts of the analytic answers: the outage table, the indices of all hours and of each, and the
//! bracket of a unit's worth.
#![tactic(auto)]

mod credit;
mod ends;
mod index;
mod outages;

pub use credit::put_bracket;
pub use index::put_index;
pub use outages::put_table;
