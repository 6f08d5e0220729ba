//! The texts of reports: how large a system is, faults in its tables, totals, and how far a campaign has come.
#![tactic(auto)]

mod checks;
mod counted;
mod faults;
mod gates;
mod names;
mod totals;

pub use checks::put_check;
pub use faults::{name_of, put_table_fault};
pub use gates::{put_gate, put_interim};
pub use totals::put_totals;
