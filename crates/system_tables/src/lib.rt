//! The seven tables of a system's folder, read exactly: the system that they spell, or their first fault.
#![tactic(auto)]

mod amount_rows;
mod columns;
mod faults;
mod fields;
mod headers;
mod hours;
mod interfaces;
mod lines;
mod names;
mod numbers;
mod records;
mod storages;
mod tables;
mod units;
mod zones;

pub use faults::{Cause, Column, ReadError, TableFault};
pub use tables::read_system;
