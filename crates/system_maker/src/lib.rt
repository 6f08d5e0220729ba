//! A large system made from a number, and the tables that spell it: an input for trials.
#![tactic(auto)]

mod components;
mod fields;
mod hour_tables;
mod hours;
mod made;
mod names;
mod tables;

pub use made::{make, make_tables};
