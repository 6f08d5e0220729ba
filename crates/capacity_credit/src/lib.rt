//! What a new unit is worth: the firm capacity (EFC) or the carried load (ELCC) that moves an index as
//! much as the unit does, bracketed from both sides by enclosures. The search is this project's own.
#![tactic(auto)]

mod brackets;
mod questions;
mod search;
mod steps;

pub use brackets::{Bracket, credit};
pub use questions::{Kind, Measure};
pub use steps::Steps;
