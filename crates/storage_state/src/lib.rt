//! Storages hour by hour: the energy that each holds, what it may take in and give, and what it keeps.
#![tactic(auto)]

mod energies;
mod storages;

pub use storages::{Caps, Storages};
