//! A power system as this suite sees it: its zones, units, interfaces, lines, storages and hours, within
//! the limits.
//!
//! A `Draft` takes the parts in, one call each, and `finish` makes a `System` of it. Whoever holds a
//! `System` holds a valid one.
#![tactic(auto)]

mod components;
mod drafts;
mod parts;
mod systems;

pub use components::{Interface, Line, Rates, Storage, Unit};
pub use drafts::Draft;
pub use systems::System;
