//! Moving power from zones that have some to spare to a zone that asks for it, along links with room.
//!
//! A `Flow` holds a signed flow for each link and a spare amount for each zone. Where a pull stops short,
//! no zone with a spare reaches the zone that asked.
#![tactic(auto)]

mod flows;
mod pulls;
mod reaches;
mod signed;
mod steps;
mod ways;

pub use flows::Flow;
pub use pulls::Pull;
