//! The network of one hour: zones with supply and load, links between them with a limit each way, and
//! devices that discharge and charge.
//!
//! A `Shape` is what stays over all hours, a `Network` the amounts of one. The crate's definitions say
//! what a dispatch is, when it is feasible and best, and what the cut is.
#![tactic(auto)]

mod links;
mod masks;
mod networks;
mod shapes;

pub use links::Link;
pub use masks::{has_zone, with_zone};
pub use networks::Network;
pub use shapes::Shape;
