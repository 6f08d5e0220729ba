//! Enclosures: two whole multiples of 2^-60 between which a value certainly lies. Low ends are
//! rounded down and high ends up, so no rounding ever leaves the exact value outside.
#![tactic(auto)]

mod arithmetic;
mod enclosure;
mod places;
mod share;

pub use arithmetic::{add, mix, scale};
pub use enclosure::Enclosure;
pub use places::{put_high, put_low};
pub use share::Share;
