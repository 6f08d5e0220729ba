//! Numbers as decimal text: read exactly or refused with the place of the first fault, and written.
#![tactic(auto)]

mod fault;
mod powers;
mod reading;
mod scaling;
mod scanning;
mod writing;

pub use fault::NumberFault;
pub use reading::{read_billionths, read_whole};
pub use writing::{put_fixed, put_whole, texts_are_read_again};
