//! What the callers of a running campaign share: two words that change in single atomic steps, and a book
//! that one caller at a time takes. In every schedule their calls stand in one legal history that begins with
//! what each caller had seen.
#![tactic(auto)]

mod books;
mod held;
mod rule;
mod seats;
mod view;
mod words;

pub use books::Closed;
pub use seats::{BookSeat, Held, TurnBook};
pub use view::{Opening, View};
