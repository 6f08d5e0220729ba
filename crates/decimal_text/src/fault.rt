//! Why a field is no number that can be answered.
use thiserror::Error;

/// The first fault of a field, in this order: `Empty`, `TooLarge` for more than 40 bytes, `NotANumber`,
/// `NotWhole`, `TooLarge` for an answer above 10^18.
#[derive(Clone, Copy, Debug, PartialEq, Eq, Error)]
pub enum NumberFault {
    /// The field has no byte.
    #[error("empty number")]
    Empty,
    /// The field is no numeral; `at` is the length of the longest prefix that some numeral begins with.
    #[error("not a number at {at}")]
    NotANumber {
        /// Bytes before the first one that no numeral has there.
        at: u32,
    },
    /// The value is no whole number; `at` is the place, from 0, of the first digit other than 0 whose
    /// weight is below one.
    #[error("not whole at {at}")]
    NotWhole {
        /// The digit's place in the field, from 0.
        at: u32,
    },
    /// The field has more than 40 bytes, or the answer would pass 10^18.
    #[error("number too large")]
    TooLarge,
}
