//! The indices of a system whose zones are pooled, after Billinton and Allan: the expected hours of
//! lost load and the expected unserved energy, each as an enclosure of the exact sum over all
//! combinations of unit states. Interfaces, lines and storages are ignored.
#![tactic(auto)]

mod analysis;
mod indices;
mod pool;

pub use analysis::Analysis;
pub use indices::Index;
pub use pool::NewUnit;
