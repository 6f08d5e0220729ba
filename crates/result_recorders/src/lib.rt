//! Recorders of a sample's hours: each keeps a text with a line for each hour that it has something to say of.
#![tactic(auto)]

mod binding_cut;
mod hour_line;
mod line_recorder;
mod lines;
mod plain;
mod refusing_plain;
mod shortfall;
mod storage_level;

pub use binding_cut::BindingCut;
pub use plain::Plain;
pub use refusing_plain::RefusingPlain;
pub use shortfall::Shortfall;
pub use storage_level::StorageLevel;
