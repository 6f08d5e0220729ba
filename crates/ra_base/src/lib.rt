//! What every crate of the suite shares: texts, lists of amounts, and the outside world as traits
//! whose contents and counts of refusals a contract can name, with fakes in memory.
#![tactic(auto)]

mod amounts;
mod console;
pub mod limits;
mod line_log;
mod memory;
mod memory_console;
mod memory_shelf;
mod memory_sink;
mod pause;
mod read_log;
mod shelf;
mod shelf_counts;
mod sink;
mod status;
mod table;
mod text;

pub use amounts::Amounts;
pub use console::{Console, ConsoleError};
pub use line_log::{LineLog, LineNote};
pub use memory::OutOfMemory;
pub use memory_console::MemoryConsole;
pub use memory_shelf::MemoryShelf;
pub use memory_sink::MemorySink;
pub use pause::{NoPause, Pause};
pub use read_log::{ReadLog, ReadNote};
pub use shelf::{Shelf, ShelfError};
pub use shelf_counts::ShelfCounts;
pub use sink::{Sink, SinkFault};
pub use status::Status;
pub use table::{TableBytes, TableName};
pub use text::Text;
