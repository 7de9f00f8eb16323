//! The outside, as traits: files and a standard output, whose calls say when they may fail. Files
//! are read and written whole over them, and each has two implementations: one in memory, which
//! tells its bytes, and one of the system, which tells none.
#![tactic(auto)]

mod count;
mod disk;
mod memory;
mod memory_sink;
mod out_sink;
mod read;
mod sink;
mod store;
mod write;

pub use disk::DiskStore;
pub use memory::MemoryStore;
pub use memory_sink::MemorySink;
pub use out_sink::OutSink;
pub use read::{ReadEnd, read_whole};
pub use sink::Sink;
pub use store::{Got, Made, Put, Store};
pub use write::{WriteFault, say_whole, write_whole};
