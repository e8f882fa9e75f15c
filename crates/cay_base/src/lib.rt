//! The outside as a source and a sink of bytes, and reading to the end.
#![tactic(auto)]

mod failed;
mod memory;
mod pieces;
mod reading;
mod sink;
mod source;
mod streams;
mod whole;

pub use failed::{Failed, NoMemory};
pub use memory::{MemSink, MemSource};
pub use reading::{ReadError, read_all};
pub use sink::Sink;
pub use source::Source;
pub use streams::{StdSink, StdSource};
pub use whole::{WholeSink, WholeSource};
