//! Sources and sinks of bytes, which count their faults: a fault is told by its count, so that a call
//! above may rely on it also where the system keeps the bytes to itself.
#![tactic(auto)]

mod fault;
mod law;
mod memory_sink;
mod memory_source;
mod read;
mod sink;
mod slice_source;
mod source;
mod std_sink;
mod std_source;
mod write;

pub use fault::{Failed, ReadAll, WriteFault};
pub use law::limits_are;
pub use memory_sink::MemSink;
pub use memory_source::MemSource;
pub use read::{BLOCK, drain, read_all, read_on};
pub use sink::Sink;
pub use slice_source::SliceSource;
pub use source::Source;
pub use std::alloc::AllocError as Memory;
pub use std_sink::StdSink;
pub use std_source::StdSource;
pub use write::{write_all_of, write_pieces};
