//! Bytes in and out, with faults that are counted: what a stream promises, streams in memory whose
//! failing calls are chosen, streams over std's readers and writers, and the two calls that move
//! whole texts through any of them.
#![tactic(auto)]

mod adapters;
mod faults;
mod mem_sinks;
mod mem_sources;
mod reading;
mod streams;
mod writing;

pub use adapters::{ReadSource, WriteSink};
pub use mem_sinks::MemSink;
pub use mem_sources::MemSource;
pub use reading::{ReadEnd, read_all};
pub use streams::{Failed, Sink, Source};
pub use writing::{WriteFault, write_all};
