//! Sources and sinks of bytes, lines over a source, and all that a source gives.
#![tactic(auto)]

mod all;
mod lines;
mod memory;
mod sink;
mod source;
mod standard;

pub use all::{AllFault, read_all};
pub use lines::{LineEnd, Lines};
pub use memory::{MemorySink, MemorySource};
pub use sink::{Sink, WriteFailed};
pub use source::{ReadFailed, Source};
pub use standard::{FileSource, StdSink, StdSource};

#[cfg(test)]
mod tests;
