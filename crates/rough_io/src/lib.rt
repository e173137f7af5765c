//! The outside: sources that are read and sinks that are written, over memory and over the standard streams, with counted faults.
#![tactic(auto)]

pub mod fault;
pub mod memory_sink;
pub mod memory_source;
pub mod sink;
pub mod source;
pub mod standard;

pub use fault::Failed;
pub use memory_sink::MemorySink;
pub use memory_source::MemorySource;
pub use sink::{Sink, send};
pub use source::{ReceiveFault, Source, receive};
pub use standard::{StdSink, StdSource};

#[cfg(test)]
mod tests;
