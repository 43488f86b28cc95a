//! Bytes in and out, and the words of the draws: the traits, and what stands behind them in memory
//! and in the system.
#![tactic(auto)]

mod draws;
mod files;
mod memory;
mod sink;
mod source;
mod streams;

pub use draws::{Draws, PcgDraws};
pub use files::FileSource;
pub use memory::{MemorySink, MemorySource};
pub use sink::{Sink, write_all};
pub use source::{Failed, ReadStop, Source, read_all};
pub use streams::StdSink;

/// There was no memory.
#[derive(Clone, Copy, Debug, PartialEq, Eq, Drop)]
pub struct NoMemory;

#[cfg(test)]
mod tests;
