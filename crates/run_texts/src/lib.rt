//! The texts of which the notes on a run are made: numbers, paths, quoted texts, and lines.
//!
//! Each function adds to the end of a text of 16-bit units and answers NoMemory for want of memory
//! alone; after it the text may end with a part of what was to be added.
#![tactic(auto)]

pub mod laws;
mod lines;
mod parts;
mod quotes;
#[cfg(test)]
mod tests;

pub use lines::{push_crashed, push_dependent, push_uncaught, push_waiting};
pub use parts::{push_number, push_path};
pub use quotes::push_quoted;
