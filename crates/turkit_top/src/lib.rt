//! The top call: a command's words, a script's bytes, its output and the notes.
#![tactic(auto)]

mod answer;
mod fault_notes;
mod report;
mod run_notes;
mod sources;
mod status;
mod top;

pub use status::Status;
pub use top::turkit;

#[cfg(test)]
mod tests;
