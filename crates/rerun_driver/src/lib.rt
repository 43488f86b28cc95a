//! One run of a script, from its bytes to a report.
#![tactic(auto)]

use ask_model::{Divergence, Which};
use script_front::ScriptStop;
use script_run::End;
use trace_journal::JournalStop;
use turk_base::{Bytes, Verdict};

mod counting;
mod laws;
mod plain_runs;
#[cfg(test)]
mod tests;

pub use laws::{never_diverges, never_undrawn};
pub use plain_runs::plain;

/// What is told of a run.
#[derive(Drop)]
pub struct Report {
    pub end: End,
    /// What was printed and not taken back, in UTF-8, each line with its line feed.
    pub output: Bytes,
    pub verdict: Verdict,
    /// How many forks took an index.
    pub forks: u64,
    /// How many records the run made.
    pub made: u32,
    /// How many of its posts were new to the board.
    pub posted: u32,
}

/// Why there is no report.
#[derive(Drop)]
pub enum Stop {
    /// The bytes are no script; never for want of memory.
    Script(ScriptStop),
    /// The journal isn't one of this run.
    Journal(JournalStop),
    /// That device failed: its count of faults has risen.
    Fault(Which),
    /// A call of the script doesn't go with what is there.
    Diverged(Divergence),
    /// The run makes a record past 65,536.
    TraceFull,
    /// The next record doesn't fit the journal, or the journal's file is too long.
    LogFull,
    /// Memory ran out.
    Memory,
}
