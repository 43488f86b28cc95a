//! The run of a whole script: how it ended, what it wrote, and its verdict.
#![tactic(auto)]

mod ends;
mod runs;
mod start;

use ask_model::AskStop;
use machine_host::Wait;
use run_host::Refusal;
pub use runs::run;
use turk_base::{Units, Verdict};

/// How a run ended.
#[derive(Drop)]
pub enum End {
    /// At its last statement, and no branch is waited for.
    Finished,
    /// By a value that was thrown and never caught: the text that is told of it.
    Uncaught(Units),
    Refused(Refusal),
    /// It waits for these, in the order in which they occurred, repeats included.
    Waiting(Vec<Wait>),
    /// A charge was past the fuel.
    Spent,
}

/// What is told of a run that was not stopped.
#[derive(Drop)]
pub struct Ran {
    pub end: End,
    /// What was printed and not taken back, each line with its line feed.
    pub output: Units,
    pub verdict: Verdict,
    /// How many forks took an index.
    pub forks: u64,
}

/// The answer of a run, and the asker that it ran over.
pub struct Ended<A> {
    pub answer: Result<Ran, AskStop>,
    pub asker: A,
}
