//! What runs the requests of a script: a machine, which does what they do to cells, output and scopes, and an asker, which
//! answers its asks and keeps the records.
#![tactic(auto)]

use ask_model::AskStop;
use eval_ops::Entered;
use guarded::Guarded;
use std::alloc::Global;
use turk_base::{Data, Name, Path, Units, Whole};

mod asks;
mod begin;
mod chains;
mod ends;
mod exits;
mod fitting;
mod guarded;
mod host;
mod kept;
mod once_ends;
mod onces;
mod opens;
mod parts;
mod requests;
mod scopes;
mod stops;

pub use parts::Parts;

/// What a run waits for: a task's reply, or nothing, where it crashed in that scope.
#[derive(Drop)]
pub enum Wait {
    Task(Units),
    Crashed(Path),
}

/// An ask of the outside.
#[derive(Drop)]
pub enum Question {
    /// The text of the task.
    Post(Units),
    /// The token of the task.
    Reply(Units),
    /// The bound.
    Draw(Whole),
}

/// The record that was not made, where a call was refused.
#[derive(Drop)]
pub enum Unmade {
    /// Of an ask that had no record at its path.
    Asking(Path, Question),
    /// Of a once body that gave this data.
    Keeping(Path, Data),
    Nothing,
}

/// What is never taken back, and what the run knows of the outside beside its asker.
#[derive(Drop)]
pub struct Notes {
    /// How many forks took an index.
    forks: u64,
    waits: Vec<Wait>,
    session: Name,
    /// The asker's refusal that was told last.
    stopped: Option<AskStop>,
    unmade: Unmade,
}

/// A run over a machine and an asker. It is asked no more once a call of the asker was refused.
pub struct AskedRun<A> {
    alloc: Global,
    guarded: Guarded,
    entered: Vec<Entered>,
    notes: Notes,
    closed: bool,
    asker: A,
}
