//! What a run of a script asks from outside: the trait of what answers it and keeps the answers,
//! and a table in memory that does.
#![tactic(auto)]

ghost use Rattle.std.specs.Prelude.{◌≡◌};

use turk_base::{Path, Units, Whole};

mod adds;
mod asked;
mod asker;
#[cfg(test)]
mod asks;
mod made;
#[cfg(test)]
mod recorder;
mod scans;
mod table;
#[cfg(test)]
mod tests;

pub use asker::Asker;
pub use table::TableAsker;

/// A device that an asker stands on.
#[derive(Clone, Copy, Debug, Drop, PartialEq, Eq)]
pub enum Which {
    Disk,
    Board,
}

/// A call of a script that takes a path.
#[derive(Drop)]
pub enum Called {
    /// The text of the task.
    Post(Units),
    /// The token that was asked.
    Reply(Units),
    /// The bound.
    Random(Whole),
    Once,
    Fork,
}

/// What was there in the way of a call.
#[derive(Drop)]
pub enum Kept {
    /// A record of a post, with its text.
    Post(Units),
    /// A record of a reply, with its token.
    Reply(Units),
    /// A record of a draw, with its bound.
    Draw(Whole),
    /// A record of a once call.
    Once,
    /// No record at the path, but records below it.
    Below,
    /// The board's text for the token of a post.
    Held(Units),
}

/// A call that doesn't go with what is there.
#[derive(Drop)]
pub struct Divergence {
    pub path: Path,
    pub kept: Kept,
    pub called: Called,
}

/// Why an ask was refused. Where several hold, the first of TraceFull, LogFull, Fault(Board), Diverged
/// and Fault(Disk) is answered; Memory may come in the place of each.
#[derive(Drop)]
pub enum AskStop {
    /// That device failed; its count of faults rose.
    Fault(Which),
    Diverged(Divergence),
    /// The trace with the records made holds 65,536 records.
    TraceFull,
    /// The record doesn't fit after the others.
    LogFull,
    /// Memory ran out.
    Memory,
}

/// What is known at a path.
#[derive(Clone, Copy, Debug, Drop, PartialEq, Eq)]
pub enum Known {
    /// No record at the path and none below it.
    Nothing,
    /// No record at the path, but one at a longer path that begins with it.
    Below,
    /// A record at the path.
    Here,
}

/// Which of its adding calls an asker has refused.
#[derive(Clone, Copy, Debug, Drop, PartialEq, Eq)]
pub enum Refused {
    /// None.
    Never,
    /// The last call, and none before it.
    Last,
    /// A call before the last one.
    Earlier,
}

impl Refused {
    ghost use Rattle.ask_model.specs.Asker.{refused_after};

    /// The same after one call more, which was refused or wasn't.
    pub fn after(self, refused: bool) -> Refused
        ensures { result ≡ refused_after refused self }
    {
        match self {
            Refused::Never if !refused => Refused::Never,
            Refused::Never => Refused::Last,
            _ => Refused::Earlier,
        }
    }
}
