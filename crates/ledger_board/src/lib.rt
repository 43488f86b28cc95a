//! A board of tasks in a file: a log whose entries are tasks.
#![tactic(auto)]

mod board;
mod ledger;
mod stop;
#[cfg(test)]
mod tests;

pub use board::LedgerBoard;

/// Why a post failed.
#[derive(Clone, Copy, Debug, Drop, PartialEq, Eq)]
pub enum LedgerCause {
    /// The disk failed: its count of faults has risen.
    Disk,
    /// The bytes are no log: behind the open gate at this place stands no whole entry with a gate behind it.
    Broken(u64),
    /// The entry of this number, counted from 0, is no task, or its token is that of an earlier one.
    BadTask(u32),
    /// The file at opening, or the log with the task, has more than 67,108,864 bytes.
    Full,
    /// An earlier post failed with the cause Disk.
    Closed,
}
