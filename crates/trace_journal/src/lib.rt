//! The records of a run on a disk: what `add` answered Ok is in every later image of the disk, and a stop at any moment
//! leaves the records before it, with the new one or without.
#![tactic(auto)]

mod journal;
pub mod laws;
mod open;
mod reading;
mod stop;
#[cfg(test)]
mod tests;

pub use journal::{Ready, TraceJournal};
pub use open::{look_journal, open_journal};
use turk_base::Name;

/// Why a journal refused a call. Where several hold, the first of an opening is that of this order, but that LogFull
/// stands before Broken.
#[derive(Drop)]
pub enum JournalStop {
    /// The disk failed: its count of faults has risen.
    Fault,
    /// The bytes are no log: behind the open gate at this place stands no whole entry with a gate behind it.
    Broken(u64),
    /// The first entry that is no head (number 0), no record, a record at a path of an earlier one, or the record
    /// past 65,536.
    BadRecord(u32),
    /// The journal's head has this name, and not the one wanted.
    OtherName(Name),
    /// The journal's script is another one: the first place at which the two differ, or the shorter length.
    OtherScript(u32),
    /// The journal's head has this fuel, and not the one wanted.
    OtherFuel(u64),
    /// The trace holds 65,536 records.
    TraceFull,
    /// The file at opening, or the log with the new entry, has more than 67,108,864 bytes.
    LogFull,
    /// This journal answered Fault before.
    Closed,
    /// There was no memory.
    Memory,
}
