//! A journal in memory, and the calls that add to it.

ghost use Rattle.std.specs.Prelude.{◌≡◌, ◌≤◌, ◌<◌, ◌+◌, ◌↔◌, ◌++◌, ◌∷◌, [], ℕ, List, length, true, false, None, OnOk, OnErr, IfOk, IfErr, IsErrOf, ◌⊎◌};
ghost use Rattle.disk_model.specs.Disk.{LeavesOnly, risen};
ghost use Rattle.turk_base.specs.Trace.{at};
ghost use Rattle.record_bytes.specs.Limits.{IsWithin, Spells};
ghost use Rattle.record_bytes.specs.declared.Head as head;
ghost use Rattle.trace_journal.specs.Journal.{WithOrWithout};
ghost use Rattle.trace_journal.specs.TraceJournal.{IsCaused};

use crate::JournalStop;
use crate::stop::stop_of;
use disk_model::Disk;
use gate_log::GateLog;
use record_bytes::encode;
use std::alloc::Global;
use trace_tree::{MOST_RECORDS, Trace};
use turk_base::Entry;

/// The records of a journal, and the log that holds their bytes.
#[derive(Drop)]
pub struct TraceJournal {
    pub(crate) alloc: Global,
    pub(crate) log: GateLog,
    pub(crate) trace: Trace,
}

/// An entry for which all memory is taken.
#[derive(Drop)]
pub struct Ready {
    pub(crate) entry: Entry,
    pub(crate) bytes: Vec<u8>,
}

impl TraceJournal {
    ghost use Rattle.trace_journal.specs.TraceJournal.{records_of, entries_of, is_closed_of, Keeps, IsOn, IsReady, IsUnready};

    /// The records.
    pub fn trace(&self) -> &Trace
        ensures { result.now.entries ≡ records_of self.now }
    {
        &self.trace
    }

    /// Takes all memory for an entry: its bytes, and its room in the log and in the trace. The journal keeps its records
    /// and its bytes.
    ///
    /// The path must be new and the entry within its limits. The refusals, in their order: TraceFull exactly at 65,536
    /// records; LogFull exactly where the log with the entry has more than 67,108,864 bytes; Memory at any time.
    pub fn prepare(&mut self, entry: Entry) -> Result<Ready, JournalStop>
        requires fresh { at (records_of self.old) entry.path ≡ None }
        requires within { IsWithin entry }
        ensures ready { IfOk result (λ r. (r.entry ≡ entry) × IsReady self.new r) }
        ensures kinds { IfErr result (λ e. IsUnready self.old entry e) }
        ensures trace_full { 65536 ≤ length (records_of self.old) → IsErrOf result JournalStop.TraceFull }
        ensures records { records_of self.new ≡ records_of self.old }
        ensures entries { entries_of self.new ≡ entries_of self.old }
        ensures closed { is_closed_of self.new ≡ is_closed_of self.old }
    {
        if self.trace.count() >= MOST_RECORDS {
            return Err(JournalStop::TraceFull);
        }
        let Ok(bytes) = encode(self.alloc, &entry) else {
            return Err(JournalStop::Memory);
        };
        if !self.log.fits(bytes.len()) {
            return Err(JournalStop::LogFull);
        }
        if self.trace.reserve(entry.path.len()).is_err() {
            return Err(JournalStop::Memory);
        }
        if self.log.reserve(bytes.len()).is_err() {
            return Err(JournalStop::Memory);
        }
        Ok(Ready { entry, bytes })
    }

    /// Adds the entry that `prepare` last made ready, in four calls of the disk. It takes no memory.
    ///
    /// Where the journal is open and the disk tells its bytes, the disk must have one image, which holds this journal.
    /// The refusals: Closed exactly where this journal answered Fault before, without a call of the disk; Fault only
    /// where the disk's count of faults rose. After Fault the journal is closed and has the records before.
    pub fn add<D: Disk>(&mut self, disk: &mut D, ready: Ready) -> Result<(), JournalStop>
        requires ready { IsReady self.old ready }
        requires on { is_closed_of self.old ≡ false → D.tells → IsOn self.old (D.bytes disk.old) (D.left_since disk.old (D.moment disk.old)) }
        ensures ok { OnOk result (records_of self.new ≡ records_of self.old ++ ready.entry ∷ []) }
        ensures err { OnErr result (records_of self.new ≡ records_of self.old) }
        ensures keeps { (h : head.Head) → Keeps self.old h → Keeps self.new h }
        ensures kinds { IfErr result (λ e. ((e ≡ JournalStop.Closed) × (is_closed_of self.old ≡ true)) ⊎ ((e ≡ JournalStop.Fault) × (is_closed_of self.old ≡ false))) }
        ensures closed { is_closed_of self.old ≡ true → IsErrOf result JournalStop.Closed }
        ensures untouched { is_closed_of self.old ≡ true → disk.new ≡ disk.old }
        ensures shut { OnErr result (is_closed_of self.new ≡ true) }
        ensures stays_open { OnOk result (is_closed_of self.new ≡ false) }
        ensures cause { IsCaused (D.faults disk.old) (D.faults disk.new) result }
        ensures on { D.tells → OnOk result (IsOn self.new (D.bytes disk.new) (D.left_since disk.new (D.moment disk.new))) }
        ensures any_moment { D.tells → (h : head.Head) → Keeps self.old h → LeavesOnly D.moment D.left_since disk.old disk.new (WithOrWithout h (records_of self.old) ready.entry) }
        ensures calls { D.tells → OnOk result (D.calls disk.new ≡ risen (D.calls disk.old) 4) }
        ensures at_most { D.tells → D.calls disk.new ≤ D.calls disk.old + 4 }
    {
        let Ready { entry, bytes } = ready;
        match self.log.append(disk, &bytes) {
            Ok(()) => {
                push_ready(&mut self.trace, entry);
                Ok(())
            }
            Err(stop) => Err(stop_of(stop)),
        }
    }
}

// Adds an entry whose place is taken.
fn push_ready(trace: &mut Trace, entry: Entry)
    requires fresh { at trace.old.entries entry.path ≡ None }
    requires few { length trace.old.entries < 65536 }
    requires room { length entry.path < trace.old.room }
    ensures { trace.new.entries ≡ trace.old.entries ++ entry ∷ [] }
{
    let pushed = trace.push(entry).is_ok();
    prove!(pushed);
}
