//! Looking at a journal, and opening one.

ghost use Rattle.std.specs.Prelude.{◌≡◌, ◌≤◌, ◌<◌, ◌+◌, ◌⊎◌, [], ℕ, List, length, true, false, OnOk, OnErr, IfOk, IfErr, IfSome, IfNone, IsErrOf, nat_eq};
ghost use Rattle.std.specs.List.{common_prefix_len};
ghost use Rattle.disk_model.specs.Disk.{Goes, LeavesOnly, risen};
ghost use Rattle.gate_log.specs.Log.{IsLog};
ghost use Rattle.gate_log.specs.GateLog as gates;
ghost use Rattle.record_bytes.specs.Limits.{IsHeadWithin};
ghost use Rattle.trace_journal.specs.Journal.{IsJournal, IsUnbegun, IsJournalOf};
ghost use Rattle.trace_journal.specs.TraceJournal.{records_of, entries_of, is_closed_of, Keeps, IsOn, IsCaused, IsLookRefusal, IsRefusalOf, IsOther, AreBegun};

use crate::JournalStop;
use crate::journal::TraceJournal;
use crate::reading::journal_in;
use crate::stop::stop_of;
use disk_model::Disk;
use gate_log::{GateLog, look, open_log};
use record_bytes::{Head, encode_head};
use std::alloc::Global;
use trace_tree::Trace;

/// Reads a journal and leaves its disk as it is: its head and its records, or None exactly where the log has no entry.
///
/// The refusals, in their order: Fault only where the disk's count of faults rose; LogFull exactly where the file has
/// more than 67,108,864 bytes; Broken exactly where the bytes are no log; BadRecord with the number of the first entry
/// that is no head, no record, a record at a path of an earlier one, or the record past 65,536. Memory at any time.
pub fn look_journal<D: Disk>(
    alloc: Global,
    disk: &mut D,
) -> Result<Option<(Head, Trace)>, JournalStop>
    ensures some { D.tells → IfOk result (λ found. IfSome found (λ p. IsJournal (D.bytes disk.old) p.0 p.1.entries)) }
    ensures none { D.tells → IfOk result (λ found. IfNone found (IsUnbegun (D.bytes disk.old))) }
    ensures of_some_bytes { IfOk result (λ found. IfSome found (λ p. (c : List ℕ) × (length c ≤ 67108864) × IsJournal c p.0 p.1.entries)) }
    ensures small { D.tells → OnOk result (length (D.bytes disk.old) ≤ 67108864) }
    ensures kinds { IfErr result (λ e. IsLookRefusal D.tells (D.bytes disk.old) e) }
    ensures bytes { D.tells → D.bytes disk.new ≡ D.bytes disk.old }
    ensures crash { D.tells → Goes D.moment D.left_since (◌≡◌ {A = List ℕ}) disk.old disk.new }
    ensures calls { D.tells → D.calls disk.new ≡ D.calls disk.old }
    ensures cause { IsCaused (D.faults disk.old) (D.faults disk.new) result }
{
    match look(alloc, disk) {
        Ok(log) => journal_in(alloc, &log),
        Err(stop) => Err(stop_of(stop)),
    }
}

// The first place at which two texts differ, or the shorter length.
fn first_difference(a: &[u8], b: &[u8]) -> usize
    ensures { result ≡ common_prefix_len nat_eq a.now b.now }
{
    let mut i = 0;
    while i < a.len() && i < b.len() {
        if a[i] != b[i] {
            return i;
        }
        i += 1;
    }
    i
}

// Whether the kept head is the one wanted, and how it is not.
fn same_head(kept: Head, wanted: &Head) -> Result<(), JournalStop>
    requires { IsHeadWithin kept }
    ensures good { OnOk result (kept ≡ wanted.now) }
    ensures other { IfErr result (λ e. IsOther kept wanted.now e) }
{
    if kept.name.as_slice() != wanted.name.as_slice() {
        return Err(JournalStop::OtherName(kept.name));
    }
    let script = kept.script.as_slice();
    if script != wanted.script.as_slice() {
        let place = first_difference(script, wanted.script.as_slice());
        return Err(JournalStop::OtherScript(place as u32));
    }
    if kept.fuel != wanted.fuel {
        return Err(JournalStop::OtherFuel(kept.fuel));
    }
    Ok(())
}

// Begins a journal on a log without entries: appends the head.
fn begin<D: Disk>(
    alloc: Global,
    disk: &mut D,
    mut log: GateLog,
    head: &Head,
) -> Result<TraceJournal, JournalStop>
    requires within { IsHeadWithin head.now }
    requires empty { gates.entries_of log ≡ [] }
    requires open { gates.is_closed_of log ≡ false }
    requires on { D.tells → gates.IsOn log (D.bytes disk.old) (D.left_since disk.old (D.moment disk.old)) }
    ensures keeps { IfOk result (λ j. Keeps j head.now × (records_of j ≡ [])) }
    ensures open { IfOk result (λ j. is_closed_of j ≡ false) }
    ensures on { D.tells → IfOk result (λ j. IsOn j (D.bytes disk.new) (D.left_since disk.new (D.moment disk.new))) }
    ensures kinds { IfErr result (λ e. (e ≡ JournalStop.Fault) ⊎ (e ≡ JournalStop.Memory)) }
    ensures untouched { IsErrOf result JournalStop.Memory → disk.new ≡ disk.old }
    ensures any_moment { D.tells → LeavesOnly D.moment D.left_since disk.old disk.new (λ c. IsUnbegun c ⊎ IsJournal c head.now []) }
    ensures calls { D.tells → OnOk result (D.calls disk.new ≡ risen (D.calls disk.old) 4) }
    ensures at_most { D.tells → D.calls disk.new ≤ D.calls disk.old + 4 }
    ensures cause { IsCaused (D.faults disk.old) (D.faults disk.new) result }
{
    let Ok(bytes) = encode_head(alloc, head) else {
        return Err(JournalStop::Memory);
    };
    match log.append(disk, &bytes) {
        Ok(()) => Ok(TraceJournal {
            alloc,
            log,
            trace: Trace::new(alloc),
        }),
        Err(stop) => Err(stop_of(stop)),
    }
}

/// Opens a journal of that head: reads it as `look_journal` does after a sync, and where its log has no entry, appends
/// the head.
///
/// The refusals are those of `look_journal`, then OtherName, OtherScript and OtherFuel where the kept head is another,
/// the first that holds. Nothing is repaired: a file of more than one byte that is refused otherwise than with Fault
/// keeps its bytes. An opening makes one call of `write_at` and `sync`, or three for a file of at most one byte, and
/// four more for the head. A stop at any moment leaves what a stop at the call's start might have left, or, where the
/// log had no entry, a log without entries or a journal of this head without records.
pub fn open_journal<D: Disk>(
    alloc: Global,
    disk: &mut D,
    head: &Head,
) -> Result<TraceJournal, JournalStop>
    requires { IsHeadWithin head.now }
    ensures keeps { IfOk result (λ j. Keeps j head.now) }
    ensures journal { D.tells → IfOk result (λ j. (IsUnbegun (D.bytes disk.old) × (records_of j ≡ [])) ⊎ IsJournal (D.bytes disk.old) head.now (records_of j)) }
    ensures open { IfOk result (λ j. is_closed_of j ≡ false) }
    ensures on { D.tells → IfOk result (λ j. IsOn j (D.bytes disk.new) (D.left_since disk.new (D.moment disk.new))) }
    ensures small { D.tells → OnOk result (length (D.bytes disk.old) ≤ 67108864) }
    ensures kinds { IfErr result (λ e. IsRefusalOf D.tells (D.bytes disk.old) head.now e) }
    ensures kept { D.tells → 1 < length (D.bytes disk.old) → OnErr result ((IsErrOf result JournalStop.Fault → ⊥) → D.bytes disk.new ≡ D.bytes disk.old) }
    ensures same { D.tells → (IsUnbegun (D.bytes disk.old) → ⊥) → D.bytes disk.new ≡ D.bytes disk.old }
    ensures any_moment { D.tells → LeavesOnly D.moment D.left_since disk.old disk.new (AreBegun (D.bytes disk.old) head.now) }
    ensures calls_to_begin { D.tells → OnOk result (IsUnbegun (D.bytes disk.old) → D.calls disk.new ≡ risen (D.calls disk.old) (gates.opening_calls (D.bytes disk.old) + 4)) }
    ensures calls { D.tells → OnOk result ((IsUnbegun (D.bytes disk.old) → ⊥) → D.calls disk.new ≡ risen (D.calls disk.old) (gates.opening_calls (D.bytes disk.old))) }
    ensures at_most_to_begin { D.tells → D.calls disk.new ≤ D.calls disk.old + gates.opening_calls (D.bytes disk.old) + 4 }
    ensures at_most { D.tells → (IsUnbegun (D.bytes disk.old) → ⊥) → D.calls disk.new ≤ D.calls disk.old + gates.opening_calls (D.bytes disk.old) }
    ensures cause { IsCaused (D.faults disk.old) (D.faults disk.new) result }
{
    let log = match open_log(alloc, disk) {
        Ok(log) => log,
        Err(stop) => return Err(stop_of(stop)),
    };
    let (kept, trace) = match journal_in(alloc, &log) {
        Ok(Some(found)) => found,
        Ok(None) => return begin(alloc, disk, log, head),
        Err(stop) => return Err(stop),
    };
    match same_head(kept, head) {
        Ok(()) => Ok(TraceJournal { alloc, log, trace }),
        Err(stop) => Err(stop),
    }
}
