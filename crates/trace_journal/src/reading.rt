//! The head and the records of a log.

ghost use Rattle.std.specs.Prelude.{◌≡◌, ◌++◌, ◌∷◌, [], ◌<◌, ◌+◌, ◌⊎◌, ℕ, List, length, drop, slice_index_or, IfOk, IfErr, IfSome, IfNone, OnOk, IsErrOf, None};
ghost use Rattle.turk_base.specs.declared.Entry as kept;
ghost use Rattle.turk_base.specs.Trace.{at};
ghost use Rattle.gate_log.specs.GateLog.{entries_of};
ghost use Rattle.record_bytes.specs.declared.Head as head;
ghost use Rattle.record_bytes.specs.Limits.{Spells, SpellsHead};
ghost use Rattle.trace_journal.specs.Journal.{AreRecords, IsJournalOf, IsBadNext, IsBadRecord, IsBadAt};

use crate::JournalStop;
use gate_log::GateLog;
use record_bytes::{Head, decode, decode_head};
use std::alloc::Global;
use trace_tree::{Trace, TraceStop};

// Why reading stopped: an entry that is not the next of a journal, or want of memory.
#[derive(Clone, Copy, Debug, PartialEq, Eq, Drop)]
pub(crate) enum ReadStop {
    Bad,
    Memory,
}

// Adds the record that the bytes spell.
fn push_spelled(alloc: Global, trace: &mut Trace, bytes: &[u8]) -> Result<(), ReadStop>
    ensures good { OnOk result ((e : kept.Entry) × Spells bytes.now e × (at trace.old.entries e.path ≡ None) × (length trace.old.entries < 65536) × (trace.new.entries ≡ trace.old.entries ++ e ∷ [])) }
    ensures bad { IsErrOf result ReadStop.Bad → IsBadNext trace.old.entries bytes.now }
{
    let Ok(found) = decode(alloc, bytes) else {
        return Err(ReadStop::Memory);
    };
    let Some(entry) = found else {
        return Err(ReadStop::Bad);
    };
    match trace.push(entry) {
        Ok(()) => Ok(()),
        Err(TraceStop::Memory(_)) => Err(ReadStop::Memory),
        Err(TraceStop::Full(_)) => Err(ReadStop::Bad),
        Err(TraceStop::Repeated(_)) => Err(ReadStop::Bad),
    }
}

// The records behind the head.
fn records_in(alloc: Global, log: &GateLog) -> Result<Trace, JournalStop>
    ensures good { IfOk result (λ t. AreRecords (drop 1 (entries_of log.now)) t.entries) }
    ensures bad { IfErr result (λ e. (e ≡ JournalStop.Memory) ⊎ ((i : ℕ) × (e ≡ JournalStop.BadRecord (i + 1)) × IsBadRecord (drop 1 (entries_of log.now)) i)) }
{
    let mut trace = Trace::new(alloc);
    let mut i = 1;
    while let Some(bytes) = log.entry(i) {
        match push_spelled(alloc, &mut trace, bytes) {
            Ok(()) => i += 1,
            Err(ReadStop::Bad) => return Err(JournalStop::BadRecord(i as u32)),
            Err(ReadStop::Memory) => return Err(JournalStop::Memory),
        }
    }
    Ok(trace)
}

// The head of a journal's first entry.
fn head_in(alloc: Global, bytes: &[u8]) -> Result<Head, JournalStop>
    ensures good { IfOk result (λ h. SpellsHead bytes.now h) }
    ensures bad { IfErr result (λ e. (e ≡ JournalStop.Memory) ⊎ ((e ≡ JournalStop.BadRecord 0) × ((h : head.Head) → SpellsHead bytes.now h → ⊥))) }
{
    match decode_head(alloc, bytes) {
        Ok(Some(head)) => Ok(head),
        Ok(None) => Err(JournalStop::BadRecord(0)),
        Err(_) => Err(JournalStop::Memory),
    }
}

// The head and the records of a log; None exactly where it has no entry.
pub(crate) fn journal_in(alloc: Global, log: &GateLog) -> Result<Option<(Head, Trace)>, JournalStop>
    ensures some { IfOk result (λ found. IfSome found (λ p. IsJournalOf (entries_of log.now) p.0 p.1.entries)) }
    ensures none { IfOk result (λ found. IfNone found (entries_of log.now ≡ [])) }
    ensures bad { IfErr result (λ e. (e ≡ JournalStop.Memory) ⊎ ((i : ℕ) × (e ≡ JournalStop.BadRecord i) × IsBadAt (entries_of log.now) i)) }
{
    let Some(first) = log.entry(0) else {
        return Ok(None);
    };
    let head = head_in(alloc, first)?;
    let trace = records_in(alloc, log)?;
    Ok(Some((head, trace)))
}
