//! That a file is read in one way, as contracts.

ghost use Rattle.std.specs.Prelude.{◌≡◌, ℕ, List};
ghost use Rattle.turk_base.specs.declared.Entry as kept;
ghost use Rattle.gate_log.specs.Log.{IsLog, IsBroken};
ghost use Rattle.record_bytes.specs.declared.Head as head;
ghost use Rattle.trace_journal.specs.declared.JournalStop as stop;
ghost use Rattle.trace_journal.specs.Journal.{IsJournal, IsUnbegun};
ghost use Rattle.trace_journal.specs.TraceJournal.{IsBadJournal, IsOther};

/// Bytes are a journal of one head and one list of records at most, have one first bad entry at most, and not both; and
/// neither where they are no log or one without entries. Two heads differ in one way. So each refusal of an opening
/// that has such a cause comes exactly where its cause holds.
pub fn causes_are_apart()
    ensures one_journal { (c : List ℕ) (g h : head.Head) (es fs : List kept.Entry) → IsJournal c g es → IsJournal c h fs → (g ≡ h) × (es ≡ fs) }
    ensures one_bad { (c : List ℕ) (i j : ℕ) → IsBadJournal c i → IsBadJournal c j → i ≡ j }
    ensures journal_not_bad { (c : List ℕ) (h : head.Head) (es : List kept.Entry) (i : ℕ) → IsJournal c h es → IsBadJournal c i → ⊥ }
    ensures unbegun_not_bad { (c : List ℕ) (i : ℕ) → IsUnbegun c → IsBadJournal c i → ⊥ }
    ensures journal_not_unbegun { (c : List ℕ) (h : head.Head) (es : List kept.Entry) → IsJournal c h es → IsUnbegun c → ⊥ }
    ensures log_not_broken { (c : List ℕ) (entries : List (List ℕ)) (place : ℕ) → IsLog c entries → IsBroken c place → ⊥ }
    ensures one_other { (kept wanted : head.Head) (e f : stop.JournalStop) → IsOther kept wanted e → IsOther kept wanted f → e ≡ f }
    ensures same_not_other { (kept wanted : head.Head) (e : stop.JournalStop) → kept ≡ wanted → IsOther kept wanted e → ⊥ }
{}
