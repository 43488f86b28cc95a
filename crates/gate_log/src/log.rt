//! A log, and the call that adds to it.
ghost use Rattle.std.specs.Prelude.{◌≡◌, ◌≤◌, ◌<◌, ◌+◌, ◌^◌, ◌↔◌, ◌++◌, ◌∷◌, [], ℕ, length, true, false, Some, None, OnOk, OnErr, IsOk, IfOk, IfErr, IsErrOf, MatchOption, slice_index_or, Err, IsTrue, vec_len, vec_capacity};
ghost use Rattle.disk_model.specs.Disk.{LeavesOnly, risen};
ghost use Rattle.gate_log.specs.Log.{blocks, framed, WithOrWithout};
ghost use Rattle.gate_log.specs.Entries.{entries};

use crate::append::append;
use crate::block::{Block, block_of};
use crate::{LIMIT, LogStop};
use disk_model::{Disk, NoMemory};
use std::alloc::Global;
use std::mem;

/// The entries of a log, and the place of its closed gate.
///
/// They are always those of some bytes of at most 67,108,864, also where the disk doesn't tell its own.
#[derive(Drop)]
pub struct GateLog {
    alloc: Global,
    kept: Vec<Block>,
    spare: Vec<u8>,
    gate: usize,
    is_closed: bool,
    pub ghost at_gate: { gate ≡ length (blocks (entries kept.items)) },
    pub ghost within: { gate < 67108864 },
}

impl GateLog {
    ghost use Rattle.gate_log.specs.GateLog.{entries_of, is_closed_of, IsOn, FitsIn, HasRoom, IsCaused, IsCauseOf};

    // A log of these blocks.
    pub(crate) fn of(alloc: Global, kept: Vec<Block>, gate: usize, is_closed: bool) -> GateLog
        requires at_gate { gate ≡ length (blocks (entries kept.items)) }
        requires within { gate < 67108864 }
        ensures entries { entries_of result ≡ entries kept.items }
        ensures closed { is_closed_of result ≡ is_closed }
    {
        GateLog {
            alloc,
            kept,
            spare: Vec::new(alloc),
            gate,
            is_closed,
        }
    }

    /// How many entries there are.
    pub fn count(&self) -> usize
        ensures { result ≡ length (entries_of self.now) }
    {
        self.kept.len()
    }

    /// The entry of that number, counted from 0, or None past the last.
    pub fn entry(&self, i: usize) -> Option<&[u8]>
        ensures { MatchOption result (length (entries_of self.now) ≤ i) (λ e. (i < length (entries_of self.now)) × (e.now ≡ slice_index_or (entries_of self.now) i [])) }
    {
        match self.kept.get(i) {
            Some(block) => Some(block.entry()),
            None => None,
        }
    }

    /// That the log with an entry of that length has at most 67,108,864 bytes, up to and with its closed gate.
    pub fn fits(&self, length: usize) -> bool
        ensures { IsTrue result ↔ FitsIn (entries_of self.now) length }
    {
        let limit = LIMIT as usize;
        length <= limit && self.gate + 6 + length <= limit
    }

    /// Makes room for one entry of that length: `append` then can't answer Memory for it.
    pub fn reserve(&mut self, length: usize) -> Result<(), NoMemory>
        ensures entries { entries_of self.new ≡ entries_of self.old }
        ensures closed { is_closed_of self.new ≡ is_closed_of self.old }
        ensures ok { OnOk result (HasRoom self.new length) }
        ensures succeeds { HasRoom self.old length → IsOk result }
    {
        self.spare.clear();
        if self.kept.reserve(1).is_err() {
            return Err(NoMemory);
        }
        if self.spare.reserve(length.saturating_add(5)).is_err() {
            return Err(NoMemory);
        }
        Ok(())
    }

    // The block of an entry, in the room that was made for it.
    fn block(&mut self, entry: &[u8]) -> Result<Block, NoMemory>
        requires { length entry.now < 2 ^ 32 }
        ensures entries { entries_of self.new ≡ entries_of self.old }
        ensures closed { is_closed_of self.new ≡ is_closed_of self.old }
        ensures bytes { IfOk result (λ b. b.bytes.items ≡ framed entry.now) }
        ensures room { OnOk result (vec_len self.new.kept < vec_capacity self.new.kept) }
        ensures succeeds { HasRoom self.old (length entry.now) → IsOk result }
    {
        if self.reserve(entry.len()).is_err() {
            return Err(NoMemory);
        }
        let spare = mem::replace(&mut self.spare, Vec::new(self.alloc));
        block_of(spare, entry)
    }

    // Adds a block, in four calls of the disk.
    fn put<D: Disk>(&mut self, disk: &mut D, block: Block, entry: &[u8]) -> Result<(), LogStop>
        requires open { is_closed_of self.old ≡ false }
        requires bytes { block.bytes.items ≡ framed entry.now }
        requires fits { FitsIn (entries_of self.old) (length entry.now) }
        requires room { vec_len self.old.kept < vec_capacity self.old.kept }
        requires on { D.tells → IsOn self.old (D.bytes disk.old) (D.left_since disk.old (D.moment disk.old)) }
        ensures ok { OnOk result (entries_of self.new ≡ entries_of self.old ++ entry.now ∷ []) }
        ensures err { OnErr result (entries_of self.new ≡ entries_of self.old) }
        ensures fault { OnErr result (result ≡ Err LogStop.Fault) }
        ensures shut { OnErr result (is_closed_of self.new ≡ true) }
        ensures stays_open { OnOk result (is_closed_of self.new ≡ false) }
        ensures cause { IsCaused (D.faults disk.old) (D.faults disk.new) result }
        ensures on { D.tells → OnOk result (IsOn self.new (D.bytes disk.new) (D.left_since disk.new (D.moment disk.new))) }
        ensures any_moment { D.tells → LeavesOnly D.moment D.left_since disk.old disk.new (WithOrWithout (entries_of self.old) entry.now) }
        ensures calls { D.tells → OnOk result (D.calls disk.new ≡ risen (D.calls disk.old) 4) }
        ensures at_most { D.tells → D.calls disk.new ≤ D.calls disk.old + 4 }
    {
        let gate = self.gate;
        match append(disk, gate as u64, &block.bytes) {
            Ok(()) => {
                self.gate = gate + block.bytes.len();
                self.kept.push_reserved(block);
                Ok(())
            }
            Err(_) => {
                self.is_closed = true;
                Err(LogStop::Fault)
            }
        }
    }

    /// Adds an entry, in four calls of the disk: its length, the entry and a closed gate behind the closed gate, a
    /// sync, the gate opened, a sync.
    ///
    /// The answers, in their order: Closed exactly where this log answered Fault before or is from `look`; Full exactly
    /// where the entry doesn't fit; Memory, not after `reserve` for its length; Fault only where the disk's count of
    /// faults rose. At the first three the disk isn't touched. After Fault the disk holds the entries before, with the
    /// new one or without, and the log is closed.
    pub fn append<D: Disk>(&mut self, disk: &mut D, entry: &[u8]) -> Result<(), LogStop>
        requires on { is_closed_of self.old ≡ false → D.tells → IsOn self.old (D.bytes disk.old) (D.left_since disk.old (D.moment disk.old)) }
        ensures ok { OnOk result (entries_of self.new ≡ entries_of self.old ++ entry.now ∷ []) }
        ensures err { OnErr result (entries_of self.new ≡ entries_of self.old) }
        ensures kinds { IfErr result (λ e. IsCauseOf (is_closed_of self.old) (FitsIn (entries_of self.old) (length entry.now)) e) }
        ensures closed { is_closed_of self.old ≡ true → IsErrOf result LogStop.Closed }
        ensures full { is_closed_of self.old ≡ false → (FitsIn (entries_of self.old) (length entry.now) → ⊥) → IsErrOf result LogStop.Full }
        ensures memory { HasRoom self.old (length entry.now) → IsErrOf result LogStop.Memory → ⊥ }
        ensures cause { IsCaused (D.faults disk.old) (D.faults disk.new) result }
        ensures shut { IsErrOf result LogStop.Fault → is_closed_of self.new ≡ true }
        ensures as_before { (IsErrOf result LogStop.Fault → ⊥) → is_closed_of self.new ≡ is_closed_of self.old }
        ensures untouched { OnErr result ((IsErrOf result LogStop.Fault → ⊥) → disk.new ≡ disk.old) }
        ensures on { D.tells → OnOk result (IsOn self.new (D.bytes disk.new) (D.left_since disk.new (D.moment disk.new))) }
        ensures any_moment { D.tells → LeavesOnly D.moment D.left_since disk.old disk.new (WithOrWithout (entries_of self.old) entry.now) }
        ensures calls { D.tells → OnOk result (D.calls disk.new ≡ risen (D.calls disk.old) 4) }
        ensures at_most { D.tells → D.calls disk.new ≤ D.calls disk.old + 4 }
    {
        if self.is_closed {
            return Err(LogStop::Closed);
        }
        if !self.fits(entry.len()) {
            return Err(LogStop::Full);
        }
        match self.block(entry) {
            Ok(block) => self.put(disk, block, entry),
            Err(_) => Err(LogStop::Memory),
        }
    }
}
