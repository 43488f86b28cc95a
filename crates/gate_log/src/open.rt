//! Opening a log.
ghost use Rattle.std.specs.Prelude.{◌≡◌, ◌≤◌, ◌<◌, ◌+◌, ◌^◌, ◌⊎◌, ◌↔◌, ◌++◌, ◌∷◌, [], ℕ, List, length, true, false, OnOk, OnErr, IfOk, IfErr, IsErrOf, Err, nat_le, if◌then◌else◌};
ghost use Rattle.disk_model.specs.Disk.{Goes, LeavesOnly, HasCause, risen};
ghost use Rattle.gate_log.specs.Log.{IsGated, IsLog, IsBroken};
ghost use Rattle.gate_log.specs.GateLog.{IsCaused, entries_of, is_closed_of, IsOn, IsRefusalOf, opening_calls, AreBlank};

use crate::log::GateLog;
use crate::scan::{Found, scan};
use crate::{LIMIT, LogStop};
use disk_model::{Disk, DiskFailed};
use std::alloc::Global;

// The whole file, in one read.
fn read_all<D: Disk>(alloc: Global, disk: &mut D) -> Result<Vec<u8>, LogStop>
    ensures read { D.tells → IfOk result (λ v. v.items ≡ D.bytes disk.old) }
    ensures small { IfOk result (λ v. length v.items ≤ 67108864) }
    ensures kinds { IfErr result (λ e. IsRefusalOf D.tells (D.bytes disk.old) e) }
    ensures bytes { D.tells → D.bytes disk.new ≡ D.bytes disk.old }
    ensures crash { D.tells → Goes D.moment D.left_since (◌≡◌ {A = List ℕ}) disk.old disk.new }
    ensures calls { D.tells → D.calls disk.new ≡ D.calls disk.old }
    ensures cause { IsCaused (D.faults disk.old) (D.faults disk.new) result }
{
    let size = match disk.size() {
        Ok(size) => size,
        Err(_) => return Err(LogStop::Fault),
    };
    if size > LIMIT {
        return Err(LogStop::Full);
    }
    let Ok(mut bytes) = vec![in alloc; 0_u8; size as usize] else {
        return Err(LogStop::Memory);
    };
    match disk.read(0, &mut bytes) {
        Ok(()) => Ok(bytes),
        Err(_) => Err(LogStop::Fault),
    }
}

// The same, after a sync.
fn read_synced<D: Disk>(alloc: Global, disk: &mut D) -> Result<Vec<u8>, LogStop>
    ensures read { D.tells → IfOk result (λ v. v.items ≡ D.bytes disk.old) }
    ensures small { IfOk result (λ v. length v.items ≤ 67108864) }
    ensures kinds { IfErr result (λ e. IsRefusalOf D.tells (D.bytes disk.old) e) }
    ensures bytes { D.tells → D.bytes disk.new ≡ D.bytes disk.old }
    ensures only { D.tells → OnOk result ((c : List ℕ) → D.left_since disk.new (D.moment disk.new) c → c ≡ D.bytes disk.new) }
    ensures crash { D.tells → Goes D.moment D.left_since (◌≡◌ {A = List ℕ}) disk.old disk.new }
    ensures calls { D.tells → D.calls disk.new ≡ risen (D.calls disk.old) 1 }
    ensures cause { IsCaused (D.faults disk.old) (D.faults disk.new) result }
{
    match disk.sync() {
        Ok(()) => read_all(alloc, disk),
        Err(_) => Err(LogStop::Fault),
    }
}

// The log of a file.
fn log_of(alloc: Global, bytes: &[u8], is_closed: bool) -> Result<GateLog, LogStop>
    requires small { length bytes.now ≤ 67108864 }
    ensures log { IfOk result (λ l. IsLog bytes.now (entries_of l)) }
    ensures gated { 1 < length bytes.now → IfOk result (λ l. IsGated bytes.now (entries_of l)) }
    ensures blank { length bytes.now ≤ 1 → IfOk result (λ l. entries_of l ≡ []) }
    ensures closed { IfOk result (λ l. is_closed_of l ≡ is_closed) }
    ensures err { IfErr result (λ e. (e ≡ LogStop.Memory) ⊎ ((place : ℕ) × (e ≡ LogStop.Broken place) × IsBroken bytes.now place)) }
{
    if bytes.len() <= 1 {
        return Ok(GateLog::of(alloc, Vec::new(alloc), 0, is_closed));
    }
    match scan(alloc, bytes) {
        Ok(Found { blocks, gate }) => Ok(GateLog::of(alloc, blocks, gate, is_closed)),
        Err(stop) => Err(stop),
    }
}

// Writes the one byte of an empty log.
fn begin<D: Disk>(disk: &mut D) -> Result<(), DiskFailed>
    requires blank { D.tells → length (D.bytes disk.old) ≤ 1 }
    requires only { D.tells → (c : List ℕ) → D.left_since disk.old (D.moment disk.old) c → c ≡ D.bytes disk.old }
    ensures begun { D.tells → OnOk result (D.bytes disk.new ≡ 0 ∷ []) }
    ensures blank { D.tells → length (D.bytes disk.new) ≤ 1 }
    ensures only { D.tells → OnOk result ((c : List ℕ) → D.left_since disk.new (D.moment disk.new) c → c ≡ D.bytes disk.new) }
    ensures crash { D.tells → LeavesOnly D.moment D.left_since disk.old disk.new (λ c. length c ≤ 1) }
    ensures calls { D.tells → OnOk result (D.calls disk.new ≡ risen (D.calls disk.old) 2) }
    ensures at_most { D.tells → D.calls disk.new ≤ D.calls disk.old + 2 }
    ensures cause { HasCause (D.faults disk.old) (D.faults disk.new) result }
{
    disk.write_at(0, &[0])?;
    disk.sync()
}

/// Reads a log and leaves its disk as it is. The log is closed: `append` answers Closed.
///
/// The answers: Fault only where the disk's count of faults rose; Full exactly where the file has more than 67,108,864
/// bytes; Broken with the place of the gate behind which no whole entry and gate stand, exactly where the bytes are no
/// log; Memory. Each Fault stands at its call of the disk, Full after the size, and Broken after the read.
pub fn look<D: Disk>(alloc: Global, disk: &mut D) -> Result<GateLog, LogStop>
    ensures log { D.tells → IfOk result (λ l. IsLog (D.bytes disk.old) (entries_of l)) }
    ensures closed { IfOk result (λ l. is_closed_of l ≡ true) }
    ensures small { D.tells → OnOk result (length (D.bytes disk.old) ≤ 67108864) }
    ensures kinds { IfErr result (λ e. IsRefusalOf D.tells (D.bytes disk.old) e) }
    ensures bytes { D.tells → D.bytes disk.new ≡ D.bytes disk.old }
    ensures crash { D.tells → Goes D.moment D.left_since (◌≡◌ {A = List ℕ}) disk.old disk.new }
    ensures calls { D.tells → D.calls disk.new ≡ D.calls disk.old }
    ensures cause { IsCaused (D.faults disk.old) (D.faults disk.new) result }
{
    match read_all(alloc, disk) {
        Ok(bytes) => log_of(alloc, &bytes, true),
        Err(stop) => Err(stop),
    }
}

// A log of that many bytes is as it stands, and one of at most one byte is begun.
fn settle<D: Disk>(disk: &mut D, log: GateLog, size: usize) -> Result<GateLog, LogStop>
    requires size { D.tells → size ≡ length (D.bytes disk.old) }
    requires gated { D.tells → 1 < size → IsGated (D.bytes disk.old) (entries_of log) }
    requires blank { D.tells → size ≤ 1 → entries_of log ≡ [] }
    requires only { D.tells → (c : List ℕ) → D.left_since disk.old (D.moment disk.old) c → c ≡ D.bytes disk.old }
    ensures same { IfOk result (λ l. l ≡ log) }
    ensures fault { IfErr result (λ e. e ≡ LogStop.Fault) }
    ensures on { D.tells → IfOk result (λ l. IsOn l (D.bytes disk.new) (D.left_since disk.new (D.moment disk.new))) }
    ensures kept { D.tells → 1 < size → D.bytes disk.new ≡ D.bytes disk.old }
    ensures begun { D.tells → size ≤ 1 → OnOk result (D.bytes disk.new ≡ 0 ∷ []) }
    ensures short { D.tells → size ≤ 1 → length (D.bytes disk.new) ≤ 1 }
    ensures crash { D.tells → LeavesOnly D.moment D.left_since disk.old disk.new (AreBlank (D.bytes disk.old)) }
    ensures calls { D.tells → OnOk result (D.calls disk.new ≡ (if nat_le size 1 then risen (D.calls disk.old) 2 else D.calls disk.old)) }
    ensures at_most { D.tells → D.calls disk.new ≤ D.calls disk.old + (if nat_le size 1 then 2 else 0) }
    ensures cause { IsCaused (D.faults disk.old) (D.faults disk.new) result }
{
    if size > 1 {
        return Ok(log);
    }
    match begin(disk) {
        Ok(()) => Ok(log),
        Err(_) => Err(LogStop::Fault),
    }
}

/// Opens a log: syncs, reads the file, and where it has at most one byte, writes the byte 00 and syncs.
///
/// The answers are those of `look`. Nothing is repaired: a file of more than one byte keeps its bytes. A stop at any
/// moment leaves what a stop at the call's start might have left, or, of a file of at most one byte, such a file.
pub fn open_log<D: Disk>(alloc: Global, disk: &mut D) -> Result<GateLog, LogStop>
    ensures log { D.tells → IfOk result (λ l. IsLog (D.bytes disk.old) (entries_of l)) }
    ensures open { IfOk result (λ l. is_closed_of l ≡ false) }
    ensures on { D.tells → IfOk result (λ l. IsOn l (D.bytes disk.new) (D.left_since disk.new (D.moment disk.new))) }
    ensures small { D.tells → OnOk result (length (D.bytes disk.old) ≤ 67108864) }
    ensures kinds { IfErr result (λ e. IsRefusalOf D.tells (D.bytes disk.old) e) }
    ensures kept { D.tells → 1 < length (D.bytes disk.old) → D.bytes disk.new ≡ D.bytes disk.old }
    ensures begun { D.tells → length (D.bytes disk.old) ≤ 1 → OnOk result (D.bytes disk.new ≡ 0 ∷ []) }
    ensures short { D.tells → length (D.bytes disk.old) ≤ 1 → length (D.bytes disk.new) ≤ 1 }
    ensures crash { D.tells → LeavesOnly D.moment D.left_since disk.old disk.new (AreBlank (D.bytes disk.old)) }
    ensures calls { D.tells → OnOk result (D.calls disk.new ≡ risen (D.calls disk.old) (opening_calls (D.bytes disk.old))) }
    ensures at_most { D.tells → D.calls disk.new ≤ D.calls disk.old + opening_calls (D.bytes disk.old) }
    ensures cause { IsCaused (D.faults disk.old) (D.faults disk.new) result }
{
    let bytes = match read_synced(alloc, disk) {
        Ok(bytes) => bytes,
        Err(stop) => return Err(stop),
    };
    match log_of(alloc, &bytes, false) {
        Ok(log) => settle(disk, log, bytes.len()),
        Err(stop) => Err(stop),
    }
}
