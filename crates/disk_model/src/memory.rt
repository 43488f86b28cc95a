//! A disk in memory, which can be made to fail and to stop, and which tears what a stop left unsynced.
ghost use Rattle.std.specs.Prelude.{◌≡◌, ◌≤◌, ◌+◌, ◌^◌, ◌↔◌, ⊤, min, length, IfOk, IsTrue, List, ℕ, Option, None, Some, false, OnOk, OnErr, ◌++◌};

use crate::history::History;
use crate::{Disk, DiskFailed, NoMemory};
use std::alloc::Global;

/// At which count of `write_at` and `sync` a disk stops, and how many unsynced bytes a reboot then leaves.
#[derive(Clone, Copy, Drop)]
pub struct Stop {
    pub at: u64,
    pub keep: u32,
}

/// A disk in memory. It tells its bytes, each image that a crash may leave, and its calls of `write_at` and `sync`.
///
/// It keeps each write since it was made or last rebooted. A `write_at` that lacks memory fails, as a fault of its
/// own, and makes the room that the `sync` or the `reboot` after it needs, so these take none.
#[derive(Drop)]
pub struct MemoryDisk {
    alloc: Global,
    history: History,
    fails: Vec<u32>,
    made: u64,
    changes: u64,
    faults: u64,
    stop: Option<Stop>,
    has_lacked: bool,
}

impl MemoryDisk {
    ghost use Rattle.disk_model.specs.Memory.{bytes_of, images_of, is_now_image, cut_at, IsOnlyImage, IsStopped, calls_of, faults_of, has_lacked_of, stop_of, stop_after, keep_of};

    /// A disk with these bytes, all of them on it.
    pub fn new(alloc: Global, bytes: &[u8]) -> Result<MemoryDisk, NoMemory>
        ensures bytes { IfOk result (λ d. bytes_of d ≡ bytes.now) }
        ensures synced { IfOk result IsOnlyImage }
        ensures stop { IfOk result (λ d. stop_of d ≡ None) }
        ensures calls { IfOk result (λ d. calls_of d ≡ 0) }
        ensures faults { IfOk result (λ d. faults_of d ≡ 0) }
        ensures lacked { IfOk result (λ d. has_lacked_of d ≡ false) }
    {
        let Ok(history) = History::new(alloc, bytes) else {
            return Err(NoMemory);
        };
        Ok(MemoryDisk {
            alloc,
            history,
            fails: Vec::new(alloc),
            made: 0,
            changes: 0,
            faults: 0,
            stop: None,
            has_lacked: false,
        })
    }

    /// Names calls that fail, beside those named before. They are counted from 1 over all four kinds since the disk
    /// was made. Without memory it names none.
    pub fn fail_calls(&mut self, calls: &[u32]) -> Result<(), NoMemory>
        ensures history { self.new.history ≡ self.old.history }
        ensures stop { stop_of self.new ≡ stop_of self.old }
        ensures calls { calls_of self.new ≡ calls_of self.old }
        ensures faults { faults_of self.new ≡ faults_of self.old }
        ensures lacked { has_lacked_of self.new ≡ has_lacked_of self.old }
        ensures named { OnOk result (self.new.fails.items ≡ self.old.fails.items ++ calls.now) }
        ensures unnamed { OnErr result (self.new.fails.items ≡ self.old.fails.items) }
    {
        match self.fails.extend_from_slice(calls) {
            Ok(()) => Ok(()),
            Err(_) => Err(NoMemory),
        }
    }

    /// The call of `write_at` or `sync` of this number, counted from 1 and from now on, fails, and so does each later
    /// call of any kind, until a reboot, which leaves the first `keep` unsynced bytes. No call has the number 0.
    /// On a disk that has stopped it changes nothing.
    pub fn stop_at(&mut self, call: u32, keep: u32)
        ensures history { self.new.history ≡ self.old.history }
        ensures stop { stop_of self.new ≡ stop_after self.old call keep }
        ensures calls { calls_of self.new ≡ calls_of self.old }
        ensures faults { faults_of self.new ≡ faults_of self.old }
        ensures lacked { has_lacked_of self.new ≡ has_lacked_of self.old }
    {
        if self.stopped() {
            return;
        }
        self.stop = if call == 0 {
            None
        } else {
            Some(Stop {
                at: self.changes.saturating_add(u64::from(call)),
                keep,
            })
        };
    }

    /// That the call to stop at was reached.
    pub fn stopped(&self) -> bool
        ensures { IsTrue result ↔ IsStopped self.now }
    {
        match self.stop {
            Some(stop) => stop.at <= self.changes,
            None => false,
        }
    }

    /// That a call failed for want of memory since the disk was made.
    pub fn lacked(&self) -> bool
        ensures { result ≡ has_lacked_of self.now }
    {
        self.has_lacked
    }

    /// How often `write_at` and `sync` were called. It stands still at the end of a `u64`.
    pub fn calls(&self) -> u64
        ensures { result ≡ calls_of self.now }
    {
        self.changes
    }

    /// Takes back a stop that wasn't reached. A disk that has stopped stays so.
    pub fn clear_stop(&mut self)
        ensures history { self.new.history ≡ self.old.history }
        ensures stop { stop_of self.new ≡ stop_after self.old 0 0 }
        ensures calls { calls_of self.new ≡ calls_of self.old }
        ensures faults { faults_of self.new ≡ faults_of self.old }
        ensures lacked { has_lacked_of self.new ≡ has_lacked_of self.old }
    {
        if !self.stopped() {
            self.stop = None;
        }
    }

    /// Starts the machine anew. Of all bytes written since the last sync, in order and with those of the stopped
    /// write, it leaves the first `keep` of the stop, or none where no stop was set. Then it clears the stop and syncs.
    /// The disk's moments begin anew with it.
    pub fn reboot(&mut self)
        ensures cut { bytes_of self.new ≡ cut_at self.old.history (keep_of (stop_of self.old)) }
        ensures image { is_now_image self.old (bytes_of self.new) }
        ensures synced { IsOnlyImage self.new }
        ensures stop { stop_of self.new ≡ None }
        ensures calls { calls_of self.new ≡ calls_of self.old }
        ensures faults { faults_of self.new ≡ faults_of self.old }
        ensures lacked { has_lacked_of self.new ≡ has_lacked_of self.old }
    {
        let keep = match self.stop {
            Some(stop) => stop.keep as usize,
            None => 0,
        };
        self.history.reboot(keep);
        self.stop = None;
    }

    /// The bytes as read.
    pub fn bytes(&self) -> &[u8]
        ensures { result.now ≡ bytes_of self.now }
    {
        self.history.content()
    }

    // Counts a call, and says whether it is one that was named to fail.
    fn is_named(&mut self) -> bool
        ensures history { self.new.history ≡ self.old.history }
        ensures stop { stop_of self.new ≡ stop_of self.old }
        ensures calls { calls_of self.new ≡ calls_of self.old }
        ensures faults { faults_of self.new ≡ faults_of self.old }
        ensures lacked { has_lacked_of self.new ≡ has_lacked_of self.old }
    {
        self.made = self.made.saturating_add(1);
        let made = self.made;
        self.fails.iter().any(|call| u64::from(*call) == made)
    }
}

impl Disk for MemoryDisk {
    ghost use Rattle.disk_model.specs.Memory.{bytes_of, moments_of, images_of, calls_of, faults_of};
    ghost use Rattle.disk_model.specs.Kept.{reads_image, counts_now_of};

    ghost tells = { ⊤ };

    ghost bytes = { bytes_of };

    ghost moment = { moments_of };

    ghost left_since = { images_of };

    ghost calls = { calls_of };

    ghost faults = { faults_of };

    ghost reads_an_image = { λ d told. reads_image d.history };

    ghost counts_now = { λ d t c told le now. counts_now_of d.history t c le now };

    fn size(&mut self) -> Result<u64, DiskFailed> {
        let is_named = self.is_named();
        if is_named || self.stopped() {
            self.faults = self.faults.saturating_add(1);
            return Err(DiskFailed);
        }
        Ok(self.history.content().len() as u64)
    }

    fn read(&mut self, at: u64, into: &mut [u8]) -> Result<(), DiskFailed> {
        let is_named = self.is_named();
        if is_named || self.stopped() {
            self.faults = self.faults.saturating_add(1);
            return Err(DiskFailed);
        }
        let at = at as usize;
        into.copy_from_slice(&self.history.content()[at..at + into.len()]);
        Ok(())
    }

    fn write_at(&mut self, at: u64, from: &[u8]) -> Result<(), DiskFailed> {
        let is_named = self.is_named();
        let was_stopped = self.stopped();
        self.changes = self.changes.saturating_add(1);
        let stops = self.stopped();
        if was_stopped || (is_named && !stops) {
            self.faults = self.faults.saturating_add(1);
            return Err(DiskFailed);
        }
        match self.history.write(self.alloc, at as usize, from) {
            Ok(()) => {
                if stops {
                    self.faults = self.faults.saturating_add(1);
                    return Err(DiskFailed);
                }
                Ok(())
            }
            Err(_) => {
                self.has_lacked = true;
                self.faults = self.faults.saturating_add(1);
                Err(DiskFailed)
            }
        }
    }

    fn sync(&mut self) -> Result<(), DiskFailed> {
        let is_named = self.is_named();
        self.changes = self.changes.saturating_add(1);
        if is_named || self.stopped() {
            self.faults = self.faults.saturating_add(1);
            return Err(DiskFailed);
        }
        self.history.sync();
        Ok(())
    }
}
