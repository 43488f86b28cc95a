//! Disks, as a log sees them: what a call does, what a crash may leave, and how often a disk has failed.
#![tactic(auto)]

mod event;
mod file;
mod history;
mod memory;
#[cfg(test)]
mod tests;

ghost use Rattle.std.specs.Prelude.{◌≡◌, ◌≤◌, ◌+◌, ◌^◌, List, ℕ, length, take, drop, IfOk, OnOk, OnErr};
ghost use Rattle.disk_model.specs.Disk.{Goes, Torn, Holds, HasCause, risen};

pub use event::{Event, Write};
pub use file::FileDisk;
pub use history::History;
pub use memory::{MemoryDisk, Stop};

/// The disk failed. Its count of faults has risen.
#[derive(Clone, Copy, Debug, PartialEq, Eq, Drop)]
pub struct DiskFailed;

/// There was no memory, and nothing was changed.
#[derive(Clone, Copy, Debug, PartialEq, Eq, Drop)]
pub struct NoMemory;

/// A disk. What it holds is told or not told; how often it has failed is always known.
///
/// Between two syncs a crash may leave any bytes in each range that was written and past the old end, at any length
/// from the old one to the new one. After a sync that answered Ok a crash leaves what a read gives, and nothing else.
pub trait Disk {
    /// That it tells its bytes, its images and its calls.
    ghost tells: { Type 0 };

    /// The bytes that it reads as.
    ghost bytes: { Self → List ℕ };

    /// The moment, as a number that doesn't fall.
    ghost moment: { Self → ℕ };

    /// What a crash at some moment from that one on might have left, during a call or between two.
    /// At `moment` itself these are the images that a crash now may leave.
    ghost left_since: { Self → ℕ → List ℕ → Type 0 };

    /// How often `write_at` and `sync` were called. It stands still at the end of a `u64`.
    ghost calls: { Self → ℕ };

    /// How often it has failed. It stands still at the end of a `u64`.
    ghost faults: { Self → ℕ };

    /// The number of bytes.
    fn size(&mut self) -> Result<u64, DiskFailed>
        ensures size { tells → IfOk result (λ n. n ≡ length (bytes self.old)) }
        ensures bytes { tells → bytes self.new ≡ bytes self.old }
        ensures crash { tells → Goes moment left_since (◌≡◌ {A = List ℕ}) self.old self.new }
        ensures calls { tells → calls self.new ≡ calls self.old }
        ensures cause { HasCause (faults self.old) (faults self.new) result };

    /// Fills `into` with the bytes at that place. Where the disk tells its bytes, they must lie within them; a disk
    /// that doesn't counts a read past its end as a fault.
    fn read(&mut self, at: u64, into: &mut [u8]) -> Result<(), DiskFailed>
        requires { tells → at + length into.old ≤ length (bytes self.old) }
        ensures read { tells → OnOk result (into.new ≡ take (length into.old) (drop at (bytes self.old))) }
        ensures bytes { tells → bytes self.new ≡ bytes self.old }
        ensures crash { tells → Goes moment left_since (◌≡◌ {A = List ℕ}) self.old self.new }
        ensures calls { tells → calls self.new ≡ calls self.old }
        ensures cause { HasCause (faults self.old) (faults self.new) result };

    /// Writes over what is there, and past the end. Until a sync, a crash may leave any bytes in the range.
    /// A failed one may have changed its range in part.
    fn write_at(&mut self, at: u64, from: &[u8]) -> Result<(), DiskFailed>
        requires { tells → at ≤ length (bytes self.old) }
        ensures written { tells → OnOk result (Holds at from.now (bytes self.old) (bytes self.new)) }
        ensures torn { tells → OnErr result (Torn at (length from.now) (bytes self.old) (bytes self.new)) }
        ensures crash { tells → Goes moment left_since (Torn at (length from.now)) self.old self.new }
        ensures calls { tells → calls self.new ≡ risen (calls self.old) 1 }
        ensures cause { HasCause (faults self.old) (faults self.new) result };

    /// After it, a crash leaves what a read returns. A failed one confirms nothing.
    fn sync(&mut self) -> Result<(), DiskFailed>
        ensures bytes { tells → bytes self.new ≡ bytes self.old }
        ensures durable { tells → OnOk result ((c : List ℕ) → left_since self.new (moment self.new) c → c ≡ bytes self.new) }
        ensures crash { tells → Goes moment left_since (◌≡◌ {A = List ℕ}) self.old self.new }
        ensures calls { tells → calls self.new ≡ risen (calls self.old) 1 }
        ensures cause { HasCause (faults self.old) (faults self.new) result };

    /// The bytes as read are one of the images.
    ghost reads_an_image: { (d : Self) → tells → left_since d (moment d) (bytes d) };

    /// This moment is one of those since an earlier one.
    ghost counts_now: { (d : Self) (t : ℕ) (c : List ℕ) → tells → t ≤ moment d → left_since d (moment d) c → left_since d t c };
}
