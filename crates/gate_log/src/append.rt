//! The four calls of the disk that add a block.
ghost use Rattle.std.specs.Prelude.{◌≡◌, ◌≤◌, ◌<◌, ◌+◌, ◌^◌, length, OnOk};
ghost use Rattle.disk_model.specs.Disk.{HasCause, risen};
ghost use Rattle.gate_log.specs.Append.{Appends};

use disk_model::{Disk, DiskFailed};

// The block behind the closed gate, a sync, the gate opened, a sync.
pub fn append<D: Disk>(disk: &mut D, gate: u64, block: &[u8]) -> Result<(), DiskFailed>
    requires room { gate < 2 ^ 61 }
    requires at { D.tells → gate + 1 ≤ length (D.bytes disk.old) }
    ensures steps { D.tells → Appends D.bytes D.moment D.left_since gate block.now disk.old disk.new result }
    ensures calls { D.tells → OnOk result (D.calls disk.new ≡ risen (D.calls disk.old) 4) }
    ensures at_most { D.tells → D.calls disk.new ≤ D.calls disk.old + 4 }
    ensures cause { HasCause (D.faults disk.old) (D.faults disk.new) result }
{
    disk.write_at(gate + 1, block)?;
    disk.sync()?;
    disk.write_at(gate, &[165])?;
    disk.sync()
}
