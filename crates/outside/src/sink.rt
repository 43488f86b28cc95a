//! Bytes that go out: the trait, and writing all of a piece.

ghost use Rattle.std.specs.Prelude.{◌≡◌, ◌<◌, ◌≤◌, ℕ, List, [], length, take, Option, Ok, IfOk, OnOk, OnErr};
ghost use Rattle.std.specs.Io.{WritesAtMost};
ghost use Rattle.std.specs.Io.KnownBytes.{Appends, WriteAppends};
ghost use Rattle.outside.specs.Faults.{Rose};

use crate::source::Failed;

/// Bytes that go out. It may tell the bytes that were written; a standard stream tells none.
pub trait Sink {
    // The bytes that were written, where the sink tells them.
    ghost written: { Self → Option (List ℕ) };

    // How many calls failed.
    ghost faults: { Self → ℕ };

    /// Writes a front of the piece, and says how long it is: not empty, unless the piece is. A call
    /// that fails writes nothing. An empty piece never fails.
    fn write(&mut self, from: &[u8]) -> Result<usize, Failed>
        ensures count { faults self.old ≤ faults self.new }
        ensures cause { OnErr result (Rose (faults self.old) (faults self.new)) }
        ensures bound { WritesAtMost result from.now }
        ensures some { IfOk result (λ n. 0 < length from.now → 0 < n) }
        ensures empty { OnErr result (0 < length from.now) }
        ensures bytes { WriteAppends (written self.old) (written self.new) result from.now };
}

/// Writes all bytes. After a refusal a front of them was written. It takes no memory.
pub fn write_all<O: Sink>(sink: &mut O, bytes: &[u8]) -> Result<(), Failed>
    ensures count { O.faults sink.old ≤ O.faults sink.new }
    ensures cause { OnErr result (Rose (O.faults sink.old) (O.faults sink.new)) }
    ensures all { OnOk result (Appends (O.written sink.old) (O.written sink.new) bytes.now) }
    ensures front { (n : ℕ) × (n ≤ length bytes.now) × Appends (O.written sink.old) (O.written sink.new) (take n bytes.now) }
{
    let mut at = 0;
    while at < bytes.len() {
        let put = sink.write(&bytes[at..])?;
        at += put;
    }
    Ok(())
}
