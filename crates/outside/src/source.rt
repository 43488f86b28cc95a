//! Bytes that come in: the trait, and reading to the end.

ghost use Rattle.std.specs.Prelude.{◌≡◌, ◌<◌, ◌≤◌, ℕ, List, length, Option, IfSome, IfOk, IfErr, OnOk, OnErr};
ghost use Rattle.std.specs.Io.{ReadsAtMost};
ghost use Rattle.std.specs.Io.KnownBytes.{Consumes, IsAtEnd, ReadConsumes};
ghost use Rattle.outside.specs.Faults.{Rose};
ghost use Rattle.outside.specs.Reading.{HasCause};

use std::alloc::Global;

/// A device refused a call. Its count of faults rose.
#[derive(Clone, Copy, Debug, PartialEq, Eq, Drop)]
pub struct Failed;

/// Why `read_all` gave no bytes.
#[derive(Clone, Copy, Debug, PartialEq, Eq, Drop)]
pub enum ReadStop {
    /// The source failed.
    Fault,
    /// There were more bytes than the limit.
    TooLarge,
    /// There was no memory for them.
    Memory,
}

/// Bytes that come in. It may tell the bytes that are left; a file tells none.
pub trait Source {
    // The bytes that are left, where the source tells them.
    ghost left: { Self → Option (List ℕ) };

    // How many calls failed.
    ghost faults: { Self → ℕ };

    /// Gives the next bytes, and says how many. It gives none for a piece that isn't empty only at
    /// the end. A call that fails takes none of the bytes.
    fn read(&mut self, into: &mut [u8]) -> Result<usize, Failed>
        ensures count { faults self.old ≤ faults self.new }
        ensures cause { OnErr result (Rose (faults self.old) (faults self.new)) }
        ensures bound { ReadsAtMost result into.new }
        ensures bytes { ReadConsumes (left self.old) (left self.new) result into.new };
}

/// Reads all bytes that are left, at most `limit` of them. After a refusal an unknown front of them
/// was taken from the source.
pub fn read_all<S: Source>(alloc: Global, source: &mut S, limit: u64) -> Result<Vec<u8>, ReadStop>
    ensures count { S.faults source.old ≤ S.faults source.new }
    ensures all { IfOk result (λ v. Consumes (S.left source.old) (S.left source.new) v.items) }
    ensures end { OnOk result (IsAtEnd (S.left source.new)) }
    ensures within { IfOk result (λ v. length v.items ≤ limit) }
    ensures stop { IfErr result (HasCause (S.faults source.old) (S.faults source.new) (S.left source.old) limit) }
    ensures front { (taken : List ℕ) × Consumes (S.left source.old) (S.left source.new) taken }
{
    let mut bytes = Vec::new(alloc);
    let mut piece = [0u8; 4096];
    loop {
        let got = match source.read(&mut piece) {
            Ok(got) => got,
            Err(_) => return Err(ReadStop::Fault),
        };
        if got == 0 {
            return Ok(bytes);
        }
        if limit - (bytes.len() as u64) < (got as u64) {
            return Err(ReadStop::TooLarge);
        }
        if bytes.extend_from_slice(&piece[..got]).is_err() {
            return Err(ReadStop::Memory);
        }
    }
}
