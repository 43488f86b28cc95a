//! The keys of elements.
ghost use Rattle.std.specs.Prelude.{◌≡◌, ◌+◌, length, IfOk};
ghost use Rattle.turk_base.specs.Errors.{index_text};

use itoa::Buffer;
use std::alloc::Global;
use turk_base::{NoMemory, Units};

/// The decimal text of an index.
pub fn index_key(alloc: Global, index: u64) -> Result<Units, NoMemory>
    ensures { IfOk result (λ key. key ≡ index_text index) }
{
    let mut buffer = Buffer::new();
    Units::from_bytes(alloc, buffer.format(index).as_bytes())
}

/// What a key pays: 1 and its units.
pub fn key_cost(key: &Units) -> u64
    ensures { result ≡ length key.now + 1 }
{
    key.as_slice().len() as u64 + 1
}
