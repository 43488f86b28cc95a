//! Why reading stopped.

ghost use Rattle.record_bytes.specs.declared.stop.ReadStop.TheVariants.{Memory};
ghost use Rattle.std.specs.Prelude.{◌≡◌};

use std::alloc::{AllocError, AllocFailed};
use turk_base::NoMemory;

/// Bytes that are no spelling, or want of memory.
#[derive(Clone, Copy, Debug, Drop, PartialEq, Eq)]
pub(crate) enum ReadStop {
    Bad,
    Memory,
}

impl From<AllocError> for ReadStop {
    ghost from_gives = { λ _ e. e ≡ Memory };

    fn from(_: AllocError) -> ReadStop {
        ReadStop::Memory
    }
}

impl From<NoMemory> for ReadStop {
    ghost from_gives = { λ _ e. e ≡ Memory };

    fn from(_: NoMemory) -> ReadStop {
        ReadStop::Memory
    }
}

impl<T: Drop> From<AllocFailed<T>> for ReadStop {
    ghost from_gives = { λ _ e. e ≡ Memory };

    fn from(_: AllocFailed<T>) -> ReadStop {
        ReadStop::Memory
    }
}
