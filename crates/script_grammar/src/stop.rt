//! Why the rows of the grammar stop.

ghost use Rattle.std.specs.Prelude.{◌≡◌};

use crate::Form;
use std::alloc::{AllocError, AllocFailed};
use turk_base::NoMemory;

/// Why there is no tree.
#[derive(Clone, Copy, Debug, PartialEq, Eq)]
pub enum Stop {
    /// The token at this place fits nothing.
    Syntax(u32),
    /// At this place stands a form that is left out.
    LeftOut(u32, Form),
    /// A node stands too deep.
    Nesting,
    /// The tokens end too early.
    Ends,
    Memory,
}

impl<T: Drop> From<AllocFailed<T>> for Stop {
    ghost use Rattle.script_grammar.specs.declared.stop.Stop.TheVariants.{Memory};

    ghost from_gives = { λ _ e. e ≡ Memory };

    fn from(_e: AllocFailed<T>) -> Stop {
        Stop::Memory
    }
}

impl From<AllocError> for Stop {
    ghost use Rattle.script_grammar.specs.declared.stop.Stop.TheVariants.{Memory};

    ghost from_gives = { λ _ e. e ≡ Memory };

    fn from(_e: AllocError) -> Stop {
        Stop::Memory
    }
}

impl From<NoMemory> for Stop {
    ghost use Rattle.script_grammar.specs.declared.stop.Stop.TheVariants.{Memory};

    ghost from_gives = { λ _ e. e ≡ Memory };

    fn from(_e: NoMemory) -> Stop {
        Stop::Memory
    }
}
