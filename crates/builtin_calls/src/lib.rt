//! The built-in calls of the language over any heap (ECMA-262 3rd ed. 15.4.4, 15.5, 15.11).
#![tactic(auto)]

use turk_base::{NoMemory, Units};
use value_cells::{OpStop, Value};

mod arrays;
mod calls;
mod ends;
mod errors;
mod steps;
#[cfg(test)]
mod tests;
mod texts;

pub use calls::call;
pub use ends::call_made;
pub use steps::text_of;

/// Why a built-in call ended the run or throws: an error with its kind, 0 for TypeError and 1 for
/// ReferenceError, and its message; a number that isn't whole or isn't in range, an object where a
/// primitive is needed, a text or an array past its limit, a charge past the fuel, want of memory.
#[derive(Drop)]
pub enum CallStop {
    Throw(u8, Units),
    NotWhole,
    NoPrimitive,
    TooLong,
    Spent,
    Memory,
}

/// How a built-in call ended: with a value, or with the number of the cell of an error, which is thrown.
#[derive(Drop)]
pub enum CallEnd {
    Value(Value),
    Thrown(u32),
}

impl From<OpStop> for CallStop {
    ghost use Rattle.std.specs.Prelude.{◌≡◌};
    ghost use Rattle.builtin_calls.specs.Called.{call_stop};

    ghost from_gives = { λ stop e. e ≡ call_stop stop };

    fn from(stop: OpStop) -> CallStop {
        match stop {
            OpStop::NotWhole => CallStop::NotWhole,
            OpStop::NoPrimitive => CallStop::NoPrimitive,
            OpStop::TooLong => CallStop::TooLong,
            OpStop::Spent => CallStop::Spent,
            OpStop::Memory => CallStop::Memory,
        }
    }
}

impl From<NoMemory> for CallStop {
    ghost use Rattle.std.specs.Prelude.{◌≡◌};
    ghost use Rattle.builtin_calls.specs.declared.CallStop.TheVariants as stop;

    ghost from_gives = { λ _ e. e ≡ stop.Memory };

    fn from(_want: NoMemory) -> CallStop {
        CallStop::Memory
    }
}
