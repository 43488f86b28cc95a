//! What the evaluator asks of the state of a run and of the outside: one trait, whose calls do what the requests of a
//! script's meaning do.
#![tactic(auto)]

ghost use Rattle.std.specs.Prelude.{◌≡◌};

mod host;

use ask_model::{AskStop, Divergence};
pub use host::Host;
use turk_base::NoMemory;
use value_cells::Value;

/// Why a run is refused.
#[derive(Clone, Copy, Debug, Drop, PartialEq, Eq)]
pub enum Refusal {
    /// A result that is no whole number in range.
    NotWhole,
    /// An object where a primitive is needed.
    NoPrimitive,
    /// More than 800 nodes open.
    TooDeep,
    /// A text or an array past its limit.
    TooLong,
    /// A value of a once body that is no plain data.
    NotData,
    /// A fork or a join in a once body.
    ForkInOnce,
}

/// Why a run ends otherwise than at its last statement or by a throw.
#[derive(Drop)]
pub enum Halt {
    Refused(Refusal),
    /// A reply or a branch is waited for. It ends a branch, or the run.
    Waits,
    /// A charge was past the fuel.
    Spent,
    /// A record doesn't go with a call.
    Diverges(Divergence),
}

/// How a part of a script ends otherwise than with a value.
#[derive(Drop)]
pub enum Exit {
    /// A value that was thrown.
    Throw(Value),
    Halted(Halt),
    /// A call was refused, or memory ran out.
    Stopped(AskStop),
}

/// How a statement ends.
#[derive(Drop)]
pub enum Flow {
    Normal,
    Break,
    Continue,
    Return(Value),
}

/// Where a node runs: the number of its frame, and the object that is `this`.
#[derive(Clone, Copy, Drop)]
pub struct Here {
    pub frame: u32,
    pub this: Option<u32>,
}

impl Here {
    /// The same with another frame.
    pub fn within(self, frame: u32) -> Here
        ensures { result ≡ record self { frame = frame } }
    {
        Here { frame, ..self }
    }
}

impl From<NoMemory> for Exit {
    ghost use Rattle.std.specs.Prelude.{◌≡◌};
    ghost use Rattle.ask_model.specs.declared.AskStop.TheVariants as stop;
    ghost use Rattle.run_host.specs.declared.Exit.TheVariants as exit;

    ghost from_gives = { λ _ e. e ≡ exit.Stopped stop.Memory };

    fn from(_want: NoMemory) -> Exit {
        Exit::Stopped(AskStop::Memory)
    }
}

impl From<Refusal> for Exit {
    ghost use Rattle.std.specs.Prelude.{◌≡◌};
    ghost use Rattle.run_host.specs.declared.Halt.TheVariants as halt;
    ghost use Rattle.run_host.specs.declared.Exit.TheVariants as exit;

    ghost from_gives = { λ why e. e ≡ exit.Halted (halt.Refused why) };

    fn from(why: Refusal) -> Exit {
        Exit::Halted(Halt::Refused(why))
    }
}
