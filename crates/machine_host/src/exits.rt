//! The stops of a machine, as exits of an evaluator.
ghost use Rattle.std.specs.Prelude.{◌≡◌};
ghost use Rattle.machine_host.specs.Exits.{exit_at, answer_at, value_at};

use ask_model::AskStop;
use builtin_calls::CallEnd;
use run_host::{Exit, Halt, Refusal};
use value_cells::{OpStop, Value};

/// A stop as an exit: a refusal, that the fuel is spent, or want of memory.
pub fn exit_of(stop: OpStop) -> Exit
    ensures { result ≡ exit_at stop }
{
    match stop {
        OpStop::NotWhole => Exit::Halted(Halt::Refused(Refusal::NotWhole)),
        OpStop::NoPrimitive => Exit::Halted(Halt::Refused(Refusal::NoPrimitive)),
        OpStop::TooLong => Exit::Halted(Halt::Refused(Refusal::TooLong)),
        OpStop::Spent => Exit::Halted(Halt::Spent),
        OpStop::Memory => Exit::Stopped(AskStop::Memory),
    }
}

/// A machine's answer as an evaluator's.
pub fn answer_of<T>(answer: Result<T, OpStop>) -> Result<T, Exit>
    ensures { result ≡ answer_at answer }
{
    match answer {
        Ok(value) => Ok(value),
        Err(stop) => Err(exit_of(stop)),
    }
}

/// How a built-in call ended, as an evaluator's answer.
pub fn value_of(ended: Result<CallEnd, OpStop>) -> Result<Value, Exit>
    ensures { result ≡ value_at ended }
{
    match answer_of(ended) {
        Ok(CallEnd::Value(value)) => Ok(value),
        Ok(CallEnd::Thrown(cell)) => Err(Exit::Throw(Value::Object(cell))),
        Err(exit) => Err(exit),
    }
}
