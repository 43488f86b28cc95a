//! The calls by their numbers, with what they throw made.
ghost use Rattle.std.specs.Prelude.{◌≡◌, ◌<◌, ◌≤◌, IfOk, map};
ghost use Rattle.turk_base.specs.Values.{Throw, Object};
ghost use Rattle.turk_base.specs.Errors.{throw_error};
ghost use Rattle.turk_base.specs.BuiltIns.{call_built_in};
ghost use Rattle.value_cells.specs.Needs.{needs, all_needs};
ghost use Rattle.value_cells.specs.Seen.{Naming, Seen, Fits, count, val_in};
ghost use Rattle.value_cells.specs.Does.{Runs, told};
ghost use Rattle.builtin_calls.specs.Called.{HasBuiltIns, error_prototype};
ghost use Rattle.builtin_calls.specs.Ended.{end_in, end_needs};

use crate::calls::call;
use crate::errors::error_cell;
use crate::steps::paid;
use crate::{CallEnd, CallStop};
use std::alloc::Global;
use turk_base::Units;
use value_cells::{Heap, OpStop, Value};

/// The number of the prototype of an error of a kind.
fn prototype_of(kind: u8) -> u32
    ensures known { (s : Seen) (nu : Naming) → HasBuiltIns s → Fits nu s.names → nu result ≡ error_prototype kind }
    ensures small { result < 7 }
{
    if kind == 0 { 3 } else { 5 }
}

/// An error of a prototype, with a message that is paid first.
fn thrown<H: Heap>(
    alloc: Global,
    heap: &mut H,
    prototype: u32,
    message: Units,
) -> Result<u32, OpStop>
    requires { prototype < count (H.seen heap.old) }
    ensures did { Runs (λ nu. throw_error (nu prototype) message) (λ nu. told (λ cell. Throw (Object (nu cell))) result) (H.seen heap.old) (H.seen heap.new) }
    ensures more { count (H.seen heap.old) ≤ count (H.seen heap.new) }
    ensures exists { IfOk result (λ cell. cell < count (H.seen heap.new)) }
{
    let text = paid(heap, message)?;
    error_cell(alloc, heap, prototype, text)
}

/// As `call`, but what is thrown was made: its message is paid, and its cell stands on the heap.
pub fn call_made<H: Heap>(
    alloc: Global,
    heap: &mut H,
    which: u8,
    this: &Value,
    args: &[Value],
) -> Result<CallEnd, OpStop>
    requires built_ins { HasBuiltIns (H.seen heap.old) }
    requires this { needs this.now ≤ count (H.seen heap.old) }
    requires args { all_needs args.now ≤ count (H.seen heap.old) }
    ensures did { Runs (λ nu. call_built_in which (val_in nu this.now) (map (val_in nu) args.now)) (λ nu. told (end_in nu) result) (H.seen heap.old) (H.seen heap.new) }
    ensures more { count (H.seen heap.old) ≤ count (H.seen heap.new) }
    ensures exists { IfOk result (λ end. end_needs end ≤ count (H.seen heap.new)) }
{
    let stop = match call(alloc, heap, which, this, args) {
        Ok(value) => return Ok(CallEnd::Value(value)),
        Err(stop) => stop,
    };
    match stop {
        CallStop::Throw(kind, message) => {
            let cell = thrown(alloc, heap, prototype_of(kind), message)?;
            Ok(CallEnd::Thrown(cell))
        }
        CallStop::NotWhole => Err(OpStop::NotWhole),
        CallStop::NoPrimitive => Err(OpStop::NoPrimitive),
        CallStop::TooLong => Err(OpStop::TooLong),
        CallStop::Spent => Err(OpStop::Spent),
        CallStop::Memory => Err(OpStop::Memory),
    }
}
