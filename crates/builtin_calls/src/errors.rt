//! The errors (ECMA-262 3rd ed. 15.11.1.1, 15.11.7).
ghost use Rattle.std.specs.Prelude.{◌≡◌, ◌<◌, ◌≤◌, Some, IfOk, codes, slice_get};
ghost use Rattle.turk_base.specs.Values.{Normal};
ghost use Rattle.turk_base.specs.Errors.{built_in, error_cell};
ghost use Rattle.turk_base.specs.BuiltIns as spec;
ghost use Rattle.value_cells.specs.Needs.{needs};
ghost use Rattle.value_cells.specs.Seen.{count, val_in};
ghost use Rattle.value_cells.specs.Does.{Runs, told};
ghost use Rattle.builtin_calls.specs.Gives.{Takes};

use crate::steps::text_of;
use std::alloc::Global;
use turk_base::{NoMemory, Units};
use value_cells::{CellKind, Heap, OpStop, Value};

/// The key `message`.
fn message_key(alloc: Global) -> Result<Units, NoMemory>
    ensures { IfOk result (λ key. key ≡ codes "message") }
{
    Units::from_bytes(alloc, b"message")
}

/// A plain cell of a prototype, with a message.
pub fn error_cell<H: Heap>(
    alloc: Global,
    heap: &mut H,
    prototype: u32,
    message: Units,
) -> Result<u32, OpStop>
    requires { prototype < count (H.seen heap.old) }
    ensures did { Takes (λ nu. error_cell (nu prototype) message) (λ nu. nu) result (H.seen heap.old) (H.seen heap.new) }
    ensures more { count (H.seen heap.old) ≤ count (H.seen heap.new) }
    ensures exists { IfOk result (λ cell. cell < count (H.seen heap.new)) }
{
    let key = message_key(alloc)?;
    let cell = heap.make(CellKind::Plain(Some(prototype)))?;
    heap.put(cell, &key, Value::Text(message))?;
    Ok(cell)
}

/// `Error`, `TypeError`, `ReferenceError`: a plain cell of the prototype with that number, with a
/// message where one is given.
pub fn error_of<H: Heap>(
    alloc: Global,
    heap: &mut H,
    prototype: u32,
    message: &Value,
) -> Result<Value, OpStop>
    requires { prototype < count (H.seen heap.old) }
    ensures did { Runs (λ nu. spec.error_of (nu prototype) (val_in nu message.now)) (λ nu. told (λ v. Normal (val_in nu v)) result) (H.seen heap.old) (H.seen heap.new) }
    ensures more { count (H.seen heap.old) ≤ count (H.seen heap.new) }
    ensures exists { IfOk result (λ v. needs v ≤ count (H.seen heap.new)) }
{
    if let Value::Undefined = message {
        let cell = heap.make(CellKind::Plain(Some(prototype)))?;
        return Ok(Value::Object(cell));
    }
    let text = text_of(alloc, heap, message)?;
    let cell = error_cell(alloc, heap, prototype, text)?;
    Ok(Value::Object(cell))
}
