//! The calls by their numbers.
ghost use Rattle.std.specs.Prelude.{◌≡◌, ◌<◌, ◌≤◌, IfOk, map, codes};
ghost use Rattle.turk_base.specs.Values.{Normal, Object, Text};
ghost use Rattle.turk_base.specs.BuiltIns as spec;
ghost use Rattle.value_cells.specs.Needs.{needs, all_needs};
ghost use Rattle.value_cells.specs.Seen.{Naming, count, val_in};
ghost use Rattle.value_cells.specs.Does.{Runs, told};
ghost use Rattle.builtin_calls.specs.Called.{Called, HasBuiltIns};

use crate::CallStop;
use crate::arrays::{concat, join, pop, push, reverse, slice};
use crate::errors::error_of;
use crate::texts::{char_at, char_code_at, from_char_code, index_of, split, string_of, substring};
use std::alloc::Global;
use turk_base::{NoMemory, Units};
use value_cells::{Heap, OpStop, Value};

/// The argument at a place, undefined where it is missing.
fn argument<'a>(args: &'a [Value], place: usize, missing: &'a Value) -> &'a Value
    requires { missing.now ≡ Value.Undefined }
    ensures value { (nu : Naming) → spec.argument place (map (val_in nu) args.now) ≡ val_in nu result.now }
{
    match args.get(place) {
        Some(value) => value,
        None => missing,
    }
}

/// A call on an array.
fn on_array<H: Heap>(
    alloc: Global,
    heap: &mut H,
    which: u8,
    this: u32,
    args: &[Value],
) -> Result<Value, OpStop>
    requires which { which < 6 }
    requires this { this < count (H.seen heap.old) }
    requires args { all_needs args.now ≤ count (H.seen heap.old) }
    ensures did { Runs (λ nu. spec.call_built_in which (Object (nu this)) (map (val_in nu) args.now)) (λ nu. told (λ v. Normal (val_in nu v)) result) (H.seen heap.old) (H.seen heap.new) }
    ensures more { count (H.seen heap.old) ≤ count (H.seen heap.new) }
    ensures exists { IfOk result (λ v. needs v ≤ count (H.seen heap.new)) }
{
    let missing = Value::Undefined;
    let first = argument(args, 0, &missing);
    let second = argument(args, 1, &missing);
    match which {
        0 => push(alloc, heap, this, args),
        1 => pop(alloc, heap, this),
        2 => join(alloc, heap, this, first),
        3 => concat(alloc, heap, this, args),
        4 => slice(alloc, heap, this, first, second),
        _ => reverse(alloc, heap, this),
    }
}

/// A call on a text.
fn on_text<H: Heap>(
    alloc: Global,
    heap: &mut H,
    which: u8,
    this: &Units,
    args: &[Value],
) -> Result<Value, OpStop>
    requires above { 6 ≤ which }
    requires below { which < 11 }
    ensures did { Runs (λ nu. spec.call_built_in which (Text this.now) (map (val_in nu) args.now)) (λ nu. told (λ v. Normal (val_in nu v)) result) (H.seen heap.old) (H.seen heap.new) }
    ensures more { count (H.seen heap.old) ≤ count (H.seen heap.new) }
    ensures exists { IfOk result (λ v. needs v ≤ count (H.seen heap.new)) }
{
    let missing = Value::Undefined;
    let first = argument(args, 0, &missing);
    let second = argument(args, 1, &missing);
    match which {
        6 => char_at(alloc, heap, this, first),
        7 => char_code_at(alloc, this, first),
        8 => index_of(alloc, heap, this, first, second),
        9 => substring(alloc, heap, this, first, second),
        _ => split(alloc, heap, this, first),
    }
}

/// A call that looks at its arguments alone.
fn on_any<H: Heap>(
    alloc: Global,
    heap: &mut H,
    which: u8,
    this: &Value,
    args: &[Value],
) -> Result<Value, OpStop>
    requires above { 11 ≤ which }
    requires below { which < 16 }
    requires built_ins { HasBuiltIns (H.seen heap.old) }
    ensures did { Runs (λ nu. spec.call_built_in which (val_in nu this.now) (map (val_in nu) args.now)) (λ nu. told (λ v. Normal (val_in nu v)) result) (H.seen heap.old) (H.seen heap.new) }
    ensures more { count (H.seen heap.old) ≤ count (H.seen heap.new) }
    ensures exists { IfOk result (λ v. needs v ≤ count (H.seen heap.new)) }
{
    let missing = Value::Undefined;
    let first = argument(args, 0, &missing);
    match which {
        11 => from_char_code(alloc, heap, args),
        12 => string_of(alloc, heap, args),
        13 => error_of(alloc, heap, 1, first),
        14 => error_of(alloc, heap, 3, first),
        _ => error_of(alloc, heap, 5, first),
    }
}

/// What is thrown where the call is none of its value.
fn not_a_function(alloc: Global) -> Result<CallStop, NoMemory>
    ensures { IfOk result (λ stop. stop ≡ CallStop.Throw 0 (codes "not a function")) }
{
    Ok(CallStop::Throw(0, Units::from_bytes(alloc, b"not a function")?))
}

/// Carries out the built-in call of a number over a heap, with a value of `this` and arguments:
/// 0 `push`, 1 `pop`, 2 `join`, 3 `concat`, 4 `slice`, 5 `reverse` of an array; 6 `charAt`,
/// 7 `charCodeAt`, 8 `indexOf`, 9 `substring`, 10 `split` of a text; 11 `String.fromCharCode`,
/// 12 `String`, 13 `Error`, 14 `TypeError`, 15 `ReferenceError` (ECMA-262 3rd ed. 15.4.4, 15.5,
/// 15.11). Missing arguments are undefined, further ones are not looked at.
///
/// The heap's first seven cells are the built-in ones.
///
/// Of the answers other than Ok: NotWhole, NoPrimitive and TooLong come exactly where the call is
/// refused so, Spent exactly where its charges pass the fuel, Throw exactly where `this` is not of
/// the kind that the number asks for, or there is no such number: then the heap is as before. After
/// Memory nothing is known of the state.
pub fn call<H: Heap>(
    alloc: Global,
    heap: &mut H,
    which: u8,
    this: &Value,
    args: &[Value],
) -> Result<Value, CallStop>
    requires built_ins { HasBuiltIns (H.seen heap.old) }
    requires this { needs this.now ≤ count (H.seen heap.old) }
    requires args { all_needs args.now ≤ count (H.seen heap.old) }
    ensures did { Called (λ nu. spec.call_built_in which (val_in nu this.now) (map (val_in nu) args.now)) result (H.seen heap.old) (H.seen heap.new) }
    ensures more { count (H.seen heap.old) ≤ count (H.seen heap.new) }
    ensures exists { IfOk result (λ v. needs v ≤ count (H.seen heap.new)) }
{
    if which < 6 {
        return match this {
            Value::Object(cell) => Ok(on_array(alloc, heap, which, *cell, args)?),
            _ => Err(not_a_function(alloc)?),
        };
    }
    if which < 11 {
        return match this {
            Value::Text(text) => Ok(on_text(alloc, heap, which, text, args)?),
            _ => Err(not_a_function(alloc)?),
        };
    }
    if which < 16 {
        return Ok(on_any(alloc, heap, which, this, args)?);
    }
    Err(not_a_function(alloc)?)
}
