//! Steps that several calls share: accesses of an array, texts with their charges, positions.
ghost use Rattle.std.specs.Prelude.{◌≡◌, ◌<◌, ◌≤◌, ◌^◌, length, codes, pos, IfOk, IfErr, Result};
ghost use Rattle.std.specs.Option.{option_map};
ghost use Rattle.turk_base.specs.Conversions.{integer_in};
ghost use Rattle.turk_base.specs.Values.{Number};
ghost use Rattle.turk_base.specs.Prog.{Get, Put, Remove, ask, made};
ghost use Rattle.turk_base.specs.Errors.{index_text, text_from};
ghost use Rattle.turk_base.specs.BuiltIns.{length_of, set_length, natural_in, end_in};
ghost use Rattle.value_cells.specs.Needs.{needs, option_needs};
ghost use Rattle.value_cells.specs.Seen.{Naming, count, val_in};
ghost use Rattle.builtin_calls.specs.Gives.{Takes, Answers, IsPrimitive};

use convert_rules::{Prim, Reading, reading, text};
use itoa::Buffer;
use std::alloc::Global;
use turk_base::{NoMemory, Units, Whole};
use value_cells::{Heap, OpStop, Value};

/// The decimal text of an index.
fn index_key(alloc: Global, index: u64) -> Result<Units, NoMemory>
    ensures { IfOk result (λ key. key ≡ index_text index) }
{
    let mut buffer = Buffer::new();
    Units::from_bytes(alloc, buffer.format(index).as_bytes())
}

/// The key `length`.
fn length_key(alloc: Global) -> Result<Units, NoMemory>
    ensures { IfOk result (λ key. key ≡ codes "length") }
{
    Units::from_bytes(alloc, b"length")
}

/// The element at an index, or None for a hole.
pub fn get_at<H: Heap>(
    alloc: Global,
    heap: &mut H,
    cell: u32,
    index: u64,
) -> Result<Option<Value>, OpStop>
    requires { cell < count (H.seen heap.old) }
    ensures did { Takes (λ nu. ask (Get (nu cell) (index_text index))) (λ nu. option_map (val_in nu)) result (H.seen heap.old) (H.seen heap.new) }
    ensures more { count (H.seen heap.old) ≤ count (H.seen heap.new) }
    ensures exists { IfOk result (λ v. option_needs v ≤ count (H.seen heap.new)) }
{
    let key = index_key(alloc, index)?;
    heap.get(cell, &key)
}

/// Puts a value at an index.
pub fn put_at<H: Heap>(
    alloc: Global,
    heap: &mut H,
    cell: u32,
    index: u64,
    value: Value,
) -> Result<(), OpStop>
    requires cell { cell < count (H.seen heap.old) }
    requires value { needs value ≤ count (H.seen heap.old) }
    ensures did { Takes (λ nu. ask (Put (nu cell) (index_text index) (val_in nu value))) (λ nu u. u) result (H.seen heap.old) (H.seen heap.new) }
    ensures more { count (H.seen heap.old) ≤ count (H.seen heap.new) }
{
    let key = index_key(alloc, index)?;
    heap.put(cell, &key, value)
}

/// Deletes the element at an index.
pub fn remove_at<H: Heap>(
    alloc: Global,
    heap: &mut H,
    cell: u32,
    index: u64,
) -> Result<bool, OpStop>
    requires { cell < count (H.seen heap.old) }
    ensures did { Takes (λ nu. ask (Remove (nu cell) (index_text index))) (λ nu b. b) result (H.seen heap.old) (H.seen heap.new) }
    ensures more { count (H.seen heap.old) ≤ count (H.seen heap.new) }
{
    let key = index_key(alloc, index)?;
    heap.remove(cell, &key)
}

/// The number that a value found is, 0 for all others.
fn natural(found: &Option<Value>) -> u64
    ensures value { (nu : Naming) → natural_in (option_map (val_in nu) found.now) ≡ result }
    ensures small { result ≤ 2 ^ 53 }
{
    match found {
        Some(Value::Number(number)) => {
            let number = number.get();
            if number < 0 { 0 } else { number as u64 }
        }
        _ => 0,
    }
}

/// The length of an array.
pub fn length<H: Heap>(alloc: Global, heap: &mut H, cell: u32) -> Result<u64, OpStop>
    requires { cell < count (H.seen heap.old) }
    ensures did { Takes (λ nu. length_of (nu cell)) (λ nu n. n) result (H.seen heap.old) (H.seen heap.new) }
    ensures more { count (H.seen heap.old) ≤ count (H.seen heap.new) }
    ensures small { IfOk result (λ n. n ≤ 2 ^ 53) }
{
    let key = length_key(alloc)?;
    let found = heap.get(cell, &key)?;
    Ok(natural(&found))
}

/// A number of the language.
pub fn whole(number: u64) -> Whole
    requires { number ≤ 2 ^ 53 }
    ensures { result ≡ pos number }
{
    Whole::make(number as i64)
}

/// Sets the length of an array.
pub fn set_length<H: Heap>(
    alloc: Global,
    heap: &mut H,
    cell: u32,
    length: u64,
) -> Result<(), OpStop>
    requires cell { cell < count (H.seen heap.old) }
    requires small { length ≤ 2 ^ 53 }
    ensures did { Takes (λ nu. set_length (nu cell) length) (λ nu u. u) result (H.seen heap.old) (H.seen heap.new) }
    ensures more { count (H.seen heap.old) ≤ count (H.seen heap.new) }
{
    let key = length_key(alloc)?;
    heap.put(cell, &key, Value::Number(whole(length)))
}

/// A text that is made pays its length, and has at most 1,048,576 units.
pub fn paid<H: Heap>(heap: &mut H, units: Units) -> Result<Units, OpStop>
    ensures did { Takes (λ nu. made units) (λ nu t. t) result (H.seen heap.old) (H.seen heap.new) }
    ensures more { count (H.seen heap.old) ≤ count (H.seen heap.new) }
{
    if units.len() > 1_048_576 {
        return Err(OpStop::TooLong);
    }
    heap.pay(units.len() as u64)?;
    Ok(units)
}

/// The primitive that a value is, or None for an object.
fn primitive(alloc: Global, value: &Value) -> Result<Option<Prim>, NoMemory>
    ensures { IfOk result (λ found. (nu : Naming) → IsPrimitive found (val_in nu value.now)) }
{
    match value {
        Value::Undefined => Ok(Some(Prim::Undefined)),
        Value::Null => Ok(Some(Prim::Null)),
        Value::Truth(truth) => Ok(Some(Prim::Truth(*truth))),
        Value::Number(number) => Ok(Some(Prim::Number(*number))),
        Value::Text(units) => Ok(Some(Prim::Text(units.copy(alloc)?))),
        Value::Object(_) => Ok(None),
    }
}

/// The text of a value; it pays its length where it isn't a text already.
pub fn text_of<H: Heap>(alloc: Global, heap: &mut H, value: &Value) -> Result<Units, OpStop>
    ensures did { Takes (λ nu. text_from (val_in nu value.now)) (λ nu t. t) result (H.seen heap.old) (H.seen heap.new) }
    ensures more { count (H.seen heap.old) ≤ count (H.seen heap.new) }
{
    if let Value::Text(units) = value {
        return Ok(units.copy(alloc)?);
    }
    match primitive(alloc, value)? {
        Some(found) => paid(heap, text(alloc, &found)?),
        None => Err(OpStop::NoPrimitive),
    }
}

/// A position: the number of a value, where what is no number counts as 0.
pub fn position(alloc: Global, value: &Value) -> Result<Whole, OpStop>
    ensures { (nu : Naming) → Answers (λ z. z) result (integer_in (val_in nu value.now)) }
{
    match primitive(alloc, value)? {
        None => Err(OpStop::NoPrimitive),
        Some(found) => match reading(&found) {
            Reading::Whole(number) => Ok(number),
            Reading::Nan => Ok(Whole::from_u32(0)),
            Reading::Outside => Err(OpStop::NotWhole),
        },
    }
}

/// A position that ends a part: a length for undefined.
pub fn end_position(alloc: Global, value: &Value, length: u64) -> Result<Whole, OpStop>
    requires { length ≤ 2 ^ 53 }
    ensures { (nu : Naming) → Answers (λ z. z) result (end_in (val_in nu value.now) length) }
{
    if let Value::Undefined = value {
        return Ok(whole(length));
    }
    position(alloc, value)
}
