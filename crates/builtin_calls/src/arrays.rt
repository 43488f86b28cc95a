//! The calls on arrays (ECMA-262 3rd ed. 15.4.4.4 to 15.4.4.8, 15.4.4.10).
ghost use Rattle.std.specs.Prelude.{◌≡◌, ◌<◌, ◌≤◌, ◌+◌, ◌-◌, ◌/◌, ◌^◌, ◌∷◌, ◌++◌, [], map, IfOk, Some, if◌then◌else◌, ◌==◌};
ghost use Rattle.std.specs.Option.{option_map};
ghost use Rattle.turk_base.specs.Values.{Normal, Object};
ghost use Rattle.turk_base.specs.Prog.{Get, Put, ask};
ghost use Rattle.turk_base.specs.Errors.{index_text, or_undefined};
ghost use Rattle.turk_base.specs.BuiltIns as spec;
ghost use Rattle.value_cells.specs.Needs.{needs, option_needs, all_needs};
ghost use Rattle.value_cells.specs.Seen.{Naming, count, val_in};
ghost use Rattle.value_cells.specs.Does.{Runs, told};
ghost use Rattle.builtin_calls.specs.Gives.{Takes, Answers};

use crate::steps::{
    end_position, get_at, length, paid, position, put_at, remove_at, set_length, text_of, whole,
};
use std::alloc::Global;
use turk_base::{NoMemory, Units, Whole};
use value_cells::{CellKind, Heap, OpStop, Value};

/// Puts a value at the length of an array.
fn push_one<H: Heap>(alloc: Global, heap: &mut H, this: u32, value: &Value) -> Result<(), OpStop>
    requires this { this < count (H.seen heap.old) }
    requires value { needs value.now ≤ count (H.seen heap.old) }
    ensures did { Takes (λ nu go. spec.length_of (nu this) (λ n. ask (Put (nu this) (index_text n) (val_in nu value.now)) go)) (λ nu u. u) result (H.seen heap.old) (H.seen heap.new) }
    ensures more { count (H.seen heap.old) ≤ count (H.seen heap.new) }
{
    let length = length(alloc, heap, this)?;
    put_at(alloc, heap, this, length, value.copy(alloc)?)
}

/// `push`: puts each value at the length, and answers the new length.
pub fn push<H: Heap>(
    alloc: Global,
    heap: &mut H,
    this: u32,
    values: &[Value],
) -> Result<Value, OpStop>
    requires this { this < count (H.seen heap.old) }
    requires values { all_needs values.now ≤ count (H.seen heap.old) }
    ensures did { Runs (λ nu. spec.push (nu this) (map (val_in nu) values.now)) (λ nu. told (λ v. Normal (val_in nu v)) result) (H.seen heap.old) (H.seen heap.new) }
    ensures more { count (H.seen heap.old) ≤ count (H.seen heap.new) }
    ensures exists { IfOk result (λ v. needs v ≤ count (H.seen heap.new)) }
{
    for value in values {
        push_one(alloc, heap, this, value)?;
    }
    let length = length(alloc, heap, this)?;
    Ok(Value::Number(whole(length)))
}

/// What was found, or undefined.
fn or_undefined(found: Option<Value>) -> Value
    ensures value { (nu : Naming) → or_undefined (option_map (val_in nu) found) ≡ val_in nu result }
    ensures needs { needs result ≤ option_needs found }
{
    match found {
        Some(value) => value,
        None => Value::Undefined,
    }
}

/// `pop`: deletes the last element, lowers the length, and answers the element; undefined where
/// there is none, and then nothing is written.
pub fn pop<H: Heap>(alloc: Global, heap: &mut H, this: u32) -> Result<Value, OpStop>
    requires { this < count (H.seen heap.old) }
    ensures did { Runs (λ nu. spec.pop (nu this)) (λ nu. told (λ v. Normal (val_in nu v)) result) (H.seen heap.old) (H.seen heap.new) }
    ensures more { count (H.seen heap.old) ≤ count (H.seen heap.new) }
    ensures exists { IfOk result (λ v. needs v ≤ count (H.seen heap.new)) }
{
    let length = length(alloc, heap, this)?;
    if length == 0 {
        return Ok(Value::Undefined);
    }
    let last = length - 1;
    let found = get_at(alloc, heap, this, last)?;
    remove_at(alloc, heap, this, last)?;
    set_length(alloc, heap, this, last)?;
    Ok(or_undefined(found))
}

/// The text between elements: a comma for undefined.
fn separator_text<H: Heap>(alloc: Global, heap: &mut H, value: &Value) -> Result<Units, OpStop>
    ensures did { Takes (λ nu. spec.separator_in (val_in nu value.now)) (λ nu t. t) result (H.seen heap.old) (H.seen heap.new) }
    ensures more { count (H.seen heap.old) ≤ count (H.seen heap.new) }
{
    if let Value::Undefined = value {
        return Ok(Units::from_bytes(alloc, b",")?);
    }
    text_of(alloc, heap, value)
}

/// The text of a value that is an element: empty for undefined and null.
fn value_text<H: Heap>(alloc: Global, heap: &mut H, value: &Value) -> Result<Units, OpStop>
    ensures did { Takes (λ nu. spec.item_text (Some (val_in nu value.now))) (λ nu t. t) result (H.seen heap.old) (H.seen heap.new) }
    ensures more { count (H.seen heap.old) ≤ count (H.seen heap.new) }
{
    match value {
        Value::Undefined => Ok(Units::new(alloc)),
        Value::Null => Ok(Units::new(alloc)),
        _ => text_of(alloc, heap, value),
    }
}

/// The text of an element, empty for a hole.
fn item_text<H: Heap>(alloc: Global, heap: &mut H, item: &Option<Value>) -> Result<Units, OpStop>
    ensures did { Takes (λ nu. spec.item_text (option_map (val_in nu) item.now)) (λ nu t. t) result (H.seen heap.old) (H.seen heap.new) }
    ensures more { count (H.seen heap.old) ≤ count (H.seen heap.new) }
{
    match item {
        None => Ok(Units::new(alloc)),
        Some(value) => value_text(alloc, heap, value),
    }
}

/// The text of the element at an index.
fn text_at<H: Heap>(alloc: Global, heap: &mut H, cell: u32, index: u64) -> Result<Units, OpStop>
    requires { cell < count (H.seen heap.old) }
    ensures did { Takes (λ nu go. ask (Get (nu cell) (index_text index)) (λ v. spec.item_text v go)) (λ nu t. t) result (H.seen heap.old) (H.seen heap.new) }
    ensures more { count (H.seen heap.old) ≤ count (H.seen heap.new) }
{
    let item = get_at(alloc, heap, cell, index)?;
    item_text(alloc, heap, &item)
}

/// Adds the text of the element at an index, with a separator before all but the first.
fn add_text(text: &mut Units, separator: &Units, index: u64, piece: &Units) -> Result<(), NoMemory>
    ensures { IfOk result (λ _. text.new ≡ text.old ++ (if index == 0 then piece.now else separator.now ++ piece.now)) }
{
    if index > 0 {
        text.append(separator)?;
    }
    text.append(piece)
}

/// The texts of the elements below a length, with a separator between them.
fn joined<H: Heap>(
    alloc: Global,
    heap: &mut H,
    this: u32,
    separator: &Units,
    length: u64,
) -> Result<Units, OpStop>
    requires { this < count (H.seen heap.old) }
    ensures did { Takes (λ nu. spec.joined (nu this) separator.now length 0 []) (λ nu t. t) result (H.seen heap.old) (H.seen heap.new) }
    ensures more { count (H.seen heap.old) ≤ count (H.seen heap.new) }
{
    let mut text = Units::new(alloc);
    for i in 0..length {
        let piece = text_at(alloc, heap, this, i)?;
        add_text(&mut text, separator, i, &piece)?;
    }
    Ok(text)
}

/// `join`: the texts of the elements with a separator between them.
pub fn join<H: Heap>(
    alloc: Global,
    heap: &mut H,
    this: u32,
    separator: &Value,
) -> Result<Value, OpStop>
    requires { this < count (H.seen heap.old) }
    ensures did { Runs (λ nu. spec.join (nu this) (val_in nu separator.now)) (λ nu. told (λ v. Normal (val_in nu v)) result) (H.seen heap.old) (H.seen heap.new) }
    ensures more { count (H.seen heap.old) ≤ count (H.seen heap.new) }
    ensures exists { IfOk result (λ v. needs v ≤ count (H.seen heap.new)) }
{
    let length = length(alloc, heap, this)?;
    let separator = separator_text(alloc, heap, separator)?;
    let text = joined(alloc, heap, this, &separator, length)?;
    Ok(Value::Text(paid(heap, text)?))
}

/// Copies the element at an index of one array to an index of another; a hole stays one.
fn copy_item<H: Heap>(
    alloc: Global,
    heap: &mut H,
    from: u32,
    i: u64,
    to: u32,
    j: u64,
) -> Result<(), OpStop>
    requires from { from < count (H.seen heap.old) }
    requires to { to < count (H.seen heap.old) }
    ensures did { Takes (λ nu go. ask (Get (nu from) (index_text i)) (λ v. spec.put_found (nu to) j v go)) (λ nu u. u) result (H.seen heap.old) (H.seen heap.new) }
    ensures more { count (H.seen heap.old) ≤ count (H.seen heap.new) }
{
    match get_at(alloc, heap, from, i)? {
        Some(value) => put_at(alloc, heap, to, j, value),
        None => Ok(()),
    }
}

/// Copies so many elements from an index of one array on to those of another.
fn copy_items<H: Heap>(
    alloc: Global,
    heap: &mut H,
    from: u32,
    low: u64,
    to: u32,
    at: u64,
    number: u64,
) -> Result<(), OpStop>
    requires from { from < count (H.seen heap.old) }
    requires to { to < count (H.seen heap.old) }
    requires low { low + number < 2 ^ 64 }
    requires at { at + number < 2 ^ 64 }
    ensures did { Takes (λ nu. spec.count_up number 0 (λ i go. ask (Get (nu from) (index_text (low + i))) (λ v. spec.put_found (nu to) (at + i) v go))) (λ nu u. u) result (H.seen heap.old) (H.seen heap.new) }
    ensures more { count (H.seen heap.old) ≤ count (H.seen heap.new) }
{
    for i in 0..number {
        copy_item(alloc, heap, from, low + i, to, at + i)?;
    }
    Ok(())
}

/// A length that a number can say. None is longer: an array has at most 1,000,000 elements.
fn sayable(length: u64) -> Result<u64, NoMemory>
    ensures same { IfOk result (λ n. n ≡ length) }
    ensures small { IfOk result (λ n. n ≤ 2 ^ 53) }
{
    if length > 9_007_199_254_740_992 {
        return Err(NoMemory);
    }
    Ok(length)
}

/// Copies all elements of an array to another from an index on, and answers the index after them.
fn spread<H: Heap>(alloc: Global, heap: &mut H, out: u32, from: u32, at: u64) -> Result<u64, OpStop>
    requires out { out < count (H.seen heap.old) }
    requires from { from < count (H.seen heap.old) }
    requires small { at ≤ 2 ^ 53 }
    ensures did { Takes (λ nu go. spec.length_of (nu from) (λ n. spec.spread (nu out) (nu from) n at (λ _. go (at + n)))) (λ nu n. n) result (H.seen heap.old) (H.seen heap.new) }
    ensures more { count (H.seen heap.old) ≤ count (H.seen heap.new) }
    ensures small { IfOk result (λ n. n ≤ 2 ^ 53) }
{
    let length = length(alloc, heap, from)?;
    copy_items(alloc, heap, from, 0, out, at, length)?;
    Ok(sayable(at + length)?)
}

/// Puts a value at an index, and answers the index after it.
fn put_one<H: Heap>(
    alloc: Global,
    heap: &mut H,
    out: u32,
    value: &Value,
    at: u64,
) -> Result<u64, OpStop>
    requires out { out < count (H.seen heap.old) }
    requires value { needs value.now ≤ count (H.seen heap.old) }
    requires small { at ≤ 2 ^ 53 }
    ensures did { Takes (λ nu go. ask (Put (nu out) (index_text at) (val_in nu value.now)) (λ _. go (at + 1))) (λ nu n. n) result (H.seen heap.old) (H.seen heap.new) }
    ensures more { count (H.seen heap.old) ≤ count (H.seen heap.new) }
    ensures small { IfOk result (λ n. n ≤ 2 ^ 53) }
{
    put_at(alloc, heap, out, at, value.copy(alloc)?)?;
    Ok(sayable(at + 1)?)
}

/// Adds a piece from an index on, an array's elements for an array, and answers the index after it.
fn add_piece<H: Heap>(
    alloc: Global,
    heap: &mut H,
    out: u32,
    value: &Value,
    at: u64,
) -> Result<u64, OpStop>
    requires out { out < count (H.seen heap.old) }
    requires value { needs value.now ≤ count (H.seen heap.old) }
    requires small { at ≤ 2 ^ 53 }
    ensures did { Takes (λ nu go. spec.kind_in (val_in nu value.now) (λ kind. spec.add_piece (nu out) (val_in nu value.now) at kind go)) (λ nu n. n) result (H.seen heap.old) (H.seen heap.new) }
    ensures more { count (H.seen heap.old) ≤ count (H.seen heap.new) }
    ensures small { IfOk result (λ n. n ≤ 2 ^ 53) }
{
    match value {
        Value::Object(cell) => match heap.kind(*cell) {
            CellKind::Array => spread(alloc, heap, out, *cell, at),
            _ => put_one(alloc, heap, out, value, at),
        },
        _ => put_one(alloc, heap, out, value, at),
    }
}

/// Adds an array and further values, and answers the index after them.
fn pieces<H: Heap>(
    alloc: Global,
    heap: &mut H,
    out: u32,
    this: u32,
    values: &[Value],
) -> Result<u64, OpStop>
    requires out { out < count (H.seen heap.old) }
    requires this { this < count (H.seen heap.old) }
    requires values { all_needs values.now ≤ count (H.seen heap.old) }
    ensures did { Takes (λ nu. spec.pieces (nu out) (Object (nu this) ∷ map (val_in nu) values.now) 0) (λ nu n. n) result (H.seen heap.old) (H.seen heap.new) }
    ensures more { count (H.seen heap.old) ≤ count (H.seen heap.new) }
    ensures small { IfOk result (λ n. n ≤ 2 ^ 53) }
{
    let mut next = add_piece(alloc, heap, out, &Value::Object(this), 0)?;
    for value in values {
        next = add_piece(alloc, heap, out, value, next)?;
    }
    Ok(next)
}

/// `concat`: a new array of the elements, then the values; arrays are spread and keep their holes.
pub fn concat<H: Heap>(
    alloc: Global,
    heap: &mut H,
    this: u32,
    values: &[Value],
) -> Result<Value, OpStop>
    requires this { this < count (H.seen heap.old) }
    requires values { all_needs values.now ≤ count (H.seen heap.old) }
    ensures did { Runs (λ nu. spec.concat (nu this) (map (val_in nu) values.now)) (λ nu. told (λ v. Normal (val_in nu v)) result) (H.seen heap.old) (H.seen heap.new) }
    ensures more { count (H.seen heap.old) ≤ count (H.seen heap.new) }
    ensures exists { IfOk result (λ v. needs v ≤ count (H.seen heap.new)) }
{
    let out = heap.make(CellKind::Array)?;
    let length = pieces(alloc, heap, out, this, values)?;
    set_length(alloc, heap, out, length)?;
    Ok(Value::Object(out))
}

/// A position within a length, counted from its end where it is negative.
fn from_end(position: Whole, length: u64) -> u64
    ensures value { result ≡ spec.from_end position length }
    ensures within { result ≤ length }
{
    let position = position.get();
    if position < 0 {
        length.saturating_sub(position.unsigned_abs())
    } else {
        length.min(position as u64)
    }
}

/// `slice`: a new array of the elements from a position to before another, with their holes.
pub fn slice<H: Heap>(
    alloc: Global,
    heap: &mut H,
    this: u32,
    begin: &Value,
    end: &Value,
) -> Result<Value, OpStop>
    requires { this < count (H.seen heap.old) }
    ensures did { Runs (λ nu. spec.slice (nu this) (val_in nu begin.now) (val_in nu end.now)) (λ nu. told (λ v. Normal (val_in nu v)) result) (H.seen heap.old) (H.seen heap.new) }
    ensures more { count (H.seen heap.old) ≤ count (H.seen heap.new) }
    ensures exists { IfOk result (λ v. needs v ≤ count (H.seen heap.new)) }
{
    let out = heap.make(CellKind::Array)?;
    let length = length(alloc, heap, this)?;
    let start = position(alloc, begin)?;
    let stop = end_position(alloc, end, length)?;
    let low = from_end(start, length);
    let high = from_end(stop, length);
    let number = high.saturating_sub(low);
    copy_items(alloc, heap, this, low, out, 0, number)?;
    set_length(alloc, heap, out, number)?;
    Ok(Value::Object(out))
}

/// Puts what was found at an index; a hole deletes.
fn move_to<H: Heap>(
    alloc: Global,
    heap: &mut H,
    cell: u32,
    index: u64,
    found: Option<Value>,
) -> Result<(), OpStop>
    requires cell { cell < count (H.seen heap.old) }
    requires found { option_needs found ≤ count (H.seen heap.old) }
    ensures did { Takes (λ nu. spec.move_to (nu cell) index (option_map (val_in nu) found)) (λ nu u. u) result (H.seen heap.old) (H.seen heap.new) }
    ensures more { count (H.seen heap.old) ≤ count (H.seen heap.new) }
{
    match found {
        Some(value) => put_at(alloc, heap, cell, index, value),
        None => {
            remove_at(alloc, heap, cell, index)?;
            Ok(())
        }
    }
}

/// Puts what was found at two indexes in place of each other; two holes stay.
fn exchange<H: Heap>(
    alloc: Global,
    heap: &mut H,
    cell: u32,
    i: u64,
    j: u64,
    lower: Option<Value>,
    upper: Option<Value>,
) -> Result<(), OpStop>
    requires cell { cell < count (H.seen heap.old) }
    requires lower { option_needs lower ≤ count (H.seen heap.old) }
    requires upper { option_needs upper ≤ count (H.seen heap.old) }
    ensures did { Takes (λ nu. spec.swap (nu cell) i j (option_map (val_in nu) lower) (option_map (val_in nu) upper)) (λ nu u. u) result (H.seen heap.old) (H.seen heap.new) }
    ensures more { count (H.seen heap.old) ≤ count (H.seen heap.new) }
{
    if lower.is_none() && upper.is_none() {
        return Ok(());
    }
    move_to(alloc, heap, cell, i, upper)?;
    move_to(alloc, heap, cell, j, lower)
}

/// The elements at two indexes change places.
fn swap<H: Heap>(alloc: Global, heap: &mut H, cell: u32, i: u64, j: u64) -> Result<(), OpStop>
    requires { cell < count (H.seen heap.old) }
    ensures did { Takes (λ nu go. ask (Get (nu cell) (index_text i)) (λ lower. ask (Get (nu cell) (index_text j)) (λ upper. spec.swap (nu cell) i j lower upper go))) (λ nu u. u) result (H.seen heap.old) (H.seen heap.new) }
    ensures more { count (H.seen heap.old) ≤ count (H.seen heap.new) }
{
    let lower = get_at(alloc, heap, cell, i)?;
    let upper = get_at(alloc, heap, cell, j)?;
    exchange(alloc, heap, cell, i, j, lower, upper)
}

/// The elements below a length change places, the first with the last.
fn swap_all<H: Heap>(alloc: Global, heap: &mut H, cell: u32, length: u64) -> Result<(), OpStop>
    requires { cell < count (H.seen heap.old) }
    ensures did { Takes (λ nu. spec.count_up (length / 2) 0 (λ i go. ask (Get (nu cell) (index_text i)) (λ lower. ask (Get (nu cell) (index_text (length - 1 - i))) (λ upper. spec.swap (nu cell) i (length - 1 - i) lower upper go)))) (λ nu u. u) result (H.seen heap.old) (H.seen heap.new) }
    ensures more { count (H.seen heap.old) ≤ count (H.seen heap.new) }
{
    for i in 0..length / 2 {
        swap(alloc, heap, cell, i, length - 1 - i)?;
    }
    Ok(())
}

/// `reverse`: the elements in the other order, in place, with their holes; the array itself.
pub fn reverse<H: Heap>(alloc: Global, heap: &mut H, this: u32) -> Result<Value, OpStop>
    requires { this < count (H.seen heap.old) }
    ensures did { Runs (λ nu. spec.reverse_row (nu this)) (λ nu. told (λ v. Normal (val_in nu v)) result) (H.seen heap.old) (H.seen heap.new) }
    ensures more { count (H.seen heap.old) ≤ count (H.seen heap.new) }
    ensures exists { IfOk result (λ v. needs v ≤ count (H.seen heap.new)) }
{
    let length = length(alloc, heap, this)?;
    swap_all(alloc, heap, this, length)?;
    Ok(Value::Object(this))
}
