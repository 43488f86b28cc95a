//! Each built-in call over a plain heap, with answers worked by hand from the language's rules.
ghost use Rattle.std.specs.Prelude.{◌<◌, ◌≤◌, IfOk};
ghost use Rattle.value_cells.specs.Needs.{needs, all_needs};
ghost use Rattle.value_cells.specs.Seen.{count};
ghost use Rattle.plain_heap.specs.Plain.{plain_seen};

use crate::PlainHeap;
use builtin_calls::{CallStop, call};
use std::alloc::Global;
use std::test::Fail;
use turk_base::{NoMemory, Units, Whole};
use value_cells::{CellKind, Heap, OpStop, Value};

fn called(
    alloc: Global,
    heap: &mut PlainHeap,
    which: u8,
    this: &Value,
    args: &[Value],
) -> Result<Value, CallStop>
    requires this { needs this.now ≤ count (plain_seen heap.old) }
    requires args { all_needs args.now ≤ count (plain_seen heap.old) }
    ensures more { count (plain_seen heap.old) ≤ count (plain_seen heap.new) }
    ensures exists { IfOk result (λ v. needs v ≤ count (plain_seen heap.new)) }
{
    heap.known();
    call(alloc, heap, which, this, args)
}

fn number(n: u32) -> Value
    ensures { needs result ≤ 0 }
{
    Value::Number(Whole::from_u32(n))
}

fn text(alloc: Global, bytes: &[u8]) -> Result<Value, NoMemory>
    ensures { IfOk result (λ v. needs v ≤ 0) }
{
    Ok(Value::Text(Units::from_bytes(alloc, bytes)?))
}

fn is_text(alloc: Global, answer: &Result<Value, CallStop>, want: &[u8]) -> bool {
    match (answer, Units::from_bytes(alloc, want)) {
        (Ok(Value::Text(units)), Ok(want)) => units.as_slice() == want.as_slice(),
        _ => false,
    }
}

fn is_number(answer: &Result<Value, CallStop>, want: i64) -> bool {
    match answer {
        Ok(Value::Number(number)) => number.get() == want,
        _ => false,
    }
}

/// Whether an answer is an array whose elements are these, joined by `-`.
fn joins(
    alloc: Global,
    heap: &mut PlainHeap,
    answer: Result<Value, CallStop>,
    want: &[u8],
) -> Result<bool, NoMemory>
    requires { IfOk answer (λ v. needs v ≤ count (plain_seen heap.old)) }
    ensures { count (plain_seen heap.old) ≤ count (plain_seen heap.new) }
{
    let dash = text(alloc, b"-")?;
    match answer {
        Ok(array) => {
            let joined = called(alloc, heap, 2, &array, &[dash]);
            Ok(is_text(alloc, &joined, want))
        }
        Err(_) => Ok(false),
    }
}

/// Whether an answer is an object with this property as a text.
fn has(
    alloc: Global,
    heap: &mut PlainHeap,
    answer: &Result<Value, CallStop>,
    key: &[u8],
    want: &[u8],
) -> Result<bool, NoMemory>
    requires { IfOk answer.now (λ v. needs v ≤ count (plain_seen heap.old)) }
    ensures { count (plain_seen heap.old) ≤ count (plain_seen heap.new) }
{
    let key = Units::from_bytes(alloc, key)?;
    let want = Units::from_bytes(alloc, want)?;
    match answer {
        Ok(Value::Object(cell)) => match heap.get(*cell, &key) {
            Ok(Some(Value::Text(units))) => Ok(units == want),
            _ => Ok(false),
        },
        _ => Ok(false),
    }
}

/// `push`, `pop` and `join`, over an empty array.
fn ends(alloc: Global, heap: &mut PlainHeap, cell: u32) -> bool
    requires { cell < count (plain_seen heap.old) }
    ensures { count (plain_seen heap.old) ≤ count (plain_seen heap.new) }
{
    let a = Value::Object(cell);
    let pushed = called(alloc, heap, 0, &a, &[number(7), Value::Null]);
    let popped = called(alloc, heap, 1, &a, &[]);
    let joined = called(alloc, heap, 2, &a, &[]);
    is_number(&pushed, 2) && matches!(popped, Ok(Value::Null)) && is_text(alloc, &joined, b"7")
}

/// `concat`, `slice` and `reverse`, over an array with a hole: 7, none, 9.
fn copies(alloc: Global, heap: &mut PlainHeap, cell: u32) -> Result<bool, NoMemory>
    requires { cell < count (plain_seen heap.old) }
    ensures { count (plain_seen heap.old) ≤ count (plain_seen heap.new) }
{
    let a = Value::Object(cell);
    let both = called(alloc, heap, 3, &a, &[number(5), Value::Object(cell)]);
    let first = joins(alloc, heap, both, b"7--9-5-7--9")?;
    let part = called(alloc, heap, 4, &a, &[number(1)]);
    let second = joins(alloc, heap, part, b"-9")?;
    let turned = called(alloc, heap, 5, &a, &[]);
    let third = joins(alloc, heap, turned, b"9--7")?;
    Ok(first && second && third)
}

/// Whether an array has no element there.
fn is_hole(alloc: Global, heap: &mut PlainHeap, cell: u32, index: &[u8]) -> Result<bool, NoMemory>
    requires { cell < count (plain_seen heap.old) }
    ensures { count (plain_seen heap.old) ≤ count (plain_seen heap.new) }
{
    let index = Units::from_bytes(alloc, index)?;
    Ok(matches!(heap.get(cell, &index), Ok(None)))
}

fn arrays(alloc: Global, heap: &mut PlainHeap) -> Result<bool, NoMemory> {
    let Ok(cell) = heap.make(CellKind::Array) else {
        return Ok(false);
    };
    let ended = ends(alloc, heap, cell);
    let two = Units::from_bytes(alloc, b"2")?;
    let put = heap.put(cell, &two, number(9)).is_ok();
    let copied = copies(alloc, heap, cell)?;
    let hole = is_hole(alloc, heap, cell, b"1")?;
    Ok(cell == 7 && ended && put && copied && hole)
}

/// The calls on a text that give a unit, a number, a part.
fn parts(alloc: Global, heap: &mut PlainHeap, abab: &Value, b: &Value) -> Result<bool, NoMemory>
    requires text { needs abab.now ≤ 0 }
    requires piece { needs b.now ≤ 0 }
{
    let unit = called(alloc, heap, 6, abab, &[number(1)]);
    let past = called(alloc, heap, 7, b, &[number(1)]);
    let code = called(alloc, heap, 7, abab, &[number(1)]);
    let place = called(alloc, heap, 8, abab, &[b.copy(alloc)?, number(2)]);
    let part = called(alloc, heap, 9, abab, &[number(3), number(1)]);
    Ok(
        is_text(alloc, &unit, b"b")
            && matches!(past, Err(CallStop::NotWhole))
            && is_number(&code, 98)
            && is_number(&place, 3)
            && is_text(alloc, &part, b"ba"),
    )
}

/// `split`, and a call that is none of a text's.
fn pieces(alloc: Global, heap: &mut PlainHeap, abab: &Value, b: Value) -> Result<bool, NoMemory>
    requires text { needs abab.now ≤ 0 }
    requires piece { needs b ≤ 0 }
{
    let units = called(alloc, heap, 10, abab, &[text(alloc, b"")?]);
    let first = joins(alloc, heap, units, b"a-b-a-b")?;
    let between = called(alloc, heap, 10, abab, &[b]);
    let second = joins(alloc, heap, between, b"a-a-")?;
    let thrown = called(alloc, heap, 0, abab, &[]);
    Ok(first && second && matches!(thrown, Err(CallStop::Throw(0, _))))
}

fn texts(alloc: Global, heap: &mut PlainHeap) -> Result<bool, NoMemory> {
    let abab = text(alloc, b"abab")?;
    let b = text(alloc, b"b")?;
    let parts = parts(alloc, heap, &abab, &b)?;
    let pieces = pieces(alloc, heap, &abab, b)?;
    Ok(parts && pieces)
}

/// An error of a kind, with its message and its name.
fn error(alloc: Global, heap: &mut PlainHeap, which: u8, name: &[u8]) -> Result<bool, NoMemory> {
    let made = called(alloc, heap, which, &Value::Undefined, &[number(3)]);
    let message = has(alloc, heap, &made, b"message", b"3")?;
    let name = has(alloc, heap, &made, b"name", name)?;
    Ok(message && name)
}

fn others(alloc: Global, heap: &mut PlainHeap) -> Result<bool, NoMemory> {
    let none = Value::Undefined;
    let units = called(alloc, heap, 11, &none, &[number(65_601), number(66)]);
    let truth = called(alloc, heap, 12, &none, &[Value::Truth(true)]);
    let general = error(alloc, heap, 13, b"Error")?;
    let of_type = error(alloc, heap, 14, b"TypeError")?;
    let of_name = error(alloc, heap, 15, b"ReferenceError")?;
    Ok(
        is_text(alloc, &units, b"AB")
            && is_text(alloc, &truth, b"true")
            && general
            && of_type
            && of_name,
    )
}

/// A text that is past the fuel, 2; then a cell for one, and what is left.
fn charges(alloc: Global, heap: &mut PlainHeap) -> Result<bool, NoMemory> {
    let abab = text(alloc, b"abab")?;
    let spent = called(alloc, heap, 9, &abab, &[]);
    let made = matches!(heap.make(CellKind::Array), Ok(7));
    let past = matches!(heap.pay(2), Err(OpStop::Spent));
    let paid = heap.pay(1).is_ok();
    Ok(matches!(spent, Err(CallStop::Spent)) && made && past && paid)
}

/// Each of the sixteen calls, over one heap.
fn all_calls(alloc: Global, heap: &mut PlainHeap) -> Result<bool, NoMemory> {
    let arrays = arrays(alloc, heap)?;
    let texts = texts(alloc, heap)?;
    let others = others(alloc, heap)?;
    Ok(arrays && texts && others)
}

#[test]
fn each_call_answers(rt: HostRuntime) -> Result<(), Fail> {
    let alloc = rt.alloc();
    let mut heap = PlainHeap::new(alloc, 1000)?;
    let answered = all_calls(alloc, &mut heap)?;
    assert!(rt; answered);
    Ok(())
}

#[test]
fn calls_are_charged(rt: HostRuntime) -> Result<(), Fail> {
    let alloc = rt.alloc();
    let mut heap = PlainHeap::new(alloc, 2)?;
    let charged = charges(alloc, &mut heap)?;
    assert!(rt; charged);
    Ok(())
}
