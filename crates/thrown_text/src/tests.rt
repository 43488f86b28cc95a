//! Thrown values with the texts that are told of them, worked by hand from the rules.
ghost use Rattle.std.specs.Prelude.{◌<◌, ◌≤◌, IfOk};
ghost use Rattle.value_cells.specs.Needs.{needs};
ghost use Rattle.value_cells.specs.Seen.{count};
ghost use Rattle.plain_heap.specs.Plain.{plain_seen};

use crate::uncaught_text;
use plain_heap::PlainHeap;
use std::alloc::Global;
use std::test::Fail;
use turk_base::{NoMemory, Units, Whole};
use value_cells::{CellKind, Heap, OpStop, Value};

/// Sets a property to a text.
fn set(
    alloc: Global,
    heap: &mut PlainHeap,
    cell: u32,
    key: &[u8],
    text: &[u8],
) -> Result<(), OpStop>
    requires { cell < count (plain_seen heap.old) }
    ensures { count (plain_seen heap.old) ≤ count (plain_seen heap.new) }
{
    let key = Units::from_bytes(alloc, key)?;
    heap.put(cell, &key, Value::Text(Units::from_bytes(alloc, text)?))
}

fn tells(alloc: Global, heap: &mut PlainHeap, value: &Value, want: &[u8]) -> Result<bool, NoMemory>
    requires { needs value.now ≤ count (plain_seen heap.old) }
    ensures { count (plain_seen heap.old) ≤ count (plain_seen heap.new) }
{
    let told = uncaught_text(alloc, heap, value)?;
    Ok(told == Units::from_bytes(alloc, want)?)
}

/// A named cell, a cell of it with a message, and a cell with neither.
fn objects(alloc: Global, heap: &mut PlainHeap) -> Result<bool, OpStop> {
    let kind = heap.make(CellKind::Plain(None))?;
    set(alloc, heap, kind, b"name", b"Late")?;
    let nameless = tells(alloc, heap, &Value::Object(kind), b"object")?;
    let error = heap.make(CellKind::Plain(Some(kind)))?;
    set(alloc, heap, error, b"message", b"no reply")?;
    let told = tells(alloc, heap, &Value::Object(error), b"Late: no reply")?;
    let array = heap.make(CellKind::Array)?;
    let bare = tells(alloc, heap, &Value::Object(array), b"object")?;
    Ok(nameless && told && bare)
}

fn primitives(alloc: Global, heap: &mut PlainHeap) -> Result<bool, NoMemory> {
    let number = tells(alloc, heap, &Value::Number(Whole::from_u32(7)), b"7")?;
    let truth = tells(alloc, heap, &Value::Truth(false), b"false")?;
    let null = tells(alloc, heap, &Value::Null, b"null")?;
    let none = tells(alloc, heap, &Value::Undefined, b"undefined")?;
    let text = tells(
        alloc,
        heap,
        &Value::Text(Units::from_bytes(alloc, b"stop")?),
        b"stop",
    )?;
    Ok(number && truth && null && none && text)
}

#[test]
fn thrown_values_are_told(rt: HostRuntime) -> Result<(), Fail> {
    let alloc = rt.alloc();
    let mut heap = PlainHeap::new(alloc, 100)?;
    let objects = matches!(objects(alloc, &mut heap), Ok(true));
    let primitives = primitives(alloc, &mut heap)?;
    assert!(rt; objects);
    assert!(rt; primitives);
    Ok(())
}
