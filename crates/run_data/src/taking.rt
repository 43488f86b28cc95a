//! Data taken from values. The shapes and the values that are read are touched; no cell changes.
ghost use Rattle.std.specs.Prelude.{◌≡◌, ◌<◌, ◌≤◌, ℕ, Option, IfOk, IfSome, IsSome};
ghost use Rattle.std.specs.Fmt.{decimal};
ghost use Rattle.std.specs.Map.{keys_of};
ghost use Rattle.std.specs.Option.{option_map};
ghost use Rattle.turk_base.specs.Names.{Name};
ghost use Rattle.turk_base.specs.Values.{Object, Array, Plain};
ghost use Rattle.turk_base.specs.Data.{items_of, fields_of};
ghost use Rattle.turk_base.specs.Node.{data_of, HasDistinctKeys};
ghost use Rattle.turk_base.specs.Cells.{look as look_at};
ghost use Rattle.turk_base.specs.Steps.{edit, there, give, pays, taking, take as takes, take_cell, take_items as takes_items, take_fields as takes_fields};
ghost use Rattle.value_cells.specs.Held.{own, props_at};
ghost use Rattle.value_cells.specs.Needs.{needs};
ghost use Rattle.value_cells.specs.Seen.{Naming, val_in};
ghost use Rattle.value_cells.specs.Does.{told};
ghost use Rattle.run_heap.specs.Core.{count, Rests};
ghost use Rattle.run_heap.specs.Works.{Works};
ghost use Rattle.run_data.specs.Taken.{told_taken};

use crate::elements::elements;
use crate::keys::{index_key, key_cost};
use run_heap::{RunHeap, length_text};
use std::alloc::Global;
use turk_base::{Data, Node, Units};
use value_cells::{CellKind, OpStop, Value};

// a property that the cell has
fn look_there(heap: &mut RunHeap, cell: u32, key: &Units) -> Result<Value, OpStop>
    requires cell { cell < count heap.old }
    requires there { IsSome (own heap.old.cells.now cell key.now) }
    ensures did { Works (λ nu. edit (nu cell) (look_at key.now) there) (λ nu. told (val_in nu) result) heap.old heap.new }
    ensures rests { Rests heap.old heap.new }
    ensures cells { heap.new.cells ≡ heap.old.cells }
    ensures exists { IfOk result (λ v. needs v ≤ count heap.new) }
{
    heap.read_name(cell, key)
}

// a primitive, which is paid
fn taken(heap: &mut RunHeap, units: u64, node: Node) -> Result<Option<Data>, OpStop>
    requires { HasDistinctKeys node }
    ensures did { Works (λ nu. pays units (give (data_of node))) (λ nu. told_taken (λ d. d) result) heap.old heap.new }
    ensures rests { Rests heap.old heap.new }
    ensures cells { heap.new.cells ≡ heap.old.cells }
{
    heap.pay(units)?;
    Ok(Some(Data::make(node)))
}

// the elements of an array from index 0 on
#[cycle(taking)]
fn take_items(
    alloc: Global,
    heap: &mut RunHeap,
    cell: u32,
    many: u64,
    left: u32,
) -> Result<Option<Vec<Data>>, OpStop>
    requires cell { cell < count heap.old }
    requires there { (i : ℕ) → i < many → IsSome (own heap.old.cells.now cell (decimal i)) }
    ensures did { Works (λ nu. takes_items (takes left) (nu cell) 0 many) (λ nu. told_taken (λ ds. items_of ds.items) result) heap.old heap.new }
    ensures rests { Rests heap.old heap.new }
    ensures cells { heap.new.cells ≡ heap.old.cells }
{
    let mut items = Vec::new(alloc);
    for place in 0..many {
        let key = index_key(alloc, place)?;
        let value = look_there(heap, cell, &key)?;
        match take_value(alloc, heap, &value, left)? {
            None => return Ok(None),
            Some(item) => {
                if items.push(item).is_err() {
                    return Err(OpStop::Memory);
                }
            }
        }
    }
    Ok(Some(items))
}

// the fields of a cell that has these keys: each pays 1 and its key
#[cycle(taking)]
fn take_fields(
    alloc: Global,
    heap: &mut RunHeap,
    cell: u32,
    keys: &[Units],
    left: u32,
) -> Result<Option<Vec<(Units, Data)>>, OpStop>
    requires cell { cell < count heap.old }
    requires all { keys.now ≡ keys_of (props_at heap.old.cells.now cell) }
    ensures did { Works (λ nu. takes_fields (takes left) (nu cell) keys.now) (λ nu. told_taken (λ fs. fields_of fs.items) result) heap.old heap.new }
    ensures rests { Rests heap.old heap.new }
    ensures cells { heap.new.cells ≡ heap.old.cells }
    ensures keys { IfOk result (λ taken. IfSome taken (λ fs. keys_of fs.items ≡ keys.now)) }
{
    let mut fields = Vec::new(alloc);
    for key in keys {
        heap.pay(key_cost(key))?;
        let value = look_there(heap, cell, key)?;
        match take_value(alloc, heap, &value, left)? {
            None => return Ok(None),
            Some(data) => {
                let name = key.copy(alloc)?;
                if fields.push((name, data)).is_err() {
                    return Err(OpStop::Memory);
                }
            }
        }
    }
    Ok(Some(fields))
}

// an array, where its keys but for `length` are just its elements
#[cycle(taking)]
fn take_array(
    alloc: Global,
    heap: &mut RunHeap,
    cell: u32,
    left: u32,
) -> Result<Option<Data>, OpStop>
    requires { cell < count heap.old }
    ensures did { Works (λ nu. take_cell (takes left) (nu cell) Array) (λ nu. told_taken (λ d. d) result) heap.old heap.new }
    ensures rests { Rests heap.old heap.new }
    ensures cells { heap.new.cells ≡ heap.old.cells }
{
    heap.pay(1)?;
    let keys = heap.keys(cell)?;
    let name = length_text(alloc)?;
    heap.keys_differ(cell);
    heap.touch_keys(cell);
    let length = heap.look(cell, &name)?;
    match elements(&keys, &length) {
        None => Ok(None),
        Some(many) => match take_items(alloc, heap, cell, many, left)? {
            None => Ok(None),
            Some(items) => Ok(Some(Data::make(Node::List(items)))),
        },
    }
}

// a plain cell
#[cycle(taking)]
fn take_plain(
    alloc: Global,
    heap: &mut RunHeap,
    cell: u32,
    left: u32,
) -> Result<Option<Data>, OpStop>
    requires { cell < count heap.old }
    ensures did { (proto : Naming → Option Name) → Works (λ nu. take_cell (takes left) (nu cell) (Plain (proto nu))) (λ nu. told_taken (λ d. d) result) heap.old heap.new }
    ensures rests { Rests heap.old heap.new }
    ensures cells { heap.new.cells ≡ heap.old.cells }
{
    heap.pay(1)?;
    let keys = heap.keys(cell)?;
    heap.keys_differ(cell);
    heap.touch_keys(cell);
    match take_fields(alloc, heap, cell, &keys, left)? {
        None => Ok(None),
        Some(fields) => Ok(Some(Data::make(Node::Fields(fields)))),
    }
}

// a cell, where `left` levels may still be opened
#[cycle(taking)]
fn take_object(
    alloc: Global,
    heap: &mut RunHeap,
    cell: u32,
    left: u32,
) -> Result<Option<Data>, OpStop>
    requires { cell < count heap.old }
    ensures did { Works (λ nu. takes left (Object (nu cell))) (λ nu. told_taken (λ d. d) result) heap.old heap.new }
    ensures rests { Rests heap.old heap.new }
    ensures cells { heap.new.cells ≡ heap.old.cells }
{
    if left == 0 {
        return Ok(None);
    }
    heap.known();
    match *heap.kind(cell) {
        CellKind::Array => take_array(alloc, heap, cell, left - 1),
        CellKind::Plain(_) => take_plain(alloc, heap, cell, left - 1),
        CellKind::Frame(_) => Ok(None),
        CellKind::Function(_, _) => Ok(None),
        CellKind::BuiltIn(_) => Ok(None),
    }
}

// a value, where `left` levels may still be opened
#[cycle(taking)]
fn take_value(
    alloc: Global,
    heap: &mut RunHeap,
    value: &Value,
    left: u32,
) -> Result<Option<Data>, OpStop>
    requires { needs value.now ≤ count heap.old }
    ensures did { Works (λ nu. takes left (val_in nu value.now)) (λ nu. told_taken (λ d. d) result) heap.old heap.new }
    ensures rests { Rests heap.old heap.new }
    ensures cells { heap.new.cells ≡ heap.old.cells }
{
    match value {
        Value::Undefined => taken(heap, 1, Node::Undefined),
        Value::Null => taken(heap, 1, Node::Null),
        Value::Truth(truth) => taken(heap, 1, Node::Truth(*truth)),
        Value::Number(number) => taken(heap, 1, Node::Number(*number)),
        Value::Text(text) => {
            let copy = text.copy(alloc)?;
            taken(heap, text.len() as u64 + 1, Node::Text(copy))
        }
        Value::Object(cell) => take_object(alloc, heap, *cell, left),
    }
}

/// Takes the data of a value, which costs its size; None exactly where it has none: a function, an
/// array whose keys are not just the indexes below its length, what is nested over 64 deep.
pub fn take(alloc: Global, heap: &mut RunHeap, value: &Value) -> Result<Option<Data>, OpStop>
    requires { needs value.now ≤ count heap.old }
    ensures did { Works (λ nu. taking (val_in nu value.now)) (λ nu. told_taken (λ d. d) result) heap.old heap.new }
    ensures rests { Rests heap.old heap.new }
    ensures cells { heap.new.cells ≡ heap.old.cells }
{
    take_value(alloc, heap, value, 64)
}
