//! Data put: new cells of the scope that runs.
ghost use Rattle.std.specs.Prelude.{◌≡◌, ◌<◌, ◌≤◌, IfOk, length, false};
ghost use Rattle.turk_base.specs.Data.{DList, DFields, nesting, nesting_items, nesting_fields, items_of, fields_of};
ghost use Rattle.turk_base.specs.Node.{data_of, HasDistinctKeys};
ghost use Rattle.turk_base.specs.Steps.{element, give, pays, put_data as puts, put_items as puts_items, put_fields as puts_fields};
ghost use Rattle.value_cells.specs.Needs.{needs};
ghost use Rattle.value_cells.specs.Seen.{val_in};
ghost use Rattle.value_cells.specs.Does.{told};
ghost use Rattle.run_heap.specs.Core.{count, Rests};
ghost use Rattle.run_heap.specs.Works.{Works};
ghost use Rattle.run_data.specs.Short.{many, IsShort, AreItemsShort, AreFieldsShort};

use crate::keys::{index_key, key_cost};
use run_heap::RunHeap;
use std::alloc::Global;
use turk_base::{Data, Node, Units};
use value_cells::{CellKind, OpStop, Value};

// an element at an index, and the length after it; nothing is paid
fn put_element(
    alloc: Global,
    heap: &mut RunHeap,
    cell: u32,
    index: u32,
    value: Value,
) -> Result<(), OpStop>
    requires cell { cell < count heap.old }
    requires small { index < 1000000 }
    requires value { needs value ≤ count heap.old }
    ensures did { Works (λ nu. element false (nu cell) index (val_in nu value) (give tt)) (λ nu. told (λ u. u) result) heap.old heap.new }
    ensures rests { Rests heap.old heap.new }
    ensures count { count heap.new ≡ count heap.old }
{
    let key = index_key(alloc, index as u64)?;
    heap.set_free(cell, &key, value)?;
    heap.known();
    heap.grow(cell, index)
}

// a primitive, which is paid
fn paid(heap: &mut RunHeap, units: u64, value: Value) -> Result<Value, OpStop>
    requires { needs value ≤ count heap.old }
    ensures did { Works (λ nu. pays units (give (val_in nu value))) (λ nu. told (val_in nu) result) heap.old heap.new }
    ensures rests { Rests heap.old heap.new }
    ensures more { count heap.old ≤ count heap.new }
    ensures exists { IfOk result (λ v. needs v ≤ count heap.new) }
{
    heap.pay(units)?;
    Ok(value)
}

// a list's items put into a new array
#[cycle(putting)]
fn put_items(
    alloc: Global,
    heap: &mut RunHeap,
    cell: u32,
    items: &[Data],
    left: u32,
) -> Result<Value, OpStop>
    requires cell { cell < count heap.old }
    requires few { length items.now ≤ 1000000 }
    requires short { AreItemsShort (items_of items.now) }
    requires deep { nesting_items (items_of items.now) ≤ left }
    ensures did { Works (λ nu. puts_items (nu cell) 0 (items_of items.now)) (λ nu. told (val_in nu) result) heap.old heap.new }
    ensures rests { Rests heap.old heap.new }
    ensures more { count heap.old ≤ count heap.new }
    ensures exists { IfOk result (λ v. needs v ≤ count heap.new) }
{
    for place in 0..items.len() {
        let value = put_node(alloc, heap, items[place].node(), left)?;
        put_element(alloc, heap, cell, place as u32, value)?;
    }
    Ok(Value::Object(cell))
}

// fields put into a new plain cell: each pays 1 and its key
#[cycle(putting)]
fn put_fields(
    alloc: Global,
    heap: &mut RunHeap,
    cell: u32,
    fields: &[(Units, Data)],
    left: u32,
) -> Result<Value, OpStop>
    requires cell { cell < count heap.old }
    requires short { AreFieldsShort (fields_of fields.now) }
    requires deep { nesting_fields (fields_of fields.now) ≤ left }
    ensures did { Works (λ nu. puts_fields (nu cell) (fields_of fields.now)) (λ nu. told (val_in nu) result) heap.old heap.new }
    ensures rests { Rests heap.old heap.new }
    ensures more { count heap.old ≤ count heap.new }
    ensures exists { IfOk result (λ v. needs v ≤ count heap.new) }
{
    for field in fields {
        heap.pay(key_cost(&field.0))?;
        let value = put_node(alloc, heap, field.1.node(), left)?;
        heap.set_free(cell, &field.0, value)?;
    }
    Ok(Value::Object(cell))
}

// a list put: a new array
#[cycle(putting)]
fn put_list(alloc: Global, heap: &mut RunHeap, items: &[Data], left: u32) -> Result<Value, OpStop>
    requires few { length items.now ≤ 1000000 }
    requires short { AreItemsShort (items_of items.now) }
    requires deep { nesting_items (items_of items.now) < left }
    ensures did { Works (λ nu. puts (DList (items_of items.now))) (λ nu. told (val_in nu) result) heap.old heap.new }
    ensures rests { Rests heap.old heap.new }
    ensures more { count heap.old ≤ count heap.new }
    ensures exists { IfOk result (λ v. needs v ≤ count heap.new) }
{
    heap.pay(1)?;
    let cell = heap.add(CellKind::Array)?;
    put_items(alloc, heap, cell, items, left - 1)
}

// fields put: a new plain cell
#[cycle(putting)]
fn put_plain(
    alloc: Global,
    heap: &mut RunHeap,
    fields: &[(Units, Data)],
    left: u32,
) -> Result<Value, OpStop>
    requires short { AreFieldsShort (fields_of fields.now) }
    requires deep { nesting_fields (fields_of fields.now) < left }
    ensures did { Works (λ nu. puts (DFields (fields_of fields.now))) (λ nu. told (val_in nu) result) heap.old heap.new }
    ensures rests { Rests heap.old heap.new }
    ensures more { count heap.old ≤ count heap.new }
    ensures exists { IfOk result (λ v. needs v ≤ count heap.new) }
{
    heap.pay(1)?;
    let cell = heap.add(CellKind::Plain(None))?;
    put_fields(alloc, heap, cell, fields, left - 1)
}

// data of one node put; `left` is a bound on its nesting
#[cycle(putting)]
fn put_node(alloc: Global, heap: &mut RunHeap, node: &Node, left: u32) -> Result<Value, OpStop>
    requires short { IsShort (data_of node.now) }
    requires deep { nesting (data_of node.now) ≤ left }
    ensures did { Works (λ nu. puts (data_of node.now)) (λ nu. told (val_in nu) result) heap.old heap.new }
    ensures rests { Rests heap.old heap.new }
    ensures more { count heap.old ≤ count heap.new }
    ensures exists { IfOk result (λ v. needs v ≤ count heap.new) }
{
    match node {
        Node::Undefined => paid(heap, 1, Value::Undefined),
        Node::Null => paid(heap, 1, Value::Null),
        Node::Truth(truth) => paid(heap, 1, Value::Truth(*truth)),
        Node::Number(number) => paid(heap, 1, Value::Number(*number)),
        Node::Text(text) => {
            let copy = text.copy(alloc)?;
            paid(heap, text.len() as u64 + 1, Value::Text(copy))
        }
        Node::List(items) => put_list(alloc, heap, items, left),
        Node::Fields(fields) => put_plain(alloc, heap, fields, left),
    }
}

/// Puts a data: its value, with new cells of the scope that runs. It costs the data's size and no
/// more; Spent comes exactly past the fuel.
pub fn put_data(alloc: Global, heap: &mut RunHeap, from: &Data) -> Result<Value, OpStop>
    requires short { IsShort from.now }
    requires deep { nesting from.now ≤ 64 }
    ensures did { Works (λ nu. puts from.now) (λ nu. told (val_in nu) result) heap.old heap.new }
    ensures rests { Rests heap.old heap.new }
    ensures more { count heap.old ≤ count heap.new }
    ensures exists { IfOk result (λ v. needs v ≤ count heap.new) }
{
    put_node(alloc, heap, from.node(), 64)
}
