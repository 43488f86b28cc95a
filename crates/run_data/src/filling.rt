//! Values put as the elements of an array.
ghost use Rattle.std.specs.Prelude.{◌≡◌, ◌<◌, ◌≤◌, IfOk, length, map, true};
ghost use Rattle.turk_base.specs.Steps.{element, fill as fills, give};
ghost use Rattle.value_cells.specs.Needs.{needs, all_needs};
ghost use Rattle.value_cells.specs.Seen.{val_in};
ghost use Rattle.value_cells.specs.Does.{told};
ghost use Rattle.run_heap.specs.Core.{count, Rests};
ghost use Rattle.run_heap.specs.Works.{Works};

use crate::keys::index_key;
use run_heap::RunHeap;
use std::alloc::Global;
use value_cells::{OpStop, Value};

// an element at an index, which costs 1, and the length after it
fn put_paid(
    alloc: Global,
    heap: &mut RunHeap,
    cell: u32,
    index: u32,
    value: Value,
) -> Result<(), OpStop>
    requires cell { cell < count heap.old }
    requires small { index < 1000000 }
    requires value { needs value ≤ count heap.old }
    ensures did { Works (λ nu. element true (nu cell) index (val_in nu value) (give tt)) (λ nu. told (λ u. u) result) heap.old heap.new }
    ensures rests { Rests heap.old heap.new }
    ensures count { count heap.new ≡ count heap.old }
{
    let key = index_key(alloc, index as u64)?;
    heap.set(cell, &key, value)?;
    heap.grow(cell, index)
}

/// Puts values as the elements of an array from index 0 on; each costs 1. It answers the array.
pub fn fill(alloc: Global, heap: &mut RunHeap, cell: u32, values: &[Value]) -> Result<Value, OpStop>
    requires cell { cell < count heap.old }
    requires few { length values.now ≤ 1000000 }
    requires values { all_needs values.now ≤ count heap.old }
    ensures did { Works (λ nu. fills (nu cell) 0 (map (val_in nu) values.now)) (λ nu. told (val_in nu) result) heap.old heap.new }
    ensures rests { Rests heap.old heap.new }
    ensures more { count heap.old ≤ count heap.new }
    ensures exists { IfOk result (λ v. needs v ≤ count heap.new) }
{
    for place in 0..values.len() {
        let value = values[place].copy(alloc)?;
        put_paid(alloc, heap, cell, place as u32, value)?;
    }
    Ok(Value::Object(cell))
}
