//! A heap that stands alone: cells and fuel, with the script's scope as the only one.
#![tactic(auto)]

ghost use Rattle.std.specs.Prelude.{◌≡◌, ◌≤◌, IfOk};
ghost use Rattle.builtin_calls.specs.Called.{HasBuiltIns};
ghost use Rattle.plain_heap.specs.Plain.{plain_seen, AtStart};

use run_heap::RunHeap;
use std::alloc::Global;
use std::marker::Model;
use turk_base::{NoMemory, Units};
use value_cells::{CellKind, Heap, OpStop, Value};

#[cfg(test)]
mod tests;

/// Cells and fuel. The script's scope is the only one, so a cell that is made is named by the empty
/// path and its number, and no slot is ever open.
///
/// Contracts see the parts of a run's heap; as a Heap it stands in a run that has nothing else.
#[derive(Drop)]
pub struct PlainHeap {
    heap: RunHeap,
}

impl Model for PlainHeap {
    ghost use Rattle.run_heap.specs.Core.{Core};

    ghost Value = { Core };

    ghost use Rattle.plain_heap.specs.Plain.{IsPlain};

    ghost view = { λ h. h.heap };

    ghost invariant = { λ h. IsPlain h.heap };
}

impl PlainHeap {
    /// The built-in cells 0 to 6, made without charge, and so much fuel. NoMemory comes for want of
    /// memory alone.
    pub fn new(alloc: Global, fuel: u64) -> Result<PlainHeap, NoMemory>
        requires { fuel ≤ 20000000 }
        ensures { IfOk result (λ heap. AtStart fuel (plain_seen heap)) }
    {
        Ok(PlainHeap {
            heap: RunHeap::new(alloc, fuel)?,
        })
    }

    /// Does nothing, and tells that the first seven cells are the built-in ones.
    pub fn known(&self)
        ensures { HasBuiltIns (plain_seen self.now) }
    {
        self.heap.known();
    }
}

/// Each call is the one of a run's heap, in a run that has nothing but this heap.
impl Heap for PlainHeap {
    ghost seen = { plain_seen };

    fn get(&mut self, cell: u32, key: &Units) -> Result<Option<Value>, OpStop> {
        self.heap.get(cell, key)
    }

    fn put(&mut self, cell: u32, key: &Units, value: Value) -> Result<(), OpStop> {
        self.heap.put(cell, key, value)
    }

    fn remove(&mut self, cell: u32, key: &Units) -> Result<bool, OpStop> {
        self.heap.remove(cell, key)
    }

    fn make(&mut self, kind: CellKind) -> Result<u32, OpStop> {
        self.heap.make(kind)
    }

    fn pay(&mut self, units: u64) -> Result<(), OpStop> {
        self.heap.pay(units)
    }

    fn kind(&self, cell: u32) -> &CellKind {
        self.heap.known();
        self.heap.kind(cell)
    }
}
