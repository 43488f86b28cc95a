//! A machine as a heap that tells which branches are absent, so that a call that is proved over any heap is seen to leave
//! them as they are.
ghost use Rattle.std.specs.Prelude.{◌≡◌};
ghost use Rattle.machine_host.specs.Guards.{guarded};

use eval_ops::Machine;
use turk_base::Units;
use value_cells::{CellKind, Heap, OpStop, Value};

/// A machine in the guise of a heap.
#[derive(Drop)]
pub struct Guarded {
    pub machine: Machine,
}

impl Heap for Guarded {
    ghost seen = { λ h. guarded h.machine };

    fn get(&mut self, cell: u32, key: &Units) -> Result<Option<Value>, OpStop> {
        self.machine.get(cell, key)
    }

    fn put(&mut self, cell: u32, key: &Units, value: Value) -> Result<(), OpStop> {
        self.machine.put(cell, key, value)
    }

    fn remove(&mut self, cell: u32, key: &Units) -> Result<bool, OpStop> {
        self.machine.remove(cell, key)
    }

    fn make(&mut self, kind: CellKind) -> Result<u32, OpStop> {
        self.machine.make(kind)
    }

    fn pay(&mut self, units: u64) -> Result<(), OpStop> {
        self.machine.pay(units)
    }

    fn kind(&self, cell: u32) -> &CellKind {
        self.machine.kind(cell)
    }
}
