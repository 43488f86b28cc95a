//! A machine as a heap: each call is the one of a run's heap, and the absent branches stay as they are.
ghost use Rattle.std.specs.Prelude.{◌≡◌, ◌≤◌, ◌<◌, IfOk};
ghost use Rattle.std.specs.Option.{option_map};
ghost use Rattle.turk_base.specs.Prog.{Get, Put, Remove, Make, Pay};
ghost use Rattle.value_cells.specs.Needs.{needs, option_needs, kind_needs};
ghost use Rattle.value_cells.specs.Seen.{count, val_in, kind_in};
ghost use Rattle.value_cells.specs.Does.{Does, told};
ghost use Rattle.eval_ops.specs.Run.{seen_of};

use crate::Machine;
use turk_base::Units;
use value_cells::{CellKind, Heap, OpStop, Value};

impl Heap for Machine {
    ghost seen = { seen_of };

    fn get(&mut self, cell: u32, key: &Units) -> Result<Option<Value>, OpStop>
        requires { cell < count (seen_of self.old) }
        ensures did { Does (λ nu. Get (nu cell) key.now) (λ nu. told (option_map (val_in nu)) result) (seen_of self.old) (seen_of self.new) }
        ensures more { count (seen_of self.old) ≤ count (seen_of self.new) }
        ensures exists { IfOk result (λ v. option_needs v ≤ count (seen_of self.new)) }
        ensures gone { self.new.gone ≡ self.old.gone }
        ensures noted { self.new.left_back ≡ self.old.left_back }
    {
        self.heap.get(cell, key)
    }

    fn put(&mut self, cell: u32, key: &Units, value: Value) -> Result<(), OpStop>
        requires cell { cell < count (seen_of self.old) }
        requires value { needs value ≤ count (seen_of self.old) }
        ensures did { Does (λ nu. Put (nu cell) key.now (val_in nu value)) (λ nu. told (λ u. u) result) (seen_of self.old) (seen_of self.new) }
        ensures more { count (seen_of self.old) ≤ count (seen_of self.new) }
        ensures gone { self.new.gone ≡ self.old.gone }
        ensures noted { self.new.left_back ≡ self.old.left_back }
    {
        self.heap.put(cell, key, value)
    }

    fn remove(&mut self, cell: u32, key: &Units) -> Result<bool, OpStop>
        requires { cell < count (seen_of self.old) }
        ensures did { Does (λ nu. Remove (nu cell) key.now) (λ nu. told (λ b. b) result) (seen_of self.old) (seen_of self.new) }
        ensures more { count (seen_of self.old) ≤ count (seen_of self.new) }
        ensures gone { self.new.gone ≡ self.old.gone }
        ensures noted { self.new.left_back ≡ self.old.left_back }
    {
        self.heap.remove(cell, key)
    }

    fn make(&mut self, kind: CellKind) -> Result<u32, OpStop>
        requires { kind_needs kind ≤ count (seen_of self.old) }
        ensures did { Does (λ nu. Make (kind_in nu kind)) (λ nu. told nu result) (seen_of self.old) (seen_of self.new) }
        ensures more { count (seen_of self.old) ≤ count (seen_of self.new) }
        ensures exists { IfOk result (λ cell. cell < count (seen_of self.new)) }
        ensures gone { self.new.gone ≡ self.old.gone }
        ensures noted { self.new.left_back ≡ self.old.left_back }
    {
        self.heap.make(kind)
    }

    fn pay(&mut self, units: u64) -> Result<(), OpStop>
        ensures did { Does (λ nu. Pay units) (λ nu. told (λ u. u) result) (seen_of self.old) (seen_of self.new) }
        ensures more { count (seen_of self.old) ≤ count (seen_of self.new) }
        ensures gone { self.new.gone ≡ self.old.gone }
        ensures noted { self.new.left_back ≡ self.old.left_back }
    {
        self.heap.pay(units)
    }

    fn kind(&self, cell: u32) -> &CellKind {
        self.heap.known();
        self.heap.kind(cell)
    }
}
