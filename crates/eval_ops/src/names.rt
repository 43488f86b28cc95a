//! Names in frames, and the listing of keys.
ghost use Rattle.std.specs.Prelude.{◌≡◌, ◌<◌, ◌≤◌, true, false, None, IfOk, IsSome};
ghost use Rattle.turk_base.specs.Prog.{Keys, ReadName, WriteName, Declare};
ghost use Rattle.value_cells.specs.Needs.{needs};
ghost use Rattle.value_cells.specs.Held.{own};
ghost use Rattle.value_cells.specs.Seen.{val_in};
ghost use Rattle.value_cells.specs.Does.{Does, told};
ghost use Rattle.eval_ops.specs.Run.{seen_of, count};

use crate::Machine;
use turk_base::Units;
use value_cells::{OpStop, Value};

impl Machine {
    /// Whether a frame has a name. It touches and costs nothing.
    pub fn has(&self, frame: u32, name: &Units) -> bool
        requires { frame < count self.now }
        ensures there { result ≡ true → IsSome (own self.now.heap.cells.now frame name.now) }
        ensures missing { result ≡ false → own self.now.heap.cells.now frame name.now ≡ None }
    {
        self.heap.has(frame, name)
    }

    /// Reads a name that the frame has.
    pub fn read_name(&mut self, frame: u32, name: &Units) -> Result<Value, OpStop>
        requires frame { frame < count self.old }
        requires there { IsSome (own self.old.heap.cells.now frame name.now) }
        ensures did { Does (λ nu. ReadName (nu frame) name.now) (λ nu. told (val_in nu) result) (seen_of self.old) (seen_of self.new) }
        ensures more { count self.old ≤ count self.new }
        ensures gone { self.new.gone ≡ self.old.gone }
        ensures noted { self.new.left_back ≡ self.old.left_back }
        ensures exists { IfOk result (λ v. needs v ≤ count self.new) }
    {
        self.heap.read_name(frame, name)
    }

    /// Sets a name that the frame has.
    pub fn write_name(&mut self, frame: u32, name: &Units, value: Value) -> Result<(), OpStop>
        requires frame { frame < count self.old }
        requires there { IsSome (own self.old.heap.cells.now frame name.now) }
        requires value { needs value ≤ count self.old }
        ensures did { Does (λ nu. WriteName (nu frame) name.now (val_in nu value)) (λ nu. told (λ u. u) result) (seen_of self.old) (seen_of self.new) }
        ensures more { count self.old ≤ count self.new }
        ensures gone { self.new.gone ≡ self.old.gone }
        ensures noted { self.new.left_back ≡ self.old.left_back }
    {
        self.heap.write_name(frame, name, value)
    }

    /// Gives the frame a name that it has not, which costs 1.
    pub fn declare(&mut self, frame: u32, name: &Units, value: Value) -> Result<(), OpStop>
        requires frame { frame < count self.old }
        requires missing { own self.old.heap.cells.now frame name.now ≡ None }
        requires value { needs value ≤ count self.old }
        ensures did { Does (λ nu. Declare (nu frame) name.now (val_in nu value)) (λ nu. told (λ u. u) result) (seen_of self.old) (seen_of self.new) }
        ensures more { count self.old ≤ count self.new }
        ensures gone { self.new.gone ≡ self.old.gone }
        ensures noted { self.new.left_back ≡ self.old.left_back }
    {
        self.heap.declare(frame, name, value)
    }

    /// The keys that for-in lists for a cell, in their order, each once. The shape of each cell of the
    /// chain is touched.
    pub fn listed(&mut self, cell: u32) -> Result<Vec<Units>, OpStop>
        requires { cell < count self.old }
        ensures did { Does (λ nu. Keys (nu cell)) (λ nu. told (λ keys. keys.items) result) (seen_of self.old) (seen_of self.new) }
        ensures more { count self.old ≤ count self.new }
        ensures gone { self.new.gone ≡ self.old.gone }
        ensures noted { self.new.left_back ≡ self.old.left_back }
    {
        self.heap.listed(cell)
    }
}
