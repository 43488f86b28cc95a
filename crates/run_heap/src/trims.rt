//! The length of an array falls, and rises.
ghost use Rattle.std.specs.Prelude.{◌≡◌, ◌<◌, true, IfOk, IsSome};
ghost use Rattle.std.specs.List.{IsDistinct};
ghost use Rattle.std.specs.Map.{keys_of};
ghost use Rattle.turk_base.specs.Cells.{doomed, trim as trim_at, grow as grow_at};
ghost use Rattle.turk_base.specs.State.{change};
ghost use Rattle.turk_base.specs.Steps.{give, step};
ghost use Rattle.value_cells.specs.Held.{props_at, own, key_eq};
ghost use Rattle.value_cells.specs.Does.{told};
ghost use Rattle.run_heap.specs.Core.{count, Rests};
ghost use Rattle.run_heap.specs.Lengths.{grows_in};
ghost use Rattle.run_heap.specs.Works.{Works};

use crate::RunHeap;
use crate::accesses::length_text;
use crate::classes::{add_down, element_past};
use turk_base::{NoMemory, Units, Whole};
use value_cells::{OpStop, Value};

impl RunHeap {
    // the keys that setting the length deletes, from the highest index down
    fn doomed(&self, cell: u32, length: u32) -> Result<Vec<Units>, NoMemory>
        requires { cell < count self.now }
        ensures { IfOk result (λ keys. keys.items ≡ doomed length (keys_of (props_at self.now.cells.now cell))) }
    {
        let mut keys = Vec::new(self.alloc);
        let mut lowest = 4_294_967_295;
        let mut place = self.cells.keys(cell);
        while place > 0 {
            place -= 1;
            let Some(key) = self.cells.key_at(cell, place) else {
                unreachable!()
            };
            if let Some(at) = element_past(key, length) {
                let key = key.copy(self.alloc)?;
                add_down(&mut keys, key, at, lowest)?;
                if at < lowest {
                    lowest = at;
                }
            }
        }
        Ok(keys)
    }

    /// Does nothing, and tells that a cell's keys are distinct.
    pub fn keys_differ(&self, cell: u32)
        requires { cell < count self.now }
        ensures { IsDistinct key_eq (keys_of (props_at self.now.cells.now cell)) }
    {
        self.cells.keys(cell);
    }

    /// Deletes an array's elements at or past a length, from the highest down.
    pub fn trim(&mut self, cell: u32, length: u32) -> Result<(), OpStop>
        requires { cell < count self.old }
        ensures did { Works (λ nu. step (change true (nu cell) (trim_at length)) give) (λ nu. told (λ u. u) result) self.old self.new }
        ensures rests { Rests self.old self.new }
        ensures count { count self.new ≡ count self.old }
    {
        let keys = match self.doomed(cell, length) {
            Ok(keys) => keys,
            Err(_) => return Err(OpStop::Memory),
        };
        for place in 0..keys.len() {
            self.known();
            self.keys_differ(cell);
            self.drop_there(cell, &keys[place])?;
        }
        self.known();
        Ok(())
    }

    // the length of an array, where it is at most an index
    fn short(&self, cell: u32, length: &Units, at: u32) -> bool
        requires { cell < count self.now }
        ensures grows { result ≡ grows_in at (own self.now.cells.now cell length.now) }
        ensures there { result ≡ true → IsSome (own self.now.cells.now cell length.now) }
    {
        match self.cells.read(cell, length) {
            Some(Value::Number(number)) => {
                let number = number.get();
                number >= 0 && number <= at as i64
            }
            _ => false,
        }
    }

    /// Sets the length of an array to one more than an index, where it is at most that index.
    pub fn grow(&mut self, cell: u32, at: u32) -> Result<(), OpStop>
        requires cell { cell < count self.old }
        requires small { at < 1000000 }
        ensures did { Works (λ nu. step (change true (nu cell) (grow_at at)) give) (λ nu. told (λ u. u) result) self.old self.new }
        ensures rests { Rests self.old self.new }
        ensures count { count self.new ≡ count self.old }
    {
        self.known();
        let length = match length_text(self.alloc) {
            Ok(length) => length,
            Err(_) => return Err(OpStop::Memory),
        };
        if self.short(cell, &length, at) {
            let next = Value::Number(Whole::from_u32(at + 1));
            return self.set_there(cell, &length, next);
        }
        Ok(())
    }
}
