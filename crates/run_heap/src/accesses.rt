//! The accesses of a run: properties along the prototypes, deletion, and names in frames.
ghost use Rattle.std.specs.Prelude.{◌≡◌, ◌<◌, ◌≤◌, ◌∷◌, [], None, IfErr, IfOk, IfSome, IsSome, MatchOption};
ghost use Rattle.std.specs.Option.{option_map};
ghost use Rattle.turk_base.specs.Cells.{length_key};
ghost use Rattle.turk_base.specs.Steps.{steps_of, drop_it, prototype_key};
ghost use Rattle.turk_base.specs.Prog.{Get, Remove, ReadName, WriteName, Declare};
ghost use Rattle.value_cells.specs.Needs.{needs, option_needs};
ghost use Rattle.value_cells.specs.Held.{own, kinds_of, key_eq};
ghost use Rattle.value_cells.specs.Seen.{val_in};
ghost use Rattle.value_cells.specs.Does.{told};
ghost use Rattle.run_heap.specs.Core.{count, Rests};
ghost use Rattle.run_heap.specs.Placed.{chain_of};
ghost use Rattle.run_heap.specs.Stays.{stays_in};
ghost use Rattle.run_heap.specs.Works.{Works};

use crate::RunHeap;
use std::alloc::Global;
use turk_base::Units;
use value_cells::{CellKind, OpStop, Value};

/// The key `length`.
const LENGTH: [u16; 6] = [108, 101, 110, 103, 116, 104];

/// The key `prototype`.
const PROTOTYPE: [u16; 9] = [112, 114, 111, 116, 111, 116, 121, 112, 101];

/// Whether a key is `length`.
pub fn is_length(key: &Units) -> bool
    ensures { result ≡ key_eq length_key key.now }
{
    LENGTH.as_slice() == key.as_slice()
}

/// The key `length` as a text.
pub fn length_text(alloc: Global) -> Result<Units, OpStop>
    ensures ok { IfOk result (λ key. key ≡ length_key) }
    ensures err { IfErr result (λ e. e ≡ OpStop.Memory) }
{
    match Units::from_slice(alloc, LENGTH.as_slice()) {
        Ok(key) => Ok(key),
        Err(_) => Err(OpStop::Memory),
    }
}

fn is_prototype(key: &Units) -> bool
    ensures { result ≡ key_eq prototype_key key.now }
{
    PROTOTYPE.as_slice() == key.as_slice()
}

// whether the key can't be deleted of a cell of that kind
fn stays(kind: CellKind, key: &Units) -> bool
    ensures { result ≡ stays_in kind key.now }
{
    match kind {
        CellKind::Plain(_) => false,
        CellKind::Frame(_) => false,
        CellKind::Array => is_length(key),
        CellKind::Function(_, _) => is_prototype(key),
        CellKind::BuiltIn(_) => is_prototype(key),
    }
}

impl RunHeap {
    /// The prototype of a cell, where it has one: a cell that was made before it.
    pub fn above(&self, cell: u32) -> Option<u32>
        requires { cell < count self.now }
        ensures chain { MatchOption result (chain_of (kinds_of self.now.cells.now) cell ≡ []) (λ p. chain_of (kinds_of self.now.cells.now) cell ≡ p ∷ chain_of (kinds_of self.now.cells.now) p) }
        ensures older { IfSome result (λ p. p < cell) }
    {
        self.cells.known();
        match *self.cells.kind(cell) {
            CellKind::Plain(prototype) => prototype,
            CellKind::Frame(_) => None,
            CellKind::Array => None,
            CellKind::Function(_, _) => None,
            CellKind::BuiltIn(_) => None,
        }
    }

    /// The property that a cell has, else the first of its prototypes that has the key, or None.
    pub fn get(&mut self, cell: u32, key: &Units) -> Result<Option<Value>, OpStop>
        requires { cell < count self.old }
        ensures did { Works (λ nu. steps_of (Get (nu cell) key.now)) (λ nu. told (option_map (val_in nu)) result) self.old self.new }
        ensures rests { Rests self.old self.new }
        ensures exists { IfOk result (λ v. option_needs v ≤ count self.new) }
    {
        self.known();
        let mut at = cell;
        'chain: loop {
            match self.look(at, key)? {
                Some(value) => return Ok(Some(value)),
                None => {}
            }
            match self.above(at) {
                None => return Ok(None),
                Some(prototype) => at = prototype,
            }
        }
    }

    // the own property deleted, if it is there
    fn take_out(&mut self, cell: u32, key: &Units) -> Result<bool, OpStop>
        requires { cell < count self.old }
        ensures did { Works (λ nu. drop_it (nu cell) key.now) (λ nu. told (λ b. b) result) self.old self.new }
        ensures rests { Rests self.old self.new }
        ensures count { count self.new ≡ count self.old }
    {
        self.drop_key(cell, key)?;
        Ok(true)
    }

    /// Deletes a cell's own property. Answers false for what can't be deleted, the `length` of an
    /// array and the `prototype` of a function, else true.
    pub fn remove(&mut self, cell: u32, key: &Units) -> Result<bool, OpStop>
        requires { cell < count self.old }
        ensures did { Works (λ nu. steps_of (Remove (nu cell) key.now)) (λ nu. told (λ b. b) result) self.old self.new }
        ensures rests { Rests self.old self.new }
        ensures count { count self.new ≡ count self.old }
    {
        self.known();
        let kind = *self.kind(cell);
        if stays(kind, key) {
            return Ok(false);
        }
        self.take_out(cell, key)
    }

    /// Reads a name that the frame has.
    pub fn read_name(&mut self, frame: u32, name: &Units) -> Result<Value, OpStop>
        requires frame { frame < count self.old }
        requires there { IsSome (own self.old.cells.now frame name.now) }
        ensures did { Works (λ nu. steps_of (ReadName (nu frame) name.now)) (λ nu. told (val_in nu) result) self.old self.new }
        ensures rests { Rests self.old self.new }
        ensures cells { self.new.cells ≡ self.old.cells }
        ensures exists { IfOk result (λ v. needs v ≤ count self.new) }
    {
        match self.look(frame, name)? {
            Some(value) => Ok(value),
            None => unreachable!(),
        }
    }

    /// Sets a name that the frame has.
    pub fn write_name(&mut self, frame: u32, name: &Units, value: Value) -> Result<(), OpStop>
        requires frame { frame < count self.old }
        requires there { IsSome (own self.old.cells.now frame name.now) }
        requires value { needs value ≤ count self.old }
        ensures did { Works (λ nu. steps_of (WriteName (nu frame) name.now (val_in nu value))) (λ nu. told (λ u. u) result) self.old self.new }
        ensures rests { Rests self.old self.new }
        ensures count { count self.new ≡ count self.old }
    {
        self.set_there(frame, name, value)
    }

    /// Gives the frame a name that it has not, which costs 1.
    pub fn declare(&mut self, frame: u32, name: &Units, value: Value) -> Result<(), OpStop>
        requires frame { frame < count self.old }
        requires missing { own self.old.cells.now frame name.now ≡ None }
        requires value { needs value ≤ count self.old }
        ensures did { Works (λ nu. steps_of (Declare (nu frame) name.now (val_in nu value))) (λ nu. told (λ u. u) result) self.old self.new }
        ensures rests { Rests self.old self.new }
        ensures count { count self.new ≡ count self.old }
    {
        self.set(frame, name, value)
    }
}
