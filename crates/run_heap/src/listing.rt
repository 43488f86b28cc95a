//! The keys of a cell, alone and with those of its prototypes.
ghost use Rattle.std.specs.Prelude.{◌≡◌, ◌<◌, ◌≤◌, Some, IfOk, OnOk, slice_get, false, if◌then◌else◌};
ghost use Rattle.std.specs.Map.{keys_of};
ghost use Rattle.turk_base.specs.Cells.{put as put_at};
ghost use Rattle.turk_base.specs.State.{change};
ghost use Rattle.turk_base.specs.Steps.{give, step, steps_of, has_key as stands_in, add_keys, without_length};
ghost use Rattle.turk_base.specs.Prog.{Keys};
ghost use Rattle.value_cells.specs.Needs.{needs};
ghost use Rattle.value_cells.specs.Held.{kinds_of, props_at};
ghost use Rattle.value_cells.specs.Seen.{Naming, val_in, kind_in};
ghost use Rattle.value_cells.specs.Does.{told};
ghost use Rattle.run_heap.specs.Core.{count, Rests};
ghost use Rattle.run_heap.specs.Listing.{one_listed, add_one, hidden};
ghost use Rattle.run_heap.specs.Works.{Works};

use crate::RunHeap;
use crate::accesses::is_length;
use std::alloc::Global;
use turk_base::{NoMemory, Units};
use value_cells::{CellKind, OpStop, Value};

// whether a key is one of these
fn has_key(keys: &[Units], key: &Units) -> bool
    ensures { result ≡ stands_in key.now keys.now }
{
    for place in 0..keys.len() {
        if keys[place] == *key {
            return true;
        }
    }
    false
}

// a key after the others, if it is not one of them
fn add_key(alloc: Global, had: &mut Vec<Units>, key: &Units) -> Result<(), NoMemory>
    ensures { OnOk result (had.new.items ≡ add_one key.now had.old.items) }
{
    if has_key(had.as_slice(), key) {
        return Ok(());
    }
    let key = key.copy(alloc)?;
    if had.push(key).is_err() {
        return Err(NoMemory);
    }
    Ok(())
}

// whether a key of a cell of that kind is not listed
fn is_hidden(kind: CellKind, key: &Units) -> bool
    ensures { result ≡ hidden kind key.now }
{
    match kind {
        CellKind::Array => is_length(key),
        CellKind::Plain(_) => false,
        CellKind::Frame(_) => false,
        CellKind::Function(_, _) => false,
        CellKind::BuiltIn(_) => false,
    }
}

// a key of a cell of that kind after the others, if it is listed and not one of them
fn list_key(
    alloc: Global,
    kind: CellKind,
    had: &mut Vec<Units>,
    key: &Units,
) -> Result<(), NoMemory>
    ensures { OnOk result (had.new.items ≡ (if hidden kind key.now then had.old.items else add_one key.now had.old.items)) }
{
    if is_hidden(kind, key) {
        return Ok(());
    }
    add_key(alloc, had, key)
}

impl RunHeap {
    /// The keys of a cell in order. It touches nothing.
    pub fn keys(&self, cell: u32) -> Result<Vec<Units>, NoMemory>
        requires { cell < count self.now }
        ensures { IfOk result (λ keys. keys.items ≡ keys_of (props_at self.now.cells.now cell)) }
    {
        let mut keys = Vec::new(self.alloc);
        for place in 0..self.cells.keys(cell) {
            let Some(key) = self.cells.key_at(cell, place) else {
                unreachable!()
            };
            let key = key.copy(self.alloc)?;
            if keys.push(key).is_err() {
                return Err(NoMemory);
            }
        }
        Ok(keys)
    }

    // those keys of a cell that are listed and are not yet there
    fn add_listed(&self, cell: u32, had: &mut Vec<Units>) -> Result<(), NoMemory>
        requires { cell < count self.now }
        ensures { OnOk result ((kind : CellKind) (nu : Naming) → slice_get (kinds_of self.now.cells.now) cell ≡ Some kind → had.new.items ≡ add_keys had.old.items (without_length (kind_in nu kind) (keys_of (props_at self.now.cells.now cell)))) }
    {
        let kind = *self.kind(cell);
        let keys = self.keys(cell)?;
        for place in 0..keys.len() {
            list_key(self.alloc, kind, had, &keys[place])?;
        }
        Ok(())
    }

    // one cell's shape is touched, and its keys are listed after the others
    fn list_one(&mut self, cell: u32, had: &mut Vec<Units>) -> Result<(), OpStop>
        requires { cell < count self.old }
        ensures did { Works (λ nu. one_listed had.old.items (nu cell)) (λ nu. told (λ _. had.new.items) result) self.old self.new }
        ensures rests { Rests self.old self.new }
        ensures cells { self.new.cells ≡ self.old.cells }
    {
        self.known();
        self.touch_keys(cell);
        self.add_listed(cell, had)?;
        Ok(())
    }

    /// The keys that for-in lists for a cell: its own in order of creation, then those of its
    /// prototypes, each once; the `length` of an array is not listed. The shape of each cell is
    /// touched.
    pub fn listed(&mut self, cell: u32) -> Result<Vec<Units>, OpStop>
        requires { cell < count self.old }
        ensures did { Works (λ nu. steps_of (Keys (nu cell))) (λ nu. told (λ keys. keys.items) result) self.old self.new }
        ensures rests { Rests self.old self.new }
        ensures cells { self.new.cells ≡ self.old.cells }
    {
        self.known();
        let mut had = Vec::new(self.alloc);
        let mut at = cell;
        'chain: loop {
            self.list_one(at, &mut had)?;
            match self.above(at) {
                None => return Ok(had),
                Some(prototype) => at = prototype,
            }
        }
    }

    /// Sets a cell's own property, or creates it last, without charge.
    pub fn set_free(&mut self, cell: u32, key: &Units, value: Value) -> Result<(), OpStop>
        requires cell { cell < count self.old }
        requires value { needs value ≤ count self.old }
        ensures did { Works (λ nu. step (change false (nu cell) (put_at key.now (val_in nu value))) give) (λ nu. told (λ u. u) result) self.old self.new }
        ensures rests { Rests self.old self.new }
        ensures count { count self.new ≡ count self.old }
    {
        self.known();
        if self.has(cell, key) {
            return self.set_there(cell, key, value);
        }
        self.create(cell, key, value)
    }
}
