//! The setting of a property, with the rules of arrays (ECMA-262 3rd ed. 15.4.5.1).
ghost use Rattle.std.specs.Prelude.{◌≡◌, ◌<◌, ◌≤◌};
ghost use Rattle.turk_base.specs.Cells.{length_key, class_of, index};
ghost use Rattle.turk_base.specs.Steps.{steps_of, natural, set_length, length_from, put_element, put_in};
ghost use Rattle.turk_base.specs.Conversions.{number_in};
ghost use Rattle.turk_base.specs.Prog.{Put};
ghost use Rattle.turk_base.specs.Values as model;
ghost use Rattle.value_cells.specs.Needs.{needs};
ghost use Rattle.value_cells.specs.Seen.{val_in};
ghost use Rattle.value_cells.specs.Does.{told};
ghost use Rattle.run_heap.specs.Core.{count, Rests};
ghost use Rattle.run_heap.specs.Lengths.{is_array};
ghost use Rattle.run_heap.specs.Works.{Works};

use crate::RunHeap;
use crate::accesses::is_length;
use crate::classes::{KeyClass, class, length_in, number_of};
use turk_base::{Units, Whole};
use value_cells::{CellKind, OpStop, Value};

fn is_array(kind: CellKind) -> bool
    ensures { result ≡ is_array kind }
{
    match kind {
        CellKind::Array => true,
        CellKind::Plain(_) => false,
        CellKind::Frame(_) => false,
        CellKind::Function(_, _) => false,
        CellKind::BuiltIn(_) => false,
    }
}

impl RunHeap {
    // the length of an array is set
    fn put_length(&mut self, cell: u32, key: &Units, length: Whole) -> Result<(), OpStop>
        requires cell { cell < count self.old }
        requires key { key.now ≡ length_key }
        ensures did { Works (λ nu. set_length (nu cell) (natural length)) (λ nu. told (λ u. u) result) self.old self.new }
        ensures rests { Rests self.old self.new }
        ensures count { count self.new ≡ count self.old }
    {
        let Some(number) = length_in(length) else {
            return Err(OpStop::TooLong);
        };
        self.trim(cell, number)?;
        self.set(cell, key, Value::Number(length))
    }

    // the length of an array is set to the number of a value
    fn put_length_from(&mut self, cell: u32, key: &Units, value: &Value) -> Result<(), OpStop>
        requires cell { cell < count self.old }
        requires key { key.now ≡ length_key }
        ensures did { Works (λ nu. length_from (nu cell) (number_in (val_in nu value.now))) (λ nu. told (λ u. u) result) self.old self.new }
        ensures rests { Rests self.old self.new }
        ensures count { count self.new ≡ count self.old }
    {
        let length = number_of(self.alloc, value)?;
        self.put_length(cell, key, length)
    }

    // an element is set, and the length of its array raised past it
    fn put_index(&mut self, cell: u32, key: &Units, at: u32, value: Value) -> Result<(), OpStop>
        requires cell { cell < count self.old }
        requires class { class_of key.now ≡ index at }
        requires value { needs value ≤ count self.old }
        ensures did { Works (λ nu. put_element (nu cell) key.now (val_in nu value) (index at)) (λ nu. told (λ u. u) result) self.old self.new }
        ensures rests { Rests self.old self.new }
        ensures count { count self.new ≡ count self.old }
    {
        self.set(cell, key, value)?;
        self.grow(cell, at)
    }

    // a property of an array, other than its length, is set
    fn put_element(&mut self, cell: u32, key: &Units, value: Value) -> Result<(), OpStop>
        requires cell { cell < count self.old }
        requires value { needs value ≤ count self.old }
        ensures did { Works (λ nu. put_element (nu cell) key.now (val_in nu value) (class_of key.now)) (λ nu. told (λ u. u) result) self.old self.new }
        ensures rests { Rests self.old self.new }
        ensures count { count self.new ≡ count self.old }
    {
        match class(key.as_slice()) {
            KeyClass::Index(at) => self.put_index(cell, key, at, value),
            KeyClass::Past => Err(OpStop::TooLong),
            KeyClass::Named => self.set(cell, key, value),
        }
    }

    // a property of an array is set
    fn put_array(&mut self, cell: u32, key: &Units, value: Value) -> Result<(), OpStop>
        requires cell { cell < count self.old }
        requires value { needs value ≤ count self.old }
        ensures did { Works (λ nu. put_in model.Array (nu cell) key.now (val_in nu value)) (λ nu. told (λ u. u) result) self.old self.new }
        ensures rests { Rests self.old self.new }
        ensures count { count self.new ≡ count self.old }
    {
        if is_length(key) {
            return self.put_length_from(cell, key, &value);
        }
        self.put_element(cell, key, value)
    }

    /// Sets a cell's own property, or creates it last, which costs 1. On an array, `length` is set to
    /// the number of the value, and what stands at or past it is deleted from the highest index down;
    /// an element at or past the length raises it. TooLong comes exactly for a length below 0 or past
    /// 1,000,000 and for an index from 1,000,000 on; NotWhole and NoPrimitive exactly where `length` is
    /// set to what is no whole number in range, and to an object. Nothing changed then.
    pub fn put(&mut self, cell: u32, key: &Units, value: Value) -> Result<(), OpStop>
        requires cell { cell < count self.old }
        requires value { needs value ≤ count self.old }
        ensures did { Works (λ nu. steps_of (Put (nu cell) key.now (val_in nu value))) (λ nu. told (λ u. u) result) self.old self.new }
        ensures rests { Rests self.old self.new }
        ensures count { count self.new ≡ count self.old }
    {
        self.known();
        if is_array(*self.kind(cell)) {
            return self.put_array(cell, key, value);
        }
        self.set(cell, key, value)
    }
}
