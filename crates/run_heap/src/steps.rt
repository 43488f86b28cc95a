//! The steps: one access of one cell, a charge.
ghost use Rattle.std.specs.Prelude.{◌≡◌, ◌-◌, ◌<◌, ◌≤◌, length, true, false, Some, None, IfOk, IfErr, OnOk, IsSome, slice_get};
ghost use Rattle.std.specs.Option.{option_map};
ghost use Rattle.turk_base.specs.Cells.{look as look_at, put as put_at, remove as remove_at, list as list_all};
ghost use Rattle.turk_base.specs.State.{charge, change};
ghost use Rattle.turk_base.specs.Steps.{give, step};
ghost use Rattle.value_cells.specs.Needs.{needs, option_needs, kind_needs};
ghost use Rattle.std.specs.Map.{keys_of, remove_entry};
ghost use Rattle.value_cells.specs.Held.{IsWhole, own, kinds_of, props_at, key_eq, with_props};
ghost use Rattle.value_cells.specs.Seen.{val_in, kind_in};
ghost use Rattle.value_cells.specs.Does.{told, Says};
ghost use Rattle.run_heap.specs.Core.{count, Rests};
ghost use Rattle.run_heap.specs.Whole.{IsCore};
ghost use Rattle.run_heap.specs.Works.{Works};

use crate::RunHeap;
use turk_base::Units;
use value_cells::{CellKind, OpStop, Value};

impl RunHeap {
    /// Does nothing, and tells what is true of each heap.
    pub fn known(&self)
        ensures cells { IsWhole self.now.cells.now }
        ensures core { IsCore self.now }
    {
        self.cells.known();
    }

    /// Pays so many units of fuel. Spent comes exactly where there are fewer, and then nothing changes.
    pub fn pay(&mut self, units: u64) -> Result<(), OpStop>
        ensures did { Works (λ nu. step (charge units) give) (λ nu. told (λ u. u) result) self.old self.new }
        ensures rests { Rests self.old self.new }
        ensures cells { self.new.cells ≡ self.old.cells }
        ensures paid { OnOk result ((units ≤ self.old.left) × (self.new ≡ record self.old { left = self.old.left - units })) }
        ensures spent { IfErr result (λ e. (e ≡ OpStop.Spent) × (self.old.left < units) × (self.new ≡ self.old)) }
    {
        if self.left < units {
            return Err(OpStop::Spent);
        }
        self.left -= units;
        Ok(())
    }

    /// The kind of a cell. A cell that it names was made before this one.
    pub fn kind(&self, cell: u32) -> &CellKind
        requires { cell < count self.now }
        ensures kind { slice_get (kinds_of self.now.cells.now) cell ≡ Some result.now }
        ensures older { kind_needs result.now ≤ cell }
    {
        self.cells.kind(cell)
    }

    /// Whether a cell has the property itself. It touches nothing.
    pub fn has(&self, cell: u32, key: &Units) -> bool
        requires { cell < count self.now }
        ensures there { result ≡ true → IsSome (own self.now.cells.now cell key.now) }
        ensures missing { result ≡ false → own self.now.cells.now cell key.now ≡ None }
    {
        match self.cells.read(cell, key) {
            Some(_) => true,
            None => false,
        }
    }

    /// A cell's own property, which is touched; where it is missing, the shape is.
    pub fn look(&mut self, cell: u32, key: &Units) -> Result<Option<Value>, OpStop>
        requires { cell < count self.old }
        ensures did { Works (λ nu. step (change true (nu cell) (look_at key.now)) give) (λ nu. told (option_map (val_in nu)) result) self.old self.new }
        ensures rests { Rests self.old self.new }
        ensures cells { self.new.cells ≡ self.old.cells }
        ensures value { IfOk result (λ v. v ≡ own self.old.cells.now cell key.now) }
        ensures exists { IfOk result (λ v. option_needs v ≤ count self.new) }
    {
        self.cells.known();
        match self.cells.read(cell, key) {
            None => {
                self.slots.touch_shape(cell, &self.place.branch);
                Ok(None)
            }
            Some(value) => {
                let copy = value.copy(self.alloc)?;
                self.slots.touch(cell, key, &self.place.branch);
                Ok(Some(copy))
            }
        }
    }

    /// Sets a cell's own property that is there.
    pub fn set_there(&mut self, cell: u32, key: &Units, value: Value) -> Result<(), OpStop>
        requires cell { cell < count self.old }
        requires there { IsSome (own self.old.cells.now cell key.now) }
        requires value { needs value ≤ count self.old }
        ensures did { Works (λ nu. step (change true (nu cell) (put_at key.now (val_in nu value))) give) (λ nu. told (λ u. u) result) self.old self.new }
        ensures rests { Rests self.old self.new }
        ensures count { count self.new ≡ count self.old }
    {
        self.cells.known();
        let maker = self.cells.name(cell);
        self.slots
            .wrote(cell, key, &self.place.branch, &maker.scope)?;
        self.cells.write(cell, key, value)?;
        Ok(())
    }

    /// Creates a cell's own property, last. The property isn't charged.
    pub fn create(&mut self, cell: u32, key: &Units, value: Value) -> Result<(), OpStop>
        requires cell { cell < count self.old }
        requires missing { own self.old.cells.now cell key.now ≡ None }
        requires value { needs value ≤ count self.old }
        ensures did { Works (λ nu. step (change false (nu cell) (put_at key.now (val_in nu value))) give) (λ nu. told (λ u. u) result) self.old self.new }
        ensures rests { Rests self.old self.new }
        ensures count { count self.new ≡ count self.old }
    {
        self.cells.known();
        let key = key.copy(self.alloc)?;
        let maker = self.cells.name(cell);
        self.slots
            .wrote(cell, &key, &self.place.branch, &maker.scope)?;
        self.slots
            .wrote_shape(cell, &self.place.branch, &maker.scope)?;
        self.cells.create(cell, key, value)?;
        Ok(())
    }

    /// Sets a cell's own property, or creates it last, which costs 1.
    pub fn set(&mut self, cell: u32, key: &Units, value: Value) -> Result<(), OpStop>
        requires cell { cell < count self.old }
        requires value { needs value ≤ count self.old }
        ensures did { Works (λ nu. step (change true (nu cell) (put_at key.now (val_in nu value))) give) (λ nu. told (λ u. u) result) self.old self.new }
        ensures rests { Rests self.old self.new }
        ensures count { count self.new ≡ count self.old }
    {
        self.known();
        if self.has(cell, key) {
            return self.set_there(cell, key, value);
        }
        self.pay(1)?;
        self.create(cell, key, value)
    }

    /// Deletes a cell's own property that is there.
    pub fn drop_there(&mut self, cell: u32, key: &Units) -> Result<(), OpStop>
        requires cell { cell < count self.old }
        requires there { IsSome (own self.old.cells.now cell key.now) }
        ensures did { Works (λ nu. step (change true (nu cell) (remove_at key.now)) give) (λ nu. told (λ u. u) result) self.old self.new }
        ensures rests { Rests self.old self.new }
        ensures cells { OnOk result (self.new.cells.now ≡ with_props self.old.cells.now cell (remove_entry (key_eq key.now) (props_at self.old.cells.now cell))) }
        ensures count { count self.new ≡ count self.old }
    {
        self.cells.known();
        let _keys = self.cells.keys(cell);
        let maker = self.cells.name(cell);
        self.slots
            .wrote(cell, key, &self.place.branch, &maker.scope)?;
        self.slots
            .wrote_shape(cell, &self.place.branch, &maker.scope)?;
        self.cells.delete(cell, key)?;
        Ok(())
    }

    // touches the shape for a key that is missing
    fn drop_missing(&mut self, cell: u32, key: &Units)
        requires cell { cell < count self.old }
        requires missing { own self.old.cells.now cell key.now ≡ None }
        ensures did { Works (λ nu. step (change true (nu cell) (remove_at key.now)) give) (λ nu. Says tt) self.old self.new }
        ensures rests { Rests self.old self.new }
        ensures count { count self.new ≡ count self.old }
    {
        self.cells.known();
        self.slots.touch_shape(cell, &self.place.branch);
    }

    /// Deletes a cell's own property, if it is there.
    pub fn drop_key(&mut self, cell: u32, key: &Units) -> Result<(), OpStop>
        requires { cell < count self.old }
        ensures did { Works (λ nu. step (change true (nu cell) (remove_at key.now)) give) (λ nu. told (λ u. u) result) self.old self.new }
        ensures rests { Rests self.old self.new }
        ensures count { count self.new ≡ count self.old }
    {
        if self.has(cell, key) {
            return self.drop_there(cell, key);
        }
        self.drop_missing(cell, key);
        Ok(())
    }

    /// Touches a cell's shape, as the listing of its keys does.
    pub fn touch_keys(&mut self, cell: u32)
        requires { cell < count self.old }
        ensures did { Works (λ nu. step (change true (nu cell) list_all) give) (λ nu. Says (keys_of (props_at self.old.cells.now cell))) self.old self.new }
        ensures rests { Rests self.old self.new }
        ensures cells { self.new.cells ≡ self.old.cells }
    {
        self.cells.known();
        self.slots.touch_shape(cell, &self.place.branch);
    }
}
