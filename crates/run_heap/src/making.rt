//! The making of cells.
ghost use Rattle.std.specs.Prelude.{◌≡◌, ◌<◌, ◌≤◌, [], IfOk, IfErr, OnOk, false};
ghost use Rattle.turk_base.specs.State.{make as make_cell};
ghost use Rattle.turk_base.specs.Steps.{give, step, steps_of};
ghost use Rattle.turk_base.specs.Prog.{Make};
ghost use Rattle.value_cells.specs.Needs.{kind_needs};
ghost use Rattle.value_cells.specs.Held.{props_at, with_props};
ghost use Rattle.value_cells.specs.Seen.{kind_in};
ghost use Rattle.value_cells.specs.Does.{told};
ghost use Rattle.run_heap.specs.Core.{count, Rests};
ghost use Rattle.run_heap.specs.Making.{IsBare, AddsAt, array_props};
ghost use Rattle.run_heap.specs.Works.{Works};
ghost use Rattle.value_cells.specs.declared.CellKind.TheVariants.{Array};

use crate::RunHeap;
use crate::accesses::length_text;
use turk_base::Whole;
use value_cells::{CellKind, CellName, OpStop, Value};

impl RunHeap {
    // the name of the next cell of the scope that runs
    fn next_name(&self) -> Result<CellName, OpStop>
        ensures scope { IfOk result (λ n. n.scope ≡ self.now.place.path) }
        ensures number { IfOk result (λ n. n.number ≡ self.now.place.made) }
        ensures err { IfErr result (λ e. e ≡ OpStop.Memory) }
    {
        let Ok(number) = u32::try_from(self.place.made) else {
            return Err(OpStop::Memory);
        };
        match self.place.path.copy(self.alloc) {
            Ok(scope) => Ok(CellName { scope, number }),
            Err(_) => Err(OpStop::Memory),
        }
    }

    // a cell without properties, not charged; for want of memory nothing changes
    fn add_cell(&mut self, kind: CellKind) -> Result<u32, OpStop>
        requires { kind_needs kind ≤ count self.old }
        ensures adds { IfOk result (λ cell. AddsAt kind [] cell self.old self.new) }
        ensures err { IfErr result (λ e. (e ≡ OpStop.Memory) × (self.new ≡ self.old)) }
        ensures rests { Rests self.old self.new }
    {
        let name = match self.next_name() {
            Ok(name) => name,
            Err(_) => return Err(OpStop::Memory),
        };
        self.cells.known();
        if self.cells.count() >= 4294967295 {
            return Err(OpStop::Memory);
        }
        match self.cells.make(name, kind) {
            Ok(cell) => {
                self.place.made += 1;
                Ok(cell)
            }
            Err(_) => Err(OpStop::Memory),
        }
    }

    // a cell that is no array, not charged
    fn add_bare(&mut self, kind: CellKind) -> Result<u32, OpStop>
        requires kind { kind_needs kind ≤ count self.old }
        requires bare { IsBare kind }
        ensures did { Works (λ nu. step (make_cell false (kind_in nu kind)) give) (λ nu. told nu result) self.old self.new }
        ensures rests { Rests self.old self.new }
        ensures more { count self.old ≤ count self.new }
        ensures place { IfOk result (λ cell. cell ≡ count self.old) }
        ensures number { IfOk result (λ cell. cell < count self.new) }
    {
        self.known();
        self.add_cell(kind)
    }

    // the length of an array that has no property yet; for want of memory nothing changes
    fn begin_array(&mut self, cell: u32) -> Result<(), OpStop>
        requires cell { cell < count self.old }
        requires bare { props_at self.old.cells.now cell ≡ [] }
        ensures ok { OnOk result (self.new ≡ record self.old { cells = record self.old.cells { now = with_props self.old.cells.now cell array_props } }) }
        ensures err { IfErr result (λ e. (e ≡ OpStop.Memory) × (self.new ≡ self.old)) }
    {
        let key = match length_text(self.alloc) {
            Ok(key) => key,
            Err(_) => return Err(OpStop::Memory),
        };
        self.cells.known();
        self.cells
            .create(cell, key, Value::Number(Whole::from_u32(0)))?;
        Ok(())
    }

    // an array with its length, not charged
    fn add_array(&mut self) -> Result<u32, OpStop>
        ensures did { Works (λ nu. step (make_cell false (kind_in nu Array)) give) (λ nu. told nu result) self.old self.new }
        ensures rests { Rests self.old self.new }
        ensures more { count self.old ≤ count self.new }
        ensures place { IfOk result (λ cell. cell ≡ count self.old) }
        ensures number { IfOk result (λ cell. cell < count self.new) }
    {
        self.known();
        let cell = self.add_cell(CellKind::Array)?;
        self.begin_array(cell)?;
        Ok(cell)
    }

    /// Makes a cell of the scope that runs, an array with its length, without charge.
    pub fn add(&mut self, kind: CellKind) -> Result<u32, OpStop>
        requires { kind_needs kind ≤ count self.old }
        ensures did { Works (λ nu. step (make_cell false (kind_in nu kind)) give) (λ nu. told nu result) self.old self.new }
        ensures rests { Rests self.old self.new }
        ensures more { count self.old ≤ count self.new }
        ensures place { IfOk result (λ cell. cell ≡ count self.old) }
        ensures number { IfOk result (λ cell. cell < count self.new) }
    {
        match kind {
            CellKind::Array => self.add_array(),
            CellKind::Plain(_) => self.add_bare(kind),
            CellKind::Frame(_) => self.add_bare(kind),
            CellKind::Function(_, _) => self.add_bare(kind),
            CellKind::BuiltIn(_) => self.add_bare(kind),
        }
    }

    /// Makes a cell of the scope that runs, an array with its length, which costs 1, and answers its
    /// number.
    pub fn make(&mut self, kind: CellKind) -> Result<u32, OpStop>
        requires { kind_needs kind ≤ count self.old }
        ensures did { Works (λ nu. steps_of (Make (kind_in nu kind))) (λ nu. told nu result) self.old self.new }
        ensures rests { Rests self.old self.new }
        ensures more { count self.old ≤ count self.new }
        ensures place { IfOk result (λ cell. cell ≡ count self.old) }
        ensures number { IfOk result (λ cell. cell < count self.new) }
    {
        self.pay(1)?;
        self.add(kind)
    }
}
