//! Scopes: entered, left and taken back, left and kept.
ghost use Rattle.std.specs.Prelude.{◌≡◌, ◌<◌, ◌+◌, ◌∷◌, ◌++◌, [], length, IfOk, IfErr, OnOk, OnErr, if◌then◌else◌};
ghost use Rattle.value_cells.specs.Held.{Cell};
ghost use Rattle.branch_check.specs.Watch.{Kept};
ghost use Rattle.run_heap.specs.Core.{names_in};
ghost use Rattle.run_heap.specs.Scopes.{IsReady, Enters, LeavesBack, LeavesKeep};

use crate::{Opened, Place, RunHeap};
use slot_watch::SlotWatch;
use std::alloc::Global;
use std::mem;
use turk_base::{NoMemory, Path};
use value_cells::{Cells, OpStop};

// what taking back gives is noted of both; after want of memory both are as before
fn mark_both(cells: &mut Cells, slots: &mut SlotWatch) -> Result<Opened, NoMemory>
    requires { length cells.old.marks ≡ length slots.old.marks }
    ensures cells { OnOk result (cells.new.marks ≡ cells.old.marks ++ cells.old.now ∷ []) }
    ensures slots { OnOk result (slots.new.marks ≡ slots.old.marks ++ slots.old.current ∷ []) }
    ensures opened { IfOk result (λ o. o ≡ length cells.new.marks) }
    ensures now { cells.new.now ≡ cells.old.now }
    ensures current { (slots.new.current ≡ slots.old.current) × (slots.new.keys ≡ slots.old.keys) }
    ensures err { OnErr result ((cells.new ≡ cells.old) × (slots.new ≡ slots.old)) }
{
    let of_cells = cells.mark()?;
    match slots.mark() {
        Ok(of_slots) => {
            return Ok(Opened {
                cells: of_cells,
                slots: of_slots,
            });
        }
        Err(_) => {}
    }
    cells.keep(of_cells);
    Err(NoMemory)
}

// the branch of a scope that is entered: itself, or that of the scope around
fn holder(alloc: Global, path: &Path, around: &Path, branch: bool) -> Result<Path, NoMemory>
    ensures { IfOk result (λ p. p ≡ (if branch then path.now else around.now)) }
{
    if branch {
        return path.copy(alloc);
    }
    around.copy(alloc)
}

impl RunHeap {
    /// The path of the scope that runs.
    pub fn path(&self) -> &Path
        ensures { result.now ≡ self.now.place.path }
    {
        &self.place.path
    }

    /// How many calls of the scope that runs took an index.
    pub fn calls(&self) -> u32
        ensures { result ≡ self.now.place.calls }
    {
        self.place.calls
    }

    /// Takes the index of the next call of the scope that runs, and answers its path. After want of
    /// memory nothing changed.
    pub fn next_call(&mut self, alloc: Global) -> Result<Path, NoMemory>
        requires { self.old.place.calls < 4294967295 }
        ensures path { IfOk result (λ p. p ≡ self.old.place.path ++ self.old.place.calls ∷ []) }
        ensures ready { IfOk result (λ p. IsReady p self.new.place.path self.new.place.calls (names_in self.new.cells.now)) }
        ensures counted { OnOk result (self.new ≡ record self.old { place = record self.old.place { calls = self.old.place.calls + 1 } }) }
        ensures same { OnErr result (self.new ≡ self.old) }
    {
        let mut path = self.place.path.copy(alloc)?;
        path.push(self.place.calls)?;
        self.place.calls += 1;
        Ok(path)
    }

    /// Enters the scope of a call of the scope that runs, in which no cell was made: a branch, which
    /// holds itself, or a once body, which the branch around holds. After want of memory nothing
    /// changed.
    pub fn enter(&mut self, path: &Path, branch: bool) -> Result<Opened, OpStop>
        requires { IsReady path.now self.old.place.path self.old.place.calls (names_in self.old.cells.now) }
        ensures ok { OnOk result (Enters path.now branch self.old self.new) }
        ensures opened { IfOk result (λ o. o ≡ length self.new.outer) }
        ensures err { IfErr result (λ e. e ≡ OpStop.Memory) }
        ensures same { OnErr result (self.new ≡ self.old) }
    {
        let inner = path.copy(self.alloc)?;
        let held = holder(self.alloc, path, &self.place.branch, branch)?;
        if self.outer.reserve(1).is_err() {
            return Err(OpStop::Memory);
        }
        let opened = mark_both(&mut self.cells, &mut self.slots)?;
        let entered = Place {
            path: inner,
            branch: held,
            made: 0,
            calls: 0,
        };
        let around = mem::replace(&mut self.place, entered);
        let _ = self.outer.push(around);
        Ok(opened)
    }

    /// Leaves the newest open scope, and takes back all that was done in it but for the fuel. It takes
    /// no memory. It answers the path of the scope that was left.
    pub fn leave_back(&mut self, opened: Opened) -> Path
        requires open { 0 < length self.old.outer }
        requires newest { opened ≡ length self.old.outer }
        ensures back { LeavesBack self.old self.new }
        ensures path { result ≡ self.old.place.path }
    {
        self.cells.take_back(opened.cells);
        self.slots.take_back(opened.slots);
        let Some(around) = self.outer.pop() else {
            unreachable!()
        };
        let left = mem::replace(&mut self.place, around);
        left.path
    }

    /// Leaves the newest open scope, and keeps what was done in it. It takes no memory.
    pub fn leave_keep(&mut self, opened: Opened)
        requires open { 0 < length self.old.outer }
        requires newest { opened ≡ length self.old.outer }
        ensures { LeavesKeep self.old self.new }
    {
        self.cells.keep(opened.cells);
        self.slots.keep(opened.slots);
        let Some(around) = self.outer.pop() else {
            unreachable!()
        };
        self.place = around;
    }
}
