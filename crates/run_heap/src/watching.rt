//! The verdict rule: once calls, joining, throws, and the verdict by names.
ghost use Rattle.std.specs.Prelude.{◌≡◌, ◌<◌, IfOk, IfErr, OnOk, OnErr};
ghost use Rattle.turk_base.specs.Names.{path_in, slot};
ghost use Rattle.turk_base.specs.Told.{slot_key_told, slot_told, verdict_told};
ghost use Rattle.branch_check.specs.Watch.{after_once, after_join, after_throw};
ghost use Rattle.value_cells.specs.Seen.{Naming, Fits};
ghost use Rattle.slot_watch.specs.Keys.{part_in};
ghost use Rattle.slot_watch.specs.Named.{named};
ghost use Rattle.run_heap.specs.Core.{count, names_in, Rests};
ghost use Rattle.run_heap.specs.Watching.{Watches};

use crate::RunHeap;
use branch_check::Found;
use std::alloc::Global;
use turk_base::{NoMemory, Path, SlotKey, SlotName, Verdict};
use value_cells::OpStop;

impl RunHeap {
    /// A once call in the branch that runs. It takes no memory.
    pub fn once_at(&mut self)
        ensures did { Watches (λ w. after_once (path_in self.old.place.branch) w) self.old self.new }
        ensures rests { Rests self.old self.new }
    {
        self.cells.known();
        self.slots.once_at(&self.place.branch);
    }

    /// Branches join in the scope that runs. After want of memory nothing changed.
    pub fn joined(&mut self) -> Result<(), OpStop>
        ensures did { OnOk result (Watches (λ w. after_join (path_in self.old.place.path) w) self.old self.new) }
        ensures rests { Rests self.old self.new }
        ensures err { IfErr result (λ e. e ≡ OpStop.Memory) }
        ensures same { OnErr result (self.new ≡ self.old) }
    {
        self.cells.known();
        match self.slots.joined(&self.place.path) {
            Ok(()) => return Ok(()),
            Err(_) => {}
        }
        Err(OpStop::Memory)
    }

    /// A branch ended by a throw. After want of memory nothing changed.
    pub fn threw(&mut self, branch: &Path) -> Result<(), OpStop>
        ensures did { OnOk result (Watches (λ w. after_throw (path_in branch.now) w) self.old self.new) }
        ensures rests { Rests self.old self.new }
        ensures err { IfErr result (λ e. e ≡ OpStop.Memory) }
        ensures same { OnErr result (self.new ≡ self.old) }
    {
        self.cells.known();
        match self.slots.threw(branch) {
            Ok(()) => return Ok(()),
            Err(_) => {}
        }
        Err(OpStop::Memory)
    }

    // the part of a cell that a number stands for
    fn part(&self, alloc: Global, number: u32) -> Result<SlotKey, NoMemory>
        ensures { IfOk result (λ key. key ≡ slot_key_told (part_in self.now.slots.keys number)) }
    {
        match self.slots.key(number) {
            None => Ok(SlotKey::Shape),
            Some(key) => Ok(SlotKey::Key(key.copy(alloc)?)),
        }
    }

    // a slot by the name of its cell
    fn slot_name(&self, alloc: Global, cell: u32, number: u32) -> Result<SlotName, NoMemory>
        requires { cell < count self.now }
        ensures { IfOk result (λ name. (nu : Naming) → Fits nu (names_in self.now.cells.now) → name ≡ slot_told (slot (nu cell) (part_in self.now.slots.keys number))) }
    {
        let key = self.part(alloc, number)?;
        let name = self.cells.name(cell);
        let scope = name.scope.copy(alloc)?;
        Ok(SlotName {
            scope,
            number: name.number,
            key,
        })
    }

    /// The verdict, with slots by the names of their cells and by their keys.
    pub fn verdict(&self, alloc: Global) -> Result<Verdict, NoMemory>
        ensures { IfOk result (λ told. (nu : Naming) → Fits nu (names_in self.now.cells.now) → told ≡ verdict_told (named nu self.now.slots.keys self.now.slots.current).verdict) }
    {
        match self.slots.verdict() {
            Found::Independent => Ok(Verdict::Independent),
            Found::TouchedOpen(slot) => {
                let name = self.slot_name(alloc, slot.cell, slot.key)?;
                Ok(Verdict::TouchedOpen(name))
            }
            Found::OnceWhileOpen(slot) => {
                let name = self.slot_name(alloc, slot.cell, slot.key)?;
                Ok(Verdict::OnceWhileOpen(name))
            }
            Found::BranchThrew(path) => {
                let path = path.copy(alloc)?;
                Ok(Verdict::BranchThrew(path))
            }
        }
    }
}
