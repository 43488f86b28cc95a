//! The calls of SlotWatch.
ghost use Rattle.std.specs.Prelude.{◌≡◌, ◌<◌, [], ◌∷◌, ◌++◌, ℕ, length, IfOk, OnOk, OnErr, IfSome, IfNone};
ghost use Rattle.turk_base.specs.Names.{path_in, shape, at, slot};
ghost use Rattle.turk_base.specs.State.{independent};
ghost use Rattle.branch_check.specs.Watch.{Kept, verdict_of, after_touch, after_once, after_write, after_join, after_throw};
ghost use Rattle.key_table.specs.Keys.{HasNumber};
ghost use Rattle.slot_watch.specs.Keys.{part_in};
ghost use Rattle.slot_watch.specs.Within.{CellsWithin};
ghost use Rattle.slot_watch.specs.Slots.{Turns, KeepsMarks};

use crate::SlotWatch;
use branch_check::{Found, Monitor, MonitorMark, Slot};
use key_table::KeyTable;
use std::alloc::Global;
use turk_base::{NoMemory, Path, Units};

impl SlotWatch {
    /// Nothing open, independent, no open mark, and no keys.
    pub fn new(alloc: Global) -> SlotWatch
        ensures keys { result.keys ≡ [] }
        ensures opened { result.current.opened ≡ [] }
        ensures verdict { verdict_of result.current.found ≡ independent }
        ensures marks { result.marks ≡ [] }
    {
        SlotWatch {
            alloc,
            monitor: Monitor::new(alloc),
            keys: KeyTable::new(alloc),
        }
    }

    /// The branch `by` touches the shape of a cell. It takes no memory.
    pub fn touch_shape(&mut self, cell: u32, by: &Path)
        ensures now { (n : ℕ) → cell < n → CellsWithin n self.old.current → Turns (λ nu w. after_touch (path_in by.now) (slot (nu cell) shape) w) n self.old self.new }
        ensures within { (n : ℕ) → cell < n → CellsWithin n self.old.current → CellsWithin n self.new.current }
        ensures marks { KeepsMarks self.old self.new }
    {
        self.keys.known();
        self.monitor.touch(Slot { cell, key: 0 }, by);
    }

    /// The branch `by` touches a cell's value under a key. It takes no memory.
    pub fn touch(&mut self, cell: u32, key: &Units, by: &Path)
        ensures now { (n : ℕ) → cell < n → CellsWithin n self.old.current → Turns (λ nu w. after_touch (path_in by.now) (slot (nu cell) (at key.now)) w) n self.old self.new }
        ensures within { (n : ℕ) → cell < n → CellsWithin n self.old.current → CellsWithin n self.new.current }
        ensures marks { KeepsMarks self.old self.new }
    {
        self.keys.known();
        match self.keys.find(key) {
            None => {}
            Some(number) => self.monitor.touch(Slot { cell, key: number }, by),
        }
    }

    /// The branch `by` writes the shape of a cell that was made in the scope `maker`. After a
    /// refusal nothing is known of what is open now.
    pub fn wrote_shape(&mut self, cell: u32, by: &Path, maker: &Path) -> Result<(), NoMemory>
        ensures now { (n : ℕ) → cell < n → CellsWithin n self.old.current → OnOk result (Turns (λ nu w. after_write (path_in by.now) (path_in maker.now) (slot (nu cell) shape) w) n self.old self.new) }
        ensures within { (n : ℕ) → cell < n → CellsWithin n self.old.current → CellsWithin n self.new.current }
        ensures marks { KeepsMarks self.old self.new }
    {
        self.keys.known();
        self.monitor.wrote(Slot { cell, key: 0 }, by, maker)
    }

    /// The branch `by` writes a cell's value under a key, the cell being made in the scope `maker`.
    /// After a refusal nothing is known of what is open now.
    pub fn wrote(&mut self, cell: u32, key: &Units, by: &Path, maker: &Path) -> Result<(), NoMemory>
        ensures now { (n : ℕ) → cell < n → CellsWithin n self.old.current → OnOk result (Turns (λ nu w. after_write (path_in by.now) (path_in maker.now) (slot (nu cell) (at key.now)) w) n self.old self.new) }
        ensures within { (n : ℕ) → cell < n → CellsWithin n self.old.current → CellsWithin n self.new.current }
        ensures marks { KeepsMarks self.old self.new }
    {
        if by.len() == 0 {
            self.touch(cell, key, by);
            return Ok(());
        }
        self.wrote_under(cell, key, by, maker)
    }

    // the same, with a number for the key
    fn wrote_under(
        &mut self,
        cell: u32,
        key: &Units,
        by: &Path,
        maker: &Path,
    ) -> Result<(), NoMemory>
        ensures now { (n : ℕ) → cell < n → CellsWithin n self.old.current → OnOk result (Turns (λ nu w. after_write (path_in by.now) (path_in maker.now) (slot (nu cell) (at key.now)) w) n self.old self.new) }
        ensures within { (n : ℕ) → cell < n → CellsWithin n self.old.current → CellsWithin n self.new.current }
        ensures marks { KeepsMarks self.old self.new }
    {
        let number = self.keys.number(self.alloc, key)?;
        self.keys.known();
        self.monitor.wrote(Slot { cell, key: number }, by, maker)
    }

    /// A once call in the branch `by`. It takes no memory.
    pub fn once_at(&mut self, by: &Path)
        ensures now { (n : ℕ) → Turns (λ nu w. after_once (path_in by.now) w) n self.old self.new }
        ensures within { (n : ℕ) → CellsWithin n self.old.current → CellsWithin n self.new.current }
        ensures marks { KeepsMarks self.old self.new }
    {
        self.monitor.once_at(by);
    }

    /// Branches join in the scope. After a refusal nothing changed.
    pub fn joined(&mut self, scope: &Path) -> Result<(), NoMemory>
        ensures now { (n : ℕ) → OnOk result (Turns (λ nu w. after_join (path_in scope.now) w) n self.old self.new) }
        ensures err { OnErr result (self.new ≡ self.old) }
        ensures within { (n : ℕ) → CellsWithin n self.old.current → CellsWithin n self.new.current }
        ensures marks { KeepsMarks self.old self.new }
    {
        self.monitor.joined(scope)
    }

    /// The branch ended by a throw. After a refusal nothing changed.
    pub fn threw(&mut self, branch: &Path) -> Result<(), NoMemory>
        ensures now { (n : ℕ) → OnOk result (Turns (λ nu w. after_throw (path_in branch.now) w) n self.old self.new) }
        ensures err { OnErr result (self.new ≡ self.old) }
        ensures within { (n : ℕ) → CellsWithin n self.old.current → CellsWithin n self.new.current }
        ensures marks { KeepsMarks self.old self.new }
    {
        self.monitor.threw(branch)
    }

    /// Opens a mark. After a refusal nothing changed.
    pub fn mark(&mut self) -> Result<MonitorMark, NoMemory>
        ensures ok { OnOk result (self.new.marks ≡ self.old.marks ++ self.old.current ∷ []) }
        ensures mark { IfOk result (λ mark. mark ≡ length self.new.marks) }
        ensures err { OnErr result (self.new ≡ self.old) }
        ensures now { self.new.current ≡ self.old.current }
        ensures keys { self.new.keys ≡ self.old.keys }
    {
        self.monitor.mark()
    }

    /// Closes the newest open mark, and gives what there was when it was set. It takes no memory.
    pub fn take_back(&mut self, mark: MonitorMark)
        requires open { 0 < length self.old.marks }
        requires newest { mark ≡ length self.old.marks }
        ensures back { self.old.marks ≡ self.new.marks ++ self.new.current ∷ [] }
        ensures keys { self.new.keys ≡ self.old.keys }
    {
        self.monitor.take_back(mark);
    }

    /// Closes the newest open mark, and leaves what there is. It takes no memory.
    pub fn keep(&mut self, mark: MonitorMark)
        requires open { 0 < length self.old.marks }
        requires newest { mark ≡ length self.old.marks }
        ensures now { self.new.current ≡ self.old.current }
        ensures closed { (saved : Kept) × (self.old.marks ≡ self.new.marks ++ saved ∷ []) }
        ensures keys { self.new.keys ≡ self.old.keys }
    {
        self.monitor.keep(mark);
    }

    /// What was found until now.
    pub fn verdict(&self) -> &Found
        ensures { result.now ≡ self.now.current.found }
    {
        self.monitor.verdict()
    }

    /// The key of a number, None where no key has it.
    pub fn key(&self, number: u32) -> Option<&Units>
        ensures key { IfSome result (λ k. HasNumber self.now.keys k.now number) }
        ensures none { IfNone result (part_in self.now.keys number ≡ shape) }
    {
        self.keys.key(number)
    }
}
