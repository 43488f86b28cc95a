//! The calls of Monitor.
ghost use Rattle.std.specs.Prelude.{◌≡◌, [], ◌∷◌, ◌++◌, ◌<◌, length, IfOk, OnOk, OnErr};
ghost use Rattle.turk_base.specs.Names.{path_in};
ghost use Rattle.turk_base.specs.State.{independent, first_reason};
ghost use Rattle.branch_check.specs.Watch.{Kept, numbered, verdict_of, watch_of, after_touch, after_once, after_write, after_join, after_throw};

use crate::opens::{copy_found, first, is_met, join, open_outside};
use crate::steps::undo_from;
use crate::{Found, Monitor, MonitorMark, OpenSlots, Saved, Slot};
use object_props::Props;
use std::alloc::Global;
use turk_base::{NoMemory, Path};

impl Monitor {
    /// Nothing open, independent, and no open mark. What is added later is kept in memory of `alloc`.
    pub fn new(alloc: Global) -> Monitor
        ensures opened { result.current.opened ≡ [] }
        ensures verdict { verdict_of result.current.found ≡ independent }
        ensures marks { result.marks ≡ [] }
    {
        Monitor {
            alloc,
            opens: OpenSlots {
                slots: Props::new(alloc),
                steps: Vec::new(alloc),
            },
            found: Found::Independent,
            marks: Vec::new(alloc),
        }
    }

    /// The branch `by` touches the slot: where the slot is open by a path that is no prefix of `by`,
    /// that is a reason; the first reason stays. It takes no memory.
    pub fn touch(&mut self, slot: Slot, by: &Path)
        ensures now { watch_of self.new.current ≡ after_touch (path_in by.now) (numbered slot) (watch_of self.old.current) }
        ensures marks { self.new.marks ≡ self.old.marks }
    {
        if is_met(by, slot, &self.opens.slots) {
            note(&mut self.found, Found::TouchedOpen(slot));
        }
    }

    /// A once call in the branch `by`: the first slot that is open by a path that is no prefix of
    /// `by` is a reason; the first reason stays. It takes no memory.
    pub fn once_at(&mut self, by: &Path)
        ensures now { watch_of self.new.current ≡ after_once (path_in by.now) (watch_of self.old.current) }
        ensures marks { self.new.marks ≡ self.old.marks }
    {
        match first(by, &self.opens.slots) {
            None => {}
            Some(slot) => note(&mut self.found, Found::OnceWhileOpen(slot)),
        }
    }

    /// The branch `by` writes a slot of a cell that was made in the scope `maker`: it touches the
    /// slot, and opens it where `maker` doesn't begin with `by`. After a refusal nothing changed.
    pub fn wrote(&mut self, slot: Slot, by: &Path, maker: &Path) -> Result<(), NoMemory>
        ensures ok { OnOk result (watch_of self.new.current ≡ after_write (path_in by.now) (path_in maker.now) (numbered slot) (watch_of self.old.current)) }
        ensures err { OnErr result (self.new.current ≡ self.old.current) }
        ensures marks { self.new.marks ≡ self.old.marks }
    {
        let met = is_met(by, slot, &self.opens.slots);
        let noted = !self.marks.is_empty();
        open_outside(self.alloc, noted, &mut self.opens, slot, by, maker)?;
        if met {
            note(&mut self.found, Found::TouchedOpen(slot));
        }
        Ok(())
    }

    /// Branches join in the scope: each path that begins with it becomes the scope's, and what is
    /// then open by the empty path is closed. After a refusal nothing changed.
    pub fn joined(&mut self, scope: &Path) -> Result<(), NoMemory>
        ensures ok { OnOk result (watch_of self.new.current ≡ after_join (path_in scope.now) (watch_of self.old.current)) }
        ensures err { OnErr result (self.new.current ≡ self.old.current) }
        ensures marks { self.new.marks ≡ self.old.marks }
    {
        let noted = !self.marks.is_empty();
        join(self.alloc, noted, &mut self.opens, scope)
    }

    /// The branch ended by a throw, which is a reason; the first reason stays. After a refusal
    /// nothing changed.
    pub fn threw(&mut self, branch: &Path) -> Result<(), NoMemory>
        ensures ok { OnOk result (watch_of self.new.current ≡ after_throw (path_in branch.now) (watch_of self.old.current)) }
        ensures err { OnErr result (self.new.current ≡ self.old.current) }
        ensures marks { self.new.marks ≡ self.old.marks }
    {
        let path = branch.copy(self.alloc)?;
        note(&mut self.found, Found::BranchThrew(path));
        Ok(())
    }

    /// Opens a mark: from now on the monitor can be taken back to what it is. After a refusal
    /// nothing changed.
    pub fn mark(&mut self) -> Result<MonitorMark, NoMemory>
        ensures ok { OnOk result (self.new.marks ≡ self.old.marks ++ self.old.current ∷ []) }
        ensures mark { IfOk result (λ mark. mark ≡ length self.new.marks) }
        ensures err { OnErr result (self.new.marks ≡ self.old.marks) }
        ensures now { self.new.current ≡ self.old.current }
    {
        let saved = Saved {
            steps: self.opens.steps.len(),
            found: copy_found(self.alloc, &self.found)?,
        };
        match self.marks.push(saved) {
            Ok(()) => Ok(MonitorMark {
                open: self.marks.len(),
            }),
            Err(_) => Err(NoMemory),
        }
    }

    /// Closes the newest open mark, and gives the open slots and the verdict as they were when it
    /// was set. Marks that were open before it stay. It takes no memory.
    pub fn take_back(&mut self, mark: MonitorMark)
        requires open { 0 < length self.old.marks }
        requires newest { mark ≡ length self.old.marks }
        ensures { self.old.marks ≡ self.new.marks ++ self.new.current ∷ [] }
    {
        match self.marks.pop() {
            Some(saved) => {
                undo_from(saved.steps, &mut self.opens);
                self.found = saved.found;
            }
            None => {}
        }
    }

    /// Closes the newest open mark, and leaves the open slots and the verdict. What was done since
    /// can still be taken back to a mark that was open before it. It takes no memory.
    pub fn keep(&mut self, mark: MonitorMark)
        requires open { 0 < length self.old.marks }
        requires newest { mark ≡ length self.old.marks }
        ensures now { self.new.current ≡ self.old.current }
        ensures closed { (saved : Kept) × (self.old.marks ≡ self.new.marks ++ saved ∷ []) }
    {
        let _ = self.marks.pop();
        if self.marks.is_empty() {
            self.opens.steps.clear();
        }
    }

    /// What was found until now.
    pub fn verdict(&self) -> &Found
        ensures { result.now ≡ self.now.current.found }
    {
        &self.found
    }
}

// the first reason stays
fn note(found: &mut Found, reason: Found)
    ensures { verdict_of found.new ≡ first_reason (verdict_of found.old) (verdict_of reason) }
{
    if matches!(*found, Found::Independent) {
        *found = reason;
    }
}
