//! Calls that take an index, and scopes: entered, left and taken back, left and kept.
ghost use Rattle.std.specs.Prelude.{◌≡◌, ◌<◌, ◌∷◌, ◌++◌, [], Some, None, length, take, IfOk, IfErr, OnOk, OnErr};
ghost use Rattle.turk_base.specs.Names.{path_in};
ghost use Rattle.turk_base.specs.State.{next_call};
ghost use Rattle.run_heap.specs.Core.{names_in};
ghost use Rattle.run_heap.specs.Scopes.{IsReady};
ghost use Rattle.eval_ops.specs.Run.{seen_of};
ghost use Rattle.eval_ops.specs.Calls.{Changes, Enters, LeavesBack, LeavesKeep};

use crate::{Entered, Machine, Outer};
use std::alloc::Global;
use std::mem;
use turk_base::{Path, Units};
use value_cells::OpStop;

// the first units of a text
fn cut(alloc: Global, text: &mut Units, length: usize)
    ensures { text.new ≡ take length text.old }
{
    let mut units = mem::replace(text, Units::new(alloc)).into_vec();
    units.truncate(length);
    *text = Units::from_vec(units);
}

impl Machine {
    /// How many calls of the scope that runs took an index.
    pub fn calls(&self) -> u32
        ensures { result ≡ self.now.heap.place.calls }
    {
        self.heap.calls()
    }

    /// Takes the index of the next call of the scope that runs, and gives its path. After want of
    /// memory nothing changed.
    pub fn next_call(&mut self, alloc: Global) -> Result<Path, OpStop>
        requires { self.old.heap.place.calls < 4294967295 }
        ensures path { IfOk result (λ p. p ≡ self.old.heap.place.path ++ self.old.heap.place.calls ∷ []) }
        ensures ready { IfOk result (λ p. IsReady p self.new.heap.place.path self.new.heap.place.calls (names_in self.new.heap.cells.now)) }
        ensures ok { OnOk result (Changes (λ nu σ. next_call σ) (seen_of self.old) (seen_of self.new)) }
        ensures noted { self.new.left_back ≡ self.old.left_back }
        ensures err { IfErr result (λ e. e ≡ OpStop.Memory) }
        ensures same { OnErr result (self.new ≡ self.old) }
    {
        let path = self.heap.next_call(alloc)?;
        Ok(path)
    }

    /// Enters the scope of the call that took its index last: a branch, or a once body.
    pub fn enter(&mut self, path: &Path, branch: bool) -> Result<Entered, OpStop>
        requires { IsReady path.now self.old.heap.place.path self.old.heap.place.calls (names_in self.old.heap.cells.now) }
        ensures ok { OnOk result (Enters (path_in path.now) branch (seen_of self.old) (seen_of self.new)) }
        ensures entered { IfOk result (λ e. e ≡ length (seen_of self.new).outer) }
        ensures noted { OnOk result (self.new.left_back ≡ None) }
        ensures err { IfErr result (λ e. e ≡ OpStop.Memory) }
        ensures same { OnErr result (self.new ≡ self.old) }
    {
        self.heap.known();
        if self.outer.reserve(1).is_err() {
            return Err(OpStop::Memory);
        }
        if self.gone.reserve(1).is_err() {
            return Err(OpStop::Memory);
        }
        let opened = self.heap.enter(path, branch)?;
        let values = mem::replace(&mut self.values, Vec::new(self.alloc));
        let around = Outer {
            body: self.body,
            values,
            printed: self.output.len(),
            absent: self.gone.len(),
        };
        let _ = self.outer.push(around);
        self.body = !branch;
        self.left_back = None;
        Ok(Entered { opened })
    }

    /// Leaves the newest open scope, and takes back all that was done in it but for the fuel. It takes
    /// no memory.
    pub fn leave_back(&mut self, entered: Entered)
        requires newest { entered ≡ length (seen_of self.old).outer }
        requires open { 0 < length (seen_of self.old).outer }
        ensures left { LeavesBack (seen_of self.old) (seen_of self.new) }
        ensures noted { self.new.left_back ≡ Some self.old.heap.place.path }
    {
        self.heap.known();
        let left = self.heap.leave_back(entered.opened);
        let Some(around) = self.outer.pop() else {
            unreachable!()
        };
        cut(self.alloc, &mut self.output, around.printed);
        self.gone.truncate(around.absent);
        self.body = around.body;
        self.values = around.values;
        self.left_back = Some(left);
    }

    /// Leaves the newest open scope, and keeps what was done in it. It takes no memory.
    pub fn leave_keep(&mut self, entered: Entered)
        requires newest { entered ≡ length (seen_of self.old).outer }
        requires open { 0 < length (seen_of self.old).outer }
        ensures left { LeavesKeep (seen_of self.old) (seen_of self.new) }
        ensures noted { self.new.left_back ≡ None }
    {
        self.heap.known();
        self.heap.leave_keep(entered.opened);
        let Some(around) = self.outer.pop() else {
            unreachable!()
        };
        self.body = around.body;
        self.values = around.values;
        self.left_back = None;
    }
}
