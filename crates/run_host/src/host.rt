//! The trait of what runs the requests of a script.
ghost use Rattle.std.specs.Prelude.{◌≡◌, ◌≤◌, ◌<◌, ◌+◌, ℤ, pos, IfOk, IfErr, OnOk, Ok, Some, None, true};
ghost use Rattle.std.specs.Option.{option_map, IfSome};
ghost use Rattle.std.specs.Prelude.{◌≤ℤ◌, map};
ghost use Rattle.turk_base.specs.Values.{Normal};
ghost use Rattle.turk_base.specs.Prog.{Prog, Pay, KindOf, Make, Inherits, Get, Put, Remove, Keys, ReadName, WriteName, Declare, Print, Post, Reply, Draw, Join, MayFork, Crash, Once, Fork, ask};
ghost use Rattle.turk_base.specs.BuiltIns.{call_built_in};
ghost use Rattle.value_cells.specs.Needs.{needs, option_needs, all_needs, kind_needs};
ghost use Rattle.value_cells.specs.Seen.{Naming, val_in, kind_in};
ghost use Rattle.run_host.specs.Moment.{Chain, Moment, cells, HasBuiltIns, AreApart};
ghost use Rattle.run_host.specs.Told.{Says, told_value, told_exit, exit_needs};
ghost use Rattle.run_host.specs.Did.{Runs};
ghost use Rattle.run_host.specs.Steps.{Gives, Leaves, Takes};
ghost use Rattle.run_host.specs.Scopes.{Local, OpensOnce, OpensFork, told_fork};

use crate::Exit;
use turk_base::{Units, Whole};
use value_cells::{CellKind, Value};

/// What runs the requests of a script: the cells with their charges and touches, the output, the asks, and the scopes.
///
/// Contracts see a host as the moment of a run. Each call does what the meaning of a script does at that request, whatever
/// comes after it. It answers an exit exactly where that ends the run or the branch; and want of memory, at any call.
pub trait Host {
    /// What answers its asks: its states, and what holds between an earlier one and a later one.
    ghost chain: { Chain };

    /// The moment of the run.
    ghost moment: { Self → Moment chain };

    /// What holds of a host in each state that its calls leave.
    ghost is_sound: { Self → Type 0 };

    /// Pays so many units of fuel.
    fn pay(&mut self, units: u64) -> Result<(), Exit>
        requires sound { is_sound self.old }
        ensures did { Takes (λ nu. ask (Pay units)) (λ nu u. u) result (moment self.old) (moment self.new) }
        ensures spent { OnOk result ((moment self.new).heap.left + units ≡ (moment self.old).heap.left) }
        ensures more { cells (moment self.old) ≤ cells (moment self.new) }
        ensures thrown { IfErr result (λ x. exit_needs x ≡ 0) }
        ensures sound { is_sound self.new };

    /// The kind of a cell; it touches and costs nothing.
    fn kind(&self, cell: u32) -> CellKind
        requires sound { is_sound self.now }
        requires cell { cell < cells (moment self.now) }
        ensures did { Gives (λ nu. ask (KindOf (nu cell))) (λ nu. kind_in nu result) (moment self.now) (moment self.now) }
        ensures exists { kind_needs result ≤ cells (moment self.now) };

    /// Makes a cell of the scope that runs, which costs 1.
    fn make(&mut self, kind: CellKind) -> Result<u32, Exit>
        requires sound { is_sound self.old }
        requires kind { kind_needs kind ≤ cells (moment self.old) }
        ensures did { Takes (λ nu. ask (Make (kind_in nu kind))) (λ nu i. nu i) result (moment self.old) (moment self.new) }
        ensures more { cells (moment self.old) ≤ cells (moment self.new) }
        ensures exists { IfOk result (λ i. i < cells (moment self.new)) }
        ensures thrown { IfErr result (λ x. exit_needs x ≡ 0) }
        ensures sound { is_sound self.new };

    /// Whether `from` stands on the chain of prototypes of a cell; it touches and costs nothing.
    fn inherits(&self, cell: u32, from: u32) -> bool
        requires sound { is_sound self.now }
        requires cell { cell < cells (moment self.now) }
        requires from { from < cells (moment self.now) }
        ensures did { Gives (λ nu. ask (Inherits (nu cell) (nu from))) (λ nu. result) (moment self.now) (moment self.now) };

    /// The property that a cell has, else the first of its prototypes that has the key, or None.
    fn get(&mut self, cell: u32, key: &Units) -> Result<Option<Value>, Exit>
        requires sound { is_sound self.old }
        requires cell { cell < cells (moment self.old) }
        ensures did { Takes (λ nu. ask (Get (nu cell) key.now)) (λ nu v. option_map (val_in nu) v) result (moment self.old) (moment self.new) }
        ensures more { cells (moment self.old) ≤ cells (moment self.new) }
        ensures exists { IfOk result (λ v. option_needs v ≤ cells (moment self.new)) }
        ensures thrown { IfErr result (λ x. exit_needs x ≡ 0) }
        ensures sound { is_sound self.new };

    /// Sets a cell's own property, or creates it last.
    fn put(&mut self, cell: u32, key: &Units, value: Value) -> Result<(), Exit>
        requires sound { is_sound self.old }
        requires cell { cell < cells (moment self.old) }
        requires value { needs value ≤ cells (moment self.old) }
        ensures did { Takes (λ nu. ask (Put (nu cell) key.now (val_in nu value))) (λ nu u. u) result (moment self.old) (moment self.new) }
        ensures more { cells (moment self.old) ≤ cells (moment self.new) }
        ensures thrown { IfErr result (λ x. exit_needs x ≡ 0) }
        ensures sound { is_sound self.new };

    /// Deletes a cell's own property. False for what can't be deleted.
    fn remove(&mut self, cell: u32, key: &Units) -> Result<bool, Exit>
        requires sound { is_sound self.old }
        requires cell { cell < cells (moment self.old) }
        ensures did { Takes (λ nu. ask (Remove (nu cell) key.now)) (λ nu b. b) result (moment self.old) (moment self.new) }
        ensures more { cells (moment self.old) ≤ cells (moment self.new) }
        ensures thrown { IfErr result (λ x. exit_needs x ≡ 0) }
        ensures sound { is_sound self.new };

    /// The keys that for-in lists for a cell, in order.
    fn keys(&mut self, cell: u32) -> Result<Vec<Units>, Exit>
        requires sound { is_sound self.old }
        requires cell { cell < cells (moment self.old) }
        ensures did { Takes (λ nu. ask (Keys (nu cell))) (λ nu ks. ks.items) result (moment self.old) (moment self.new) }
        ensures more { cells (moment self.old) ≤ cells (moment self.new) }
        ensures thrown { IfErr result (λ x. exit_needs x ≡ 0) }
        ensures sound { is_sound self.new };

    /// The value of a name in the frame that declares it.
    fn read_name(&mut self, frame: u32, name: &Units) -> Result<Value, Exit>
        requires sound { is_sound self.old }
        requires frame { frame < cells (moment self.old) }
        ensures did { Takes (λ nu. ask (ReadName (nu frame) name.now)) val_in result (moment self.old) (moment self.new) }
        ensures more { cells (moment self.old) ≤ cells (moment self.new) }
        ensures exists { IfOk result (λ v. needs v ≤ cells (moment self.new)) }
        ensures thrown { IfErr result (λ x. exit_needs x ≡ 0) }
        ensures sound { is_sound self.new };

    /// Sets a name in the frame that declares it.
    fn write_name(&mut self, frame: u32, name: &Units, value: Value) -> Result<(), Exit>
        requires sound { is_sound self.old }
        requires frame { frame < cells (moment self.old) }
        requires value { needs value ≤ cells (moment self.old) }
        ensures did { Takes (λ nu. ask (WriteName (nu frame) name.now (val_in nu value))) (λ nu u. u) result (moment self.old) (moment self.new) }
        ensures more { cells (moment self.old) ≤ cells (moment self.new) }
        ensures thrown { IfErr result (λ x. exit_needs x ≡ 0) }
        ensures sound { is_sound self.new };

    /// Declares a name in a frame.
    fn declare(&mut self, frame: u32, name: &Units, value: Value) -> Result<(), Exit>
        requires sound { is_sound self.old }
        requires frame { frame < cells (moment self.old) }
        requires value { needs value ≤ cells (moment self.old) }
        ensures did { Takes (λ nu. ask (Declare (nu frame) name.now (val_in nu value))) (λ nu u. u) result (moment self.old) (moment self.new) }
        ensures more { cells (moment self.old) ≤ cells (moment self.new) }
        ensures thrown { IfErr result (λ x. exit_needs x ≡ 0) }
        ensures sound { is_sound self.new };

    /// Adds a line to the output.
    fn print(&mut self, line: &Units) -> Result<(), Exit>
        requires sound { is_sound self.old }
        ensures did { Takes (λ nu. ask (Print line.now)) (λ nu u. u) result (moment self.old) (moment self.new) }
        ensures more { cells (moment self.old) ≤ cells (moment self.new) }
        ensures thrown { IfErr result (λ x. exit_needs x ≡ 0) }
        ensures sound { is_sound self.new };

    /// Posts a task with this text, unless its record is there; the answer is the task's token.
    fn post(&mut self, text: &Units) -> Result<Units, Exit>
        requires sound { is_sound self.old }
        ensures did { Takes (λ nu. ask (Post text.now)) (λ nu t. t) result (moment self.old) (moment self.new) }
        ensures more { cells (moment self.old) ≤ cells (moment self.new) }
        ensures thrown { IfErr result (λ x. exit_needs x ≡ 0) }
        ensures sound { is_sound self.new };

    /// The reply to a task.
    fn reply(&mut self, token: &Units) -> Result<Units, Exit>
        requires sound { is_sound self.old }
        ensures did { Takes (λ nu. ask (Reply token.now)) (λ nu t. t) result (moment self.old) (moment self.new) }
        ensures more { cells (moment self.old) ≤ cells (moment self.new) }
        ensures thrown { IfErr result (λ x. exit_needs x ≡ 0) }
        ensures sound { is_sound self.new };

    /// A number from 0 to below the bound.
    fn draw(&mut self, bound: Whole) -> Result<Whole, Exit>
        requires sound { is_sound self.old }
        requires bound { pos 1 ≤ℤ bound }
        ensures did { Takes (λ nu. ask (Draw bound)) (λ nu n. n) result (moment self.old) (moment self.new) }
        ensures more { cells (moment self.old) ≤ cells (moment self.new) }
        ensures thrown { IfErr result (λ x. exit_needs x ≡ 0) }
        ensures sound { is_sound self.new };

    /// Joins the branches of the scope; the answer is an array of their values.
    fn join(&mut self) -> Result<Value, Exit>
        requires sound { is_sound self.old }
        ensures did { Takes (λ nu. ask (Join true)) val_in result (moment self.old) (moment self.new) }
        ensures more { cells (moment self.old) ≤ cells (moment self.new) }
        ensures exists { IfOk result (λ v. needs v ≤ cells (moment self.new)) }
        ensures thrown { IfErr result (λ x. exit_needs x ≡ 0) }
        ensures sound { is_sound self.new };

    /// Refused in a once body.
    fn may_fork(&self) -> Result<(), Exit>
        requires sound { is_sound self.now }
        ensures did { Takes (λ nu. ask MayFork) (λ nu u. u) result (moment self.now) (moment self.now) }
        ensures thrown { IfErr result (λ x. exit_needs x ≡ 0) };

    /// The run waits here; the wait is noted.
    fn crash(&mut self) -> Exit
        requires sound { is_sound self.old }
        ensures did { Leaves (λ nu. ask Crash) result (moment self.old) (moment self.new) }
        ensures more { cells (moment self.old) ≤ cells (moment self.new) }
        ensures thrown { exit_needs result ≡ 0 }
        ensures sound { is_sound self.new };

    /// A built-in call by its number, with `this` and its arguments. What it throws was made.
    fn built_in(&mut self, which: u8, this: &Value, arguments: &[Value]) -> Result<Value, Exit>
        requires sound { is_sound self.old }
        requires this { needs this.now ≤ cells (moment self.old) }
        requires arguments { all_needs arguments.now ≤ cells (moment self.old) }
        ensures did { Runs (λ nu. call_built_in which (val_in nu this.now) (map (val_in nu) arguments.now)) (λ nu. told_value nu result) (moment self.old) (moment self.new) }
        ensures more { cells (moment self.old) ≤ cells (moment self.new) }
        ensures exists { IfOk result (λ v. needs v ≤ cells (moment self.new)) }
        ensures thrown { IfErr result (λ x. exit_needs x ≤ cells (moment self.new)) }
        ensures sound { is_sound self.new };

    /// Counts a once call. Where its record is there, the answer is the kept value; else the scope of its body was opened, and
    /// `end_once` closes it.
    fn open_once(&mut self) -> Result<Option<Value>, Exit>
        requires sound { is_sound self.old }
        ensures kept { IfOk result (λ o. IfSome o (λ v. (g : Naming → Prog) → Runs (λ nu. Once (g nu)) (λ nu. Says (Normal (val_in nu v))) (moment self.old) (moment self.new))) }
        ensures opened { OnOk result ((result ≡ Ok None) → OpensOnce (moment self.old) (moment self.new)) }
        ensures out { IfErr result (λ x. (g : Naming → Prog) → Runs (λ nu. Once (g nu)) (λ nu. told_exit nu x) (moment self.old) (moment self.new)) }
        ensures more { cells (moment self.old) ≤ cells (moment self.new) }
        ensures exists { IfOk result (λ o. option_needs o ≤ cells (moment self.new)) }
        ensures thrown { IfErr result (λ x. exit_needs x ≡ 0) }
        ensures sound { is_sound self.new };

    /// Ends the once body that was opened last, by how its call ended: a value is recorded, all else that the body did is
    /// taken back, and the value is put anew. What a body did that threw stays.
    fn end_once(&mut self, ended: Result<Value, Exit>) -> Result<Value, Exit>
        requires sound { is_sound self.old }
        requires value { IfOk ended (λ v. needs v ≤ cells (moment self.old)) }
        requires thrown { IfErr ended (λ x. exit_needs x ≤ cells (moment self.old)) }
        ensures did { (g : Naming → Prog) (before opened : Moment chain) → Local (cells before) g → OpensOnce before opened → Runs g (λ nu. told_value nu ended) opened (moment self.old)
            → Runs (λ nu. Once (g nu)) (λ nu. told_value nu result) before (moment self.new) }
        ensures exists { IfOk result (λ v. needs v ≤ cells (moment self.new)) }
        ensures thrown { IfErr result (λ x. exit_needs x ≤ cells (moment self.new)) }
        ensures sound { is_sound self.new };

    /// Counts a fork and opens its branch, which `end_fork` closes.
    fn open_fork(&mut self) -> Result<(), Exit>
        requires sound { is_sound self.old }
        ensures opened { OnOk result (OpensFork (moment self.old) (moment self.new)) }
        ensures out { IfErr result (λ x. (g : Naming → Prog) → Runs (λ nu. Fork (g nu)) (λ nu. told_exit nu x) (moment self.old) (moment self.new)) }
        ensures more { cells (moment self.old) ≤ cells (moment self.new) }
        ensures thrown { IfErr result (λ x. exit_needs x ≡ 0) }
        ensures sound { is_sound self.new };

    /// Ends the branch that was opened last, by how its call ended: a branch that waits, or whose own branches are absent, is
    /// taken back and noted as absent; else it joins, and its value is one of the scope's.
    fn end_fork(&mut self, ended: Result<Value, Exit>) -> Result<(), Exit>
        requires sound { is_sound self.old }
        requires value { IfOk ended (λ v. needs v ≤ cells (moment self.old)) }
        requires thrown { IfErr ended (λ x. exit_needs x ≤ cells (moment self.old)) }
        ensures did { (g : Naming → Prog) (before opened : Moment chain) → Local (cells before) g → OpensFork before opened → Runs g (λ nu. told_value nu ended) opened (moment self.old)
            → Runs (λ nu. Fork (g nu)) (λ nu. told_fork nu result) before (moment self.new) }
        ensures thrown { IfErr result (λ x. exit_needs x ≤ cells (moment self.new)) }
        ensures sound { is_sound self.new };

    /// The first seven cells are the built-in ones.
    ghost built_ins: { (h : Self) → is_sound h → HasBuiltIns (moment h) };

    /// No two cells have one name.
    ghost apart: { (h : Self) → is_sound h → AreApart (moment h) };
}
