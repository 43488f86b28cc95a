//! The branches of the scope that runs: those that are absent, the values of the others, and joining.
ghost use Rattle.std.specs.Prelude.{◌≡◌, ◌<◌, ◌≤◌, true, false, None, length, IfOk, IfErr, OnOk, OnErr, map, reverse};
ghost use Rattle.std.specs.Option.{option_map};
ghost use Rattle.turk_base.specs.Names.{path_in};
ghost use Rattle.turk_base.specs.State.{any_gone, give_value};
ghost use Rattle.value_cells.specs.Needs.{needs, option_needs};
ghost use Rattle.value_cells.specs.Seen.{Naming, val_in};
ghost use Rattle.eval_ops.specs.Run.{seen_of, count};
ghost use Rattle.eval_ops.specs.Calls.{Changes, notes, Joins};

use crate::Machine;
use std::mem;
use turk_base::Path;
use value_cells::{CellKind, OpStop, Value};

// whether an absent branch stands in the scope
fn any_absent(scope: &Path, gone: &[Path]) -> bool
    ensures { result ≡ any_gone (path_in scope.now) (map path_in (reverse gone.now)) }
{
    let mut place = gone.len();
    while place > 0 {
        place -= 1;
        if scope.begins(&gone[place]) {
            return true;
        }
    }
    false
}

// whether values that are wanted are more than an array holds
fn too_many(wanted: bool, values: &[Value]) -> bool
    ensures many { result ≡ true → (wanted ≡ true) × (1000000 < length values.now) }
    ensures few { result ≡ false → wanted ≡ true → length values.now ≤ 1000000 }
{
    wanted && values.len() > 1_000_000
}

impl Machine {
    /// Notes that the branch that was taken back last is absent in the scope that runs. Where none
    /// was taken back since a scope was entered or left, nothing changes. It takes no memory.
    pub fn absent(&mut self)
        ensures did { Changes (λ nu σ. notes self.old.left_back σ) (seen_of self.old) (seen_of self.new) }
        ensures noted { self.new.left_back ≡ None }
    {
        let Some(path) = mem::replace(&mut self.left_back, None) else {
            return;
        };
        let _ = self.gone.push(path);
    }

    /// Whether a branch is absent in the scope that runs.
    pub fn lacks_branch(&self) -> bool
        ensures { (nu : Naming) → result ≡ any_gone (seen_of self.now).scope.path ((seen_of self.now).first nu).gone }
    {
        any_absent(self.heap.path(), &self.gone)
    }

    /// Adds a value at the end of the values of the branches of the scope that runs. After want of
    /// memory nothing changed.
    pub fn give(&mut self, value: Value) -> Result<(), OpStop>
        requires { needs value ≤ count self.old }
        ensures ok { OnOk result (Changes (λ nu σ. give_value (val_in nu value) σ) (seen_of self.old) (seen_of self.new)) }
        ensures noted { self.new.left_back ≡ self.old.left_back }
        ensures err { IfErr result (λ e. e ≡ OpStop.Memory) }
        ensures same { OnErr result (self.new ≡ self.old) }
    {
        if self.values.push(value).is_err() {
            return Err(OpStop::Memory);
        }
        Ok(())
    }

    /// Joins the branches of the scope that runs: None exactly where one is absent, and then nothing
    /// changes. Else the open slots are cut, the scope's values are emptied, and given in an array
    /// where they are wanted. It refuses with TooLong exactly where they are wanted, none is absent
    /// and there are more than 1,000,000; with Spent exactly past the fuel.
    pub fn join(&mut self, wanted: bool) -> Result<Option<Value>, OpStop>
        ensures did { Joins wanted result (seen_of self.old) (seen_of self.new) }
        ensures more { count self.old ≤ count self.new }
        ensures exists { IfOk result (λ v. option_needs v ≤ count self.new) }
        ensures gone { self.new.gone ≡ self.old.gone }
        ensures noted { self.new.left_back ≡ self.old.left_back }
    {
        if any_absent(self.heap.path(), &self.gone) {
            return Ok(None);
        }
        if too_many(wanted, &self.values) {
            return Err(OpStop::TooLong);
        }
        self.heap.joined()?;
        let values = mem::replace(&mut self.values, Vec::new(self.alloc));
        if !wanted {
            return Ok(Some(Value::Undefined));
        }
        let cell = self.heap.make(CellKind::Array)?;
        let array = run_data::fill(self.alloc, &mut self.heap, cell, &values)?;
        Ok(Some(array))
    }
}
