//! The verdict: once calls, throws, and its text by names.
ghost use Rattle.std.specs.Prelude.{◌≡◌, IfOk, IfErr, OnOk, OnErr};
ghost use Rattle.turk_base.specs.Names.{path_in};
ghost use Rattle.turk_base.specs.State.{once_call, threw as throws};
ghost use Rattle.turk_base.specs.Told.{verdict_told};
ghost use Rattle.value_cells.specs.Seen.{Naming, Fits};
ghost use Rattle.eval_ops.specs.Run.{seen_of};
ghost use Rattle.eval_ops.specs.Calls.{Changes};

use crate::Machine;
use std::alloc::Global;
use turk_base::{NoMemory, Path, Verdict};
use value_cells::OpStop;

impl Machine {
    /// Applies the verdict rule for a once call in the branch that runs. It takes no memory.
    pub fn once_at(&mut self)
        ensures did { Changes (λ nu σ. once_call (seen_of self.old).scope.branch σ) (seen_of self.old) (seen_of self.new) }
        ensures noted { self.new.left_back ≡ self.old.left_back }
    {
        self.heap.once_at();
    }

    /// Applies the verdict rule for a branch that ended by a throw. After want of memory nothing
    /// changed.
    pub fn threw(&mut self, branch: &Path) -> Result<(), OpStop>
        ensures ok { OnOk result (Changes (λ nu σ. throws (path_in branch.now) σ) (seen_of self.old) (seen_of self.new)) }
        ensures noted { self.new.left_back ≡ self.old.left_back }
        ensures err { IfErr result (λ e. e ≡ OpStop.Memory) }
        ensures same { OnErr result (self.new ≡ self.old) }
    {
        self.heap.threw(branch)?;
        Ok(())
    }

    /// The verdict, with slots by the names of their cells and their keys.
    pub fn names(&self, alloc: Global) -> Result<Verdict, NoMemory>
        ensures { IfOk result (λ v. (nu : Naming) → Fits nu (seen_of self.now).names → v ≡ verdict_told ((seen_of self.now).first nu).verdict) }
    {
        self.heap.verdict(alloc)
    }
}
