//! What is true of every machine, and what can be looked at.
ghost use Rattle.std.specs.Prelude.{◌≡◌};
ghost use Rattle.turk_base.specs.Names.{path_in};
ghost use Rattle.eval_ops.specs.Run.{seen_of};
ghost use Rattle.eval_ops.specs.Looks.{IsTold};

use crate::Machine;
use turk_base::Path;

impl Machine {
    /// Does nothing, and tells what is true of every machine.
    pub fn known(&self)
        ensures { IsTold (seen_of self.now) }
    {
        self.heap.known();
    }

    /// The path of the scope that runs.
    pub fn path(&self) -> &Path
        ensures place { result.now ≡ self.now.heap.place.path }
        ensures scope { path_in result.now ≡ (seen_of self.now).scope.path }
    {
        self.heap.path()
    }

    /// Whether the scope that runs is in a once body.
    pub fn in_once(&self) -> bool
        ensures { result ≡ (seen_of self.now).scope.body }
    {
        self.body
    }
}
