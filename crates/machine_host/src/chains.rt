//! The chains of prototypes.
ghost use Rattle.std.specs.Prelude.{◌<◌};
ghost use Rattle.turk_base.specs.Prog.{Inherits, ask};
ghost use Rattle.run_host.specs.Moment.{cells};
ghost use Rattle.run_host.specs.Steps.{Gives};
ghost use Rattle.machine_host.specs.Runs.{moment_of, IsSound};

use crate::AskedRun;
use ask_model::Asker;

impl<A: Asker> AskedRun<A> {
    /// Whether `from` stands on the chain of prototypes of a cell; it touches and costs nothing.
    pub fn inherits(&self, cell: u32, from: u32) -> bool
        requires sound { IsSound A.is_sound A.refuses A.seen self.now }
        requires cell { cell < cells (moment_of A.seen A.words self.now) }
        requires from { from < cells (moment_of A.seen A.words self.now) }
        ensures did { Gives (λ nu. ask (Inherits (nu cell) (nu from))) (λ nu. result) (moment_of A.seen A.words self.now) (moment_of A.seen A.words self.now) }
    {
        self.guarded.machine.inherits(cell, from)
    }
}
