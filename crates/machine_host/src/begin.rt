//! What is known of a run in order, and its output.
ghost use Rattle.std.specs.Prelude.{◌≡◌};
ghost use Rattle.run_host.specs.Moment.{HasBuiltIns, AreApart};
ghost use Rattle.machine_host.specs.Runs.{moment_of, IsSound};

use crate::AskedRun;
use ask_model::Asker;
use turk_base::Units;

impl<A: Asker> AskedRun<A> {
    /// Does nothing, and tells what is true of every run in order.
    pub fn known(&self)
        requires { IsSound A.is_sound A.refuses A.seen self.now }
        ensures built_ins { HasBuiltIns (moment_of A.seen A.words self.now) }
        ensures apart { AreApart (moment_of A.seen A.words self.now) }
    {}

    /// What was printed and not taken back.
    pub fn output(&self) -> &Units
        ensures { result.now ≡ self.now.guarded.machine.text }
    {
        self.guarded.machine.output()
    }
}
