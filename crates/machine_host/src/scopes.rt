//! What hangs on the scope that runs: joining, forks, crashes; and the built-in calls.
ghost use Rattle.std.specs.Prelude.{◌≡◌, ◌≤◌, ◌∷◌, ◌++◌, [], IfOk, IfErr, OnOk, OnErr, true, map};
ghost use Rattle.turk_base.specs.Prog.{Join, MayFork, Crash, ask};
ghost use Rattle.turk_base.specs.BuiltIns.{call_built_in};
ghost use Rattle.value_cells.specs.Needs.{needs, all_needs};
ghost use Rattle.value_cells.specs.Seen.{val_in};
ghost use Rattle.run_host.specs.Moment.{cells};
ghost use Rattle.run_host.specs.Told.{told_value, exit_needs};
ghost use Rattle.run_host.specs.Did.{Runs};
ghost use Rattle.run_host.specs.Steps.{Leaves, Takes};
ghost use Rattle.machine_host.specs.Chain.{IsStill};
ghost use Rattle.machine_host.specs.Runs.{moment_of, IsSound};

use crate::exits::{exit_of, value_of};
use crate::{AskedRun, Wait};
use ask_model::{AskStop, Asker};
use builtin_calls::call_made;
use run_host::{Exit, Halt, Refusal};
use turk_base::NoMemory;
use value_cells::Value;

/// Notes a wait after the others. After want of memory they are as before.
pub fn note(waits: &mut Vec<Wait>, wait: Wait) -> Result<(), NoMemory>
    ensures ok { OnOk result (waits.new.items ≡ waits.old.items ++ wait ∷ []) }
    ensures err { OnErr result (waits.new.items ≡ waits.old.items) }
{
    match waits.push(wait) {
        Ok(()) => Ok(()),
        Err(_) => Err(NoMemory),
    }
}

impl<A: Asker> AskedRun<A> {
    /// A built-in call by its number, with `this` and its arguments. What it throws was made.
    pub fn built_in(&mut self, which: u8, this: &Value, arguments: &[Value]) -> Result<Value, Exit>
        requires sound { IsSound A.is_sound A.refuses A.seen self.old }
        requires this { needs this.now ≤ cells (moment_of A.seen A.words self.old) }
        requires arguments { all_needs arguments.now ≤ cells (moment_of A.seen A.words self.old) }
        ensures did { Runs (λ nu. call_built_in which (val_in nu this.now) (map (val_in nu) arguments.now)) (λ nu. told_value nu result) (moment_of A.seen A.words self.old) (moment_of A.seen A.words self.new) }
        ensures more { cells (moment_of A.seen A.words self.old) ≤ cells (moment_of A.seen A.words self.new) }
        ensures exists { IfOk result (λ v. needs v ≤ cells (moment_of A.seen A.words self.new)) }
        ensures thrown { IfErr result (λ x. exit_needs x ≤ cells (moment_of A.seen A.words self.new)) }
        ensures still { IsStill self.old self.new }
        ensures sound { IsSound A.is_sound A.refuses A.seen self.new }
    {
        let ended = call_made(self.alloc, &mut self.guarded, which, this, arguments);
        self.guarded.machine.known();
        value_of(ended)
    }

    /// Refused in a once body.
    pub fn may_fork(&self) -> Result<(), Exit>
        requires sound { IsSound A.is_sound A.refuses A.seen self.now }
        ensures did { Takes (λ nu. ask MayFork) (λ nu u. u) result (moment_of A.seen A.words self.now) (moment_of A.seen A.words self.now) }
        ensures thrown { IfErr result (λ x. exit_needs x ≡ 0) }
    {
        if self.guarded.machine.in_once() {
            return Err(Exit::Halted(Halt::Refused(Refusal::ForkInOnce)));
        }
        Ok(())
    }

    /// Joins the branches of the scope; the answer is an array of their values.
    pub fn join(&mut self) -> Result<Value, Exit>
        requires sound { IsSound A.is_sound A.refuses A.seen self.old }
        ensures did { Takes (λ nu. ask (Join true)) val_in result (moment_of A.seen A.words self.old) (moment_of A.seen A.words self.new) }
        ensures more { cells (moment_of A.seen A.words self.old) ≤ cells (moment_of A.seen A.words self.new) }
        ensures exists { IfOk result (λ v. needs v ≤ cells (moment_of A.seen A.words self.new)) }
        ensures thrown { IfErr result (λ x. exit_needs x ≡ 0) }
        ensures still { IsStill self.old self.new }
        ensures sound { IsSound A.is_sound A.refuses A.seen self.new }
    {
        if self.guarded.machine.in_once() {
            return Err(Exit::Halted(Halt::Refused(Refusal::ForkInOnce)));
        }
        let joined = self.guarded.machine.join(true);
        self.guarded.machine.known();
        match joined {
            Ok(Some(value)) => Ok(value),
            Ok(None) => Err(Exit::Halted(Halt::Waits)),
            Err(stop) => Err(exit_of(stop)),
        }
    }

    /// The run waits here; the wait is noted.
    pub fn crash(&mut self) -> Exit
        requires sound { IsSound A.is_sound A.refuses A.seen self.old }
        ensures did { Leaves (λ nu. ask Crash) result (moment_of A.seen A.words self.old) (moment_of A.seen A.words self.new) }
        ensures more { cells (moment_of A.seen A.words self.old) ≤ cells (moment_of A.seen A.words self.new) }
        ensures thrown { exit_needs result ≡ 0 }
        ensures still { IsStill self.old self.new }
        ensures sound { IsSound A.is_sound A.refuses A.seen self.new }
    {
        let Ok(scope) = self.guarded.machine.path().copy(self.alloc) else {
            return Exit::Stopped(AskStop::Memory);
        };
        match note(&mut self.notes.waits, Wait::Crashed(scope)) {
            Ok(()) => Exit::Halted(Halt::Waits),
            Err(_) => Exit::Stopped(AskStop::Memory),
        }
    }
}
