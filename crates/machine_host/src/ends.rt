//! The ends of the branches of forks: a branch is taken back, or it joins.
ghost use Rattle.std.specs.Prelude.{◌≡◌, ◌≤◌, Some, IfOk, IfErr, OnOk, OnErr};
ghost use Rattle.turk_base.specs.Names.{path_in};
ghost use Rattle.turk_base.specs.State.{absent, give_value, threw};
ghost use Rattle.turk_base.specs.Values.{Normal, Throw as Thrown};
ghost use Rattle.value_cells.specs.Needs.{needs};
ghost use Rattle.value_cells.specs.Seen.{val_in};
ghost use Rattle.eval_ops.specs.Calls.{LeavesBack, LeavesKeep};
ghost use Rattle.run_host.specs.Moment.{cells};
ghost use Rattle.run_host.specs.Told.{Says, Halts, told_value, exit_needs};
ghost use Rattle.run_host.specs.Scopes.{told_fork};
ghost use Rattle.machine_host.specs.Asking.{Loses};
ghost use Rattle.machine_host.specs.Chain.{IsStill};
ghost use Rattle.machine_host.specs.Leaving.{LeftBack, LeftWith, joined_in, EndsFork};
ghost use Rattle.machine_host.specs.Runs.{heap_of, moment_of, IsSound};

use crate::AskedRun;
use ask_model::{AskStop, Asker};
use run_host::{Exit, Halt, Refusal};
use value_cells::Value;

impl<A: Asker> AskedRun<A> {
    /// Leaves the newest open scope, and takes back all that was done in it but for the fuel. Where none is open memory is
    /// answered, and nothing changed.
    pub(crate) fn take_back(&mut self) -> Result<(), Exit>
        requires sound { IsSound A.is_sound A.refuses A.seen self.old }
        ensures left { OnOk result (LeavesBack (heap_of self.old) (heap_of self.new)) }
        ensures noted { OnOk result (self.new.guarded.machine.left_back ≡ Some self.old.guarded.machine.heap.place.path) }
        ensures same { OnErr result (self.new.guarded ≡ self.old.guarded) }
        ensures lost { IfErr result (λ x. x ≡ Exit.Stopped AskStop.Memory) }
        ensures asker { self.new.asker ≡ self.old.asker }
        ensures notes { self.new.notes ≡ self.old.notes }
        ensures still { IsStill self.old self.new }
        ensures sound { IsSound A.is_sound A.refuses A.seen self.new }
    {
        let Some(entered) = self.entered.pop() else {
            return Err(Exit::Stopped(AskStop::Memory));
        };
        self.guarded.machine.leave_back(entered);
        self.guarded.machine.known();
        Ok(())
    }

    /// Leaves the newest open scope, and keeps what was done in it. Where none is open memory is answered, and nothing changed.
    pub(crate) fn keep_done(&mut self) -> Result<(), Exit>
        requires sound { IsSound A.is_sound A.refuses A.seen self.old }
        ensures left { OnOk result (LeavesKeep (heap_of self.old) (heap_of self.new)) }
        ensures more { cells (moment_of A.seen A.words self.old) ≤ cells (moment_of A.seen A.words self.new) }
        ensures same { OnErr result (self.new.guarded ≡ self.old.guarded) }
        ensures lost { IfErr result (λ x. x ≡ Exit.Stopped AskStop.Memory) }
        ensures asker { self.new.asker ≡ self.old.asker }
        ensures notes { self.new.notes ≡ self.old.notes }
        ensures still { IsStill self.old self.new }
        ensures sound { IsSound A.is_sound A.refuses A.seen self.new }
    {
        let Some(entered) = self.entered.pop() else {
            return Err(Exit::Stopped(AskStop::Memory));
        };
        self.guarded.machine.leave_keep(entered);
        self.guarded.machine.known();
        Ok(())
    }

    /// The branch that runs is absent: it is taken back, and noted.
    fn branch_absent(&mut self) -> Result<(), Exit>
        requires sound { IsSound A.is_sound A.refuses A.seen self.old }
        ensures ok { OnOk result (LeftBack (absent (heap_of self.old).scope.path) (moment_of A.seen A.words self.old) (moment_of A.seen A.words self.new)) }
        ensures err { IfErr result (λ x. Loses x (moment_of A.seen A.words self.old) (moment_of A.seen A.words self.new)) }
        ensures still { IsStill self.old self.new }
        ensures sound { IsSound A.is_sound A.refuses A.seen self.new }
    {
        self.guarded.machine.known();
        self.take_back()?;
        self.guarded.machine.absent();
        self.guarded.machine.known();
        Ok(())
    }

    /// Joins the scope that runs and leaves it; what was done in it stays. Memory is answered also where a branch is absent in it.
    fn branch_joined(&mut self) -> Result<(), Exit>
        requires sound { IsSound A.is_sound A.refuses A.seen self.old }
        ensures ok { OnOk result (LeftWith (joined_in (moment_of A.seen A.words self.old)) (moment_of A.seen A.words self.old) (moment_of A.seen A.words self.new)) }
        ensures more { cells (moment_of A.seen A.words self.old) ≤ cells (moment_of A.seen A.words self.new) }
        ensures err { IfErr result (λ x. Loses x (moment_of A.seen A.words self.old) (moment_of A.seen A.words self.new)) }
        ensures still { IsStill self.old self.new }
        ensures sound { IsSound A.is_sound A.refuses A.seen self.new }
    {
        let joined = self.guarded.machine.join(false);
        self.guarded.machine.known();
        match joined {
            Ok(Some(value)) => {
                drop(value);
                self.keep_done()
            }
            _ => Err(Exit::Stopped(AskStop::Memory)),
        }
    }

    /// The branch that runs joins, and gives its value to the scope around.
    fn branch_given(&mut self, value: Value) -> Result<(), Exit>
        requires sound { IsSound A.is_sound A.refuses A.seen self.old }
        requires value { needs value ≤ cells (moment_of A.seen A.words self.old) }
        ensures ok { OnOk result (LeftWith (λ nu. give_value (val_in nu value) (joined_in (moment_of A.seen A.words self.old) nu)) (moment_of A.seen A.words self.old) (moment_of A.seen A.words self.new)) }
        ensures err { IfErr result (λ x. Loses x (moment_of A.seen A.words self.old) (moment_of A.seen A.words self.new)) }
        ensures still { IsStill self.old self.new }
        ensures sound { IsSound A.is_sound A.refuses A.seen self.new }
    {
        self.branch_joined()?;
        let given = self.guarded.machine.give(value);
        self.guarded.machine.known();
        match given {
            Ok(()) => Ok(()),
            Err(_) => Err(Exit::Stopped(AskStop::Memory)),
        }
    }

    /// The branch that runs joins, and the verdict rule for one that threw is applied.
    fn branch_threw(&mut self) -> Result<(), Exit>
        requires sound { IsSound A.is_sound A.refuses A.seen self.old }
        ensures ok { OnOk result (LeftWith (λ nu. threw (heap_of self.old).scope.path (joined_in (moment_of A.seen A.words self.old) nu)) (moment_of A.seen A.words self.old) (moment_of A.seen A.words self.new)) }
        ensures more { cells (moment_of A.seen A.words self.old) ≤ cells (moment_of A.seen A.words self.new) }
        ensures err { IfErr result (λ x. Loses x (moment_of A.seen A.words self.old) (moment_of A.seen A.words self.new)) }
        ensures still { IsStill self.old self.new }
        ensures sound { IsSound A.is_sound A.refuses A.seen self.new }
    {
        let Ok(path) = self.guarded.machine.path().copy(self.alloc) else {
            return Err(Exit::Stopped(AskStop::Memory));
        };
        self.branch_joined()?;
        let told = self.guarded.machine.threw(&path);
        self.guarded.machine.known();
        match told {
            Ok(()) => Ok(()),
            Err(_) => Err(Exit::Stopped(AskStop::Memory)),
        }
    }

    // A fork whose branch gave a value.
    fn fork_given(&mut self, value: Value) -> Result<(), Exit>
        requires sound { IsSound A.is_sound A.refuses A.seen self.old }
        requires value { needs value ≤ cells (moment_of A.seen A.words self.old) }
        ensures did { EndsFork (λ nu. Says (Normal (val_in nu value))) (moment_of A.seen A.words self.old) (λ nu. told_fork nu result) (moment_of A.seen A.words self.new) }
        ensures thrown { IfErr result (λ x. exit_needs x ≡ 0) }
        ensures still { IsStill self.old self.new }
        ensures sound { IsSound A.is_sound A.refuses A.seen self.new }
    {
        if self.guarded.machine.lacks_branch() {
            return self.branch_absent();
        }
        self.branch_given(value)
    }

    // A fork whose branch threw.
    fn fork_threw(&mut self, value: Value) -> Result<(), Exit>
        requires sound { IsSound A.is_sound A.refuses A.seen self.old }
        requires value { needs value ≤ cells (moment_of A.seen A.words self.old) }
        ensures did { EndsFork (λ nu. Says (Thrown (val_in nu value))) (moment_of A.seen A.words self.old) (λ nu. told_fork nu result) (moment_of A.seen A.words self.new) }
        ensures thrown { IfErr result (λ x. exit_needs x ≤ cells (moment_of A.seen A.words self.new)) }
        ensures still { IsStill self.old self.new }
        ensures sound { IsSound A.is_sound A.refuses A.seen self.new }
    {
        if self.guarded.machine.lacks_branch() {
            return self.branch_absent();
        }
        self.branch_threw()?;
        Err(Exit::Throw(value))
    }

    // A fork whose branch was refused.
    fn fork_refused(&mut self, why: Refusal) -> Result<(), Exit>
        requires sound { IsSound A.is_sound A.refuses A.seen self.old }
        ensures did { EndsFork (λ nu. Halts (Halt.Refused why)) (moment_of A.seen A.words self.old) (λ nu. told_fork nu result) (moment_of A.seen A.words self.new) }
        ensures thrown { IfErr result (λ x. exit_needs x ≡ 0) }
        ensures still { IsStill self.old self.new }
        ensures sound { IsSound A.is_sound A.refuses A.seen self.new }
    {
        if self.guarded.machine.lacks_branch() {
            return self.branch_absent();
        }
        self.keep_done()?;
        Err(Exit::Halted(Halt::Refused(why)))
    }

    // A fork whose branch halted.
    fn fork_halted(&mut self, halt: Halt) -> Result<(), Exit>
        requires sound { IsSound A.is_sound A.refuses A.seen self.old }
        ensures did { EndsFork (λ nu. Halts halt) (moment_of A.seen A.words self.old) (λ nu. told_fork nu result) (moment_of A.seen A.words self.new) }
        ensures thrown { IfErr result (λ x. exit_needs x ≡ 0) }
        ensures still { IsStill self.old self.new }
        ensures sound { IsSound A.is_sound A.refuses A.seen self.new }
    {
        match halt {
            Halt::Refused(why) => self.fork_refused(why),
            Halt::Waits => self.branch_absent(),
            Halt::Spent => Err(Exit::Halted(Halt::Spent)),
            Halt::Diverges(divergence) => Err(Exit::Halted(Halt::Diverges(divergence))),
        }
    }

    /// Ends the branch that was opened last, by how its call ended: a branch that waits, or whose own branches are absent, is
    /// taken back and noted as absent; else it joins, and its value is one of the scope's. A halt that ends the run leaves all as it
    /// is, and so does a refusal of the asker.
    pub fn end_fork(&mut self, ended: Result<Value, Exit>) -> Result<(), Exit>
        requires sound { IsSound A.is_sound A.refuses A.seen self.old }
        requires value { IfOk ended (λ v. needs v ≤ cells (moment_of A.seen A.words self.old)) }
        requires thrown { IfErr ended (λ x. exit_needs x ≤ cells (moment_of A.seen A.words self.old)) }
        ensures did { EndsFork (λ nu. told_value nu ended) (moment_of A.seen A.words self.old) (λ nu. told_fork nu result) (moment_of A.seen A.words self.new) }
        ensures thrown { IfErr result (λ x. exit_needs x ≤ cells (moment_of A.seen A.words self.new)) }
        ensures still { IsStill self.old self.new }
        ensures sound { IsSound A.is_sound A.refuses A.seen self.new }
    {
        match ended {
            Ok(value) => self.fork_given(value),
            Err(exit) => match exit {
                Exit::Throw(value) => self.fork_threw(value),
                Exit::Halted(halt) => self.fork_halted(halt),
                Exit::Stopped(why) => Err(Exit::Stopped(why)),
            },
        }
    }
}
