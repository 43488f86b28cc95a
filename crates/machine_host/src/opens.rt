//! Scopes that are opened for calls of fork and once.
ghost use Rattle.std.specs.Prelude.{◌≡◌, ◌≤◌, IfOk, IfErr, OnOk, OnErr, Ok, None};
ghost use Rattle.std.specs.Option.{IfSome};
ghost use Rattle.turk_base.specs.Names.{path_in};
ghost use Rattle.turk_base.specs.Values.{Normal};
ghost use Rattle.turk_base.specs.Prog.{Prog, Once, Fork};
ghost use Rattle.run_heap.specs.Core.{names_in};
ghost use Rattle.run_heap.specs.Scopes.{IsReady};
ghost use Rattle.value_cells.specs.Needs.{option_needs};
ghost use Rattle.value_cells.specs.Seen.{Naming, val_in};
ghost use Rattle.eval_ops.specs.Calls.{Enters};
ghost use Rattle.run_host.specs.Moment.{cells};
ghost use Rattle.run_host.specs.Told.{Says, told_exit, exit_needs};
ghost use Rattle.run_host.specs.Did.{Runs};
ghost use Rattle.run_host.specs.Scopes.{OpensOnce, OpensFork};
ghost use Rattle.machine_host.specs.Chain.{IsStill, Later};
ghost use Rattle.machine_host.specs.Runs.{heap_of, moment_of, IsSound};

use crate::AskedRun;
use crate::kept::diverged_from;
use crate::onces::once_kept;
use ask_model::{AskStop, Asker, Called, Known};
use run_host::{Exit, Halt, Refusal};
use turk_base::Path;
use value_cells::Value;

impl<A: Asker> AskedRun<A> {
    /// Enters the scope of the call that took its index last: a branch, or a once body.
    fn enter(&mut self, path: &Path, branch: bool) -> Result<(), Exit>
        requires sound { IsSound A.is_sound A.refuses A.seen self.old }
        requires ready { IsReady path.now self.old.guarded.machine.heap.place.path self.old.guarded.machine.heap.place.calls (names_in self.old.guarded.machine.heap.cells.now) }
        ensures ok { OnOk result (Enters (path_in path.now) branch (heap_of self.old) (heap_of self.new)) }
        ensures same { OnErr result (self.new.guarded ≡ self.old.guarded) }
        ensures lost { IfErr result (λ x. x ≡ Exit.Stopped AskStop.Memory) }
        ensures asker { self.new.asker ≡ self.old.asker }
        ensures notes { self.new.notes ≡ self.old.notes }
        ensures more { cells (moment_of A.seen A.words self.old) ≤ cells (moment_of A.seen A.words self.new) }
        ensures still { IsStill self.old self.new }
        ensures sound { IsSound A.is_sound A.refuses A.seen self.new }
    {
        if self.entered.reserve(1).is_err() {
            return Err(Exit::Stopped(AskStop::Memory));
        }
        let answer = self.guarded.machine.enter(path, branch);
        self.guarded.machine.known();
        match answer {
            Ok(entered) => {
                self.entered.push_reserved(entered);
                Ok(())
            }
            Err(_) => Err(Exit::Stopped(AskStop::Memory)),
        }
    }

    /// Counts a fork and opens its branch, which `end_fork` closes.
    pub fn open_fork(&mut self) -> Result<(), Exit>
        requires sound { IsSound A.is_sound A.refuses A.seen self.old }
        ensures opened { OnOk result (OpensFork (moment_of A.seen A.words self.old) (moment_of A.seen A.words self.new)) }
        ensures out { IfErr result (λ x. (g : Naming → Prog) → Runs (λ nu. Fork (g nu)) (λ nu. told_exit nu x) (moment_of A.seen A.words self.old) (moment_of A.seen A.words self.new)) }
        ensures more { cells (moment_of A.seen A.words self.old) ≤ cells (moment_of A.seen A.words self.new) }
        ensures thrown { IfErr result (λ x. exit_needs x ≡ 0) }
        ensures later { Later A.seen A.fits A.keeps A.tells_tasks A.tells_traces A.moment A.left_since self.old self.new }
        ensures sound { IsSound A.is_sound A.refuses A.seen self.new }
    {
        if self.guarded.machine.in_once() {
            return Err(Exit::Halted(Halt::Refused(Refusal::ForkInOnce)));
        }
        if self.notes.forks == u64::MAX {
            return Err(Exit::Stopped(AskStop::Memory));
        }
        let path = self.take_index()?;
        self.notes.forks += 1;
        match self.asker.known(&path) {
            Known::Here => match self.asker.kept() {
                Some(record) => Err(diverged_from(self.alloc, path, record, Called::Fork)),
                None => Err(Exit::Stopped(AskStop::Memory)),
            },
            _ => self.enter(&path, true),
        }
    }

    /// Counts a once call. Where its record is there, the answer is the kept value; else the scope of its body was opened, and
    /// `end_once` closes it.
    pub fn open_once(&mut self) -> Result<Option<Value>, Exit>
        requires sound { IsSound A.is_sound A.refuses A.seen self.old }
        ensures kept { IfOk result (λ o. IfSome o (λ v. (g : Naming → Prog) → Runs (λ nu. Once (g nu)) (λ nu. Says (Normal (val_in nu v))) (moment_of A.seen A.words self.old) (moment_of A.seen A.words self.new))) }
        ensures opened { OnOk result ((result ≡ Ok None) → OpensOnce (moment_of A.seen A.words self.old) (moment_of A.seen A.words self.new)) }
        ensures out { IfErr result (λ x. (g : Naming → Prog) → Runs (λ nu. Once (g nu)) (λ nu. told_exit nu x) (moment_of A.seen A.words self.old) (moment_of A.seen A.words self.new)) }
        ensures more { cells (moment_of A.seen A.words self.old) ≤ cells (moment_of A.seen A.words self.new) }
        ensures exists { IfOk result (λ o. option_needs o ≤ cells (moment_of A.seen A.words self.new)) }
        ensures thrown { IfErr result (λ x. exit_needs x ≡ 0) }
        ensures later { Later A.seen A.fits A.keeps A.tells_tasks A.tells_traces A.moment A.left_since self.old self.new }
        ensures sound { IsSound A.is_sound A.refuses A.seen self.new }
    {
        let path = self.count_once()?;
        match self.asker.known(&path) {
            Known::Here => match self.asker.kept() {
                Some(record) => {
                    let answer = once_kept(self.alloc, &mut self.guarded.machine, path, record);
                    self.guarded.machine.known();
                    match answer {
                        Ok(value) => Ok(Some(value)),
                        Err(exit) => Err(exit),
                    }
                }
                None => Err(Exit::Stopped(AskStop::Memory)),
            },
            _ => match self.enter(&path, false) {
                Ok(()) => Ok(None),
                Err(exit) => Err(exit),
            },
        }
    }
}
