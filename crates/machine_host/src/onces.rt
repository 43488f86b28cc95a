//! Calls of once: how they are counted, and what their records give.
ghost use Rattle.std.specs.Prelude.{◌≡◌, ◌≤◌, false, length, IfOk, IfErr};
ghost use Rattle.turk_base.specs.Names.{path_in};
ghost use Rattle.record_bytes.specs.Limits.{IsRecordWithin};
ghost use Rattle.value_cells.specs.Needs.{needs};
ghost use Rattle.value_cells.specs.Does.{Stays};
ghost use Rattle.run_heap.specs.Core.{names_in};
ghost use Rattle.run_heap.specs.Scopes.{IsReady};
ghost use Rattle.eval_ops.specs.Run.{seen_of, count};
ghost use Rattle.run_host.specs.Moment.{cells};
ghost use Rattle.run_host.specs.Told.{exit_needs};
ghost use Rattle.machine_host.specs.Asking.{Loses};
ghost use Rattle.machine_host.specs.Chain.{IsStill};
ghost use Rattle.machine_host.specs.Onces.{CountsOnce, OnceGives};
ghost use Rattle.machine_host.specs.Runs.{moment_of, IsSound};

use crate::AskedRun;
use crate::exits::answer_of;
use crate::kept::diverged_from;
use ask_model::{Asker, Called};
use eval_ops::Machine;
use run_host::Exit;
use std::alloc::Global;
use turk_base::{Path, Record};
use value_cells::Value;

/// What a record at the path of a once call gives: the kept value, put anew, or a divergence.
pub fn once_kept(
    alloc: Global,
    machine: &mut Machine,
    path: Path,
    what: &Record,
) -> Result<Value, Exit>
    requires within { IsRecordWithin what.now }
    ensures gives { OnceGives (path_in path) what.now (seen_of machine.old) (seen_of machine.new) result }
    ensures stays { Stays (seen_of machine.old) (seen_of machine.new) }
    ensures more { count machine.old ≤ count machine.new }
    ensures exists { IfOk result (λ v. needs v ≤ count machine.new) }
    ensures thrown { IfErr result (λ x. exit_needs x ≡ 0) }
{
    match what {
        Record::Once(value) => answer_of(machine.put_data(value)),
        _ => Err(diverged_from(alloc, path, what, Called::Once)),
    }
}

impl<A: Asker> AskedRun<A> {
    /// Counts a once call: its verdict rule is applied and its index taken. Gives its path.
    pub fn count_once(&mut self) -> Result<Path, Exit>
        requires sound { IsSound A.is_sound A.refuses A.seen self.old }
        ensures counted { IfOk result (λ p. CountsOnce p (moment_of A.seen A.words self.old) (moment_of A.seen A.words self.new)) }
        ensures short { IfOk result (λ p. length p ≤ 800) }
        ensures open { IfOk result (λ p. self.new.closed ≡ false) }
        ensures ready { IfOk result (λ p. IsReady p self.new.guarded.machine.heap.place.path self.new.guarded.machine.heap.place.calls (names_in self.new.guarded.machine.heap.cells.now)) }
        ensures lost { IfErr result (λ x. Loses x (moment_of A.seen A.words self.old) (moment_of A.seen A.words self.new)) }
        ensures more { cells (moment_of A.seen A.words self.old) ≤ cells (moment_of A.seen A.words self.new) }
        ensures asker { self.new.asker ≡ self.old.asker }
        ensures notes { self.new.notes ≡ self.old.notes }
        ensures still { IsStill self.old self.new }
        ensures sound { IsSound A.is_sound A.refuses A.seen self.new }
    {
        self.guarded.machine.once_at();
        self.guarded.machine.known();
        self.take_index()
    }
}
