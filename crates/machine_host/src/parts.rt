//! A run that begins, and what is left of one that ended.
ghost use Rattle.std.specs.Prelude.{◌≡◌, [], None, false, map};
ghost use Rattle.std.specs.Option.{IfSome};
ghost use Rattle.turk_base.specs.Told.{records_of};
ghost use Rattle.eval_ops.specs.Run.{seen_of};
ghost use Rattle.eval_ops.specs.Calls.{IsBare};
ghost use Rattle.machine_host.specs.Moments.{wait_in};
ghost use Rattle.machine_host.specs.Sound.{Refused};
ghost use Rattle.machine_host.specs.Runs.{moment_of, heap_of, IsSound};
ghost use Rattle.machine_host.specs.Starts.{Begins};

use crate::guarded::Guarded;
use crate::{AskedRun, Notes, Unmade, Wait};
use ask_model::Asker;
use eval_ops::Machine;
use std::alloc::Global;
use turk_base::Name;

/// What is left of a run that ended.
#[derive(Drop)]
pub struct Parts<A> {
    /// Its state, in the scope in which it ended.
    pub machine: Machine,
    /// How many forks took an index.
    pub forks: u64,
    pub waits: Vec<Wait>,
    pub asker: A,
}

impl<A: Asker> AskedRun<A> {
    /// A run of a session that begins: over a machine with the built-in cells alone, and an asker that has made no record and
    /// was refused none.
    pub fn begin(alloc: Global, machine: Machine, session: Name, asker: A) -> AskedRun<A>
        requires bare { IsBare (seen_of machine).left (seen_of machine) }
        requires sound { A.is_sound asker }
        requires open { (A.seen asker).closed ≡ false }
        requires made { (A.seen asker).made ≡ [] }
        ensures begins { Begins session (records_of (A.seen asker).trace) (A.seen asker).replies (seen_of machine).left (A.words asker) (moment_of A.seen A.words result) }
        ensures stopped { (moment_of A.seen A.words result).stopped ≡ None }
        ensures asker { result.asker ≡ asker }
        ensures open { result.closed ≡ false }
        ensures sound { IsSound A.is_sound A.refuses A.seen result }
    {
        machine.known();
        AskedRun {
            alloc,
            guarded: Guarded { machine },
            entered: Vec::new(alloc),
            notes: Notes {
                forks: 0,
                waits: Vec::new(alloc),
                session,
                stopped: None,
                unmade: Unmade::Nothing,
            },
            closed: false,
            asker,
        }
    }

    /// What is left of it.
    pub fn into_parts(self) -> Parts<A>
        requires { IsSound A.is_sound A.refuses A.seen self }
        ensures heap { seen_of result.machine ≡ heap_of self }
        ensures forks { result.forks ≡ (moment_of A.seen A.words self).forks }
        ensures waits { map wait_in result.waits.items ≡ (moment_of A.seen A.words self).waits }
        ensures trace { records_of (A.seen result.asker).trace ≡ (moment_of A.seen A.words self).trace }
        ensures replies { (A.seen result.asker).replies ≡ (moment_of A.seen A.words self).pairs }
        ensures made { records_of (A.seen result.asker).made ≡ (moment_of A.seen A.words self).made }
        ensures asker { result.asker ≡ self.asker }
        ensures cause { IfSome (moment_of A.seen A.words self).stopped (λ why. Refused A.refuses (A.seen result.asker) (moment_of A.seen A.words self).unmade why) }
        ensures sound { A.is_sound result.asker }
    {
        let AskedRun {
            alloc: _,
            guarded,
            entered,
            notes,
            closed: _,
            asker,
        } = self;
        drop(entered);
        Parts {
            machine: guarded.machine,
            forks: notes.forks,
            waits: notes.waits,
            asker,
        }
    }
}
