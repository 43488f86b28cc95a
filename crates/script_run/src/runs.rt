//! The run of a whole script over an asker.
ghost use Rattle.std.specs.Prelude.{◌≡◌, ◌≤◌, [], false, Err, IfOk, IfErr};
ghost use Rattle.js_tree.specs.declared.Script.{Script};
ghost use Rattle.js_tree.specs.Table.{table_of};
ghost use Rattle.value_cells.specs.Seen.{Naming};
ghost use Rattle.ask_model.specs.declared.AskStop.{AskStop};
ghost use Rattle.eval_ops.specs.Run.{seen_of, count};
ghost use Rattle.eval_ops.specs.Calls.{IsBare};
ghost use Rattle.run_host.specs.Told.{GoesOn, told_flow, exit_needs};
ghost use Rattle.run_host.specs.declared.Exit.TheVariants.{Stopped};
ghost use Rattle.machine_host.specs.declared.Unmade.{Unmade};
ghost use Rattle.machine_host.specs.Moments.{unmade_in};
ghost use Rattle.tree_rows.specs.Codes.{table_in};
ghost use Rattle.script_run.specs.Since.{LeavesLeft, HasTasks};
ghost use Rattle.script_run.specs.Tells.{Asks, HasCause, IsCome, IsRan, IsStopped};

use crate::Ended;
use crate::ends::told;
use crate::start::{Prepared, prepare};
use ask_model::{AskStop, Asker};
use js_tree::Resolved;
use machine_host::{AskedRun, Parts};
use run_host::{Exit, Flow};
use std::alloc::Global;
use tree_eval::script as run_script;
use turk_base::Name;

/// How the last statement of a script ended, and what is left of the run.
struct Came<A> {
    flow: Result<Flow, Exit>,
    parts: Parts<A>,
}

/// Runs the statements of a script to their end.
fn through<A: Asker>(alloc: Global, ready: Prepared, asker: A) -> Came<A>
    requires bare { IsBare (seen_of ready.machine).left (seen_of ready.machine) }
    requires sound { A.is_sound asker }
    requires open { (A.seen asker).closed ≡ false }
    requires made { (A.seen asker).made ≡ [] }
    ensures came { (S : Script) → table_in ready.entry.codes ≡ table_of S → ready.entry.whole.body.now ≡ S
        → (u : Unmade) × IsCome (unmade_in u) S ready.entry.session (A.seen asker) (A.seen result.parts.asker) (seen_of ready.entry.machine).left result.parts.forks result.parts.waits.items (seen_of result.parts.machine) result.flow
        × ((why : AskStop) → result.flow ≡ Err (Stopped why) → HasCause A.refuses (A.fits result.parts.asker) (A.seen result.parts.asker) u why) }
    ensures asks { Asks (A.words asker) (A.seen asker) (A.seen result.parts.asker) }
    ensures keeps { A.keeps asker result.parts.asker }
    ensures traces { (S : Script) → table_in ready.entry.codes ≡ table_of S → ready.entry.whole.body.now ≡ S
        → A.tells_traces → LeavesLeft A.seen A.moment A.left_since S ready.entry.session (seen_of ready.entry.machine).left asker result.parts.asker }
    ensures tasks { (S : Script) → table_in ready.entry.codes ≡ table_of S → ready.entry.whole.body.now ≡ S
        → A.tells_tasks → HasTasks S ready.entry.session (seen_of ready.entry.machine).left (λ t. A.tells_traces × A.left_since result.parts.asker (A.moment result.parts.asker) t) (A.seen asker) (A.seen result.parts.asker) }
    ensures scope { (nu : Naming) → GoesOn (told_flow nu result.flow) → (seen_of result.parts.machine).scope.path ≡ (seen_of ready.entry.machine).scope.path }
    ensures thrown { IfErr result.flow (λ x. exit_needs x ≤ count result.parts.machine) }
    ensures sound { A.is_sound result.parts.asker }
{
    let Prepared {
        codes,
        whole,
        machine,
        session,
    } = ready;
    let mut host = AskedRun::begin(alloc, machine, session, asker);
    let flow = run_script(alloc, &codes, &mut host, &whole);
    Came {
        flow,
        parts: host.into_parts(),
    }
}

/// Runs a script in a session of this name, with so much fuel, over what the asker knows: each once, reply and draw that has a
/// record is answered by it, and each other call is answered by the asker, which keeps its record. The asker has made no
/// record before, and none of its calls answered Fault(Disk).
///
/// Ok tells how the run ended. Diverged comes where a record at a call's path is of another kind, text, task or bound than the
/// call, or where records stand below a post, a reply or a draw that has no record; else a refusal is the asker's at the call
/// that it names, or want of memory. The records made until then are with the asker.
///
/// However the run ends: between the asker before it and after it holds the asker's own relation. Each trace that a stop from the
/// entry on may leave is that of the entry, followed by a front of the records that the run makes with the trace's draws. The
/// board's tasks are those of the entry, followed by those of posts of the run, each with what it rests on in each trace that a
/// stop at the exit leaves.
pub fn run<A: Asker>(alloc: Global, script: &Resolved, name: &Name, fuel: u64, asker: A) -> Ended<A>
    requires fuel { fuel ≤ 20000000 }
    requires sound { A.is_sound asker }
    requires open { (A.seen asker).closed ≡ false }
    requires made { (A.seen asker).made ≡ [] }
    ensures told { IfOk result.answer (λ ran. IsRan script.now name.now (A.seen asker) (A.seen result.asker) fuel ran) }
    ensures stopped { IfErr result.answer (λ why. (u : Unmade) × IsStopped (HasCause A.refuses (A.fits result.asker) (A.seen result.asker) u) (unmade_in u) script.now name.now (A.seen asker) (A.seen result.asker) fuel why) }
    ensures asks { Asks (A.words asker) (A.seen asker) (A.seen result.asker) }
    ensures keeps { A.keeps asker result.asker }
    ensures traces { A.tells_traces → LeavesLeft A.seen A.moment A.left_since script.now name.now fuel asker result.asker }
    ensures tasks { A.tells_tasks → HasTasks script.now name.now fuel (λ t. A.tells_traces × A.left_since result.asker (A.moment result.asker) t) (A.seen asker) (A.seen result.asker) }
    ensures sound { A.is_sound result.asker }
{
    let Ok(ready) = prepare(alloc, script, name, fuel) else {
        return Ended {
            answer: Err(AskStop::Memory),
            asker,
        };
    };
    let Came { flow, parts } = through(alloc, ready, asker);
    let Parts {
        machine: mut left,
        forks,
        waits,
        asker,
    } = parts;
    Ended {
        answer: told(alloc, &mut left, forks, waits, flow),
        asker,
    }
}
