//! How a run ended, by how its last statement did.
ghost use Rattle.std.specs.Prelude.{◌≡◌, ◌≤◌, ℕ, true, false, List, map, IfOk, IfErr, OnOk};
ghost use Rattle.turk_base.specs.Names.{root};
ghost use Rattle.turk_base.specs.Names as names;
ghost use Rattle.turk_base.specs.Asks.{Rec};
ghost use Rattle.turk_base.specs.State.{St, any_gone};
ghost use Rattle.turk_base.specs.Told.{verdict_told};
ghost use Rattle.turk_base.specs.Values.{Throw};
ghost use Rattle.js_tree.specs.declared.Script.{Script};
ghost use Rattle.js_tree.specs.World.{World, Rest};
ghost use Rattle.ask_model.specs.Asker.{Seen as Asked};
ghost use Rattle.js_tree.specs.Run.{Res};
ghost use Rattle.value_cells.specs.Seen.{Naming, Fits, Grows, val_in};
ghost use Rattle.value_cells.specs.Needs.{needs};
ghost use Rattle.eval_ops.specs.Run.{seen_of, count};
ghost use Rattle.run_host.specs.Moment as moment;
ghost use Rattle.run_host.specs.Told.{Says, Halts, GoesOn, flow_in, told_flow, exit_needs};
ghost use Rattle.machine_host.specs.Moments.{wait_in};
ghost use Rattle.script_run.specs.Closes.{ClosesAt, HaltedAt};
ghost use Rattle.script_run.specs.declared.End.TheVariants as spec;
ghost use Rattle.script_run.specs.Tells.{EndsAt, StopIs, EndsBy, IsCome, IsRan, IsStopped};

use crate::{End, Ran};
use ask_model::AskStop;
use eval_ops::Machine;
use machine_host::Wait;
use run_host::{Exit, Flow, Halt};
use std::alloc::Global;
use thrown_text::uncaught_text;
use turk_base::{NoMemory, Units, Verdict};
use value_cells::Value;

/// That the run waits, where a branch is absent at its end; else how it ended.
fn unless_absent(absent: bool, waits: Vec<Wait>, end: End) -> End
    ensures waits { absent ≡ true → result ≡ spec.Waiting waits }
    ensures ends { absent ≡ false → result ≡ end }
{
    if absent { End::Waiting(waits) } else { end }
}

/// How a run ended that came to its last statement.
fn finished(absent: bool, waits: Vec<Wait>) -> End
    ensures { (nu : Naming) (o : Flow) (E : World) (u : moment.Unmade) (made : List Rec) (σ : St) (w : Rest) (e : Res)
        → any_gone root σ.gone ≡ absent → w.waits ≡ map wait_in waits.items → ClosesAt E u made (Says (flow_in nu o)) σ w e → EndsAt result σ w made e }
{
    unless_absent(absent, waits, End::Finished)
}

/// How a run ended in which a value was thrown and never caught.
fn thrown(
    alloc: Global,
    machine: &mut Machine,
    absent: bool,
    waits: Vec<Wait>,
    value: &Value,
) -> Result<End, AskStop>
    requires { needs value.now ≤ count machine.old }
    ensures ended { IfOk result (λ end. (nu : Naming) → Fits nu (seen_of machine.new).names → (E : World) (u : moment.Unmade) (made : List Rec) (w : Rest) (e : Res)
        → any_gone root ((seen_of machine.old).first nu).gone ≡ absent → w.waits ≡ map wait_in waits.items → ClosesAt E u made (Says (Throw (val_in nu value.now))) ((seen_of machine.old).first nu) w e → EndsAt end ((seen_of machine.old).first nu) w made e) }
    ensures grows { OnOk result (Grows (seen_of machine.old).names (seen_of machine.new).names) }
    ensures stopped { IfErr result (λ why. why ≡ AskStop.Memory) }
{
    match uncaught_text(alloc, machine, value) {
        Ok(text) => Ok(unless_absent(absent, waits, End::Uncaught(text))),
        Err(_) => Err(AskStop::Memory),
    }
}

/// How a run ended that halted.
fn halted(absent: bool, waits: Vec<Wait>, halt: Halt) -> Result<End, AskStop>
    ensures ended { IfOk result (λ end. (σ : St) (w : Rest) (made : List Rec) (e : Res)
        → (GoesOn (Halts halt) → any_gone root σ.gone ≡ absent) → w.waits ≡ map wait_in waits.items → HaltedAt halt σ w made e → EndsAt end σ w made e) }
    ensures stopped { IfErr result (λ why. (E : World) (u : moment.Unmade) (σ : St) (w : Rest) (made : List Rec) (e : Res) → HaltedAt halt σ w made e → StopIs (λ _. ⊥) E u made e why) }
{
    match halt {
        Halt::Refused(why) => Ok(unless_absent(absent, waits, End::Refused(why))),
        Halt::Waits => Ok(End::Waiting(waits)),
        Halt::Spent => Ok(End::Spent),
        Halt::Diverges(divergence) => Err(AskStop::Diverged(divergence)),
    }
}

/// How a run ended, where its last statement ended so and these were waited for. Where a branch is absent at its end, the
/// run waits. The machine is in the script's scope, unless the run ended there for good; what it knows of open slots is not
/// kept.
fn end_of(
    alloc: Global,
    machine: &mut Machine,
    waits: Vec<Wait>,
    flow: Result<Flow, Exit>,
) -> Result<End, AskStop>
    requires scope { (nu : Naming) → GoesOn (told_flow nu flow) → (seen_of machine.old).scope.path ≡ root }
    requires thrown { IfErr flow (λ x. exit_needs x ≤ count machine.old) }
    ensures grows { OnOk result (Grows (seen_of machine.old).names (seen_of machine.new).names) }
    ensures ended { IfOk result (λ end. (nu : Naming) → Fits nu (seen_of machine.new).names → (E : World) (u : moment.Unmade) (made : List Rec) (w : Rest) (e : Res)
        → w.waits ≡ map wait_in waits.items → ClosesAt E u made (told_flow nu flow) ((seen_of machine.old).first nu) w e → EndsAt end ((seen_of machine.old).first nu) w made e) }
    ensures stopped { IfErr result (λ why. (nu : Naming) → Fits nu (seen_of machine.old).names → (E : World) (u : moment.Unmade) (made : List Rec) (w : Rest) (e : Res)
        → ClosesAt E u made (told_flow nu flow) ((seen_of machine.old).first nu) w e → StopIs (EndsBy flow) E u made e why) }
{
    let absent = machine.lacks_branch();
    match flow {
        Ok(_) => Ok(finished(absent, waits)),
        Err(Exit::Throw(value)) => thrown(alloc, machine, absent, waits, &value),
        Err(Exit::Halted(halt)) => halted(absent, waits, halt),
        Err(Exit::Stopped(why)) => Err(why),
    }
}

/// The output and the verdict of a run.
fn results(alloc: Global, machine: &Machine) -> Result<(Units, Verdict), NoMemory>
    ensures output { IfOk result (λ r. (nu : Naming) → r.0 ≡ ((seen_of machine.now).first nu).text) }
    ensures verdict { IfOk result (λ r. (nu : Naming) → Fits nu (seen_of machine.now).names → r.1 ≡ verdict_told ((seen_of machine.now).first nu).verdict) }
{
    let output = machine.output().copy(alloc)?;
    let verdict = machine.names(alloc)?;
    Ok((output, verdict))
}

/// What is told of a run that came to its end so.
pub fn told(
    alloc: Global,
    machine: &mut Machine,
    forks: u64,
    waits: Vec<Wait>,
    flow: Result<Flow, Exit>,
) -> Result<Ran, AskStop>
    requires scope { (nu : Naming) → GoesOn (told_flow nu flow) → (seen_of machine.old).scope.path ≡ root }
    requires thrown { IfErr flow (λ x. exit_needs x ≤ count machine.old) }
    ensures told { (u : moment.Unmade) (S : Script) (session : names.Units) (old new : Asked) (fuel : ℕ) → IsCome u S session old new fuel forks waits.items (seen_of machine.old) flow
        → IfOk result (λ ran. IsRan S session old new fuel ran) }
    ensures stopped { (u : moment.Unmade) (S : Script) (session : names.Units) (old new : Asked) (fuel : ℕ) → IsCome u S session old new fuel forks waits.items (seen_of machine.old) flow
        → IfErr result (λ why. IsStopped (EndsBy flow) u S session old new fuel why) }
{
    let results = results(alloc, machine);
    let end = end_of(alloc, machine, waits, flow)?;
    match results {
        Ok((output, verdict)) => Ok(Ran {
            end,
            output,
            verdict,
            forks,
        }),
        Err(_) => Err(AskStop::Memory),
    }
}
