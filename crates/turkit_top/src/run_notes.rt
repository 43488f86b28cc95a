//! The notes on a run.

ghost use Rattle.std.specs.Prelude.{◌≡◌, ◌++◌, [], codes, IfOk, if◌then◌else◌};
ghost use Rattle.std.specs.List.{flat_map};
ghost use Rattle.run_texts.specs.Texts.{dependent};
ghost use Rattle.turkit_top.specs.Notes as spec;

use machine_host::Wait;
use rerun_driver::Report;
use run_host::Refusal;
use run_texts::{push_crashed, push_dependent, push_uncaught, push_waiting};
use script_run::End;
use std::alloc::Global;
use turk_base::{Bytes, NoMemory, Units};

/// The name of a refusal.
fn refusal_name(why: Refusal) -> &'static [u8]
    ensures { result.now ≡ spec.refusal_name why }
{
    match why {
        Refusal::NotWhole => b"NotWhole",
        Refusal::NoPrimitive => b"NoPrimitive",
        Refusal::TooDeep => b"TooDeep",
        Refusal::TooLong => b"TooLong",
        Refusal::NotData => b"NotData",
        Refusal::ForkInOnce => b"ForkInOnce",
    }
}

/// Adds the line on a refusal.
fn push_refused(text: &mut Units, why: Refusal) -> Result<(), NoMemory>
    ensures { IfOk result (λ _. text.new ≡ text.old ++ (codes "refused " ++ spec.refusal_name why ++ codes "\n")) }
{
    text.push_bytes(b"refused ")?;
    text.push_bytes(refusal_name(why))?;
    text.push_bytes(b"\n")
}

/// Adds the line on what is waited for.
fn push_wait(text: &mut Units, wait: &Wait) -> Result<(), NoMemory>
    ensures { IfOk result (λ _. text.new ≡ text.old ++ spec.wait_line wait.now) }
{
    match wait {
        Wait::Task(token) => push_waiting(text, token),
        Wait::Crashed(scope) => push_crashed(text, scope),
    }
}

/// Adds a line for each wait, in order.
fn push_waits(text: &mut Units, waits: &[Wait]) -> Result<(), NoMemory>
    ensures { IfOk result (λ _. text.new ≡ text.old ++ flat_map spec.wait_line waits.now) }
{
    for wait in waits {
        push_wait(text, wait)?;
    }
    Ok(())
}

/// Adds the lines on how a run ended.
fn push_end(text: &mut Units, end: &End) -> Result<(), NoMemory>
    ensures { IfOk result (λ _. text.new ≡ text.old ++ spec.end_lines end.now) }
{
    match end {
        End::Finished => Ok(()),
        End::Uncaught(thrown) => push_uncaught(text, thrown),
        End::Refused(why) => push_refused(text, *why),
        End::Waiting(waits) => push_waits(text, waits.as_slice()),
        End::Spent => text.push_bytes(b"spent\n"),
    }
}

/// The script came to an end, and neither waits nor was cut.
pub fn is_ended(end: &End) -> bool
    ensures { result ≡ spec.is_ended end.now }
{
    match end {
        End::Finished | End::Uncaught(_) | End::Refused(_) => true,
        End::Waiting(_) | End::Spent => false,
    }
}

/// The lines on a run, and that on why its branches depend on each other, where it ended.
fn run_lines(alloc: Global, report: &Report) -> Result<Units, NoMemory>
    ensures { IfOk result (λ text. text ≡ spec.run_lines report.now) }
{
    let mut text = Units::new(alloc);
    push_end(&mut text, &report.end)?;
    if is_ended(&report.end) {
        push_dependent(&mut text, &report.verdict)?;
    }
    Ok(text)
}

/// The same in UTF-8.
pub fn run_note(alloc: Global, report: &Report) -> Result<Bytes, NoMemory>
    ensures { IfOk result (λ note. note ≡ spec.run_note report.now) }
{
    let text = run_lines(alloc, report)?;
    text.to_utf8(alloc)
}
