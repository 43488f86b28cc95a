//! What a run is answered with.

ghost use Rattle.std.specs.Prelude.{◌≡◌, ◌≤◌};
ghost use Rattle.rerun_driver.specs.Plain.{plain_world};
ghost use Rattle.ask_model.specs.Asker.{AreReplies};
ghost use Rattle.turkit_top.specs.Answers.{status_of, output_of, noted, report_answer, fault_answer, stop_answer, IsDue, IsRun};

use crate::answer::{Answer, noted, nothing};
use crate::fault_notes::fault_note;
use crate::run_notes::{is_ended, run_note};
use crate::status::Status;
use outside::Draws;
use rerun_driver::{Report, Stop, plain};
use script_front::ScriptStop;
use script_run::End;
use std::alloc::Global;
use turk_base::{Bytes, Replies, Settings};

/// The status of how a run ended.
fn status_of(end: &End) -> Status
    ensures { result ≡ status_of end.now }
{
    match end {
        End::Finished => Status::Finished,
        End::Uncaught(_) | End::Refused(_) => Status::Ended,
        End::Waiting(_) => Status::Waiting,
        End::Spent => Status::Spent,
    }
}

/// The output of a run that ended, and nothing of another.
fn output_of(alloc: Global, report: Report) -> Bytes
    ensures { result ≡ output_of report }
{
    let Report {
        end,
        output,
        verdict: _,
        forks: _,
        made: _,
        posted: _,
    } = report;
    if is_ended(&end) {
        output
    } else {
        Bytes::new(alloc)
    }
}

/// What a report comes to: the output, where the run ended, and its lines.
fn of_report(alloc: Global, report: Report) -> Answer
    ensures { IsDue (report_answer report) result }
{
    match run_note(alloc, &report) {
        Ok(note) => Answer {
            status: status_of(&report.end),
            output: output_of(alloc, report),
            note,
        },
        Err(_) => nothing(alloc, Status::Memory),
    }
}

/// A status with a note of its own, or want of memory for the note.
pub fn with_text(alloc: Global, status: Status, text: &[u8]) -> Answer
    ensures { IsDue (noted status text.now) result }
{
    match Bytes::from_slice(alloc, text) {
        Ok(note) => noted(alloc, status, note),
        Err(_) => nothing(alloc, Status::Memory),
    }
}

/// What bytes that are no script come to.
fn of_fault(alloc: Global, fault: ScriptStop) -> Answer
    ensures { IsDue (fault_answer fault) result }
{
    match fault {
        ScriptStop::TooLarge => with_text(alloc, Status::TooLarge, b"script too large\n"),
        ScriptStop::Memory => nothing(alloc, Status::Memory),
        _ => match fault_note(alloc, fault) {
            Ok(note) => noted(alloc, Status::Syntax, note),
            Err(_) => nothing(alloc, Status::Memory),
        },
    }
}

/// What is answered where there is no report. A plain run has these causes alone.
fn of_stop(alloc: Global, stop: Stop) -> Answer
    ensures { IsDue (stop_answer stop) result }
{
    match stop {
        Stop::Script(fault) => of_fault(alloc, fault),
        Stop::TraceFull => with_text(alloc, Status::Full, b"trace full\n"),
        _ => nothing(alloc, Status::Memory),
    }
}

/// What a plain run of these bytes comes to.
pub fn of_run<W: Draws>(
    alloc: Global,
    script: &[u8],
    replies: &Replies,
    settings: &Settings,
    draws: &mut W,
) -> Answer
    requires fuel { settings.now.fuel ≤ 20000000 }
    requires replies { AreReplies replies.now }
    ensures { IsRun script.now (plain_world settings.now.name replies.now (W.words settings.now.dice)) settings.now.fuel result }
{
    match plain(alloc, script, replies, settings, draws) {
        Ok(report) => of_report(alloc, report),
        Err(stop) => of_stop(alloc, stop),
    }
}
