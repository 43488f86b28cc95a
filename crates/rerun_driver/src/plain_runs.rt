//! The plain run, which keeps nothing.
ghost use Rattle.std.specs.Prelude.{◌≡◌, ◌≤◌, IfOk};
ghost use Rattle.ask_model.specs.Asker.{AreReplies};
ghost use Rattle.rerun_driver.specs.Plain.{IsPlain, IsRunOf, plain_world};
ghost use Rattle.rerun_driver.specs.Told as spec;
ghost use Rattle.rerun_driver.specs.Told.{IsTold};

use crate::counting::Counting;
use crate::{Report, Stop};
use ask_model::{AskStop, TableAsker};
use js_tree::Resolved;
use outside::Draws;
use script_front::{ScriptStop, read_script};
use script_run::{Ended, Ran, run};
use std::alloc::Global;
use turk_base::{NoMemory, Replies, Settings};

/// The report of a run that made so many records, and posted nothing to a board.
fn report_of(alloc: Global, ran: Ran, made: u32) -> Result<Report, NoMemory>
    ensures { IfOk result (λ r. r ≡ spec.report_of ran made) }
{
    let output = ran.output.to_utf8(alloc)?;
    Ok(Report {
        end: ran.end,
        output,
        verdict: ran.verdict,
        forks: ran.forks,
        made,
        posted: 0,
    })
}

/// The refusal of an asker, as one of a run.
fn stop_of(stop: AskStop) -> Stop
    ensures { result ≡ spec.stop_of stop }
{
    match stop {
        AskStop::Fault(which) => Stop::Fault(which),
        AskStop::Diverged(divergence) => Stop::Diverged(divergence),
        AskStop::TraceFull => Stop::TraceFull,
        AskStop::LogFull => Stop::LogFull,
        AskStop::Memory => Stop::Memory,
    }
}

/// What is told of a run that was answered so and made so many records.
fn told(alloc: Global, answer: Result<Ran, AskStop>, made: u32) -> Result<Report, Stop>
    ensures { IsTold answer made result }
{
    match answer {
        Ok(ran) => match report_of(alloc, ran, made) {
            Ok(report) => Ok(report),
            Err(_) => Err(Stop::Memory),
        },
        Err(stop) => Err(stop_of(stop)),
    }
}

/// The run of a script over an empty trace, where the draws have begun.
fn over_nothing<W: Draws>(
    alloc: Global,
    script: &Resolved,
    replies: &Replies,
    settings: &Settings,
    draws: &mut W,
) -> Result<Report, Stop>
    requires fuel { settings.now.fuel ≤ 20000000 }
    requires replies { AreReplies replies.now }
    ensures { IsRunOf script.now (plain_world settings.now.name replies.now (W.rest draws.old)) settings.now.fuel result }
{
    let asker = match TableAsker::new(alloc, Vec::new(alloc), replies, draws) {
        Ok(table) => Counting::new(table),
        Err(_) => return Err(Stop::Memory),
    };
    let Ended { answer, asker } = run(alloc, script, &settings.name, settings.fuel, asker);
    told(alloc, answer, asker.made())
}

/// Runs a script by itself: nothing is kept from before, and nothing is kept. The draws are the words of their source from the
/// beginning that `settings.dice` names, and a reply is answered by the first of `replies` that has its token. The fuel is at
/// most 20,000,000, and each token and text of the replies has at most 1,048,576 units.
///
/// Ok tells what the run comes to, with at most 65,536 records made, and none posted. Script tells why the bytes are no script;
/// TraceFull comes exactly where the run makes more than 65,536 records. There is no other refusal but Memory, which says
/// nothing of the bytes and may come in the place of each other answer.
pub fn plain<W: Draws>(
    alloc: Global,
    script: &[u8],
    replies: &Replies,
    settings: &Settings,
    draws: &mut W,
) -> Result<Report, Stop>
    requires fuel { settings.now.fuel ≤ 20000000 }
    requires replies { AreReplies replies.now }
    ensures { IsPlain script.now (plain_world settings.now.name replies.now (W.words settings.now.dice)) settings.now.fuel result }
{
    match read_script(alloc, script) {
        Ok(script) => {
            draws.begin(settings.dice, 0);
            over_nothing(alloc, &script, replies, settings, draws)
        }
        Err(ScriptStop::Memory) => Err(Stop::Memory),
        Err(stop) => Err(Stop::Script(stop)),
    }
}
