//! What a record at the path of a call answers, and how a divergence is told.
ghost use Rattle.std.specs.Prelude.{◌≡◌, ◌⊎◌, IfOk, IfErr};
ghost use Rattle.turk_base.specs.Names.{path_in};
ghost use Rattle.turk_base.specs.Trace.{token_of};
ghost use Rattle.turk_base.specs.Asks.{posts, replies, draws};
ghost use Rattle.js_tree.specs.World.{diverges, found_kept, found_below, Found};
ghost use Rattle.js_tree.specs.World as meaning;
ghost use Rattle.run_host.specs.Told.{KeptOf, called_in, TellsOf, exit_needs};
ghost use Rattle.machine_host.specs.Asking.{KeptGives, Tells};

use ask_model::{AskStop, Called, Divergence, Kept};
use run_host::{Exit, Halt};
use std::alloc::Global;
use turk_base::{Name, NoMemory, Path, Record, Units, Whole, token};

/// What is told of a record in the way of a call.
fn kept_of(alloc: Global, what: &Record) -> Result<Kept, NoMemory>
    ensures { IfOk result (λ kept. KeptOf kept (found_kept what.now)) }
{
    match what {
        Record::Post(text) => Ok(Kept::Post(text.copy(alloc)?)),
        Record::Reply(token, _) => Ok(Kept::Reply(token.copy(alloc)?)),
        Record::Draw(bound, _) => Ok(Kept::Draw(*bound)),
        Record::Once(_) => Ok(Kept::Once),
    }
}

/// The exit of a divergence.
fn diverged(path: Path, kept: Kept, called: Called) -> Exit
    ensures told { (found : Found) → KeptOf kept found → Tells result (diverges (path_in path) found (called_in called)) }
    ensures thrown { exit_needs result ≡ 0 }
{
    Exit::Halted(Halt::Diverges(Divergence { path, kept, called }))
}

/// The exit where a record stands in the way of a call.
pub fn diverged_from(alloc: Global, path: Path, what: &Record, called: Called) -> Exit
    ensures told { (result ≡ Exit.Stopped AskStop.Memory) ⊎ Tells result (diverges (path_in path) (found_kept what.now) (called_in called)) }
    ensures thrown { exit_needs result ≡ 0 }
{
    match kept_of(alloc, what) {
        Ok(kept) => diverged(path, kept, called),
        Err(_) => Exit::Stopped(AskStop::Memory),
    }
}

/// The exit where records stand below a call.
pub fn diverged_below(path: Path, called: Called) -> Exit
    ensures told { Tells result (diverges (path_in path) found_below (called_in called)) }
    ensures thrown { exit_needs result ≡ 0 }
{
    diverged(path, Kept::Below, called)
}

/// The token of the task that was posted at a path.
pub fn token_at(alloc: Global, session: &Name, path: &Path) -> Result<Units, Exit>
    ensures ok { IfOk result (λ t. t ≡ token_of session.now path.now) }
    ensures lost { IfErr result (λ x. x ≡ Exit.Stopped AskStop.Memory) }
{
    match token(alloc, session, path) {
        Ok(token) => Ok(token),
        Err(_) => Err(Exit::Stopped(AskStop::Memory)),
    }
}

/// What a record answers a post of this text at its path.
pub fn post_kept(
    alloc: Global,
    session: &Name,
    what: &Record,
    path: Path,
    text: &Units,
) -> Result<Units, Exit>
    ensures gives { KeptGives (posts text.now) session.now (path_in path) what.now result }
    ensures thrown { IfErr result (λ x. exit_needs x ≡ 0) }
{
    if let Record::Post(kept) = what {
        if kept == text {
            return token_at(alloc, session, &path);
        }
    }
    match text.copy(alloc) {
        Ok(text) => Err(diverged_from(alloc, path, what, Called::Post(text))),
        Err(_) => Err(Exit::Stopped(AskStop::Memory)),
    }
}

/// What a record answers that was asked the reply to this task at its path.
pub fn reply_kept(
    alloc: Global,
    session: &Name,
    what: &Record,
    path: Path,
    task: &Units,
) -> Result<Units, Exit>
    ensures gives { KeptGives (replies task.now) session.now (path_in path) what.now result }
    ensures thrown { IfErr result (λ x. exit_needs x ≡ 0) }
{
    if let Record::Reply(kept, text) = what {
        if kept == task {
            return match text.copy(alloc) {
                Ok(text) => Ok(text),
                Err(_) => Err(Exit::Stopped(AskStop::Memory)),
            };
        }
    }
    match task.copy(alloc) {
        Ok(task) => Err(diverged_from(alloc, path, what, Called::Reply(task))),
        Err(_) => Err(Exit::Stopped(AskStop::Memory)),
    }
}

/// What a record answers that was drawn below this bound at its path.
pub fn draw_kept(
    alloc: Global,
    session: &Name,
    what: &Record,
    path: Path,
    bound: Whole,
) -> Result<Whole, Exit>
    ensures gives { KeptGives (draws bound) session.now (path_in path) what.now result }
    ensures thrown { IfErr result (λ x. exit_needs x ≡ 0) }
{
    if let Record::Draw(kept, value) = what {
        if *kept == bound {
            return Ok(*value);
        }
    }
    Err(diverged_from(alloc, path, what, Called::Random(bound)))
}

/// The exit of a post where records stand below its path.
pub fn post_below(alloc: Global, path: Path, text: &Units) -> Exit
    ensures told { (result ≡ Exit.Stopped AskStop.Memory) ⊎ Tells result (diverges (path_in path) found_below (meaning.called_post text.now)) }
    ensures thrown { exit_needs result ≡ 0 }
{
    match text.copy(alloc) {
        Ok(text) => diverged_below(path, Called::Post(text)),
        Err(_) => Exit::Stopped(AskStop::Memory),
    }
}

/// The exit where a reply is asked and records stand below its path.
pub fn reply_below(alloc: Global, path: Path, task: &Units) -> Exit
    ensures told { (result ≡ Exit.Stopped AskStop.Memory) ⊎ Tells result (diverges (path_in path) found_below (meaning.called_reply task.now)) }
    ensures thrown { exit_needs result ≡ 0 }
{
    match task.copy(alloc) {
        Ok(task) => diverged_below(path, Called::Reply(task)),
        Err(_) => Exit::Stopped(AskStop::Memory),
    }
}
