//! Tasks as bytes.

ghost use Rattle.std.specs.Prelude.{◌≡◌, ◌++◌, List, ℕ, OnOk, IfOk, IfSome, IfNone};
ghost use Rattle.record_bytes.specs.Spelling.{task_bytes};
ghost use Rattle.record_bytes.specs.Limits.{IsTextWithin, SpellsTask};
ghost use Rattle.record_bytes.specs.Reading.{Gives, task_at, whole};

use crate::stop::ReadStop;
use crate::texts::{put_text, text_of};
use std::alloc::Global;
use turk_base::{NoMemory, Units};

/// The one spelling of a task, a token and a text of at most 1,048,576 units each.
#[tactic(auto, unfolding(crate::specs::Spelling::task_bytes))]
pub fn encode_task(alloc: Global, token: &Units, text: &Units) -> Result<Vec<u8>, NoMemory>
    requires token { IsTextWithin token.now }
    requires text { IsTextWithin text.now }
    ensures { IfOk result (λ v. SpellsTask v.items token.now text.now) }
{
    let mut out = Vec::new(alloc);
    put_text(&mut out, token)?;
    put_text(&mut out, text)?;
    Ok(out)
}

/// The token and the text that the bytes spell; None exactly where they are no task's spelling.
pub fn decode_task(alloc: Global, bytes: &[u8]) -> Result<Option<(Units, Units)>, NoMemory>
    ensures some { IfOk result (λ found. IfSome found (λ task. SpellsTask bytes.now task.0 task.1)) }
    ensures none { IfOk result (λ found. IfNone found ((token text : List ℕ) → SpellsTask bytes.now token text → ⊥)) }
{
    match whole_task(alloc, bytes) {
        Ok(task) => Ok(Some(task)),
        Err(ReadStop::Bad) => Ok(None),
        Err(ReadStop::Memory) => Err(NoMemory),
    }
}

// The task that all of the bytes are.
fn whole_task(alloc: Global, bytes: &[u8]) -> Result<(Units, Units), ReadStop>
    ensures { Gives (λ e. e) result (whole task_at bytes.now) }
{
    match task_of(alloc, bytes) {
        Ok((task, rest)) => {
            if rest.is_empty() {
                Ok(task)
            } else {
                Err(ReadStop::Bad)
            }
        }
        Err(stop) => Err(stop),
    }
}

#[tactic(auto, unfolding(crate::specs::Reading::task_at))]
fn task_of(alloc: Global, bytes: &[u8]) -> Result<((Units, Units), &[u8]), ReadStop>
    ensures { Gives (λ x. (x.0, x.1.now)) result (task_at bytes.now) }
{
    match text_of(alloc, bytes) {
        Ok((token, rest)) => match text_of(alloc, rest) {
            Ok((text, rest)) => Ok(((token, text), rest)),
            Err(stop) => Err(stop),
        },
        Err(stop) => Err(stop),
    }
}
