//! Lines on how a run ended.
ghost use Rattle.std.specs.Prelude.{◌≡◌, ◌++◌, codes, IfOk};
ghost use Rattle.run_texts.specs.Texts as spec;

use crate::{push_number, push_path, push_quoted};
use turk_base::{NoMemory, Path, SlotKey, SlotName, Units, Verdict};

/// Adds the line on why the branches of a run depend on each other, and nothing where they do not.
/// The line is `dependent`, the reason's name, and the slot or the path of the branch. A slot is the
/// path of the scope where its cell was made, `:`, the cell's number there, a space, and `shape` or
/// the quoted key.
pub fn push_dependent(text: &mut Units, verdict: &Verdict) -> Result<(), NoMemory>
    ensures { IfOk result (λ _. text.new ≡ text.old ++ spec.dependent verdict.now) }
{
    match verdict {
        Verdict::Independent => Ok(()),
        Verdict::TouchedOpen(slot) => push_slot_line(text, b"dependent TouchedOpen ", slot),
        Verdict::OnceWhileOpen(slot) => push_slot_line(text, b"dependent OnceWhileOpen ", slot),
        Verdict::BranchThrew(path) => push_path_line(text, b"dependent BranchThrew ", path),
    }
}

/// Adds the line on a task whose reply is waited for: `waiting` and the task's token, as it stands.
pub fn push_waiting(text: &mut Units, token: &Units) -> Result<(), NoMemory>
    ensures { IfOk result (λ _. text.new ≡ text.old ++ spec.waiting token.now) }
{
    text.push_bytes(b"waiting ")?;
    text.append(token)?;
    text.push_bytes(b"\n")
}

/// Adds the line on a scope that crashed: `waiting crash` and the scope's path.
pub fn push_crashed(text: &mut Units, scope: &Path) -> Result<(), NoMemory>
    ensures { IfOk result (λ _. text.new ≡ text.old ++ spec.crashed scope.now) }
{
    push_path_line(text, b"waiting crash ", scope)
}

/// Adds the line on what a script threw and did not catch: `uncaught` and the quoted text.
pub fn push_uncaught(text: &mut Units, thrown: &Units) -> Result<(), NoMemory>
    ensures { IfOk result (λ _. text.new ≡ text.old ++ spec.uncaught thrown.now) }
{
    text.push_bytes(b"uncaught ")?;
    push_quoted(text, thrown)?;
    text.push_bytes(b"\n")
}

// a line of words and a path
fn push_path_line(text: &mut Units, words: &[u8], path: &Path) -> Result<(), NoMemory>
    ensures { IfOk result (λ _. text.new ≡ text.old ++ (words.now ++ spec.path_text path.now ++ codes "\n")) }
{
    text.push_bytes(words)?;
    push_path(text, path)?;
    text.push_bytes(b"\n")
}

// a line of words and a slot
fn push_slot_line(text: &mut Units, words: &[u8], slot: &SlotName) -> Result<(), NoMemory>
    ensures { IfOk result (λ _. text.new ≡ text.old ++ (words.now ++ spec.slot_text slot.now ++ codes "\n")) }
{
    text.push_bytes(words)?;
    push_slot(text, slot)?;
    text.push_bytes(b"\n")
}

fn push_slot(text: &mut Units, slot: &SlotName) -> Result<(), NoMemory>
    ensures { IfOk result (λ _. text.new ≡ text.old ++ spec.slot_text slot.now) }
{
    push_path(text, &slot.scope)?;
    text.push_bytes(b":")?;
    push_number(text, slot.number as u64)?;
    text.push_bytes(b" ")?;
    push_key(text, &slot.key)
}

fn push_key(text: &mut Units, key: &SlotKey) -> Result<(), NoMemory>
    ensures { IfOk result (λ _. text.new ≡ text.old ++ spec.key_text key.now) }
{
    match key {
        SlotKey::Shape => text.push_bytes(b"shape"),
        SlotKey::Key(units) => push_quoted(text, units),
    }
}
