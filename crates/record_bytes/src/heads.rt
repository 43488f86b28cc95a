//! Heads as bytes.

ghost use Rattle.std.specs.Prelude.{◌≡◌, ◌<◌, ◌^◌, ◌++◌, ◌∷◌, List, ℕ, length, OnOk, IfOk, IfErr, IfSome, IfNone, IsErrOf};
ghost use Rattle.std.specs.List.{AllByRecursion};
ghost use Rattle.record_bytes.specs.Spelling.{named_bytes};
ghost use Rattle.record_bytes.specs.Limits.{IsHeadWithin, SpellsHead};
ghost use Rattle.record_bytes.specs.declared.Head as head;
ghost use Rattle.turk_base.specs.SessionName.{IsName, HasCause};

use crate::Head;
use crate::stop::ReadStop;
use crate::texts::{put, u64_of};
use std::alloc::Global;
use turk_base::{Bytes, Name, NameStop, NoMemory};

const MOST_FUEL: u64 = 20_000_000;

const LONGEST_SCRIPT: usize = 1_048_576;

/// The one spelling of a head, whose fuel is from 1 to 20,000,000 and whose script has at most 1,048,576 bytes.
#[tactic(auto, unfolding(crate::specs::Spelling::head_bytes, crate::specs::Spelling::named_bytes))]
pub fn encode_head(alloc: Global, head: &Head) -> Result<Vec<u8>, NoMemory>
    requires { IsHeadWithin head.now }
    ensures { IfOk result (λ v. SpellsHead v.items head.now) }
{
    let mut out = Vec::new(alloc);
    let name = head.name.as_slice();
    put(&mut out, &[0x48, 1, name.len() as u8])?;
    put(&mut out, name)?;
    put(&mut out, &head.fuel.to_be_bytes())?;
    put_script(&mut out, head.script.as_slice())?;
    Ok(out)
}

// Adds a script, which is a list of bytes.
fn put_script(out: &mut Vec<u8>, script: &[u8]) -> Result<(), NoMemory>
    ensures bytes { OnOk result (out.new.items ≡ out.old.items ++ script.now) }
    ensures script { AllByRecursion (λ b. b < 2 ^ 8) script.now }
{
    put(out, script)
}

/// The head that the bytes spell; None exactly where they are no head's spelling.
pub fn decode_head(alloc: Global, bytes: &[u8]) -> Result<Option<Head>, NoMemory>
    ensures some { IfOk result (λ found. IfSome found (λ h. SpellsHead bytes.now h)) }
    ensures none { IfOk result (λ found. IfNone found ((h : head.Head) → SpellsHead bytes.now h → ⊥)) }
{
    match head_of(alloc, bytes) {
        Ok(head) => Ok(Some(head)),
        Err(ReadStop::Bad) => Ok(None),
        Err(ReadStop::Memory) => Err(NoMemory),
    }
}

fn head_of(alloc: Global, bytes: &[u8]) -> Result<Head, ReadStop>
    ensures good { IfOk result (λ h. SpellsHead bytes.now h) }
    ensures bad { IsErrOf result ReadStop.Bad → (h : head.Head) → SpellsHead bytes.now h → ⊥ }
{
    let Some((name, rest)) = named(bytes) else {
        return Err(ReadStop::Bad);
    };
    let (fuel, script) = u64_of(rest)?;
    if fuel == 0 || fuel > MOST_FUEL {
        return Err(ReadStop::Bad);
    }
    if script.len() > LONGEST_SCRIPT {
        return Err(ReadStop::Bad);
    }
    match name_of(alloc, name) {
        Ok(name) => Ok(Head {
            name,
            fuel,
            script: Bytes::from_slice(alloc, script)?,
        }),
        Err(NameStop::Bad) => Err(ReadStop::Bad),
        Err(NameStop::Memory) => Err(ReadStop::Memory),
    }
}

// A head's name, and what stands behind it.
#[tactic(auto, unfolding(crate::specs::Spelling::named_bytes))]
fn named(bytes: &[u8]) -> Option<(&[u8], &[u8])>
    ensures some { IfSome result (λ p. bytes.now ≡ named_bytes p.0.now p.1.now) }
    ensures none { IfNone result ((name rest : List ℕ) → bytes.now ≡ named_bytes name rest → ⊥) }
{
    if bytes.len() < 3 {
        return None;
    }
    let (front, rest) = bytes.split_at(3);
    let count = front[2] as usize;
    if front[0] != 0x48 || front[1] != 1 || rest.len() < count {
        return None;
    }
    Some(rest.split_at(count))
}

// The session name of these bytes.
fn name_of(alloc: Global, bytes: &[u8]) -> Result<Name, NameStop>
    ensures good { IfOk result (λ name. name ≡ bytes.now) }
    ensures name { OnOk result (IsName bytes.now) }
    ensures cause { IfErr result (λ stop. HasCause stop bytes.now) }
{
    match str::from_utf8(bytes) {
        Ok(text) => Name::read(alloc, text),
        Err(_) => Err(NameStop::Bad),
    }
}
