//! The calls of any asker, made where nothing is known at the path.
ghost use Rattle.std.specs.Prelude.{◌≡◌, ◌≤ℤ◌, pos, false, OnOk};
ghost use Rattle.record_bytes.specs.Limits.{IsRecordWithin};
ghost use Rattle.turk_base.specs.declared.Record.TheVariants.{Once};

use crate::{AskStop, Asker, Known};
use std::alloc::Global;
use turk_base::{Data, Path, Units, Whole};

const MOST_INDEXES: usize = 800;

const MOST_UNITS: usize = 1_048_576;

/// What is known at a path of at most 800 indexes.
pub fn known_at<A: Asker>(asker: &mut A, alloc: Global, indexes: &[u32]) -> Option<Known>
    requires sound { A.is_sound asker.old }
    ensures sound { A.is_sound asker.new }
    ensures same { (A.seen asker.new).closed ≡ (A.seen asker.old).closed }
{
    let path = Path::from_slice(alloc, indexes).ok()?;
    if path.len() > MOST_INDEXES {
        return None;
    }
    Some(asker.known(&path))
}

/// Posts a task, and says whether it could.
#[tactic(auto, using(crate::proofs::Finds::nothing_is))]
pub fn post_at<A: Asker>(
    asker: &mut A,
    path: &Path,
    token: &Units,
    text: &Units,
) -> Result<bool, AskStop>
    requires sound { A.is_sound asker.old }
    requires open { (A.seen asker.old).closed ≡ false }
    ensures sound { A.is_sound asker.new }
    ensures open { OnOk result ((A.seen asker.new).closed ≡ false) }
    ensures keeps { A.keeps asker.old asker.new }
{
    if path.len() < 1 || path.len() > MOST_INDEXES {
        return Ok(false);
    }
    if token.len() > MOST_UNITS || text.len() > MOST_UNITS {
        return Ok(false);
    }
    match asker.known(path) {
        Known::Nothing => match asker.post(path, token, text) {
            Ok(()) => Ok(true),
            Err(stop) => Err(stop),
        },
        _ => Ok(false),
    }
}

/// The reply to a token, where there is one and it could be asked.
#[tactic(auto, using(crate::proofs::Finds::nothing_is))]
pub fn reply_at<A: Asker>(
    asker: &mut A,
    path: &Path,
    token: &Units,
) -> Result<Option<Units>, AskStop>
    requires sound { A.is_sound asker.old }
    requires open { (A.seen asker.old).closed ≡ false }
    ensures sound { A.is_sound asker.new }
    ensures open { OnOk result ((A.seen asker.new).closed ≡ false) }
    ensures keeps { A.keeps asker.old asker.new }
{
    if path.len() < 1 || path.len() > MOST_INDEXES || token.len() > MOST_UNITS {
        return Ok(None);
    }
    match asker.known(path) {
        Known::Nothing => asker.reply(path, token),
        _ => Ok(None),
    }
}

/// A draw, where it could be asked.
#[tactic(auto, using(crate::proofs::Finds::nothing_is))]
pub fn draw_at<A: Asker>(asker: &mut A, path: &Path, bound: Whole) -> Result<Option<Whole>, AskStop>
    requires sound { A.is_sound asker.old }
    requires open { (A.seen asker.old).closed ≡ false }
    requires bound { pos 1 ≤ℤ bound }
    ensures sound { A.is_sound asker.new }
    ensures open { OnOk result ((A.seen asker.new).closed ≡ false) }
    ensures keeps { A.keeps asker.old asker.new }
{
    if path.len() < 1 || path.len() > MOST_INDEXES {
        return Ok(None);
    }
    match asker.known(path) {
        Known::Nothing => match asker.draw(path, bound) {
            Ok(value) => Ok(Some(value)),
            Err(stop) => Err(stop),
        },
        _ => Ok(None),
    }
}

/// Keeps the value of a once call, and says whether it could. Records may stand below its path.
#[tactic(auto, using(crate::proofs::Finds::nothing_is, crate::proofs::Finds::below_is))]
pub fn once_at<A: Asker>(asker: &mut A, path: &Path, value: &Data) -> Result<bool, AskStop>
    requires sound { A.is_sound asker.old }
    requires open { (A.seen asker.old).closed ≡ false }
    requires within { IsRecordWithin (Once value.now) }
    ensures sound { A.is_sound asker.new }
    ensures open { OnOk result ((A.seen asker.new).closed ≡ false) }
    ensures keeps { A.keeps asker.old asker.new }
{
    if path.len() < 1 || path.len() > MOST_INDEXES {
        return Ok(false);
    }
    if asker.known(path) == Known::Here {
        return Ok(false);
    }
    match asker.once_done(path, value) {
        Ok(()) => Ok(true),
        Err(stop) => Err(stop),
    }
}
