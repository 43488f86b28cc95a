//! Open slots as they are kept.
ghost use Rattle.std.specs.Prelude.{◌≡◌, [], ◌++◌, ◌<◌, length, None, Some, IsTrue, IfOk, OnOk, OnErr, if◌then◌else◌, ◌∷◌};
ghost use Rattle.std.specs.Vec.{vec_len, vec_capacity};
ghost use Rattle.std.specs.List.{flat_map};
ghost use Rattle.std.specs.Map.{lookup};
ghost use Rattle.turk_base.specs.Trace.{begins};
ghost use Rattle.branch_check.specs.Numbers.{same_slot, met, first_met, joined_one, joined_at, opened as opened_by};
ghost use Rattle.branch_check.specs.Steps.{Leads};

use crate::steps::{make_room, note_step, undo_from};
use crate::{Found, OpenSlot, OpenSlots, Slot, Step};
use object_props::Props;
use std::alloc::Global;
use std::mem;
use turk_base::{NoMemory, Path};

/// Whether the slot is open by a path that is no prefix of the branch.
pub fn is_met(by: &Path, slot: Slot, slots: &Props<Slot, Path>) -> bool
    ensures { result ≡ met by.now slot slots.now }
{
    if slots.len() == 0 {
        return false;
    }
    match slots.get(&slot) {
        Some(path) => !path.begins(by),
        None => false,
    }
}

/// The first slot that is open by a path that is no prefix of the branch.
pub fn first(by: &Path, slots: &Props<Slot, Path>) -> Option<Slot>
    ensures { result ≡ first_met by.now slots.now }
{
    for place in 0..slots.len() {
        let Some((slot, path)) = slots.pair_at(place) else {
            unreachable!()
        };
        if !path.begins(by) {
            return Some(*slot);
        }
    }
    None
}

// whether the slot is open by this path
fn is_open_by(by: &Path, slot: Slot, slots: &Props<Slot, Path>) -> bool
    ensures { IsTrue result → lookup (same_slot slot) slots.now ≡ Some by.now }
{
    slots.get(&slot) == Some(by)
}

/// Opens the slot by the path, if the cell's scope doesn't begin with it. A slot that is open by
/// that path already takes no step and no memory. After a refusal nothing changed.
pub fn open_outside(
    alloc: Global,
    noted: bool,
    opens: &mut OpenSlots,
    slot: Slot,
    by: &Path,
    maker: &Path,
) -> Result<(), NoMemory>
    ensures ok { OnOk result (opens.new.slots ≡ (if begins by.now maker.now then opens.old.slots else opened_by slot by.now opens.old.slots)) }
    ensures err { OnErr result (opens.new.slots ≡ opens.old.slots) }
    ensures back { IsTrue noted → Leads opens.old opens.new }
{
    if by.begins(maker) {
        return Ok(());
    }
    if is_open_by(by, slot, &opens.slots) {
        return Ok(());
    }
    let path = by.copy(alloc)?;
    make_room(noted, &mut opens.steps)?;
    open(noted, opens, slot, path)
}

// opens the slot by the path, in its place or last
fn open(noted: bool, opens: &mut OpenSlots, slot: Slot, by: Path) -> Result<(), NoMemory>
    requires { IsTrue noted → vec_len opens.old.steps < vec_capacity opens.old.steps }
    ensures ok { OnOk result (opens.new.slots ≡ opened_by slot by opens.old.slots) }
    ensures err { OnErr result (opens.new.slots ≡ opens.old.slots) }
    ensures back { IsTrue noted → Leads opens.old opens.new }
{
    if opens.slots.get(&slot).is_none() {
        return add(noted, opens, slot, by);
    }
    if let Some(by) = opens.slots.set(&slot, by) {
        note_step(
            noted,
            &mut opens.steps,
            Step::Replaced(OpenSlot { slot, by }),
        );
    }
    Ok(())
}

fn add(noted: bool, opens: &mut OpenSlots, slot: Slot, by: Path) -> Result<(), NoMemory>
    requires closed { lookup (same_slot slot) opens.old.slots ≡ None }
    requires room { IsTrue noted → vec_len opens.old.steps < vec_capacity opens.old.steps }
    ensures ok { OnOk result (opens.new.slots ≡ opens.old.slots ++ (slot, by) ∷ []) }
    ensures err { OnErr result (opens.new.slots ≡ opens.old.slots) }
    ensures back { IsTrue noted → Leads opens.old opens.new }
{
    add_last(&mut opens.slots, slot, by)?;
    note_step(noted, &mut opens.steps, Step::Added(slot));
    Ok(())
}

/// Branches join in the scope. After a refusal nothing changed.
pub fn join(alloc: Global, noted: bool, opens: &mut OpenSlots, scope: &Path) -> Result<(), NoMemory>
    ensures ok { OnOk result (opens.new.slots ≡ flat_map (joined_one scope.now) opens.old.slots) }
    ensures err { OnErr result (opens.new.slots ≡ opens.old.slots) }
    ensures back { IsTrue noted → Leads opens.old opens.new }
{
    if scope.len() == 0 {
        return close_all(alloc, noted, opens);
    }
    let place = opens.steps.len();
    if let Err(refused) = shorten(alloc, opens, scope) {
        undo_from(place, opens);
        return Err(refused);
    }
    if !noted {
        opens.steps.truncate(place);
    }
    Ok(())
}

// closes each slot
fn close_all(alloc: Global, noted: bool, opens: &mut OpenSlots) -> Result<(), NoMemory>
    ensures ok { OnOk result (opens.new.slots ≡ []) }
    ensures err { OnErr result (opens.new.slots ≡ opens.old.slots) }
    ensures back { IsTrue noted → Leads opens.old opens.new }
{
    if opens.slots.len() == 0 {
        return Ok(());
    }
    make_room(noted, &mut opens.steps)?;
    let before = mem::replace(&mut opens.slots, Props::new(alloc));
    note_step(noted, &mut opens.steps, Step::Closed(before));
    Ok(())
}

// each path that begins with the scope becomes the scope's, by steps that are noted
fn shorten(alloc: Global, opens: &mut OpenSlots, scope: &Path) -> Result<(), NoMemory>
    requires { 0 < length scope.now }
    ensures ok { OnOk result (opens.new.slots ≡ flat_map (joined_one scope.now) opens.old.slots) }
    ensures back { Leads opens.old opens.new }
{
    for place in 0..opens.slots.len() {
        shorten_at(alloc, place, opens, scope)?;
    }
    Ok(())
}

fn shorten_at(
    alloc: Global,
    place: usize,
    opens: &mut OpenSlots,
    scope: &Path,
) -> Result<(), NoMemory>
    requires within { place < length opens.old.slots }
    requires scope { 0 < length scope.now }
    ensures ok { OnOk result (opens.new.slots ≡ joined_at scope.now place opens.old.slots) }
    ensures back { Leads opens.old opens.new }
{
    let Some((slot, by)) = opens.slots.pair_at(place) else {
        unreachable!()
    };
    if !scope.begins(by) {
        return Ok(());
    }
    if scope == by {
        return Ok(());
    }
    let slot = *slot;
    let path = scope.copy(alloc)?;
    make_room(true, &mut opens.steps)?;
    open(true, opens, slot, path)
}

fn add_last(slots: &mut Props<Slot, Path>, slot: Slot, by: Path) -> Result<(), NoMemory>
    requires { lookup (same_slot slot) slots.old ≡ None }
    ensures ok { OnOk result (slots.new ≡ slots.old ++ (slot, by) ∷ []) }
    ensures err { OnErr result (slots.new ≡ slots.old) }
{
    let place = slots.len();
    match slots.insert_at(place, slot, by) {
        Ok(()) => Ok(()),
        Err(_) => Err(NoMemory),
    }
}

/// An equal reason.
pub fn copy_found(alloc: Global, found: &Found) -> Result<Found, NoMemory>
    ensures { IfOk result (λ copy. copy ≡ found.now) }
{
    Ok(match found {
        Found::Independent => Found::Independent,
        Found::TouchedOpen(slot) => Found::TouchedOpen(*slot),
        Found::OnceWhileOpen(slot) => Found::OnceWhileOpen(*slot),
        Found::BranchThrew(path) => Found::BranchThrew(path.copy(alloc)?),
    })
}
