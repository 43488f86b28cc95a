//! The steps that are noted while a mark is open, and how they are taken back.
ghost use Rattle.std.specs.Prelude.{◌≡◌, [], ◌∷◌, ◌++◌, ◌<◌, ◌≤◌, length, IsTrue, OnOk, OnErr};
ghost use Rattle.std.specs.Vec.{vec_len, vec_capacity};
ghost use Rattle.branch_check.specs.Steps.{undo as undo_step, Leads};

use crate::{OpenSlot, OpenSlots, Slot, Step};
use object_props::Props;
use turk_base::{NoMemory, Path};

/// Makes room for one more step where steps are noted. The steps stay, whatever the result.
pub fn make_room(noted: bool, steps: &mut Vec<Step>) -> Result<(), NoMemory>
    ensures same { steps.new.items ≡ steps.old.items }
    ensures room { OnOk result (IsTrue noted → vec_len steps.new < vec_capacity steps.new) }
{
    if !noted {
        return Ok(());
    }
    match steps.reserve(1) {
        Ok(()) => Ok(()),
        Err(_) => Err(NoMemory),
    }
}

/// Notes a step, where steps are noted and there is room for it.
pub fn note_step(noted: bool, steps: &mut Vec<Step>, step: Step)
    requires { IsTrue noted → vec_len steps.old < vec_capacity steps.old }
    ensures { IsTrue noted → steps.new.items ≡ steps.old.items ++ step ∷ [] }
{
    if noted {
        steps.push_reserved(step);
    }
}

/// Takes back each step from a place on, the last one first. It takes no memory.
pub fn undo_from(place: usize, opens: &mut OpenSlots)
    requires { place ≤ length opens.old.steps.items }
    ensures back { Leads opens.new opens.old }
    ensures steps { length opens.new.steps.items ≡ place }
{
    while opens.steps.len() > place {
        if let Some(step) = opens.steps.pop() {
            undo(step, &mut opens.slots);
        }
    }
}

fn undo(step: Step, slots: &mut Props<Slot, Path>)
    ensures { slots.new ≡ undo_step step slots.old }
{
    match step {
        Step::Added(slot) => {
            let _ = slots.delete(&slot);
        }
        Step::Replaced(OpenSlot { slot, by }) => {
            let _ = slots.set(&slot, by);
        }
        Step::Closed(before) => *slots = before,
    }
}
