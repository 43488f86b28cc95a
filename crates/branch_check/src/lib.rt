//! The monitor of branches: which slots are open, and whether the branches of a run were independent.
#![tactic(auto)]

use object_props::Props;
use std::alloc::Global;
use std::marker::Model;
use turk_base::Path;

mod calls;
mod opens;
mod steps;
#[cfg(test)]
mod tests;

/// A part of a cell by numbers: the cell's, and that of a key, where key 0 is the shape.
#[derive(Clone, Copy, Debug, Drop, PartialEq, Eq, Hash)]
pub struct Slot {
    pub cell: u32,
    pub key: u32,
}

/// Whether the branches of a run were independent, or the first reason why not.
#[derive(Drop)]
pub enum Found {
    Independent,
    /// A branch touched this slot, which another had open.
    TouchedOpen(Slot),
    /// A once call came while this slot was open.
    OnceWhileOpen(Slot),
    /// This branch ended by a throw.
    BranchThrew(Path),
}

/// A slot that a branch wrote outside itself.
#[derive(Drop)]
struct OpenSlot {
    slot: Slot,
    by: Path,
}

/// What was done to the open slots, so that it can be undone.
#[derive(Drop)]
enum Step {
    /// This slot was opened, and stood last.
    Added(Slot),
    /// This slot was open by this path before another took its place.
    Replaced(OpenSlot),
    /// These slots were open before all were closed.
    Closed(Props<Slot, Path>),
}

/// The open slots in order of first writing, each with the path that wrote it, and the steps that
/// were noted, the newest last.
#[derive(Drop)]
struct OpenSlots {
    slots: Props<Slot, Path>,
    steps: Vec<Step>,
}

/// An open mark: how many steps were noted when it was set, and what was found then.
#[derive(Drop)]
struct Saved {
    steps: usize,
    found: Found,
}

/// Open slots and a verdict, which can be taken back to what they were at a mark.
///
/// Contracts see the open slots in order of first writing, each with the path that wrote it, the
/// verdict, and both as they were at each open mark, the newest last. A mark copies no slots: what
/// is done while one is open is noted, and taken back step by step.
#[derive(Drop)]
pub struct Monitor {
    alloc: Global,
    opens: OpenSlots,
    found: Found,
    marks: Vec<Saved>,
}

impl Model for Monitor {
    ghost use Rattle.branch_check.specs.Watch.{Seen, seen_of, IsMarked};

    ghost Value = { Seen };

    ghost view = { seen_of };

    ghost invariant = { IsMarked };
}

/// An open mark of a Monitor. Contracts see how many marks were open with it.
#[derive(Drop)]
pub struct MonitorMark {
    open: usize,
}

impl Model for MonitorMark {
    ghost use Rattle.std.specs.Prelude.{ℕ};

    ghost Value = { ℕ };

    ghost view = { λ m. m.open };
}
