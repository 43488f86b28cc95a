//! The heap of a run: cells by numbers, with the touches and the charges of each access.
#![tactic(auto)]

use branch_check::MonitorMark;
use slot_watch::SlotWatch;
use std::alloc::Global;
use std::marker::Model;
use turk_base::Path;
use value_cells::{Cells, Mark};

mod accesses;
mod begin;
mod classes;
mod listing;
mod making;
mod puts;
mod scopes;
mod steps;
mod trims;
mod watching;

pub use accesses::{is_length, length_text};
pub use classes::{KeyClass, class};

/// The scope that runs or one around it: its path, the branch that holds it, how many cells were
/// made in it, and how many of its calls took an index.
#[derive(Drop)]
pub struct Place {
    pub path: Path,
    pub branch: Path,
    pub made: u64,
    pub calls: u32,
}

/// Cells with their properties, the watch over their slots, the scopes that are open, and the fuel
/// left. It can be taken back to what it was when a scope was entered, but for the fuel.
///
/// Contracts see these parts, and say of each call which steps of the meaning it does (`Works`),
/// whatever the heap stands in. After want of memory the scopes are as they were, and nothing else
/// is known.
#[derive(Drop)]
pub struct RunHeap {
    alloc: Global,
    cells: Cells,
    slots: SlotWatch,
    place: Place,
    outer: Vec<Place>,
    left: u64,
}

impl Model for RunHeap {
    ghost use Rattle.run_heap.specs.Core.{Core};

    ghost Value = { Core };

    ghost use Rattle.run_heap.specs.Stored.{core_of, IsKept};

    ghost view = { core_of };

    ghost invariant = { IsKept };
}

/// An open scope of a RunHeap: the marks of its cells and of its slots. Contracts see how many
/// scopes were around it.
#[derive(Drop)]
pub struct Opened {
    cells: Mark,
    slots: MonitorMark,
}

impl Model for Opened {
    ghost use Rattle.std.specs.Prelude.{ℕ, ◌≡◌};

    ghost Value = { ℕ };

    ghost view = { λ o. o.cells };

    ghost invariant = { λ o. o.cells ≡ o.slots };
}
