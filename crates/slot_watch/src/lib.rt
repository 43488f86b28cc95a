//! The monitor of branches over slots that are named by the number of a cell and the text of a key.
#![tactic(auto)]

use branch_check::Monitor;
use key_table::KeyTable;
use std::alloc::Global;
use std::marker::Model;

mod calls;
#[cfg(test)]
mod tests;

/// Open slots and a verdict, with the keys that slots are told by, which can be taken back to what
/// they were at a mark.
///
/// Contracts see the keys by their numbers, what the monitor holds, and what it held at each open
/// mark, the newest last. Under each naming of cells that tells them apart, each call does what the
/// verdict rule says of slots by name.
#[derive(Drop)]
pub struct SlotWatch {
    alloc: Global,
    monitor: Monitor,
    keys: KeyTable,
}

impl Model for SlotWatch {
    ghost use Rattle.slot_watch.specs.Slots.{Slots};

    ghost Value = { Slots };

    ghost use Rattle.slot_watch.specs.Watched.{slots_of, IsWatch};

    ghost view = { slots_of };

    ghost invariant = { IsWatch };
}
