//! The state of a run: each access, charge, scope and taking back that an evaluator makes is one
//! call with the meaning that the definitions give it.
#![tactic(auto)]

use run_heap::{Opened, RunHeap};
use std::alloc::Global;
use std::marker::Model;
use turk_base::{Path, Units};
use value_cells::Value;

mod begin;
mod branches;
mod chains;
mod data;
mod heap;
mod looks;
mod names;
mod output;
mod scopes;
#[cfg(test)]
mod tests;
mod verdicts;

/// A scope around the one that runs: whether it is in a once body, the values of its branches, and
/// how much was printed and how many branches were absent when it was left.
#[derive(Drop)]
pub struct Outer {
    pub body: bool,
    pub values: Vec<Value>,
    pub printed: usize,
    pub absent: usize,
}

/// The state of a run: cells, the watch over branches, output, the scopes that are open, and the
/// fuel left.
///
/// Contracts see these parts as `Run`, and through `seen_of` as the state that the meaning of
/// scripts has, under every naming of the cells. After Spent the output, the open slots and the
/// verdict are those at the unmet charge; after Memory nothing is known of them.
#[derive(Drop)]
pub struct Machine {
    alloc: Global,
    heap: RunHeap,
    body: bool,
    values: Vec<Value>,
    output: Units,
    gone: Vec<Path>,
    outer: Vec<Outer>,
    left_back: Option<Path>,
}

impl Model for Machine {
    ghost use Rattle.eval_ops.specs.Run.{Run};

    ghost Value = { Run };

    ghost use Rattle.eval_ops.specs.Stored.{run_of, IsMachine};

    ghost view = { run_of };

    ghost invariant = { IsMachine };
}

/// An open scope of a Machine. Contracts see how many scopes were around it.
#[derive(Drop)]
pub struct Entered {
    opened: Opened,
}

impl Model for Entered {
    ghost use Rattle.std.specs.Prelude.{ℕ};

    ghost Value = { ℕ };

    ghost view = { λ e. e.opened };
}
