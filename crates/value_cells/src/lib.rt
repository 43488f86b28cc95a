//! Values, the cells that hold them, and what a heap of cells can be asked.
//!
//! The code names a cell by its number, which is its place in the order of making.
#![tactic(auto)]

ghost use Rattle.std.specs.Prelude.{◌≤◌, ◌<◌, IfOk};
ghost use Rattle.std.specs.Option.{option_map};
ghost use Rattle.turk_base.specs.Prog.{Get, Put, Remove, Make, Pay, KindOf};
ghost use Rattle.value_cells.specs.Needs.{needs, option_needs, kind_needs};
ghost use Rattle.value_cells.specs.Seen.{Seen, count, val_in, kind_in};
ghost use Rattle.value_cells.specs.Does.{Does, told, Says};

use crate::history::History;
use key_table::KeyTable;
use object_props::Props;
use std::alloc::Global;
use std::marker::Model;
use turk_base::{Path, Units, Whole};

mod cell_calls;
mod history;
#[cfg(test)]
mod tests;
mod values;

/// A value of the language (ECMA-262 3rd ed. 8). An object is the number of a cell.
#[derive(Drop)]
pub enum Value {
    Undefined,
    Null,
    Truth(bool),
    Number(Whole),
    Text(Units),
    Object(u32),
}

/// What is fixed when a cell is made: a frame with its parent frame, a plain object with its
/// prototype, an array, a function with the number of its code and the frame in which it was made,
/// a built-in function with the number of its call.
#[derive(Clone, Copy, Drop)]
pub enum CellKind {
    Frame(Option<u32>),
    Plain(Option<u32>),
    Array,
    Function(u32, u32),
    BuiltIn(u8),
}

/// The name of a cell: the scope where it was made, and its number there.
#[derive(Drop)]
pub struct CellName {
    pub scope: Path,
    pub number: u32,
}

/// Why a call on a heap ended the run: a number that isn't whole or isn't in range, an object where
/// a primitive is needed, a text or an array past its limit, a charge past the fuel, want of memory.
#[derive(Clone, Copy, Debug, Drop, PartialEq, Eq)]
pub enum OpStop {
    NotWhole,
    NoPrimitive,
    TooLong,
    Spent,
    Memory,
}

/// A cell as it is kept: its properties have the numbers of their keys.
#[derive(Drop)]
struct CellData {
    name: CellName,
    kind: CellKind,
    props: Props<u32, Value>,
}

/// Cells with their properties in order, which can be taken back to what they were at a mark.
///
/// Contracts see the cells that there are now, in the order of making, and for each open mark,
/// the newest last, the cells that there were when it was set. No two cells have one name, and no
/// cell names another that isn't there.
///
/// Each key's text is kept once, for as long as the cells: a key that no cell has any more keeps its
/// number. A mark copies nothing: while one is open, what undoes each change is kept.
#[derive(Drop)]
pub struct Cells {
    alloc: Global,
    keys: KeyTable,
    cells: Vec<CellData>,
    history: History,
}

impl Model for Cells {
    ghost use Rattle.value_cells.specs.Held.{Held};

    ghost Value = { Held };

    ghost use Rattle.value_cells.specs.Stored.{held, IsGood};

    ghost view = { held };

    ghost invariant = { IsGood };
}

/// An open mark of Cells. Contracts see how many marks were open with it.
#[derive(Drop)]
pub struct Mark {
    open: usize,
}

impl Model for Mark {
    ghost use Rattle.std.specs.Prelude.{ℕ};

    ghost Value = { ℕ };

    ghost view = { λ m. m.open };
}

/// Cells with properties, and the fuel that their use is paid with.
///
/// Contracts see a heap as the names of its cells by their numbers, the first part of the state of a
/// run under any naming of the cells, the open scopes, and the fuel left. Each call does what a run
/// does at that request, with its charges, touches and refusals; no call takes a cell away.
///
/// Of the answers other than Ok: NotWhole, NoPrimitive and TooLong come exactly where the request is
/// refused so, and the heap is then as before; Spent comes exactly where its charges pass the fuel,
/// and then the output, the open slots and the verdict are as before; after Memory nothing is known
/// of the state.
pub trait Heap {
    /// The heap as contracts see it.
    ghost seen: { Self → Seen };

    /// The property that a cell has, else the first of its prototypes that has the key, or None.
    fn get(&mut self, cell: u32, key: &Units) -> Result<Option<Value>, OpStop>
        requires { cell < count (seen self.old) }
        ensures did { Does (λ nu. Get (nu cell) key.now) (λ nu. told (option_map (val_in nu)) result) (seen self.old) (seen self.new) }
        ensures more { count (seen self.old) ≤ count (seen self.new) }
        ensures exists { IfOk result (λ v. option_needs v ≤ count (seen self.new)) };

    /// Sets a cell's own property, or creates it last, which costs 1. On an array it follows the
    /// rules of `length` and of indexes (ECMA-262 3rd ed. 15.4.5.1).
    fn put(&mut self, cell: u32, key: &Units, value: Value) -> Result<(), OpStop>
        requires cell { cell < count (seen self.old) }
        requires value { needs value ≤ count (seen self.old) }
        ensures did { Does (λ nu. Put (nu cell) key.now (val_in nu value)) (λ nu. told (λ u. u) result) (seen self.old) (seen self.new) }
        ensures more { count (seen self.old) ≤ count (seen self.new) };

    /// Deletes a cell's own property. Answers false for what can't be deleted, else true.
    fn remove(&mut self, cell: u32, key: &Units) -> Result<bool, OpStop>
        requires { cell < count (seen self.old) }
        ensures did { Does (λ nu. Remove (nu cell) key.now) (λ nu. told (λ b. b) result) (seen self.old) (seen self.new) }
        ensures more { count (seen self.old) ≤ count (seen self.new) };

    /// Makes a cell of the scope that runs, which costs 1, and answers its number.
    fn make(&mut self, kind: CellKind) -> Result<u32, OpStop>
        requires { kind_needs kind ≤ count (seen self.old) }
        ensures did { Does (λ nu. Make (kind_in nu kind)) (λ nu. told nu result) (seen self.old) (seen self.new) }
        ensures more { count (seen self.old) ≤ count (seen self.new) }
        ensures exists { IfOk result (λ cell. cell < count (seen self.new)) };

    /// Pays so many units of fuel.
    fn pay(&mut self, units: u64) -> Result<(), OpStop>
        ensures did { Does (λ nu. Pay units) (λ nu. told (λ u. u) result) (seen self.old) (seen self.new) }
        ensures more { count (seen self.old) ≤ count (seen self.new) };

    /// The kind of a cell. It touches and costs nothing.
    fn kind(&self, cell: u32) -> &CellKind
        requires { cell < count (seen self.now) }
        ensures did { Does (λ nu. KindOf (nu cell)) (λ nu. Says (kind_in nu result.now)) (seen self.now) (seen self.now) }
        ensures exists { kind_needs result.now ≤ count (seen self.now) };
}
