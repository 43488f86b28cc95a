//! What undoes the changes of cells, back to each open mark.
ghost use Rattle.std.specs.Prelude.{◌≡◌, ◌≤◌, ◌<◌, [], ◌∷◌, ◌++◌, ℕ, true, false, nat_eq, List, length, take, drop, IfOk, IsOk, OnOk, OnErr, IsSome, Some, None, slice_get};
ghost use Rattle.std.specs.Map.{lookup, set_value};
ghost use Rattle.value_cells.specs.declared.CellData.{CellData as KeptCell};
ghost use Rattle.value_cells.specs.declared.Value.{Value as KeptValue};
ghost use Rattle.value_cells.specs.Named.{Entries};
ghost use Rattle.value_cells.specs.Undone.{undoing, put, undone, befores, AreNested, IsFree, PutsBack};

use crate::values::copy_props;
use crate::{CellData, Value};
use object_props::Props;
use std::alloc::Global;
use turk_base::NoMemory;

/// How a change of a cell's properties is undone.
#[derive(Drop)]
pub enum Undo {
    /// The value of a key is set back.
    SetBack(u32, Value),
    /// A key is taken out.
    TakeOut(u32),
    /// All properties are put back.
    PutBack(Props<u32, Value>),
}

/// A change of a cell, by what undoes it.
#[derive(Drop)]
pub struct Step {
    pub cell: u32,
    pub undo: Undo,
}

/// An open mark: how many cells and how many steps there were when it was set.
#[derive(Clone, Copy, Drop)]
pub struct Point {
    pub cells: usize,
    pub steps: usize,
}

/// What undoes the changes since the first open mark, and the open marks, the newest last.
///
/// A cell that was made after the newest mark needs no steps, since it is then dropped. Nor does one
/// whose properties were saved whole since: for some of those, `saved` tells the step that puts them
/// back, which is looked at before it is relied on.
#[derive(Drop)]
pub struct History {
    pub steps: Vec<Step>,
    pub marks: Vec<Point>,
    pub saved: Props<u32, usize>,
}

impl History {
    /// No steps, and no open mark.
    pub fn new(alloc: Global) -> History
        ensures steps { result.steps.items ≡ [] }
        ensures marks { result.marks.items ≡ [] }
    {
        History {
            steps: Vec::new(alloc),
            marks: Vec::new(alloc),
            saved: Props::new(alloc),
        }
    }

    /// Whether a change of the cell's properties must be noted for the open marks.
    fn is_watched(&self, cell: u32) -> bool
        requires { AreNested (length self.now.steps.items) self.now.marks.items }
        ensures free { result ≡ false → IsFree self.now.steps.items self.now.marks.items cell }
        ensures none { self.now.marks.items ≡ [] → result ≡ false }
    {
        match self.marks.last() {
            Some(newest) => (cell as usize) < newest.cells && !self.is_saved(cell, newest.steps),
            None => false,
        }
    }

    /// Whether the cell's properties were saved whole after so many steps.
    fn is_saved(&self, cell: u32, from: usize) -> bool
        ensures { result ≡ true → (n : ℕ) × ((from ≤ n) × PutsBack self.now.steps.items n cell) }
    {
        match self.saved.get(&cell) {
            Some(place) => from <= *place && self.puts_back(*place, cell),
            None => false,
        }
    }

    /// Whether the step at a place puts all properties of the cell back.
    fn puts_back(&self, place: usize, cell: u32) -> bool
        ensures { result ≡ true → PutsBack self.now.steps.items place cell }
    {
        match self.steps.get(place) {
            Some(step) => step.cell == cell && matches!(step.undo, Undo::PutBack(_)),
            None => false,
        }
    }

    /// Adds a step.
    fn note(&mut self, cell: u32, undo: Undo) -> Result<(), NoMemory>
        ensures ok { OnOk result (self.new.steps.items ≡ self.old.steps.items ++ record { cell = cell; undo = undo } ∷ []) }
        ensures err { OnErr result (self.new.steps.items ≡ self.old.steps.items) }
        ensures marks { self.new.marks.items ≡ self.old.marks.items }
    {
        match self.steps.push(Step { cell, undo }) {
            Ok(()) => Ok(()),
            Err(_) => Err(NoMemory),
        }
    }

    /// Notes, where an open mark needs it, that the value of a key is about to be set.
    pub fn note_write(
        &mut self,
        alloc: Global,
        cell: u32,
        kept: &CellData,
        key: u32,
    ) -> Result<(), NoMemory>
        requires nested { AreNested (length self.old.steps.items) self.old.marks.items }
        requires there { IsSome (lookup (nat_eq key) kept.now.props) }
        ensures ok { OnOk result ((ds : List KeptCell) (v : KeptValue) → slice_get ds cell ≡ Some kept.now → befores self.new.steps.items self.new.marks.items (put cell (set_value (nat_eq key) kept.now.props v) ds) ≡ befores self.old.steps.items self.old.marks.items ds) }
        ensures err { OnErr result (self.new.steps.items ≡ self.old.steps.items) }
        ensures marks { self.new.marks.items ≡ self.old.marks.items }
        ensures more { length self.old.steps.items ≤ length self.new.steps.items }
        ensures no_memory { self.old.marks.items ≡ [] → IsOk result }
    {
        if !self.is_watched(cell) {
            return Ok(());
        }
        let Some(value) = kept.props.get(&key) else {
            unreachable!()
        };
        let value = value.copy(alloc)?;
        self.note(cell, Undo::SetBack(key, value))
    }

    /// Notes, where an open mark needs it, that a missing key is about to be added last. It does no
    /// harm where the key isn't added then.
    pub fn note_create(&mut self, cell: u32, key: u32) -> Result<(), NoMemory>
        requires nested { AreNested (length self.old.steps.items) self.old.marks.items }
        ensures ok { OnOk result ((ds : List KeptCell) (d : KeptCell) (v : KeptValue) → slice_get ds cell ≡ Some d → lookup (nat_eq key) d.props ≡ None → (befores self.new.steps.items self.new.marks.items (put cell (d.props ++ (key, v) ∷ []) ds) ≡ befores self.old.steps.items self.old.marks.items ds) × (befores self.new.steps.items self.new.marks.items ds ≡ befores self.old.steps.items self.old.marks.items ds)) }
        ensures err { OnErr result (self.new.steps.items ≡ self.old.steps.items) }
        ensures marks { self.new.marks.items ≡ self.old.marks.items }
        ensures more { length self.old.steps.items ≤ length self.new.steps.items }
    {
        if !self.is_watched(cell) {
            return Ok(());
        }
        self.note(cell, Undo::TakeOut(key))
    }

    /// Notes, where an open mark needs it, that the cell's properties are about to change in any way.
    pub fn note_all(&mut self, alloc: Global, cell: u32, kept: &CellData) -> Result<(), NoMemory>
        requires nested { AreNested (length self.old.steps.items) self.old.marks.items }
        ensures ok { OnOk result ((ds : List KeptCell) (es : Entries) → slice_get ds cell ≡ Some kept.now → befores self.new.steps.items self.new.marks.items (put cell es ds) ≡ befores self.old.steps.items self.old.marks.items ds) }
        ensures err { OnErr result (self.new.steps.items ≡ self.old.steps.items) }
        ensures marks { self.new.marks.items ≡ self.old.marks.items }
        ensures more { length self.old.steps.items ≤ length self.new.steps.items }
    {
        if !self.is_watched(cell) {
            return Ok(());
        }
        let copy = copy_props(alloc, &kept.props)?;
        let place = self.steps.len();
        self.note(cell, Undo::PutBack(copy))?;
        self.remember(cell, place);
        Ok(())
    }

    /// Remembers the step that puts a cell's properties back. Where there is no memory for that it is
    /// forgotten.
    fn remember(&mut self, cell: u32, place: usize)
        ensures steps { self.new.steps.items ≡ self.old.steps.items }
        ensures marks { self.new.marks.items ≡ self.old.marks.items }
    {
        if self.saved.get(&cell).is_some() {
            let _ = self.saved.set(&cell, place);
        } else {
            let last = self.saved.len();
            let _ = self.saved.insert_at(last, cell, place);
        }
    }

    /// Opens a mark of so many cells, and answers how many are open then.
    pub fn set_mark(&mut self, cells: usize) -> Result<usize, NoMemory>
        ensures ok { OnOk result (self.new.marks.items ≡ self.old.marks.items ++ record { cells = cells; steps = length self.old.steps.items } ∷ []) }
        ensures count { IfOk result (λ count. count ≡ length self.new.marks.items) }
        ensures err { OnErr result (self.new.marks.items ≡ self.old.marks.items) }
        ensures steps { self.new.steps.items ≡ self.old.steps.items }
    {
        let steps = self.steps.len();
        match self.marks.push(Point { cells, steps }) {
            Ok(()) => Ok(self.marks.len()),
            Err(_) => Err(NoMemory),
        }
    }

    /// Undoes the changes after so many steps, the newest first.
    pub fn undo_since(&mut self, from: usize, cells: &mut Vec<CellData>)
        requires { from ≤ length self.old.steps.items }
        ensures cells { cells.new.items ≡ undone (drop from self.old.steps.items) cells.old.items }
        ensures steps { self.new.steps.items ≡ take from self.old.steps.items }
        ensures marks { self.new.marks.items ≡ self.old.marks.items }
    {
        for _ in from..self.steps.len() {
            if let Some(step) = self.steps.pop() {
                undo_step(cells, step);
            }
        }
    }

    /// Forgets the steps where no mark is open any more.
    pub fn settle(&mut self, alloc: Global)
        requires nested { AreNested (length self.old.steps.items) self.old.marks.items }
        ensures marks { self.new.marks.items ≡ self.old.marks.items }
        ensures same { (ds : List KeptCell) → befores self.new.steps.items self.new.marks.items ds ≡ befores self.old.steps.items self.old.marks.items ds }
        ensures nested { AreNested (length self.new.steps.items) self.new.marks.items }
    {
        if self.marks.is_empty() {
            self.steps.clear();
            self.saved = Props::new(alloc);
        }
    }
}

/// Undoes a change.
fn undo_step(cells: &mut Vec<CellData>, step: Step)
    ensures { cells.new.items ≡ undone (step ∷ []) cells.old.items }
{
    let cell = step.cell as usize;
    if cell < cells.len() {
        let data = &mut cells[cell];
        undo_in(&mut data.props, step.undo);
    }
}

/// Undoes a change of properties.
fn undo_in(props: &mut Props<u32, Value>, undo: Undo)
    ensures { props.new ≡ undoing undo props.old }
{
    match undo {
        Undo::SetBack(key, value) => {
            let _ = props.set(&key, value);
        }
        Undo::TakeOut(key) => {
            let _ = props.delete(&key);
        }
        Undo::PutBack(saved) => *props = saved,
    }
}
