//! The calls of Cells.
ghost use Rattle.std.specs.Prelude.{ℕ, IsOk, ◌≡◌, ◌<◌, ◌≤◌, ◌∷◌, ◌++◌, [], List, IfOk, OnOk, OnErr, length, IsSome, IfSome, Some, None, slice_get};
ghost use Rattle.std.specs.Option.{option_copied};
ghost use Rattle.std.specs.List.{IsDistinct};
ghost use Rattle.std.specs.Map.{set_value, remove_entry, keys_of};
ghost use Rattle.value_cells.specs.Needs.{needs, kind_needs};
ghost use Rattle.value_cells.specs.Held.{Cell, count, names_of, kinds_of, props_at, own, key_eq, with_props, IsWhole};

use crate::history::History;
use crate::{CellData, CellKind, CellName, Cells, Mark, Value};
use key_table::KeyTable;
use object_props::Props;
use std::alloc::Global;
use turk_base::{NoMemory, Units};

impl Cells {
    /// No cells, and no open mark. What is added later is kept in memory of `alloc`.
    pub fn new(alloc: Global) -> Cells
        ensures now { result.now ≡ [] }
        ensures marks { result.marks ≡ [] }
    {
        Cells {
            alloc,
            keys: KeyTable::new(alloc),
            cells: Vec::new(alloc),
            history: History::new(alloc),
        }
    }

    /// How many cells there are.
    pub fn count(&self) -> usize
        ensures { result ≡ count self.now.now }
    {
        self.cells.len()
    }

    /// Does nothing, and tells that the cells are whole: what each names is there, and no two have
    /// one name.
    pub fn known(&self)
        ensures { IsWhole self.now.now }
    {
        let _cells = &self.cells;
    }

    /// The name of a cell.
    pub fn name(&self, cell: u32) -> &CellName
        requires { cell < count self.now.now }
        ensures { slice_get (names_of self.now.now) cell ≡ Some result.now }
    {
        let data = &self.cells[cell as usize];
        &data.name
    }

    /// The kind of a cell. A cell that it names was made before this one.
    pub fn kind(&self, cell: u32) -> &CellKind
        requires { cell < count self.now.now }
        ensures kind { slice_get (kinds_of self.now.now) cell ≡ Some result.now }
        ensures older { kind_needs result.now ≤ cell }
    {
        let data = &self.cells[cell as usize];
        &data.kind
    }

    /// How many properties a cell has. The call also tells that their keys are distinct.
    pub fn keys(&self, cell: u32) -> usize
        requires { cell < count self.now.now }
        ensures len { result ≡ length (props_at self.now.now cell) }
        ensures distinct { IsDistinct key_eq (keys_of (props_at self.now.now cell)) }
    {
        let data = &self.cells[cell as usize];
        data.props.len()
    }

    /// The key of a cell at a place, from 0 in order of creation, or None exactly past the last.
    pub fn key_at(&self, cell: u32, place: usize) -> Option<&Units>
        requires { cell < count self.now.now }
        ensures { option_copied result ≡ slice_get (keys_of (props_at self.now.now cell)) place }
    {
        let data = &self.cells[cell as usize];
        match data.props.key_at(place) {
            Some(number) => self.keys.key(*number),
            None => None,
        }
    }

    /// The value of a cell's own property, or None exactly where the key is missing. It takes no
    /// memory.
    pub fn read(&self, cell: u32, key: &Units) -> Option<&Value>
        requires { cell < count self.now.now }
        ensures value { option_copied result ≡ own self.now.now cell key.now }
        ensures exists { IfSome result (λ v. needs v.now ≤ count self.now.now) }
    {
        let data = &self.cells[cell as usize];
        match self.keys.find(key) {
            Some(number) => data.props.get(&number),
            None => None,
        }
    }

    /// Sets a property that is there, which keeps its place. After NoMemory nothing changed; while
    /// no mark is open that can't come.
    pub fn write(&mut self, cell: u32, key: &Units, value: Value) -> Result<(), NoMemory>
        requires cell { cell < count self.old.now }
        requires there { IsSome (own self.old.now cell key.now) }
        requires value { needs value ≤ count self.old.now }
        ensures ok { OnOk result (self.new.now ≡ with_props self.old.now cell (set_value (key_eq key.now) (props_at self.old.now cell) value)) }
        ensures err { OnErr result (self.new.now ≡ self.old.now) }
        ensures marks { self.new.marks ≡ self.old.marks }
        ensures no_memory { self.old.marks ≡ [] → IsOk result }
    {
        let Some(number) = self.keys.find(key) else {
            unreachable!()
        };
        let kept = &self.cells[cell as usize];
        self.history.note_write(self.alloc, cell, kept, number)?;
        let data = &mut self.cells[cell as usize];
        let _ = data.props.set(&number, value);
        Ok(())
    }

    /// Adds a property that is missing, last. After NoMemory nothing changed.
    pub fn create(&mut self, cell: u32, key: Units, value: Value) -> Result<(), NoMemory>
        requires cell { cell < count self.old.now }
        requires fresh { own self.old.now cell key ≡ None }
        requires value { needs value ≤ count self.old.now }
        ensures ok { OnOk result (self.new.now ≡ with_props self.old.now cell (props_at self.old.now cell ++ (key, value) ∷ [])) }
        ensures err { OnErr result (self.new.now ≡ self.old.now) }
        ensures marks { self.new.marks ≡ self.old.marks }
    {
        let number = self.keys.number(self.alloc, &key)?;
        self.keys.known();
        self.history.note_create(cell, number)?;
        let data = &mut self.cells[cell as usize];
        let place = data.props.len();
        match data.props.insert_at(place, number, value) {
            Ok(()) => Ok(()),
            Err(_) => Err(NoMemory),
        }
    }

    /// Takes out a property that is there; the later ones close up. After NoMemory nothing changed.
    pub fn delete(&mut self, cell: u32, key: &Units) -> Result<(), NoMemory>
        requires cell { cell < count self.old.now }
        requires there { IsSome (own self.old.now cell key.now) }
        ensures ok { OnOk result (self.new.now ≡ with_props self.old.now cell (remove_entry (key_eq key.now) (props_at self.old.now cell))) }
        ensures err { OnErr result (self.new.now ≡ self.old.now) }
        ensures marks { self.new.marks ≡ self.old.marks }
    {
        let Some(number) = self.keys.find(key) else {
            unreachable!()
        };
        let kept = &self.cells[cell as usize];
        self.history.note_all(self.alloc, cell, kept)?;
        let data = &mut self.cells[cell as usize];
        let _ = data.props.delete(&number);
        Ok(())
    }

    /// Makes a cell without properties, and answers its number: how many cells there were. After
    /// NoMemory nothing changed.
    pub fn make(&mut self, name: CellName, kind: CellKind) -> Result<u32, NoMemory>
        requires fresh { (i : ℕ) → slice_get (names_of self.old.now) i ≡ Some name → ⊥ }
        requires room { count self.old.now < 4294967295 }
        requires kind { kind_needs kind ≤ count self.old.now }
        ensures ok { OnOk result (self.new.now ≡ self.old.now ++ record { name = name; kind = kind; props = [] } ∷ []) }
        ensures number { IfOk result (λ cell. cell ≡ count self.old.now) }
        ensures err { OnErr result (self.new.now ≡ self.old.now) }
        ensures marks { self.new.marks ≡ self.old.marks }
    {
        let number = self.cells.len() as u32;
        let data = CellData {
            name,
            kind,
            props: Props::new(self.alloc),
        };
        match self.cells.push(data) {
            Ok(()) => Ok(number),
            Err(_) => Err(NoMemory),
        }
    }

    /// Opens a mark: from now on the cells can be taken back to what they are. After NoMemory nothing
    /// changed.
    pub fn mark(&mut self) -> Result<Mark, NoMemory>
        ensures ok { OnOk result (self.new.marks ≡ self.old.marks ++ self.old.now ∷ []) }
        ensures mark { IfOk result (λ mark. mark ≡ length self.new.marks) }
        ensures err { OnErr result (self.new.marks ≡ self.old.marks) }
        ensures now { self.new.now ≡ self.old.now }
    {
        let open = self.history.set_mark(self.cells.len())?;
        Ok(Mark { open })
    }

    /// Closes the newest open mark, and gives the cells as they were when it was set: cells made
    /// since are gone, and all properties are as they were, also in order. Marks that were open
    /// before it stay. It takes no memory.
    pub fn take_back(&mut self, mark: Mark)
        requires open { 0 < length self.old.marks }
        requires newest { mark ≡ length self.old.marks }
        ensures { self.old.marks ≡ self.new.marks ++ self.new.now ∷ [] }
    {
        let Some(point) = self.history.marks.pop() else {
            unreachable!()
        };
        self.cells.truncate(point.cells);
        self.history.undo_since(point.steps, &mut self.cells);
        self.history.settle(self.alloc);
    }

    /// Closes the newest open mark, and leaves the cells. What was done since can still be taken back
    /// to a mark that was open before it. It takes no memory.
    pub fn keep(&mut self, mark: Mark)
        requires open { 0 < length self.old.marks }
        requires newest { mark ≡ length self.old.marks }
        ensures now { self.new.now ≡ self.old.now }
        ensures closed { (saved : List Cell) × (self.old.marks ≡ self.new.marks ++ saved ∷ []) }
    {
        let _ = self.history.marks.pop();
        self.history.settle(self.alloc);
    }
}
