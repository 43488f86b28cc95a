//! The heap that a run begins with.
ghost use Rattle.std.specs.Prelude.{◌≡◌, ◌<◌, ◌≤◌, ◌∷◌, ◌++◌, [], None, IfOk, OnOk, length};
ghost use Rattle.value_cells.specs.Needs.{needs, kind_needs, number_needs};
ghost use Rattle.value_cells.specs.Held.{own, props_at, with_props};
ghost use Rattle.run_heap.specs.Begins.{at_root, error_cells, first_cells, AreCounted, Begins};

use crate::{Place, RunHeap};
use slot_watch::SlotWatch;
use std::alloc::Global;
use turk_base::{NoMemory, Path, Units};
use value_cells::{CellKind, CellName, Cells, Value};

/// The keys `prototype`, `name` and `message`.
const PROTOTYPE: [u16; 9] = [112, 114, 111, 116, 111, 116, 121, 112, 101];

const NAME: [u16; 4] = [110, 97, 109, 101];

const MESSAGE: [u16; 7] = [109, 101, 115, 115, 97, 103, 101];

/// The names of the errors.
const ERROR: [u16; 5] = [69, 114, 114, 111, 114];

const TYPE_ERROR: [u16; 9] = [84, 121, 112, 101, 69, 114, 114, 111, 114];

const REFERENCE_ERROR: [u16; 14] = [
    82, 101, 102, 101, 114, 101, 110, 99, 101, 69, 114, 114, 111, 114,
];

// a cell of the script's scope
fn add_cell(alloc: Global, cells: &mut Cells, kind: CellKind) -> Result<u32, NoMemory>
    requires counted { AreCounted cells.old.now }
    requires few { length cells.old.now < 100 }
    requires kind { kind_needs kind ≤ length cells.old.now }
    ensures ok { OnOk result (cells.new.now ≡ cells.old.now ++ record { name = at_root (length cells.old.now); kind = kind; props = [] } ∷ []) }
    ensures counted { OnOk result (AreCounted cells.new.now) }
    ensures number { IfOk result (λ n. n ≡ length cells.old.now) }
    ensures marks { cells.new.marks ≡ cells.old.marks }
{
    let name = CellName {
        scope: Path::new(alloc),
        number: cells.count() as u32,
    };
    let cell = cells.make(name, kind)?;
    Ok(cell)
}

// a property of a cell, last
fn add_prop(
    alloc: Global,
    cells: &mut Cells,
    cell: u32,
    key: &[u16],
    value: Value,
) -> Result<(), NoMemory>
    requires cell { cell < length cells.old.now }
    requires fresh { own cells.old.now cell key.now ≡ None }
    requires value { needs value ≤ length cells.old.now }
    ensures ok { OnOk result (cells.new.now ≡ with_props cells.old.now cell (props_at cells.old.now cell ++ (key.now, value) ∷ [])) }
    ensures marks { cells.new.marks ≡ cells.old.marks }
{
    let key = Units::from_slice(alloc, key)?;
    cells.create(cell, key, value)
}

// an error function and its prototype
fn add_error(
    alloc: Global,
    cells: &mut Cells,
    which: u8,
    parent: Option<u32>,
    name: &[u16],
) -> Result<(), NoMemory>
    requires counted { AreCounted cells.old.now }
    requires few { length cells.old.now < 90 }
    requires parent { number_needs parent ≤ length cells.old.now }
    ensures ok { OnOk result (cells.new.now ≡ cells.old.now ++ error_cells (length cells.old.now) which parent name.now) }
    ensures counted { OnOk result (AreCounted cells.new.now) }
    ensures marks { cells.new.marks ≡ cells.old.marks }
{
    let function = add_cell(alloc, cells, CellKind::BuiltIn(which))?;
    let prototype = add_cell(alloc, cells, CellKind::Plain(parent))?;
    let name = Units::from_slice(alloc, name)?;
    add_prop(
        alloc,
        cells,
        function,
        PROTOTYPE.as_slice(),
        Value::Object(prototype),
    )?;
    add_prop(alloc, cells, prototype, NAME.as_slice(), Value::Text(name))?;
    add_prop(
        alloc,
        cells,
        prototype,
        MESSAGE.as_slice(),
        Value::Text(Units::new(alloc)),
    )?;
    Ok(())
}

// the built-in cells
fn built_in_cells(alloc: Global) -> Result<Cells, NoMemory>
    ensures now { IfOk result (λ cells. cells.now ≡ first_cells) }
    ensures marks { IfOk result (λ cells. cells.marks ≡ []) }
{
    let mut cells = Cells::new(alloc);
    add_error(alloc, &mut cells, 13, None, ERROR.as_slice())?;
    add_error(alloc, &mut cells, 14, Some(1), TYPE_ERROR.as_slice())?;
    add_error(alloc, &mut cells, 15, Some(1), REFERENCE_ERROR.as_slice())?;
    add_cell(alloc, &mut cells, CellKind::BuiltIn(12))?;
    Ok(cells)
}

impl RunHeap {
    /// The heap that a run begins with: the built-in cells 0 to 6, made without charge, the script's
    /// scope, nothing open, and so much fuel.
    pub fn new(alloc: Global, fuel: u64) -> Result<RunHeap, NoMemory>
        ensures { IfOk result (λ heap. Begins fuel heap) }
    {
        let cells = built_in_cells(alloc)?;
        cells.known();
        Ok(RunHeap {
            alloc,
            cells,
            slots: SlotWatch::new(alloc),
            place: Place {
                path: Path::new(alloc),
                branch: Path::new(alloc),
                made: 7,
                calls: 0,
            },
            outer: Vec::new(alloc),
            left: fuel,
        })
    }
}
