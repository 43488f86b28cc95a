//! Cells at work: made, written, created and deleted under marks.
ghost use Rattle.std.specs.Prelude.{◌≡◌, ℕ, true, Some, slice_get};
ghost use Rattle.value_cells.specs.Held.{names_of};

use crate::{CellKind, CellName, Cells, Value};
use std::alloc::Global;
use std::test::Fail;
use turk_base::{NoMemory, Path, Units, Whole};

/// Whether no cell has that number in its name.
fn is_new(cells: &Cells, number: u32) -> bool
    ensures { result ≡ true → (i : ℕ) (n : CellName) → slice_get (names_of cells.now.now) i ≡ Some n → n.number ≡ number → ⊥ }
{
    let Ok(count) = u32::try_from(cells.count()) else {
        return false;
    };
    for cell in 0..count {
        if cells.name(cell).number == number {
            return false;
        }
    }
    true
}

fn make(alloc: Global, cells: &mut Cells, number: u32) -> bool
    ensures { cells.new.marks ≡ cells.old.marks }
{
    if cells.count() >= 100 {
        return false;
    }
    if !is_new(cells, number) {
        return false;
    }
    let name = CellName {
        scope: Path::new(alloc),
        number,
    };
    cells.make(name, CellKind::Array).is_ok()
}

fn write(cells: &mut Cells, cell: u32, key: &Units, value: u32) -> bool
    ensures { cells.new.marks ≡ cells.old.marks }
{
    if cell as usize >= cells.count() {
        return false;
    }
    if cells.read(cell, key).is_none() {
        return false;
    }
    cells
        .write(cell, key, Value::Number(Whole::from_u32(value)))
        .is_ok()
}

fn create(cells: &mut Cells, cell: u32, key: Units, value: u32) -> bool
    ensures { cells.new.marks ≡ cells.old.marks }
{
    if cell as usize >= cells.count() {
        return false;
    }
    if cells.read(cell, &key).is_some() {
        return false;
    }
    cells
        .create(cell, key, Value::Number(Whole::from_u32(value)))
        .is_ok()
}

fn delete(cells: &mut Cells, cell: u32, key: &Units) -> bool
    ensures { cells.new.marks ≡ cells.old.marks }
{
    if cell as usize >= cells.count() {
        return false;
    }
    if cells.read(cell, key).is_none() {
        return false;
    }
    cells.delete(cell, key).is_ok()
}

/// The keys of a cell with their numbers, in order, as a text: 0 for a key that isn't a number.
fn shown(alloc: Global, cells: &Cells, cell: u32) -> Result<Units, NoMemory> {
    let mut shown = Units::new(alloc);
    if cell as usize >= cells.count() {
        return Ok(shown);
    }
    for place in 0..cells.keys(cell) {
        let Some(key) = cells.key_at(cell, place) else {
            return Ok(shown);
        };
        shown.append(key)?;
        match cells.read(cell, key) {
            Some(Value::Number(number)) => shown.push((number.get() & 255) as u16)?,
            _ => shown.push(0)?,
        }
    }
    Ok(shown)
}

fn shows(alloc: Global, cells: &Cells, cell: u32, want: &[u16]) -> Result<bool, NoMemory> {
    Ok(shown(alloc, cells, cell)?.as_slice() == want)
}

#[test]
fn takes_back_and_keeps(rt: HostRuntime) -> Result<(), Fail> {
    let alloc = rt.alloc();
    let (a, b) = (
        Units::from_slice(alloc, &[97])?,
        Units::from_slice(alloc, &[98])?,
    );
    let mut cells = Cells::new(alloc);
    assert!(rt; make(alloc, &mut cells, 0));
    assert!(rt; create(&mut cells, 0, a.copy(alloc)?, 1));
    assert!(rt; create(&mut cells, 0, b.copy(alloc)?, 2));
    let outer = cells.mark()?;
    assert!(rt; write(&mut cells, 0, &a, 3));
    let inner = cells.mark()?;
    assert!(rt; make(alloc, &mut cells, 1));
    assert!(rt; create(&mut cells, 1, a.copy(alloc)?, 4));
    assert!(rt; delete(&mut cells, 0, &a));
    assert!(rt; create(&mut cells, 0, a.copy(alloc)?, 5));
    assert!(rt; write(&mut cells, 0, &b, 6));
    assert!(rt; shows(alloc, &cells, 0, &[98, 6, 97, 5])?);
    cells.take_back(inner);
    assert_eq!(rt; cells.count(), 1);
    assert!(rt; shows(alloc, &cells, 0, &[97, 3, 98, 2])?);
    cells.keep(outer);
    assert!(rt; shows(alloc, &cells, 0, &[97, 3, 98, 2])?);
    let outer = cells.mark()?;
    let inner = cells.mark()?;
    assert!(rt; delete(&mut cells, 0, &a));
    cells.keep(inner);
    assert!(rt; shows(alloc, &cells, 0, &[98, 2])?);
    cells.take_back(outer);
    assert!(rt; shows(alloc, &cells, 0, &[97, 3, 98, 2])?);
    Ok(())
}

/// Deletes a key of the cell under a mark, writes another, and takes both back.
fn tries(cells: &mut Cells, gone: &Units, set: &Units) -> bool
    ensures { cells.new.marks ≡ cells.old.marks }
{
    let Ok(mark) = cells.mark() else {
        return false;
    };
    let done = delete(cells, 0, gone) && write(cells, 0, set, 9);
    cells.take_back(mark);
    done
}

/// The first cell, with these keys and 1 and 2 for values.
fn begin(alloc: Global, cells: &mut Cells, a: &Units, b: &Units) -> Result<bool, NoMemory>
    ensures { cells.new.marks ≡ cells.old.marks }
{
    if !make(alloc, cells, 0) {
        return Ok(false);
    }
    let a = a.copy(alloc)?;
    let b = b.copy(alloc)?;
    Ok(create(cells, 0, a, 1) && create(cells, 0, b, 2))
}

#[test]
fn saves_properties_again(rt: HostRuntime) -> Result<(), Fail> {
    let alloc = rt.alloc();
    let a = Units::from_slice(alloc, &[97])?;
    let b = Units::from_slice(alloc, &[98])?;
    let mut cells = Cells::new(alloc);
    assert!(rt; begin(alloc, &mut cells, &a, &b)?);
    assert!(rt; tries(&mut cells, &a, &b));
    let outer = cells.mark()?;
    assert!(rt; write(&mut cells, 0, &b, 3));
    assert!(rt; delete(&mut cells, 0, &a));
    assert!(rt; !tries(&mut cells, &b, &a));
    assert!(rt; shows(alloc, &cells, 0, &[98, 3])?);
    cells.take_back(outer);
    assert!(rt; shows(alloc, &cells, 0, &[97, 1, 98, 2])?);
    Ok(())
}

#[test]
fn tells_what_was_made(rt: HostRuntime) -> Result<(), Fail> {
    let alloc = rt.alloc();
    let mut cells = Cells::new(alloc);
    assert!(rt; make(alloc, &mut cells, 7));
    if cells.count() == 1 {
        assert_eq!(rt; cells.name(0).number, 7);
        assert!(rt; matches!(cells.kind(0), CellKind::Array));
        assert!(rt; cells.key_at(0, 0).is_none());
    }
    let text = Value::Text(Units::from_slice(alloc, &[97])?);
    assert!(rt;
        matches!(text.copy(alloc)?, Value::Text(copy) if copy.as_slice() == [97].as_slice())
    );
    assert!(rt; matches!(Value::Truth(true).copy(alloc)?, Value::Truth(true)));
    Ok(())
}
