//! The monitor at work: verdicts by hand from the rule, under nested marks.
use crate::{Found, Monitor, Slot};
use std::test::Fail;
use turk_base::Path;

const A: Slot = Slot { cell: 1, key: 1 };

const B: Slot = Slot { cell: 2, key: 0 };

const C: Slot = Slot { cell: 2, key: 7 };

const LEFT: &[u32] = &[0];

fn is_independent(monitor: &Monitor) -> bool {
    matches!(monitor.verdict(), Found::Independent)
}

fn is_touched(monitor: &Monitor, slot: Slot) -> bool {
    match monitor.verdict() {
        Found::TouchedOpen(found) => *found == slot,
        _ => false,
    }
}

fn is_once(monitor: &Monitor, slot: Slot) -> bool {
    match monitor.verdict() {
        Found::OnceWhileOpen(found) => *found == slot,
        _ => false,
    }
}

fn is_throw(monitor: &Monitor, path: &[u32]) -> bool {
    match monitor.verdict() {
        Found::BranchThrew(found) => found.as_slice() == path,
        _ => false,
    }
}

/// Whether these slots are open, in this order, each by the path beside it.
fn has(monitor: &Monitor, want: &[(Slot, &[u32])]) -> bool {
    let slots = &monitor.opens.slots;
    slots.len() == want.len()
        && want.iter().enumerate().all(|(place, (slot, path))| match slots.pair_at(place) {
            Some((open, by)) => *open == *slot && by.as_slice() == *path,
            None => false,
        })
}

#[test]
fn takes_back_and_keeps(rt: HostRuntime) -> Result<(), Fail> {
    let alloc = rt.alloc();
    let root = Path::new(alloc);
    let left = Path::from_slice(alloc, &[0])?;
    let deep = Path::from_slice(alloc, &[0, 2])?;
    let right = Path::from_slice(alloc, &[1])?;
    let mut monitor = Monitor::new(alloc);
    monitor.wrote(A, &left, &root)?;
    monitor.touch(A, &deep);
    monitor.once_at(&left);
    assert!(rt; is_independent(&monitor));
    let outer = monitor.mark()?;
    monitor.wrote(B, &right, &right)?;
    monitor.touch(B, &left);
    assert!(rt; is_independent(&monitor));
    let inner = monitor.mark()?;
    monitor.touch(A, &right);
    monitor.once_at(&right);
    assert!(rt; is_touched(&monitor, A));
    monitor.take_back(inner);
    assert!(rt; is_independent(&monitor));
    let inner = monitor.mark()?;
    monitor.once_at(&right);
    monitor.threw(&right)?;
    monitor.keep(inner);
    assert!(rt; is_once(&monitor, A));
    monitor.take_back(outer);
    assert!(rt; is_independent(&monitor));
    Ok(())
}

#[test]
fn joins_cut(rt: HostRuntime) -> Result<(), Fail> {
    let alloc = rt.alloc();
    let root = Path::new(alloc);
    let left = Path::from_slice(alloc, &[0])?;
    let deep = Path::from_slice(alloc, &[0, 2])?;
    let right = Path::from_slice(alloc, &[1])?;
    let mut monitor = Monitor::new(alloc);
    monitor.wrote(B, &deep, &root)?;
    monitor.joined(&left)?;
    monitor.touch(B, &left);
    assert!(rt; is_independent(&monitor));
    let mark = monitor.mark()?;
    monitor.joined(&root)?;
    monitor.touch(B, &right);
    assert!(rt; is_independent(&monitor));
    monitor.threw(&right)?;
    assert!(rt; is_throw(&monitor, &[1]));
    monitor.take_back(mark);
    monitor.wrote(B, &right, &root)?;
    assert!(rt; is_touched(&monitor, B));
    Ok(())
}

#[test]
fn undoes_each_step(rt: HostRuntime) -> Result<(), Fail> {
    let alloc = rt.alloc();
    let root = Path::new(alloc);
    let left = Path::from_slice(alloc, &[0])?;
    let deep = Path::from_slice(alloc, &[0, 2])?;
    let right = Path::from_slice(alloc, &[1])?;
    let mut monitor = Monitor::new(alloc);
    monitor.wrote(A, &left, &root)?;
    let outer = monitor.mark()?;
    monitor.wrote(B, &deep, &root)?;
    monitor.wrote(A, &deep, &root)?;
    assert!(rt; has(&monitor, &[(A, &[0, 2]), (B, &[0, 2])]));
    let inner = monitor.mark()?;
    monitor.joined(&left)?;
    monitor.wrote(C, &right, &root)?;
    assert!(rt; has(&monitor, &[(A, &[0]), (B, &[0]), (C, &[1])]));
    monitor.take_back(inner);
    assert!(rt; has(&monitor, &[(A, &[0, 2]), (B, &[0, 2])]));
    let inner = monitor.mark()?;
    monitor.joined(&root)?;
    monitor.wrote(B, &right, &root)?;
    monitor.keep(inner);
    assert!(rt; has(&monitor, &[(B, &[1])]));
    monitor.take_back(outer);
    assert!(rt; has(&monitor, &[(A, &[0])]));
    Ok(())
}

#[test]
fn notes_changes_alone(rt: HostRuntime) -> Result<(), Fail> {
    let alloc = rt.alloc();
    let root = Path::new(alloc);
    let left = Path::from_slice(alloc, &[0])?;
    let deep = Path::from_slice(alloc, &[0, 2])?;
    let mut monitor = Monitor::new(alloc);
    monitor.wrote(A, &deep, &root)?;
    monitor.joined(&left)?;
    assert_eq!(rt; monitor.opens.steps.len(), 0);
    let mark = monitor.mark()?;
    monitor.wrote(B, &deep, &root)?;
    monitor.joined(&left)?;
    assert_eq!(rt; monitor.opens.steps.len(), 2);
    monitor.joined(&left)?;
    monitor.wrote(A, &left, &root)?;
    assert_eq!(rt; monitor.opens.steps.len(), 2);
    monitor.keep(mark);
    assert_eq!(rt; monitor.opens.steps.len(), 0);
    assert!(rt; has(&monitor, &[(A, &[0]), (B, &[0])]));
    Ok(())
}

/// Whether so many slots are open, the first of which are the shapes of the cells 0 to 39 in order:
/// cell 39 by this path, and the others by that of the first branch.
fn has_many(monitor: &Monitor, last: &[u32], len: usize) -> bool {
    let slots = &monitor.opens.slots;
    slots.len() == len
        && (0..40u32).all(|cell| match slots.pair_at(cell as usize) {
            Some((open, by)) => {
                open.cell == cell && by.as_slice() == (if cell == 39 { last } else { LEFT })
            }
            None => false,
        })
}

#[test]
fn undoes_among_many(rt: HostRuntime) -> Result<(), Fail> {
    let alloc = rt.alloc();
    let root = Path::new(alloc);
    let left = Path::from_slice(alloc, &[0])?;
    let deep = Path::from_slice(alloc, &[0, 2])?;
    let mut monitor = Monitor::new(alloc);
    for cell in 0..40u32 {
        monitor.wrote(Slot { cell, key: 0 }, &left, &root)?;
    }
    let outer = monitor.mark()?;
    monitor.wrote(Slot { cell: 39, key: 0 }, &deep, &root)?;
    monitor.wrote(Slot { cell: 40, key: 0 }, &deep, &root)?;
    assert!(rt; has_many(&monitor, &[0, 2], 41));
    let inner = monitor.mark()?;
    monitor.joined(&left)?;
    assert!(rt; has_many(&monitor, &[0], 41));
    monitor.joined(&root)?;
    assert!(rt; has(&monitor, &[]));
    monitor.take_back(inner);
    assert!(rt; has_many(&monitor, &[0, 2], 41));
    monitor.take_back(outer);
    assert!(rt; has_many(&monitor, &[0], 40));
    Ok(())
}
