//! Slots by keys at work: verdicts by hand from the rule, under marks.
use crate::SlotWatch;
use branch_check::Found;
use std::test::Fail;
use turk_base::{Path, Units};

fn is_independent(watch: &SlotWatch) -> bool {
    matches!(watch.verdict(), Found::Independent)
}

fn is_touched(watch: &SlotWatch, cell: u32, key: &Units) -> bool {
    match watch.verdict() {
        Found::TouchedOpen(slot) => slot.cell == cell && watch.key(slot.key) == Some(key),
        _ => false,
    }
}

fn is_once(watch: &SlotWatch, cell: u32) -> bool {
    match watch.verdict() {
        Found::OnceWhileOpen(slot) => slot.cell == cell && slot.key == 0,
        _ => false,
    }
}

#[test]
fn tells_keys_apart(rt: HostRuntime) -> Result<(), Fail> {
    let alloc = rt.alloc();
    let root = Path::new(alloc);
    let left = Path::from_slice(alloc, &[0])?;
    let right = Path::from_slice(alloc, &[1])?;
    let a = Units::from_slice(alloc, &[97])?;
    let b = Units::from_slice(alloc, &[98])?;
    let mut watch = SlotWatch::new(alloc);
    watch.wrote(4, &b, &root, &root)?;
    watch.wrote_shape(4, &left, &root)?;
    watch.wrote(4, &a, &left, &root)?;
    watch.touch(4, &b, &right);
    watch.touch(5, &a, &right);
    watch.touch_shape(5, &right);
    assert!(rt; is_independent(&watch));
    let mark = watch.mark()?;
    watch.touch(4, &a, &right);
    assert!(rt; is_touched(&watch, 4, &a));
    watch.take_back(mark);
    assert!(rt; is_independent(&watch));
    let mark = watch.mark()?;
    watch.once_at(&right);
    watch.threw(&left)?;
    assert!(rt; is_once(&watch, 4));
    watch.keep(mark);
    assert!(rt; is_once(&watch, 4));
    Ok(())
}

#[test]
fn joins(rt: HostRuntime) -> Result<(), Fail> {
    let alloc = rt.alloc();
    let root = Path::new(alloc);
    let left = Path::from_slice(alloc, &[0])?;
    let right = Path::from_slice(alloc, &[1])?;
    let a = Units::from_slice(alloc, &[97])?;
    let mut watch = SlotWatch::new(alloc);
    watch.wrote(4, &a, &left, &root)?;
    watch.joined(&root)?;
    watch.touch(4, &a, &right);
    assert!(rt; is_independent(&watch));
    watch.threw(&right)?;
    assert!(rt; matches!(watch.verdict(), Found::BranchThrew(_)));
    Ok(())
}
