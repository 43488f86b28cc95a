//! Keys at work: numbered, found and told.
use crate::KeyTable;
use std::test::Fail;
use turk_base::Units;

#[test]
fn numbers_each_key_once(rt: HostRuntime) -> Result<(), Fail> {
    let alloc = rt.alloc();
    let a = Units::from_slice(alloc, &[97])?;
    let b = Units::from_slice(alloc, &[98])?;
    let mut keys = KeyTable::new(alloc);
    assert!(rt; keys.find(&a).is_none());
    assert_eq!(rt; keys.number(alloc, &b)?, 1);
    assert_eq!(rt; keys.number(alloc, &a)?, 2);
    assert_eq!(rt; keys.number(alloc, &b)?, 1);
    assert!(rt; keys.find(&a) == Some(2));
    assert!(rt; keys.key(2) == Some(&a));
    assert!(rt; keys.key(0).is_none());
    assert!(rt; keys.key(3).is_none());
    Ok(())
}
