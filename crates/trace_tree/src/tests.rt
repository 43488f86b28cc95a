//! A trace that is filled and searched, with ample memory.
use crate::{Trace, TraceStop};
use std::alloc::Global;
use std::test::Fail;
use turk_base::{Entry, NoMemory, Path, Record, Units};

fn post(alloc: Global, path: &[u32]) -> Result<Entry, NoMemory> {
    Ok(Entry {
        path: Path::from_slice(alloc, path)?,
        what: Record::Post(Units::new(alloc)),
    })
}

// Adds a post in the room that is made for it: 0 for Ok, 1 for Repeated, 2 for another refusal.
fn add(alloc: Global, trace: &mut Trace, path: &[u32]) -> Result<u8, NoMemory> {
    trace.reserve(path.len())?;
    match trace.push(post(alloc, path)?) {
        Ok(()) => Ok(0),
        Err(TraceStop::Repeated(_)) => Ok(1),
        Err(_) => Ok(2),
    }
}

#[test]
fn records_are_found(rt: HostRuntime) -> Result<(), Fail> {
    let mut trace = Trace::new(rt.alloc());
    let pushed: [(&[u32], u8); 4] = [(&[0], 0), (&[2, 0], 0), (&[0], 1), (&[2, 1], 0)];
    for (path, wanted) in pushed {
        assert_eq!(rt; add(rt.alloc(), &mut trace, path), Ok(wanted));
    }
    assert_eq!(rt; trace.count(), 3);
    let table: [(&[u32], bool, bool, bool); 6] = [
        (&[], false, true, true),
        (&[0], true, false, true),
        (&[1], false, false, false),
        (&[2], false, true, true),
        (&[2, 1], true, false, true),
        (&[2, 1, 0], false, false, false),
    ];
    for (items, stands, below, reached) in table {
        if let Ok(path) = Path::from_slice(rt.alloc(), items) {
            assert_eq!(rt; trace.find(&path).is_some(), stands);
            assert_eq!(rt; trace.below(&path), below);
            assert_eq!(rt; trace.follow(&path).is_some(), reached);
        } else {
            assert!(rt; false);
        }
    }
    Ok(())
}
