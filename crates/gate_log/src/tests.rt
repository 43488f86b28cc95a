//! The files of the rules, an append's bytes, and what is left of a stop at each of its calls.
use crate::{GateLog, LogStop, look, open_log};
use disk_model::MemoryDisk;
use std::alloc::Global;
use std::test::Fail;

// How many entries there are, or why there is no log.
fn counted(log: Result<GateLog, LogStop>) -> Result<usize, LogStop> {
    match log {
        Ok(log) => Ok(log.count()),
        Err(stop) => Err(stop),
    }
}

#[test]
fn files_are_opened(rt: HostRuntime) -> Result<(), Fail> {
    let table: [(&[u8], Result<usize, LogStop>, &[u8], u64); 8] = [
        (b"", Ok(0), b"\0", 3),
        (b"\xa5", Ok(0), b"\0", 3),
        (b"\x07", Ok(0), b"\0", 3),
        (b"\0\xff\xff", Ok(0), b"\0\xff\xff", 1),
        (b"\xa5\0", Err(LogStop::Broken(0)), b"\xa5\0", 1),
        (b"\xa5\0\0\0\0\0", Ok(1), b"\xa5\0\0\0\0\0", 1),
        (
            b"\xa5\xff\xff\xff\xff\0",
            Err(LogStop::Broken(0)),
            b"\xa5\xff\xff\xff\xff\0",
            1,
        ),
        (
            b"\xa5\0\0\0\x01A\xa5\0\0\0\x01B",
            Err(LogStop::Broken(6)),
            b"\xa5\0\0\0\x01A\xa5\0\0\0\x01B",
            1,
        ),
    ];
    for (i, (file, want, bytes, calls)) in table.into_iter().enumerate() {
        let mut disk = MemoryDisk::new(rt.alloc(), file)?;
        assert_eq!(rt; counted(look(rt.alloc(), &mut disk)), want, "at {i}");
        assert_eq!(rt; disk.calls(), 0, "at {i}");
        assert_eq!(rt; counted(open_log(rt.alloc(), &mut disk)), want, "at {i}");
        assert_eq!(rt; disk.bytes(), bytes, "at {i}");
        assert_eq!(rt; disk.calls(), calls, "at {i}");
    }
    Ok(())
}

// Opens a log and adds an entry, in the room that is made for it.
fn add(alloc: Global, disk: &mut MemoryDisk, entry: &[u8]) -> Result<GateLog, LogStop> {
    let mut log = match open_log(alloc, disk) {
        Ok(log) => log,
        Err(stop) => return Err(stop),
    };
    if log.reserve(entry.len()).is_err() {
        return Err(LogStop::Memory);
    }
    match log.append(disk, entry) {
        Ok(()) => Ok(log),
        Err(stop) => Err(stop),
    }
}

#[test]
fn entries_are_added(rt: HostRuntime) -> Result<(), Fail> {
    let mut disk = MemoryDisk::new(rt.alloc(), b"")?;
    let first = add(rt.alloc(), &mut disk, b"ab")?;
    assert_eq!(rt; disk.calls(), 7);
    assert!(rt; first.fits(67_108_851) && !first.fits(67_108_852));
    let log = add(rt.alloc(), &mut disk, b"")?;
    assert_eq!(rt; disk.calls(), 12);
    assert_eq!(rt; disk.bytes(), &b"\xa5\0\0\0\x02ab\xa5\0\0\0\0\0"[..]);
    assert_eq!(rt; log.entry(0), Some(&b"ab"[..]));
    assert_eq!(rt; log.entry(1), Some(&b""[..]));
    assert_eq!(rt; log.entry(2), None);
    let mut seen = look(rt.alloc(), &mut disk)?;
    assert_eq!(rt; seen.append(&mut disk, b"c"), Err(LogStop::Closed));
    assert_eq!(rt; seen.count(), 2);
    Ok(())
}

#[test]
fn a_stop_leaves_the_entries_before(rt: HostRuntime) -> Result<(), Fail> {
    // The calls of the second opening and append: a sync, then the four. The block has 6 bytes.
    let table: [(u32, u32, usize); 8] = [
        (1, 9, 1),
        (2, 0, 1),
        (2, 5, 1),
        (3, 6, 1),
        (4, 0, 1),
        (4, 1, 2),
        (5, 0, 1),
        (5, 1, 2),
    ];
    for (call, keep, want) in table {
        let mut disk = MemoryDisk::new(rt.alloc(), b"")?;
        let _first = add(rt.alloc(), &mut disk, b"ab")?;
        disk.stop_at(call, keep);
        assert_eq!(rt;
            counted(add(rt.alloc(), &mut disk, b"c")),
            Err(LogStop::Fault),
            "at {call}"
        );
        disk.reboot();
        assert_eq!(rt;
            counted(open_log(rt.alloc(), &mut disk)),
            Ok(want),
            "at {call}, {keep}"
        );
    }
    Ok(())
}
