//! What no clause says: which calls are made to fail, what is left of a stop, and what a real file does.
use crate::{Disk, DiskFailed, FileDisk, MemoryDisk};
use std::fs;
use std::test::Fail;

#[test]
fn calls_of_a_disk_in_memory(rt: HostRuntime) -> Result<(), Fail> {
    let mut disk = MemoryDisk::new(rt.alloc(), b"abcd")?;
    assert_eq!(rt; disk.size(), Ok(4));
    let mut part = [0_u8; 2];
    assert!(rt; disk.bytes().len() >= 3);
    assert_eq!(rt; disk.read(1, &mut part), Ok(()));
    assert_eq!(rt; &part[..], &b"bc"[..]);
    assert_eq!(rt; disk.write_at(2, b"XYZ"), Ok(()));
    assert_eq!(rt; disk.bytes(), &b"abXYZ"[..]);
    assert_eq!(rt; disk.sync(), Ok(()));
    assert_eq!(rt; disk.calls(), 2);
    assert_eq!(rt; disk.fail_calls(&[5, 7]), Ok(()));
    assert_eq!(rt; disk.size(), Err(DiskFailed));
    assert_eq!(rt; disk.size(), Ok(5));
    assert_eq!(rt; disk.write_at(0, b"?"), Err(DiskFailed));
    assert_eq!(rt; disk.bytes(), &b"abXYZ"[..]);
    assert_eq!(rt; disk.calls(), 3);
    assert!(rt; !disk.lacked());
    disk.stop_at(2, 1);
    disk.clear_stop();
    assert_eq!(rt; disk.sync(), Ok(()));
    assert_eq!(rt; disk.sync(), Ok(()));
    assert!(rt; !disk.stopped());
    Ok(())
}

// Two writes, a sync, and a write behind the end, where the disk is long enough.
fn run(disk: &mut MemoryDisk) -> Result<(), DiskFailed> {
    if disk.bytes().len() == 2 {
        disk.write_at(2, b"cd")?;
        disk.write_at(0, b"XY")?;
        disk.sync()?;
    }
    if disk.bytes().len() == 4 {
        disk.write_at(4, b"ef")?;
    }
    disk.size()?;
    Ok(())
}

#[test]
fn a_reboot_leaves_the_first_bytes(rt: HostRuntime) -> Result<(), Fail> {
    let table: [(u32, u32, &[u8]); 9] = [
        (1, 0, b"ab"),
        (1, 1, b"abc"),
        (1, 9, b"abcd"),
        (2, 2, b"abcd"),
        (2, 3, b"Xbcd"),
        (3, 0, b"ab"),
        (3, 4, b"XYcd"),
        (4, 0, b"XYcd"),
        (4, 1, b"XYcde"),
    ];
    for (call, keep, want) in table {
        let mut disk = MemoryDisk::new(rt.alloc(), b"ab")?;
        disk.stop_at(call, keep);
        assert_eq!(rt; run(&mut disk), Err(DiskFailed), "at {call}");
        assert!(rt; disk.stopped(), "at {call}");
        assert_eq!(rt; disk.size(), Err(DiskFailed), "at {call}");
        disk.reboot();
        assert!(rt; !disk.stopped(), "at {call}");
        assert_eq!(rt; disk.bytes(), want, "at {call}, {keep}");
        assert_eq!(rt; disk.size(), Ok(want.len() as u64), "at {call}");
    }
    Ok(())
}

#[test]
fn a_file_is_a_disk(rt: HostRuntime) -> Result<(), Fail> {
    let path = "disk_model.tried";
    let _before = fs::remove_file(&rt, path);
    let mut disk = FileDisk::new(&rt, rt.alloc(), path)?;
    assert_eq!(rt; disk.size(), Ok(0));
    assert_eq!(rt; disk.write_at(0, b"abcd"), Ok(()));
    assert_eq!(rt; disk.write_at(1, b"XY"), Ok(()));
    assert_eq!(rt; disk.sync(), Ok(()));
    let mut part = [0_u8; 3];
    assert_eq!(rt; disk.read(1, &mut part), Ok(()));
    assert_eq!(rt; &part[..], &b"XYd"[..]);
    assert_eq!(rt; disk.read(2, &mut part), Err(DiskFailed));
    assert_eq!(rt; disk.write_at(5, b"?"), Err(DiskFailed));
    let mut again = FileDisk::new(&rt, rt.alloc(), path)?;
    assert_eq!(rt; again.size(), Ok(4));
    // A folder, no name, a file in no folder, one in a file, and one that the system lets nobody make.
    for bad in [
        ".",
        "",
        "missing.folder/file",
        "disk_model.tried/file",
        "/sys/turkit.tried",
    ] {
        let mut none = FileDisk::new(&rt, rt.alloc(), bad)?;
        assert_eq!(rt; none.size(), Err(DiskFailed), "at {bad}");
        assert_eq!(rt; none.write_at(0, b"a"), Err(DiskFailed), "at {bad}");
        assert_eq!(rt; none.sync(), Err(DiskFailed), "at {bad}");
    }
    let _after = fs::remove_file(&rt, path);
    Ok(())
}
