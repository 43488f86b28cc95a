//! A journal that is begun, opened by other heads and read with faults, and a record that is added.
ghost use Rattle.std.specs.Prelude.{◌<◌, ◌≤◌, ◌≡◌, false, length, IfOk};
ghost use Rattle.record_bytes.specs.Limits.{IsHeadWithin, IsWithin};
ghost use Rattle.trace_journal.specs.TraceJournal.{is_closed_of, IsOn};

use crate::{JournalStop, TraceJournal, look_journal, open_journal};
use disk_model::{Disk, MemoryDisk};
use record_bytes::Head;
use std::alloc::Global;
use std::test::Fail;
use turk_base::{Bytes, Entry, Name, NoMemory, Path, Record, Units};

// The journal of the head of name s, fuel 5,000,000 and script print(1).
const BEGUN: [u8; 26] = [
    0xA5, 0, 0, 0, 0x14, 0x48, 1, 1, 0x73, 0, 0, 0, 0, 0, 0x4C, 0x4B, 0x40, 0x70, 0x72, 0x69, 0x6E,
    0x74, 0x28, 0x31, 0x29, 0,
];

// The same without its gate, for what may follow.
const OPEN: [u8; 25] = [
    0xA5, 0, 0, 0, 0x14, 0x48, 1, 1, 0x73, 0, 0, 0, 0, 0, 0x4C, 0x4B, 0x40, 0x70, 0x72, 0x69, 0x6E,
    0x74, 0x28, 0x31, 0x29,
];

fn head(alloc: Global, name: &str, fuel: u64, script: &[u8]) -> Result<Head, NoMemory>
    requires { (0 < fuel) × (fuel ≤ 20000000) × (length script.now ≤ 1048576) }
    ensures { IfOk result (λ h. IsHeadWithin h) }
{
    match Name::read(alloc, name) {
        Ok(name) => Ok(Head {
            name,
            fuel,
            script: Bytes::from_slice(alloc, script)?,
        }),
        Err(_) => Err(NoMemory),
    }
}

// An answer in short: what it is, and its number.
fn told(stop: &JournalStop) -> (u8, u64) {
    match stop {
        JournalStop::Fault => (1, 0),
        JournalStop::Broken(place) => (2, *place),
        JournalStop::BadRecord(number) => (3, *number as u64),
        JournalStop::OtherName(name) => (4, name.as_slice().len() as u64),
        JournalStop::OtherScript(place) => (5, *place as u64),
        JournalStop::OtherFuel(fuel) => (6, *fuel),
        JournalStop::TraceFull => (7, 0),
        JournalStop::LogFull => (8, 0),
        JournalStop::Closed => (9, 0),
        JournalStop::Memory => (10, 0),
    }
}

// Opens the file with such a head.
fn opened(alloc: Global, disk: &mut MemoryDisk, name: &str, fuel: u64, script: &[u8]) -> (u8, u64)
    requires { (0 < fuel) × (fuel ≤ 20000000) × (length script.now ≤ 1048576) }
{
    match head(alloc, name, fuel, script) {
        Ok(head) => match open_journal(alloc, disk, &head) {
            Ok(journal) => (0, journal.trace().count() as u64),
            Err(stop) => told(&stop),
        },
        Err(_) => (11, 0),
    }
}

// Looks at the file: what it is, and how many records it has; 12 where it isn't begun.
fn looked(alloc: Global, disk: &mut MemoryDisk) -> (u8, u64) {
    match look_journal(alloc, disk) {
        Ok(Some(found)) => (0, found.1.count() as u64),
        Ok(None) => (12, 0),
        Err(stop) => told(&stop),
    }
}

#[test]
fn files_are_opened(rt: HostRuntime) -> Result<(), Fail> {
    let table: [(&[u8], &[u8], (u8, u64), (u8, u64), (u8, u64)); 9] = [
        (b"", b"", (12, 0), (0, 0), (0, 0)),
        (b"\0", b"\xff\xff", (12, 0), (0, 0), (0, 0)),
        (b"\xa5\0\0\0\0", b"\0", (3, 0), (3, 0), (3, 0)),
        (&OPEN, b"\0", (0, 0), (0, 0), (0, 0)),
        (&OPEN, b"\x5b", (0, 0), (0, 0), (0, 0)),
        (&OPEN, b"\xa5", (2, 25), (2, 25), (2, 25)),
        (b"\xa5\0\0\0\x01\x09", b"\0", (3, 0), (3, 0), (3, 0)),
        (&OPEN, b"\xa5\0\0\0\x01\x09\0", (3, 1), (3, 1), (3, 1)),
        (&OPEN, POST_TWICE, (3, 2), (3, 2), (3, 2)),
    ];
    for (i, (front, rest, look, first, again)) in table.into_iter().enumerate() {
        let mut file = Vec::from_slice(rt.alloc(), front)?;
        file.extend_from_slice(rest)?;
        let mut disk = MemoryDisk::new(rt.alloc(), &file)?;
        assert_eq!(rt; looked(rt.alloc(), &mut disk), look, "at {i}");
        assert_eq!(rt;
            opened(rt.alloc(), &mut disk, "s", 5_000_000, b"print(1)"),
            first,
            "at {i}"
        );
        assert_eq!(rt;
            opened(rt.alloc(), &mut disk, "s", 5_000_000, b"print(1)"),
            again,
            "at {i}"
        );
    }
    Ok(())
}

// The same post at path 0 twice, each behind its open gate, and a closed gate.
const POST_TWICE: &[u8] =
    b"\xa5\0\0\0\x0b\x01\0\x01\0\0\0\0\0\0\0\0\xa5\0\0\0\x0b\x01\0\x01\0\0\0\0\0\0\0\0\0";

#[test]
fn heads_are_compared(rt: HostRuntime) -> Result<(), Fail> {
    let mut disk = MemoryDisk::new(rt.alloc(), b"\xa5")?;
    assert_eq!(rt;
        opened(rt.alloc(), &mut disk, "s", 5_000_000, b"print(1)"),
        (0, 0)
    );
    assert_eq!(rt; disk.bytes(), BEGUN.as_slice());
    assert_eq!(rt; disk.calls(), 7);
    assert_eq!(rt;
        opened(rt.alloc(), &mut disk, "s", 5_000_000, b"print(2)"),
        (5, 6)
    );
    assert_eq!(rt;
        opened(rt.alloc(), &mut disk, "s", 5_000_000, b"print(1);"),
        (5, 8)
    );
    assert_eq!(rt;
        opened(rt.alloc(), &mut disk, "s", 7, b"print(1)"),
        (6, 5_000_000)
    );
    assert_eq!(rt; opened(rt.alloc(), &mut disk, "tt", 7, b"print(2)"), (4, 1));
    assert_eq!(rt; disk.bytes(), BEGUN.as_slice());
    Ok(())
}

// A post at a path of one index.
fn post(alloc: Global, index: u32, text: &[u16]) -> Result<Entry, NoMemory>
    requires { length text.now ≤ 1048576 }
    ensures { IfOk result IsWithin }
{
    Ok(Entry {
        path: Path::from_slice(alloc, &[index])?,
        what: Record::Post(Units::from_slice(alloc, text)?),
    })
}

// Adds a post at a path of that index: how many records there are then, or the refusal; 13 where a record stands there.
fn add_to<D: Disk>(
    alloc: Global,
    disk: &mut D,
    journal: &mut TraceJournal,
    index: u32,
    text: &[u16],
) -> (u8, u64)
    requires text { length text.now ≤ 1048576 }
    requires on { is_closed_of journal.old ≡ false → D.tells → IsOn journal.old (D.bytes disk.old) (D.left_since disk.old (D.moment disk.old)) }
    ensures on { is_closed_of journal.new ≡ false → D.tells → IsOn journal.new (D.bytes disk.new) (D.left_since disk.new (D.moment disk.new)) }
{
    let Ok(entry) = post(alloc, index, text) else {
        return (11, 0);
    };
    if journal.trace().find(&entry.path).is_some() {
        return (13, 0);
    }
    let ready = match journal.prepare(entry) {
        Ok(ready) => ready,
        Err(stop) => return told(&stop),
    };
    match journal.add(disk, ready) {
        Ok(()) => (0, journal.trace().count() as u64),
        Err(stop) => told(&stop),
    }
}

// Opens the file, and adds posts at paths of these indexes: the last answer.
fn added<D: Disk>(
    alloc: Global,
    disk: &mut D,
    indexes: std::ops::Range<u32>,
    text: &[u16],
) -> (u8, u64)
    requires { length text.now ≤ 1048576 }
{
    let Ok(head) = head(alloc, "s", 5_000_000, b"print(1)") else {
        return (11, 0);
    };
    let mut journal = match open_journal(alloc, disk, &head) {
        Ok(journal) => journal,
        Err(stop) => return told(&stop),
    };
    let mut last = (0, 0);
    for index in indexes.start..indexes.end {
        last = add_to(alloc, disk, &mut journal, index, text);
    }
    last
}

#[test]
fn records_are_added(rt: HostRuntime) -> Result<(), Fail> {
    let mut disk = MemoryDisk::new(rt.alloc(), &BEGUN)?;
    assert_eq!(rt; added(rt.alloc(), &mut disk, 0..1, &[0x61]), (0, 1));
    assert_eq!(rt; disk.calls(), 5);
    assert_eq!(rt; added(rt.alloc(), &mut disk, 0..1, &[0x61]), (13, 0));
    assert_eq!(rt; added(rt.alloc(), &mut disk, 258..259, &[]), (0, 2));
    let mut want = Vec::from_slice(rt.alloc(), &OPEN)?;
    want.extend_from_slice(b"\xa5\0\0\0\x0d\x01\0\x01\0\0\0\0\0\0\0\x01\0a")?;
    want.extend_from_slice(b"\xa5\0\0\0\x0b\x01\0\x01\0\0\x01\x02\0\0\0\0\0")?;
    assert_eq!(rt; disk.bytes(), want.as_slice());
    assert_eq!(rt; looked(rt.alloc(), &mut disk), (0, 2));
    Ok(())
}

#[test]
fn a_stop_leaves_the_record_or_not(rt: HostRuntime) -> Result<(), Fail> {
    // The calls: the sync of the opening, then the four of the record, whose block has 18 bytes.
    let table: [(u32, u32, u64); 7] = [
        (1, 0, 0),
        (2, 17, 0),
        (3, 18, 0),
        (4, 0, 0),
        (4, 1, 1),
        (5, 0, 0),
        (5, 1, 1),
    ];
    for (call, keep, want) in table {
        let mut disk = MemoryDisk::new(rt.alloc(), &BEGUN)?;
        disk.stop_at(call, keep);
        assert_eq!(rt;
            added(rt.alloc(), &mut disk, 0..1, &[0x61]),
            (1, 0),
            "at {call}"
        );
        disk.reboot();
        assert_eq!(rt;
            looked(rt.alloc(), &mut disk),
            (0, want),
            "at {call}, {keep}"
        );
    }
    Ok(())
}

#[test]
fn a_journal_is_closed_after_a_fault(rt: HostRuntime) -> Result<(), Fail> {
    // The opening makes the calls 1 to 3, and each record four more.
    let mut disk = MemoryDisk::new(rt.alloc(), &BEGUN)?;
    disk.fail_calls(&[9])?;
    assert_eq!(rt; added(rt.alloc(), &mut disk, 0..2, &[0x61]), (1, 0));
    assert_eq!(rt; disk.calls(), 7);
    let mut disk = MemoryDisk::new(rt.alloc(), &BEGUN)?;
    disk.fail_calls(&[9])?;
    assert_eq!(rt; added(rt.alloc(), &mut disk, 0..3, &[0x61]), (9, 0));
    assert_eq!(rt; disk.calls(), 7);
    Ok(())
}

#[test]
fn a_long_file_is_full(rt: HostRuntime) -> Result<(), Fail> {
    let file = vec![in rt.alloc(); 0_u8; 67_108_865]?;
    let mut disk = MemoryDisk::new(rt.alloc(), &file)?;
    assert_eq!(rt;
        opened(rt.alloc(), &mut disk, "s", 5_000_000, b"print(1)"),
        (8, 0)
    );
    assert_eq!(rt; looked(rt.alloc(), &mut disk), (8, 0));
    Ok(())
}
