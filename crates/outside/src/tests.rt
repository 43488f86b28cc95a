//! What no clause says: each call answers with ample memory, and the trusted edge does its work.

use super::*;

#[test]
fn a_source_in_memory_gives_its_bytes_or_fails(rt: HostRuntime) -> Result<(), std::test::Fail> {
    let mut source = MemorySource::new(rt.alloc(), b"abcdef", &[2])?;
    let mut piece = [0u8; 4];
    assert!(rt; source.read(&mut piece) == Ok(4));
    assert!(rt; piece.as_slice() == b"abcd".as_slice());
    assert!(rt; source.read(&mut piece) == Err(Failed));
    assert!(rt; source.read(&mut piece) == Ok(2));
    assert!(rt; source.read(&mut piece) == Ok(0));
    Ok(())
}

#[test]
fn reading_all_gives_all_or_says_why_not(rt: HostRuntime) -> Result<(), std::test::Fail> {
    // The limit, the calls that fail, and what is answered for the six bytes.
    let table: [(u64, &[u32], Option<ReadStop>); 5] = [
        (6, &[], None),
        (7, &[], None),
        (5, &[], Some(ReadStop::TooLarge)),
        (6, &[1], Some(ReadStop::Fault)),
        (6, &[2], Some(ReadStop::Fault)),
    ];
    for (limit, fails, stop) in &table {
        let mut source = MemorySource::new(rt.alloc(), b"abcdef", *fails)?;
        match read_all(rt.alloc(), &mut source, *limit) {
            Ok(bytes) => {
                assert!(rt; stop.is_none());
                assert!(rt; bytes.as_slice() == b"abcdef".as_slice());
            }
            Err(refused) => assert!(rt; *stop == Some(refused)),
        }
    }
    Ok(())
}

#[test]
fn a_sink_in_memory_takes_its_bytes_or_fails(rt: HostRuntime) -> Result<(), std::test::Fail> {
    let mut sink = MemorySink::new(rt.alloc(), &[2])?;
    assert!(rt; write_all(&mut sink, b"ab") == Ok(()));
    assert!(rt; sink.write(b"") == Ok(0));
    assert!(rt; write_all(&mut sink, b"cd") == Err(Failed));
    assert!(rt; write_all(&mut sink, b"ef") == Ok(()));
    assert!(rt; sink.bytes() == b"abef".as_slice());
    Ok(())
}

#[test]
fn what_cannot_be_read_is_a_failed_call(rt: HostRuntime) -> Result<(), std::test::Fail> {
    let mut piece = [0u8; 4];
    for path in &["", "no/such/file", "/"] {
        let mut source = FileSource::new(&rt, rt.alloc(), *path)?;
        assert!(rt; source.read(&mut piece) == Err(Failed));
    }
    let mut empty = FileSource::new(&rt, rt.alloc(), "/dev/null")?;
    assert!(rt; empty.read(&mut piece) == Ok(0));
    Ok(())
}

#[test]
fn words_after_a_skip_are_those_of_the_sequence(rt: HostRuntime) {
    let mut draws = PcgDraws::new();
    draws.begin(1, 0);
    let _first = draws.word();
    let second = draws.word();
    draws.begin(1, 1);
    assert!(rt; draws.word() == second);
    draws.begin(0, 0);
    assert!(rt; draws.word() == PcgDraws::new().word());
}
