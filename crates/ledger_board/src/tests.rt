//! Posts on a ledger over a disk in memory.
ghost use Rattle.std.specs.Prelude.{length, ◌≤◌};

use crate::{LedgerBoard, LedgerCause};
use board_model::{Board, BoardStop, Posted};
use disk_model::MemoryDisk;
use std::alloc::Global;
use std::test::Fail;
use turk_base::Units;

// What a board answers: None for a new task, or the kept text.
fn post<B: Board>(
    alloc: Global,
    board: &mut B,
    token: &[u8],
    text: &[u8],
) -> Result<Option<Vec<u16>>, BoardStop>
    requires token { length token.now ≤ 1048576 }
    requires text { length text.now ≤ 1048576 }
{
    let Ok(token) = Units::from_bytes(alloc, token) else {
        return Err(BoardStop::Memory);
    };
    let Ok(text) = Units::from_bytes(alloc, text) else {
        return Err(BoardStop::Memory);
    };
    match board.post(&token, &text) {
        Ok(Posted::New) => Ok(None),
        Ok(Posted::Held(kept)) => Ok(Some(kept.into_vec())),
        Err(stop) => Err(stop),
    }
}

#[test]
fn tasks_are_held_once(rt: HostRuntime) -> Result<(), Fail> {
    let file = b"\xa5\0\0\0\x1c\0\0\0\x03\0s\0/\00\0\0\0\x07\0c\0o\0l\0o\0u\0r\0?\0";
    let colour = vec![in rt.alloc(); 99_u16, 111, 108, 111, 117, 114, 63]?;
    let mut board = LedgerBoard::new(rt.alloc(), MemoryDisk::new(rt.alloc(), b"")?);
    assert_eq!(rt; post(rt.alloc(), &mut board, b"s/0", b"colour?"), Ok(None));
    assert_eq!(rt; board.cause(), None);
    let disk = board.into_disk();
    assert_eq!(rt; disk.bytes(), &file[..]);
    let mut board = LedgerBoard::new(rt.alloc(), disk);
    assert!(rt; post(rt.alloc(), &mut board, b"s/0", b"colour?") == Ok(Some(colour.clone()?)));
    assert!(rt; post(rt.alloc(), &mut board, b"s/0", b"size?") == Ok(Some(colour)));
    assert_eq!(rt; board.into_disk().bytes(), &file[..]);
    Ok(())
}

#[test]
fn a_fault_closes_the_board(rt: HostRuntime) -> Result<(), Fail> {
    let mut disk = MemoryDisk::new(rt.alloc(), b"")?;
    disk.fail_calls(&[1])?;
    let mut board = LedgerBoard::new(rt.alloc(), disk);
    assert_eq!(rt; board.cause(), None);
    assert_eq!(rt;
        post(rt.alloc(), &mut board, b"s/0", b"colour?"),
        Err(BoardStop::Failed)
    );
    assert_eq!(rt; board.cause(), Some(LedgerCause::Disk));
    assert_eq!(rt;
        post(rt.alloc(), &mut board, b"s/0", b"colour?"),
        Err(BoardStop::Failed)
    );
    assert_eq!(rt; board.cause(), Some(LedgerCause::Closed));
    Ok(())
}

// The cause of the first post on a file of these bytes.
fn first_cause(alloc: Global, file: &[u8]) -> Result<Option<LedgerCause>, Fail> {
    let mut board = LedgerBoard::new(alloc, MemoryDisk::new(alloc, file)?);
    let _answer = post(alloc, &mut board, b"s/0", b"colour?");
    Ok(board.cause())
}

#[test]
fn files_that_are_no_ledger(rt: HostRuntime) -> Result<(), Fail> {
    let broken = first_cause(rt.alloc(), b"\xa5\xff\xff\xff\xff")?;
    assert_eq!(rt; broken, Some(LedgerCause::Broken(0)));
    let no_task = first_cause(rt.alloc(), b"\xa5\0\0\0\0\0")?;
    assert_eq!(rt; no_task, Some(LedgerCause::BadTask(0)));
    // Two tasks with the empty token, both without a text.
    let again = first_cause(
        rt.alloc(),
        b"\xa5\0\0\0\x08\0\0\0\0\0\0\0\0\xa5\0\0\0\x08\0\0\0\0\0\0\0\0\0",
    )?;
    assert_eq!(rt; again, Some(LedgerCause::BadTask(1)));
    assert_eq!(rt; first_cause(rt.alloc(), b"\0\xff")?, None);
    Ok(())
}
