//! Posts on a board in memory, through its trait.
ghost use Rattle.std.specs.Prelude.{length, ◌≤◌};

use crate::{Board, BoardStop, MemoryBoard, Posted};
use std::alloc::Global;
use std::test::Fail;
use turk_base::Units;

// What a board answers: None for a new task, or the kept text.
fn post<B: Board>(
    alloc: Global,
    board: &mut B,
    token: &[u8],
    text: &[u8],
) -> Result<Option<Vec<u16>>, BoardStop>
    requires token { length token.now ≤ 1048576 }
    requires text { length text.now ≤ 1048576 }
{
    let Ok(token) = Units::from_bytes(alloc, token) else {
        return Err(BoardStop::Memory);
    };
    let Ok(text) = Units::from_bytes(alloc, text) else {
        return Err(BoardStop::Memory);
    };
    match board.post(&token, &text) {
        Ok(Posted::New) => Ok(None),
        Ok(Posted::Held(kept)) => Ok(Some(kept.into_vec())),
        Err(stop) => Err(stop),
    }
}

#[test]
fn tasks_are_held_once(rt: HostRuntime) -> Result<(), Fail> {
    let colour = vec![in rt.alloc(); 99_u16, 111, 108, 111, 117, 114, 63]?;
    let mut board = MemoryBoard::new(rt.alloc(), &[4])?;
    assert_eq!(rt; board.tasks().len(), 0);
    assert_eq!(rt; post(rt.alloc(), &mut board, b"s/0", b"colour?"), Ok(None));
    assert_eq!(rt;
        post(rt.alloc(), &mut board, b"s/0", b"size?"),
        Ok(Some(colour))
    );
    assert_eq!(rt; post(rt.alloc(), &mut board, b"s/1", b"size?"), Ok(None));
    assert_eq!(rt; board.tasks().len(), 2);
    assert_eq!(rt;
        post(rt.alloc(), &mut board, b"s/2", b""),
        Err(BoardStop::Failed)
    );
    assert_eq!(rt; board.tasks().len(), 2);
    assert_eq!(rt; post(rt.alloc(), &mut board, b"s/2", b""), Ok(None));
    assert_eq!(rt; board.tasks().len(), 3);
    Ok(())
}
