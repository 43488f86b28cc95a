//! A board of tasks in a file.
ghost use Rattle.std.specs.Prelude.{◌≡◌, ◌↔◌, ◌≤◌, ℕ, List, length, false, true, None, Some, Ok, Err, IsOk, IsSome, IfOk, IfSome, IsErrOf, OnOk};
ghost use Rattle.board_model.specs.Board.{HasCause, IsHonest};
ghost use Rattle.board_model.specs.Tokens.{HasDistinctTokens};
ghost use Rattle.disk_model.specs.Disk.{Rose};
ghost use Rattle.ledger_board.specs.Tasks.{ledger_tasks, IsLedger};
ghost use Rattle.gate_log.specs.GateLog.{entries_of};
ghost use Rattle.ledger_board.specs.Stops.{IsAnswer, IsCaused, IsPosted, IsTaken, IsCauseOf, Leaves, closed_after};
ghost use Rattle.ledger_board.specs.Board.{IsOpen, IsSound, is_opened, is_shut, one_more, board_answer, cause_after};

use crate::LedgerCause;
use crate::ledger::{Ledger, open_ledger};
use crate::stop::{LedgerStop, is_fault};
use board_model::{Board, BoardStop, Posted};
use disk_model::Disk;
use std::alloc::Global;
use std::marker::Model;
use std::mem;
use turk_base::Units;

/// How far a board is: before its first post, with its log open, or after its disk failed.
#[derive(Drop)]
pub enum State {
    Unopened,
    Opened(Ledger),
    Shut,
}

// A post at an open log.
fn post_open<D: Disk>(
    alloc: Global,
    disk: &mut D,
    mut ledger: Ledger,
    token: &Units,
    text: &Units,
) -> (State, Result<Posted, LedgerStop>)
    requires token { length token.now ≤ 1048576 }
    requires text { length text.now ≤ 1048576 }
    requires open { IsOpen D.tells (D.bytes disk.old) (D.left_since disk.old (D.moment disk.old)) ledger }
    ensures sound { IsSound D.tells (D.bytes disk.new) (D.left_since disk.new (D.moment disk.new)) result.0 }
    ensures closed { is_shut result.0 ≡ closed_after false (cause_after result.1) }
    ensures opened { is_shut result.0 ≡ false → is_opened result.0 ≡ true }
    ensures answers { IsAnswer (entries_of ledger.log) ledger.tasks.items token.now text.now result.1 }
    ensures tasks { D.tells → Leaves token.now text.now (ledger_tasks (D.bytes disk.old)) (ledger_tasks (D.bytes disk.new)) result.1 }
    ensures cause { IsCaused (D.faults disk.old) (D.faults disk.new) result.1 }
{
    match ledger.post(alloc, disk, token, text) {
        Ok(posted) => (State::Opened(ledger), Ok(posted)),
        Err(stop) => {
            if is_fault(&stop) {
                (State::Shut, Err(stop))
            } else {
                (State::Opened(ledger), Err(stop))
            }
        }
    }
}

// The first post, which opens the log.
#[tactic(auto, using(crate::proofs::Outcomes::posted_refused, crate::proofs::Outcomes::leaves_same, crate::proofs::Outcomes::not_closed))]
fn post_first<D: Disk>(
    alloc: Global,
    disk: &mut D,
    token: &Units,
    text: &Units,
) -> (State, Result<Posted, LedgerStop>)
    requires token { length token.now ≤ 1048576 }
    requires text { length text.now ≤ 1048576 }
    ensures sound { IsSound D.tells (D.bytes disk.new) (D.left_since disk.new (D.moment disk.new)) result.0 }
    ensures closed { is_shut result.0 ≡ closed_after false (cause_after result.1) }
    ensures opened { OnOk result.1 (is_opened result.0 ≡ true) }
    ensures posted { IsPosted D.tells false false (D.bytes disk.old) token.now text.now result.1 }
    ensures tasks { D.tells → Leaves token.now text.now (ledger_tasks (D.bytes disk.old)) (ledger_tasks (D.bytes disk.new)) result.1 }
    ensures cause { IsCaused (D.faults disk.old) (D.faults disk.new) result.1 }
{
    match open_ledger(alloc, disk) {
        Ok(ledger) => post_open(alloc, disk, ledger, token, text),
        Err(stop) => {
            if is_fault(&stop) {
                (State::Shut, Err(stop))
            } else {
                (State::Unopened, Err(stop))
            }
        }
    }
}

// A post, by how far the board is.
fn advance<D: Disk>(
    alloc: Global,
    disk: &mut D,
    state: State,
    token: &Units,
    text: &Units,
) -> (State, Result<Posted, LedgerStop>)
    requires token { length token.now ≤ 1048576 }
    requires text { length text.now ≤ 1048576 }
    requires sound { IsSound D.tells (D.bytes disk.old) (D.left_since disk.old (D.moment disk.old)) state }
    ensures sound { IsSound D.tells (D.bytes disk.new) (D.left_since disk.new (D.moment disk.new)) result.0 }
    ensures closed { is_shut result.0 ≡ closed_after (is_shut state) (cause_after result.1) }
    ensures opened { OnOk result.1 (is_opened result.0 ≡ true) }
    ensures stays_open { is_opened state ≡ true → is_shut result.0 ≡ false → is_opened result.0 ≡ true }
    ensures posted { IsPosted D.tells (is_opened state) (is_shut state) (D.bytes disk.old) token.now text.now result.1 }
    ensures tasks { D.tells → Leaves token.now text.now (ledger_tasks (D.bytes disk.old)) (ledger_tasks (D.bytes disk.new)) result.1 }
    ensures cause { IsCaused (D.faults disk.old) (D.faults disk.new) result.1 }
    ensures shut { is_shut state ≡ true → (result.1 ≡ Err (LedgerStop.Cause LedgerCause.Closed)) × (disk.new ≡ disk.old) }
{
    match state {
        State::Unopened => post_first(alloc, disk, token, text),
        State::Opened(ledger) => post_open(alloc, disk, ledger, token, text),
        State::Shut => (State::Shut, Err(LedgerStop::Cause(LedgerCause::Closed))),
    }
}

/// A board whose tasks are the entries of a log on a disk, which it opens at the first post.
///
/// It is honest where its disk tells its bytes, and its tasks are those of these bytes at each moment.
#[derive(Drop)]
pub struct LedgerBoard<D: Disk> {
    alloc: Global,
    disk: D,
    state: State,
    cause: Option<LedgerCause>,
    faults: u64,
}

impl<D: Disk> Model for LedgerBoard<D> {
    ghost use Rattle.ledger_board.specs.Board.{Kept, IsSound, is_opened, is_shut};

    ghost Value = { Kept D };

    ghost view = { λ b. record { disk = b.disk; is_open = is_opened b.state; is_closed = is_shut b.state; cause = b.cause; faults = b.faults } };

    ghost invariant = { λ b. IsSound D.tells (D.bytes b.disk) (D.left_since b.disk (D.moment b.disk)) b.state };
}

impl<D: Disk> LedgerBoard<D> {
    /// A board over a disk. It makes no call of the disk.
    pub fn new(alloc: Global, disk: D) -> LedgerBoard<D>
        ensures disk { result.disk ≡ disk }
        ensures unopened { result.is_open ≡ false }
        ensures closed { result.is_closed ≡ false }
        ensures cause { result.cause ≡ None }
        ensures faults { result.faults ≡ 0 }
    {
        LedgerBoard {
            alloc,
            disk,
            state: State::Unopened,
            cause: None,
            faults: 0,
        }
    }

    /// Why the last post failed. None exactly where no post was made, or the last one didn't fail.
    pub fn cause(&self) -> Option<LedgerCause>
        ensures { result ≡ self.now.cause }
    {
        self.cause
    }

    /// Its disk, with the board gone.
    pub fn into_disk(self) -> D
        ensures { result ≡ self.disk }
    {
        let LedgerBoard { disk, .. } = self;
        disk
    }

    // Keeps the cause of an answer, and counts a failure.
    fn answered(&mut self, answer: Result<Posted, LedgerStop>) -> Result<Posted, BoardStop>
        ensures result { result ≡ board_answer answer }
        ensures cause { self.new.cause ≡ cause_after answer }
        ensures disk { self.new.disk ≡ self.old.disk }
        ensures opened { self.new.is_open ≡ self.old.is_open }
        ensures closed { self.new.is_closed ≡ self.old.is_closed }
        ensures counted { IsErrOf result BoardStop.Failed → self.new.faults ≡ one_more self.old.faults }
        ensures still { (IsErrOf result BoardStop.Failed → ⊥) → self.new.faults ≡ self.old.faults }
    {
        match answer {
            Ok(posted) => {
                self.cause = None;
                Ok(posted)
            }
            Err(LedgerStop::Memory) => {
                self.cause = None;
                Err(BoardStop::Memory)
            }
            Err(LedgerStop::Cause(cause)) => {
                self.cause = Some(cause);
                self.faults = self.faults.saturating_add(1);
                Err(BoardStop::Failed)
            }
        }
    }
}

impl<D: Disk> Board for LedgerBoard<D> {
    ghost tells = { D.tells };

    ghost tasks = { λ b. ledger_tasks (D.bytes b.disk) };

    ghost faults = { λ b. b.faults };

    /// Posts a task. The first post opens the log.
    ///
    /// It fails exactly with a cause. Disk only where the disk's count of faults rose; Broken, BadTask and Full exactly
    /// by the bytes; Closed exactly after an earlier cause Disk. Memory is refused before the disk is written.
    fn post(&mut self, token: &Units, text: &Units) -> Result<Posted, BoardStop>
        requires token { length token.now ≤ 1048576 }
        requires text { length text.now ≤ 1048576 }
        ensures distinct { D.tells → HasDistinctTokens (ledger_tasks (D.bytes self.new.disk)) }
        ensures honest { D.tells → IsHonest token.now text.now (ledger_tasks (D.bytes self.old.disk)) (ledger_tasks (D.bytes self.new.disk)) result }
        ensures cause { HasCause self.old.faults self.new.faults result }
        ensures counted { IsErrOf result BoardStop.Failed → self.new.faults ≡ one_more self.old.faults }
        ensures still { (IsErrOf result BoardStop.Failed → ⊥) → self.new.faults ≡ self.old.faults }
        ensures caused { IsErrOf result BoardStop.Failed ↔ IsSome self.new.cause }
        ensures why { IfSome self.new.cause (IsCauseOf D.tells self.old.is_open self.old.is_closed (D.bytes self.old.disk) token.now text.now) }
        ensures taken { IfOk result (IsTaken D.tells self.old.is_open self.old.is_closed (D.bytes self.old.disk) token.now text.now) }
        ensures fault { self.new.cause ≡ Some LedgerCause.Disk → Rose (D.faults self.old.disk) (D.faults self.new.disk) }
        ensures later { D.faults self.old.disk ≤ D.faults self.new.disk }
        ensures opened { OnOk result (self.new.is_open ≡ true) }
        ensures stays_open { self.old.is_open ≡ true → self.new.is_closed ≡ false → self.new.is_open ≡ true }
        ensures closed { self.new.is_closed ≡ closed_after self.old.is_closed self.new.cause }
        ensures shut { self.old.is_closed ≡ true → (self.new.cause ≡ Some LedgerCause.Closed) × (self.new.disk ≡ self.old.disk) }
        ensures log { D.tells → OnOk result (IsLedger (D.bytes self.new.disk) (ledger_tasks (D.bytes self.new.disk))) }
    {
        let was = mem::replace(&mut self.state, State::Shut);
        let (state, answer) = advance(self.alloc, &mut self.disk, was, token, text);
        self.state = state;
        self.answered(answer)
    }
}
