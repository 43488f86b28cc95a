//! A log of tasks with its tasks, and a post at it.
ghost use Rattle.std.specs.Prelude.{◌≡◌, ◌⊎◌, ◌+◌, ◌≤◌, ◌<◌, ℕ, List, length, take, false, None, IfOk, OnOk, IfErr, IsErrOf, MatchResult};
ghost use Rattle.std.specs.Option.{option_copied};
ghost use Rattle.turk_base.specs.Trace.{answer};
ghost use Rattle.board_model.specs.Tokens.{HasDistinctTokens};
ghost use Rattle.gate_log.specs.Log.{IsLog};
ghost use Rattle.gate_log.specs.GateLog.{entries_of, is_closed_of};
ghost use Rattle.record_bytes.specs.Limits.{SpellsTask};
ghost use Rattle.ledger_board.specs.Tasks.{AreTasks, IsNoTask, IsBadTask, ledger_tasks};
ghost use Rattle.ledger_board.specs.Stops.{IsAnswer, IsCaused, IsRefusal, Leaves};
ghost use Rattle.ledger_board.specs.Board.{IsOpen};

use crate::LedgerCause;
use crate::stop::{LedgerStop, stop_of};
use board_model::Posted;
use disk_model::Disk;
use gate_log::{GateLog, open_log};
use record_bytes::{decode_task, encode_task};
use std::alloc::Global;
use turk_base::Units;

/// A log whose entries are tasks, with these tasks.
#[derive(Drop)]
pub struct Ledger {
    pub log: GateLog,
    pub tasks: Vec<(Units, Units)>,
}

// The text that is kept for a token.
fn kept_in<'a>(tasks: &'a [(Units, Units)], token: &Units) -> Option<&'a Units>
    ensures { option_copied result ≡ answer tasks.now token.now }
{
    for task in tasks {
        if task.0 == *token {
            return Some(&task.1);
        }
    }
    None
}

// The task that an entry is, where no earlier one has its token.
fn task_at(
    alloc: Global,
    tasks: &[(Units, Units)],
    entry: &[u8],
    i: u32,
) -> Result<(Units, Units), LedgerStop>
    ensures ok { IfOk result (λ t. SpellsTask entry.now t.0 t.1 × (answer tasks.now t.0 ≡ None)) }
    ensures bad { IfErr result (λ e. (e ≡ LedgerStop.Memory) ⊎ ((e ≡ LedgerStop.Cause (LedgerCause.BadTask i)) × IsNoTask tasks.now entry.now)) }
{
    match decode_task(alloc, entry) {
        Ok(Some(task)) => match kept_in(tasks, &task.0) {
            Some(_) => Err(LedgerStop::Cause(LedgerCause::BadTask(i))),
            None => Ok(task),
        },
        Ok(None) => Err(LedgerStop::Cause(LedgerCause::BadTask(i))),
        Err(_) => Err(LedgerStop::Memory),
    }
}

// Reads the task of one entry more.
fn read_next(
    alloc: Global,
    log: &GateLog,
    tasks: &mut Vec<(Units, Units)>,
    i: usize,
) -> Result<(), LedgerStop>
    requires inside { i < length (entries_of log.now) }
    requires spelled { AreTasks (take i (entries_of log.now)) tasks.old.items }
    requires distinct { HasDistinctTokens tasks.old.items }
    ensures spelled { OnOk result (AreTasks (take (i + 1) (entries_of log.now)) tasks.new.items) }
    ensures distinct { OnOk result (HasDistinctTokens tasks.new.items) }
    ensures bad { IfErr result (λ e. (e ≡ LedgerStop.Memory) ⊎ ((at : ℕ) × (e ≡ LedgerStop.Cause (LedgerCause.BadTask at)) × IsBadTask (entries_of log.now) at)) }
{
    let Some(entry) = log.entry(i) else {
        return Ok(());
    };
    let task = match task_at(alloc, tasks, entry, i as u32) {
        Ok(task) => task,
        Err(stop) => return Err(stop),
    };
    if tasks.reserve(1).is_err() {
        return Err(LedgerStop::Memory);
    }
    tasks.push_reserved(task);
    Ok(())
}

// The tasks that a log's entries are.
fn tasks_of(alloc: Global, log: &GateLog) -> Result<Vec<(Units, Units)>, LedgerStop>
    ensures spelled { IfOk result (λ ts. AreTasks (entries_of log.now) ts.items) }
    ensures distinct { IfOk result (λ ts. HasDistinctTokens ts.items) }
    ensures bad { IfErr result (λ e. (e ≡ LedgerStop.Memory) ⊎ ((at : ℕ) × (e ≡ LedgerStop.Cause (LedgerCause.BadTask at)) × IsBadTask (entries_of log.now) at)) }
{
    let mut tasks = Vec::new(alloc);
    for i in 0..log.count() {
        match read_next(alloc, log, &mut tasks, i) {
            Ok(()) => {}
            Err(stop) => return Err(stop),
        }
    }
    Ok(tasks)
}

// Opens the log of a disk, whose entries must be tasks.
pub fn open_ledger<D: Disk>(alloc: Global, disk: &mut D) -> Result<Ledger, LedgerStop>
    ensures log { D.tells → IfOk result (λ l. IsLog (D.bytes disk.old) (entries_of l.log)) }
    ensures open { IfOk result (λ l. IsOpen D.tells (D.bytes disk.new) (D.left_since disk.new (D.moment disk.new)) l) }
    ensures small { D.tells → OnOk result (length (D.bytes disk.old) ≤ 67108864) }
    ensures refusals { IfErr result (λ e. IsRefusal D.tells (D.bytes disk.old) e) }
    ensures tasks { D.tells → ledger_tasks (D.bytes disk.new) ≡ ledger_tasks (D.bytes disk.old) }
    ensures cause { IsCaused (D.faults disk.old) (D.faults disk.new) result }
{
    let log = match open_log(alloc, disk) {
        Ok(log) => log,
        Err(stop) => return Err(stop_of(stop)),
    };
    match tasks_of(alloc, &log) {
        Ok(tasks) => Ok(Ledger { log, tasks }),
        Err(stop) => Err(stop),
    }
}

fn copies(alloc: Global, token: &Units, text: &Units) -> Result<(Units, Units), LedgerStop>
    ensures { MatchResult result (λ task. task ≡ (token.now, text.now)) (λ stop. stop ≡ LedgerStop.Memory) }
{
    let Ok(token) = token.copy(alloc) else {
        return Err(LedgerStop::Memory);
    };
    match text.copy(alloc) {
        Ok(text) => Ok((token, text)),
        Err(_) => Err(LedgerStop::Memory),
    }
}

impl Ledger {
    // Adds a task whose token is missing. All memory is taken before the disk is touched.
    fn add<D: Disk>(
        &mut self,
        alloc: Global,
        disk: &mut D,
        token: &Units,
        text: &Units,
    ) -> Result<Posted, LedgerStop>
        requires token { length token.now ≤ 1048576 }
        requires text { length text.now ≤ 1048576 }
        requires missing { answer self.old.tasks.items token.now ≡ None }
        requires open { IsOpen D.tells (D.bytes disk.old) (D.left_since disk.old (D.moment disk.old)) self.old }
        ensures answers { IsAnswer (entries_of self.old.log) self.old.tasks.items token.now text.now result }
        ensures tasks { D.tells → Leaves token.now text.now (ledger_tasks (D.bytes disk.old)) (ledger_tasks (D.bytes disk.new)) result }
        ensures open { (IsErrOf result (LedgerStop.Cause LedgerCause.Disk) → ⊥) → IsOpen D.tells (D.bytes disk.new) (D.left_since disk.new (D.moment disk.new)) self.new }
        ensures cause { IsCaused (D.faults disk.old) (D.faults disk.new) result }
    {
        let task = copies(alloc, token, text)?;
        let Ok(entry) = encode_task(alloc, token, text) else {
            return Err(LedgerStop::Memory);
        };
        if self.tasks.reserve(1).is_err() {
            return Err(LedgerStop::Memory);
        }
        match self.log.append(disk, &entry) {
            Ok(()) => {
                self.tasks.push_reserved(task);
                Ok(Posted::New)
            }
            Err(stop) => Err(stop_of(stop)),
        }
    }

    // Posts a task at an open log.
    pub fn post<D: Disk>(
        &mut self,
        alloc: Global,
        disk: &mut D,
        token: &Units,
        text: &Units,
    ) -> Result<Posted, LedgerStop>
        requires token { length token.now ≤ 1048576 }
        requires text { length text.now ≤ 1048576 }
        requires open { IsOpen D.tells (D.bytes disk.old) (D.left_since disk.old (D.moment disk.old)) self.old }
        ensures answers { IsAnswer (entries_of self.old.log) self.old.tasks.items token.now text.now result }
        ensures tasks { D.tells → Leaves token.now text.now (ledger_tasks (D.bytes disk.old)) (ledger_tasks (D.bytes disk.new)) result }
        ensures open { (IsErrOf result (LedgerStop.Cause LedgerCause.Disk) → ⊥) → IsOpen D.tells (D.bytes disk.new) (D.left_since disk.new (D.moment disk.new)) self.new }
        ensures cause { IsCaused (D.faults disk.old) (D.faults disk.new) result }
    {
        match kept_in(&self.tasks, token) {
            Some(kept) => match kept.copy(alloc) {
                Ok(kept) => Ok(Posted::Held(kept)),
                Err(_) => Err(LedgerStop::Memory),
            },
            None => self.add(alloc, disk, token, text),
        }
    }
}
