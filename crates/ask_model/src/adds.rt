//! One record more in a table.
ghost use Rattle.std.specs.Prelude.{◌≡◌, ◌+◌, ◌≤◌, ◌<◌, ◌≤ℤ◌, ℕ, pos, int_rem, Some, None, length, IfOk, IfErr, OnOk};
ghost use Rattle.turk_base.specs.declared.Record.TheVariants.{Post, Reply, Once};
ghost use Rattle.record_bytes.specs.Limits.{IsDraw};
ghost use Rattle.ask_model.specs.Asker.{entry, stop_of};
ghost use Rattle.ask_model.specs.Table.{Added, IsFull, Drew};

use crate::AskStop;
use crate::made::Made;
use outside::Draws;
use std::alloc::Global;
use turk_base::{Data, Entry, NoMemory, Path, Record, Units, Whole};

/// The most records that a trace holds.
const MOST_RECORDS: usize = 65_536;

// Makes room for one record more.
fn make_room(traced: usize, made: &mut Made) -> Result<(), AskStop>
    requires few { traced + length made.old.items ≤ 65536 }
    ensures items { made.new.items ≡ made.old.items }
    ensures ok { OnOk result (traced + length made.old.items < 65536) }
    ensures room { OnOk result (0 < made.new.room) }
    ensures err { IfErr result (λ stop. IsFull traced made.old.items stop) }
{
    if traced + made.len() >= MOST_RECORDS {
        return Err(AskStop::TraceFull);
    }
    match made.make_room() {
        Ok(()) => Ok(()),
        Err(_) => Err(AskStop::Memory),
    }
}

// Adds an entry.
fn add(traced: usize, made: &mut Made, what: Entry) -> Result<(), AskStop>
    requires few { traced + length made.old.items ≤ 65536 }
    ensures { Added traced what made.old.items made.new.items (stop_of result) }
{
    match make_room(traced, made) {
        Ok(()) => {
            made.push_reserved(what);
            Ok(())
        }
        Err(stop) => Err(stop),
    }
}

pub fn entry_of(alloc: Global, path: &Path, what: Record) -> Result<Entry, NoMemory>
    ensures { IfOk result (λ e. e ≡ entry path.now what) }
{
    let path = path.copy(alloc)?;
    Ok(Entry { path, what })
}

// Adds a record at a path.
fn add_record(
    alloc: Global,
    traced: usize,
    made: &mut Made,
    path: &Path,
    what: Record,
) -> Result<(), AskStop>
    requires few { traced + length made.old.items ≤ 65536 }
    ensures { Added traced (entry path.now what) made.old.items made.new.items (stop_of result) }
{
    match entry_of(alloc, path, what) {
        Ok(what) => add(traced, made, what),
        Err(_) => Err(AskStop::Memory),
    }
}

/// Adds the record of a post.
pub fn add_post(
    alloc: Global,
    traced: usize,
    made: &mut Made,
    path: &Path,
    text: &Units,
) -> Result<(), AskStop>
    requires few { traced + length made.old.items ≤ 65536 }
    ensures { Added traced (entry path.now (Post text.now)) made.old.items made.new.items (stop_of result) }
{
    match text.copy(alloc) {
        Ok(text) => add_record(alloc, traced, made, path, Record::Post(text)),
        Err(_) => Err(AskStop::Memory),
    }
}

/// Adds the record of a once call.
pub fn add_once(
    alloc: Global,
    traced: usize,
    made: &mut Made,
    path: &Path,
    value: &Data,
) -> Result<(), AskStop>
    requires few { traced + length made.old.items ≤ 65536 }
    ensures { Added traced (entry path.now (Once value.now)) made.old.items made.new.items (stop_of result) }
{
    match value.copy(alloc) {
        Ok(value) => add_record(alloc, traced, made, path, Record::Once(value)),
        Err(_) => Err(AskStop::Memory),
    }
}

pub fn reply_of(alloc: Global, token: &Units, text: &Units) -> Result<Record, NoMemory>
    ensures { IfOk result (λ r. r ≡ Reply token.now text.now) }
{
    let token = token.copy(alloc)?;
    let text = text.copy(alloc)?;
    Ok(Record::Reply(token, text))
}

/// Adds the record of a reply, and gives its text.
pub fn add_reply(
    alloc: Global,
    traced: usize,
    made: &mut Made,
    path: &Path,
    token: &Units,
    text: &Units,
) -> Result<Units, AskStop>
    requires few { traced + length made.old.items ≤ 65536 }
    ensures text { IfOk result (λ answer. answer ≡ text.now) }
    ensures added { Added traced (entry path.now (Reply token.now text.now)) made.old.items made.new.items (stop_of result) }
{
    let Ok(answer) = text.copy(alloc) else {
        return Err(AskStop::Memory);
    };
    let Ok(what) = reply_of(alloc, token, text) else {
        return Err(AskStop::Memory);
    };
    match add_record(alloc, traced, made, path, what) {
        Ok(()) => Ok(answer),
        Err(stop) => Err(stop),
    }
}

// The next word modulo the bound.
pub fn word_below<W: Draws>(draws: &mut W, bound: Whole) -> Whole
    requires { pos 1 ≤ℤ bound }
    ensures value { result ≡ int_rem (pos (W.rest draws.old 0)) bound }
    ensures small { IsDraw bound result }
    ensures moves { (k : ℕ) → W.rest draws.new k ≡ W.rest draws.old (1 + k) }
{
    let bound = bound.get() as u64;
    Whole::make((draws.word() % bound) as i64)
}

/// Adds the record of a draw, the next word modulo the bound, and gives its value. A refused call takes
/// no word.
pub fn add_draw<W: Draws>(
    alloc: Global,
    traced: usize,
    made: &mut Made,
    draws: &mut W,
    path: &Path,
    bound: Whole,
) -> Result<Whole, AskStop>
    requires few { traced + length made.old.items ≤ 65536 }
    requires bound { pos 1 ≤ℤ bound }
    ensures { Drew W.rest traced path.now bound draws.old draws.new made.old.items made.new.items result }
{
    let Ok(path) = path.copy(alloc) else {
        return Err(AskStop::Memory);
    };
    match make_room(traced, made) {
        Ok(()) => {
            let value = word_below(draws, bound);
            made.push_reserved(Entry {
                path,
                what: Record::Draw(bound, value),
            });
            Ok(value)
        }
        Err(stop) => Err(stop),
    }
}
