//! Records as bytes.

ghost use Rattle.std.specs.Prelude.{◌≡◌, ◌++◌, ◌≤◌, ◌^◌, List, ℕ, length, pos, OnOk, IfOk, IfSome, IfNone};
ghost use Rattle.record_bytes.specs.Spelling.{body_bytes, entry_bytes, kind_of};
ghost use Rattle.record_bytes.specs.Limits.{IsWithin, IsRecordWithin, IsRecord, Spells};
ghost use Rattle.record_bytes.specs.Reading.{Gives, draw_at, reply_at, body_at, entry_at, whole};

use crate::stop::ReadStop;
use crate::texts::{byte_of, path_of, put, put_number, put_path, put_text, text_of, u64_of};
use crate::trees::{data_of, put_node};
use std::alloc::Global;
use turk_base::{Entry, NoMemory, Record, Whole};

const DEEPEST: u32 = 64;

const GREATEST: u64 = 9_007_199_254_740_992;

#[tactic(auto, unfolding(crate::specs::Spelling::body_bytes))]
fn put_body(out: &mut Vec<u8>, what: &Record) -> Result<(), NoMemory>
    requires { IsRecordWithin what.now }
    ensures { OnOk result ((out.new.items ≡ out.old.items ++ body_bytes what.now) × IsRecord what.now) }
{
    match what {
        Record::Post(text) => put_text(out, text),
        Record::Reply(token, text) => {
            put_text(out, token)?;
            put_text(out, text)
        }
        Record::Draw(bound, value) => {
            put_number(out, *bound)?;
            put_number(out, *value)
        }
        Record::Once(data) => put_node(out, data.node(), DEEPEST),
    }
}

fn kind_of(what: &Record) -> u8
    ensures { result ≡ kind_of what.now }
{
    match what {
        Record::Post(_) => 1,
        Record::Reply(_, _) => 2,
        Record::Draw(_, _) => 3,
        Record::Once(_) => 4,
    }
}

/// The one spelling of a record, which is within the limits: 1 to 800 indexes in its path, texts of at most
/// 1,048,576 units, data of a nesting of at most 64 with at most 1,000,000 items in a list, a draw's value
/// from 0 to below its bound, which is at most 2^53.
#[tactic(auto, unfolding(crate::specs::Spelling::entry_bytes))]
pub fn encode(alloc: Global, entry: &Entry) -> Result<Vec<u8>, NoMemory>
    requires { IsWithin entry.now }
    ensures { IfOk result (λ v. Spells v.items entry.now) }
{
    let mut out = Vec::new(alloc);
    put(&mut out, &[kind_of(&entry.what)])?;
    put_path(&mut out, &entry.path)?;
    put_body(&mut out, &entry.what)?;
    Ok(out)
}

/// The record that the bytes spell; None exactly where they are no record's spelling.
pub fn decode(alloc: Global, bytes: &[u8]) -> Result<Option<Entry>, NoMemory>
    ensures some { IfOk result (λ found. IfSome found (λ e. Spells bytes.now e)) }
    ensures none { IfOk result (λ found. IfNone found ((e : _) → Spells bytes.now e → ⊥)) }
{
    match whole_entry(alloc, bytes) {
        Ok(entry) => Ok(Some(entry)),
        Err(ReadStop::Bad) => Ok(None),
        Err(ReadStop::Memory) => Err(NoMemory),
    }
}

// The entry that all of the bytes are.
fn whole_entry(alloc: Global, bytes: &[u8]) -> Result<Entry, ReadStop>
    ensures { Gives (λ e. e) result (whole entry_at bytes.now) }
{
    match entry_of(alloc, bytes) {
        Ok((entry, rest)) => {
            if rest.is_empty() {
                Ok(entry)
            } else {
                Err(ReadStop::Bad)
            }
        }
        Err(stop) => Err(stop),
    }
}

#[tactic(auto, unfolding(crate::specs::Reading::entry_at))]
fn entry_of(alloc: Global, bytes: &[u8]) -> Result<(Entry, &[u8]), ReadStop>
    ensures { Gives (λ x. (x.0, x.1.now)) result (entry_at bytes.now) }
{
    let (kind, rest) = byte_of(bytes)?;
    match path_of(alloc, rest) {
        Ok((path, rest)) => match body_of(alloc, kind, rest) {
            Ok((what, rest)) => Ok((Entry { path, what }, rest)),
            Err(stop) => Err(stop),
        },
        Err(stop) => Err(stop),
    }
}

fn body_of(alloc: Global, kind: u8, bytes: &[u8]) -> Result<(Record, &[u8]), ReadStop>
    ensures { Gives (λ x. (x.0, x.1.now)) result (body_at kind bytes.now) }
{
    match kind {
        1 => match text_of(alloc, bytes) {
            Ok((text, rest)) => Ok((Record::Post(text), rest)),
            Err(stop) => Err(stop),
        },
        2 => reply_of(alloc, bytes),
        3 => draw_of(bytes),
        4 => match data_of(alloc, bytes, DEEPEST) {
            Ok((data, rest)) => Ok((Record::Once(data), rest)),
            Err(stop) => Err(stop),
        },
        _ => Err(ReadStop::Bad),
    }
}

#[tactic(auto, unfolding(crate::specs::Reading::reply_at))]
fn reply_of(alloc: Global, bytes: &[u8]) -> Result<(Record, &[u8]), ReadStop>
    ensures { Gives (λ x. (x.0, x.1.now)) result (reply_at bytes.now) }
{
    match text_of(alloc, bytes) {
        Ok((token, rest)) => match text_of(alloc, rest) {
            Ok((text, rest)) => Ok((Record::Reply(token, text), rest)),
            Err(stop) => Err(stop),
        },
        Err(stop) => Err(stop),
    }
}

#[tactic(auto, unfolding(crate::specs::Reading::draw_at))]
fn draw_of(bytes: &[u8]) -> Result<(Record, &[u8]), ReadStop>
    ensures { Gives (λ x. (x.0, x.1.now)) result (draw_at bytes.now) }
{
    let (bound, rest) = u64_of(bytes)?;
    let (value, rest) = u64_of(rest)?;
    if value >= bound {
        return Err(ReadStop::Bad);
    }
    if bound > GREATEST {
        return Err(ReadStop::Bad);
    }
    Ok((Record::Draw(whole_under(bound), whole_under(value)), rest))
}

fn whole_under(number: u64) -> Whole
    requires { number ≤ 2 ^ 53 }
    ensures { result ≡ pos number }
{
    Whole::make(number as i64)
}
