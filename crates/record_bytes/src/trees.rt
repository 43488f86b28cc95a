//! Plain data as bytes.

ghost use Rattle.std.specs.Prelude.{◌≡◌, ◌<◌, ◌≤◌, ◌+◌, ◌^◌, ◌++◌, ℕ, List, Some, length, map, nat_eq, OnOk};
ghost use Rattle.std.specs.List.{list_any};
ghost use Rattle.turk_base.specs.Data.{nesting, nesting_items, nesting_fields, items_of, fields_of};
ghost use Rattle.record_bytes.specs.Spelling.{data_bytes, items_bytes, fields_bytes, count_items, count_fields, truth_tag};
ghost use Rattle.record_bytes.specs.Limits.{IsDataWithin, AreItemsWithin, AreFieldsWithin, IsData, AreItems, AreFields};
ghost use Rattle.record_bytes.specs.Reading.{Gives, data_at, items_at, fields_at, list_with, fields_with, field_at, parts_at, tagged_at, are_distinct};
ghost use Rattle.turk_base.specs.Node.{data_of, HasDistinctKeys};
ghost use Rattle.std.specs.Cmp.Lexicographic.{pointwise};

use crate::stop::ReadStop;
use crate::texts::{byte_of, put, put_number, put_text, text_of, u32_of, whole_of};
use std::alloc::Global;
use turk_base::{Data, NoMemory, Node, Units};

const MOST_ITEMS: u32 = 1_000_000;

// Adds data of one node at the end; `left` is a bound on its nesting.
#[cycle(putting)]
#[tactic(auto, unfolding(crate::specs::Spelling::data_bytes, crate::specs::Limits::IsDataWithin, crate::specs::Limits::IsData, turk_base::specs::Data::nesting))]
pub(crate) fn put_node(out: &mut Vec<u8>, node: &Node, left: u32) -> Result<(), NoMemory>
    requires within { IsDataWithin (data_of node.now) }
    requires deep { nesting (data_of node.now) ≤ left }
    requires keys { HasDistinctKeys node.now }
    ensures { OnOk result ((out.new.items ≡ out.old.items ++ data_bytes (data_of node.now)) × IsData (data_of node.now)) }
{
    match node {
        Node::Undefined => put(out, &[0]),
        Node::Null => put(out, &[1]),
        Node::Truth(truth) => put(out, &[truth_tag(*truth)]),
        Node::Number(number) => {
            put(out, &[4])?;
            put_number(out, *number)
        }
        Node::Text(text) => {
            put(out, &[5])?;
            put_text(out, text)
        }
        Node::List(items) => {
            put(out, &[6])?;
            put(out, &(items.len() as u32).to_be_bytes())?;
            put_items(out, items, left - 1)
        }
        Node::Fields(fields) => {
            put(out, &[7])?;
            put(out, &(fields.len() as u32).to_be_bytes())?;
            put_fields(out, fields, left - 1)
        }
    }
}

fn truth_tag(truth: bool) -> u8
    ensures { result ≡ truth_tag truth }
{
    if truth { 3 } else { 2 }
}

#[cycle(putting)]
fn put_items(out: &mut Vec<u8>, items: &[Data], left: u32) -> Result<(), NoMemory>
    requires within { AreItemsWithin (items_of items.now) }
    requires deep { nesting_items (items_of items.now) ≤ left }
    ensures { OnOk result ((out.new.items ≡ out.old.items ++ items_bytes (items_of items.now)) × AreItems (items_of items.now)) }
{
    for item in items {
        put_node(out, item.node(), left)?;
    }
    Ok(())
}

#[cycle(putting)]
fn put_fields(out: &mut Vec<u8>, fields: &[(Units, Data)], left: u32) -> Result<(), NoMemory>
    requires within { AreFieldsWithin (fields_of fields.now) }
    requires deep { nesting_fields (fields_of fields.now) ≤ left }
    ensures { OnOk result ((out.new.items ≡ out.old.items ++ fields_bytes (fields_of fields.now)) × AreFields (fields_of fields.now)) }
{
    for field in fields {
        put_text(out, &field.0)?;
        put_node(out, field.1.node(), left)?;
    }
    Ok(())
}

// No key stands twice.
fn are_distinct(fields: &[(Units, Data)]) -> bool
    ensures { result ≡ are_distinct (map (λ f. f.0) fields.now) }
{
    for (i, field) in fields.iter().enumerate() {
        if has_key(&fields[i + 1..], &field.0) {
            return false;
        }
    }
    true
}

fn has_key(fields: &[(Units, Data)], key: &Units) -> bool
    ensures { result ≡ list_any (λ k. pointwise nat_eq key.now k) (map (λ f. f.0) fields.now) }
{
    for field in fields {
        if *key == field.0 {
            return true;
        }
    }
    false
}

// Data of at most the nesting `left`.
#[cycle(reading)]
pub(crate) fn data_of(alloc: Global, bytes: &[u8], left: u32) -> Result<(Data, &[u8]), ReadStop>
    ensures { Gives (λ x. (x.0, x.1.now)) result (data_at left bytes.now) }
{
    let (tag, rest) = byte_of(bytes)?;
    tagged_of(alloc, tag, rest, left)
}

// What stands behind a tag.
#[cycle(reading)]
fn tagged_of(alloc: Global, tag: u8, rest: &[u8], left: u32) -> Result<(Data, &[u8]), ReadStop>
    ensures { Gives (λ x. (x.0, x.1.now)) result (tagged_at (parts_at left) tag rest.now) }
{
    match tag {
        0 => Ok((Data::make(Node::Undefined), rest)),
        1 => Ok((Data::make(Node::Null), rest)),
        2 => Ok((Data::make(Node::Truth(false)), rest)),
        3 => Ok((Data::make(Node::Truth(true)), rest)),
        4 => match whole_of(rest) {
            Ok((number, rest)) => Ok((Data::make(Node::Number(number)), rest)),
            Err(stop) => Err(stop),
        },
        5 => match text_of(alloc, rest) {
            Ok((text, rest)) => Ok((Data::make(Node::Text(text)), rest)),
            Err(stop) => Err(stop),
        },
        6 if left > 0 => list_of(alloc, rest, left - 1),
        7 if left > 0 => fields_of(alloc, rest, left - 1),
        _ => Err(ReadStop::Bad),
    }
}

#[cycle(reading)]
#[tactic(auto, unfolding(crate::specs::Reading::list_with))]
fn list_of(alloc: Global, bytes: &[u8], left: u32) -> Result<(Data, &[u8]), ReadStop>
    ensures { Gives (λ x. (x.0, x.1.now)) result (list_with (data_at left) bytes.now) }
{
    let (count, rest) = u32_of(bytes)?;
    if count > MOST_ITEMS {
        return Err(ReadStop::Bad);
    }
    match items_of(alloc, rest, count, left) {
        Ok((items, rest)) => Ok((Data::make(Node::List(items)), rest)),
        Err(stop) => Err(stop),
    }
}

#[cycle(reading)]
fn items_of(
    alloc: Global,
    bytes: &[u8],
    count: u32,
    left: u32,
) -> Result<(Vec<Data>, &[u8]), ReadStop>
    ensures { Gives (λ x. (x.0.items, x.1.now)) result (items_at (data_at left) count bytes.now) }
{
    let mut items = Vec::new(alloc);
    let mut rest = bytes;
    for i in 0..count {
        match data_of(alloc, rest, left) {
            Ok((item, after)) => {
                items.push(item)?;
                rest = after;
            }
            Err(stop) => return Err(stop),
        }
    }
    Ok((items, rest))
}

#[cycle(reading)]
#[tactic(auto, unfolding(crate::specs::Reading::fields_with))]
fn fields_of(alloc: Global, bytes: &[u8], left: u32) -> Result<(Data, &[u8]), ReadStop>
    ensures { Gives (λ x. (x.0, x.1.now)) result (fields_with (data_at left) bytes.now) }
{
    let (count, rest) = u32_of(bytes)?;
    match pairs_of(alloc, rest, count, left) {
        Ok((fields, rest)) => {
            if !are_distinct(&fields) {
                return Err(ReadStop::Bad);
            }
            Ok((Data::make(Node::Fields(fields)), rest))
        }
        Err(stop) => Err(stop),
    }
}

#[cycle(reading)]
fn pairs_of(
    alloc: Global,
    bytes: &[u8],
    count: u32,
    left: u32,
) -> Result<(Vec<(Units, Data)>, &[u8]), ReadStop>
    ensures { Gives (λ x. (x.0.items, x.1.now)) result (fields_at (data_at left) count bytes.now) }
{
    let mut fields = Vec::new(alloc);
    let mut rest = bytes;
    for i in 0..count {
        match field_of(alloc, rest, left) {
            Ok((field, after)) => {
                fields.push(field)?;
                rest = after;
            }
            Err(stop) => return Err(stop),
        }
    }
    Ok((fields, rest))
}

#[cycle(reading)]
fn field_of(alloc: Global, bytes: &[u8], left: u32) -> Result<((Units, Data), &[u8]), ReadStop>
    ensures { Gives (λ x. (x.0, x.1.now)) result (field_at (data_at left) bytes.now) }
{
    match text_of(alloc, bytes) {
        Ok((key, rest)) => match data_of(alloc, rest, left) {
            Ok((value, rest)) => Ok(((key, value), rest)),
            Err(stop) => Err(stop),
        },
        Err(stop) => Err(stop),
    }
}
