//! Numbers, texts and paths as bytes.

ghost use Rattle.std.specs.Prelude.{◌≡◌, ◌<◌, ◌≤◌, ◌+◌, ◌^◌, ◌++◌, ℕ, List, length, OnOk};
ghost use Rattle.std.specs.List.{flat_map, AllByRecursion};
ghost use Rattle.std.specs.Int.{w16, w32, w64, to_be_bytes};
ghost use Rattle.record_bytes.specs.Spelling.{text_bytes, path_bytes, number_bytes, twos_complement};
ghost use Rattle.record_bytes.specs.Limits.{IsTextWithin, AreUnits};
ghost use Rattle.record_bytes.specs.Reading.{Gives, byte_at, number_at, numbers_at, text_at, path_at, whole_at, whole_from};
ghost use Rattle.turk_base.specs.Whole.{IsWhole};

use crate::stop::ReadStop;
use std::alloc::Global;
use turk_base::{NoMemory, Path, Units, Whole};

const MOST_UNITS: u32 = 1_048_576;

const LONGEST_PATH: u16 = 800;

const GREATEST: u64 = 9_007_199_254_740_992;

// Adds bytes at the end.
pub(crate) fn put(out: &mut Vec<u8>, bytes: &[u8]) -> Result<(), NoMemory>
    ensures { OnOk result (out.new.items ≡ out.old.items ++ bytes.now) }
{
    match out.extend_from_slice(bytes) {
        Ok(()) => Ok(()),
        Err(_) => Err(NoMemory),
    }
}

fn put_u16s(out: &mut Vec<u8>, numbers: &[u16]) -> Result<(), NoMemory>
    ensures { OnOk result (out.new.items ≡ out.old.items ++ flat_map (to_be_bytes w16) numbers.now) }
{
    for number in numbers {
        put(out, &number.to_be_bytes())?;
    }
    Ok(())
}

fn put_u32s(out: &mut Vec<u8>, numbers: &[u32]) -> Result<(), NoMemory>
    ensures { OnOk result (out.new.items ≡ out.old.items ++ flat_map (to_be_bytes w32) numbers.now) }
{
    for number in numbers {
        put(out, &number.to_be_bytes())?;
    }
    Ok(())
}

#[tactic(auto, unfolding(crate::specs::Spelling::text_bytes))]
pub(crate) fn put_text(out: &mut Vec<u8>, text: &Units) -> Result<(), NoMemory>
    requires { IsTextWithin text.now }
    ensures bytes { OnOk result (out.new.items ≡ out.old.items ++ text_bytes text.now) }
    ensures units { AreUnits text.now }
{
    let units = text.as_slice();
    let count = units.len() as u32;
    put(out, &count.to_be_bytes())?;
    put_u16s(out, units)
}

#[tactic(auto, unfolding(crate::specs::Spelling::path_bytes))]
pub(crate) fn put_path(out: &mut Vec<u8>, path: &Path) -> Result<(), NoMemory>
    requires { length path.now ≤ 800 }
    ensures bytes { OnOk result (out.new.items ≡ out.old.items ++ path_bytes path.now) }
    ensures indexes { AllByRecursion (λ i. i < 2 ^ 32) path.now }
{
    let indexes = path.as_slice();
    let count = indexes.len() as u16;
    put(out, &count.to_be_bytes())?;
    put_u32s(out, indexes)
}

// A number in two's complement.
fn bits_of(number: i64) -> u64
    ensures { result ≡ twos_complement number }
{
    if number >= 0 {
        number as u64
    } else {
        u64::MAX - (-(number + 1)) as u64
    }
}

#[tactic(auto, unfolding(crate::specs::Spelling::number_bytes))]
pub(crate) fn put_number(out: &mut Vec<u8>, number: Whole) -> Result<(), NoMemory>
    ensures bytes { OnOk result (out.new.items ≡ out.old.items ++ number_bytes number) }
    ensures number { IsWhole number }
{
    put(out, &bits_of(number.get()).to_be_bytes())
}

pub(crate) fn byte_of(bytes: &[u8]) -> Result<(u8, &[u8]), ReadStop>
    ensures { Gives (λ x. (x.0, x.1.now)) result (byte_at bytes.now) }
{
    match bytes.split_first() {
        Some((byte, rest)) => Ok((*byte, rest)),
        None => Err(ReadStop::Bad),
    }
}

fn u16_of(bytes: &[u8]) -> Result<(u16, &[u8]), ReadStop>
    ensures { Gives (λ x. (x.0, x.1.now)) result (number_at w16 bytes.now) }
{
    if bytes.len() < 2 {
        return Err(ReadStop::Bad);
    }
    let (front, rest) = bytes.split_at(2);
    let number = u16::from_be_bytes([front[0], front[1]]);
    Ok((number, rest))
}

pub(crate) fn u32_of(bytes: &[u8]) -> Result<(u32, &[u8]), ReadStop>
    ensures { Gives (λ x. (x.0, x.1.now)) result (number_at w32 bytes.now) }
{
    if bytes.len() < 4 {
        return Err(ReadStop::Bad);
    }
    let (front, rest) = bytes.split_at(4);
    let number = u32::from_be_bytes([front[0], front[1], front[2], front[3]]);
    Ok((number, rest))
}

pub(crate) fn u64_of(bytes: &[u8]) -> Result<(u64, &[u8]), ReadStop>
    ensures { Gives (λ x. (x.0, x.1.now)) result (number_at w64 bytes.now) }
{
    if bytes.len() < 8 {
        return Err(ReadStop::Bad);
    }
    let (front, rest) = bytes.split_at(8);
    let number = u64::from_be_bytes([
        front[0], front[1], front[2], front[3], front[4], front[5], front[6], front[7],
    ]);
    Ok((number, rest))
}

fn u16s_of(alloc: Global, bytes: &[u8], count: u32) -> Result<(Vec<u16>, &[u8]), ReadStop>
    ensures { Gives (λ x. (x.0.items, x.1.now)) result (numbers_at w16 count bytes.now) }
{
    let mut numbers = Vec::new(alloc);
    let mut rest = bytes;
    for i in 0..count {
        let (number, after) = u16_of(rest)?;
        numbers.push(number)?;
        rest = after;
    }
    Ok((numbers, rest))
}

fn u32s_of(alloc: Global, bytes: &[u8], count: u16) -> Result<(Vec<u32>, &[u8]), ReadStop>
    ensures { Gives (λ x. (x.0.items, x.1.now)) result (numbers_at w32 count bytes.now) }
{
    let mut numbers = Vec::new(alloc);
    let mut rest = bytes;
    for i in 0..count {
        let (number, after) = u32_of(rest)?;
        numbers.push(number)?;
        rest = after;
    }
    Ok((numbers, rest))
}

#[tactic(auto, unfolding(crate::specs::Reading::text_at))]
pub(crate) fn text_of(alloc: Global, bytes: &[u8]) -> Result<(Units, &[u8]), ReadStop>
    ensures { Gives (λ x. (x.0, x.1.now)) result (text_at bytes.now) }
{
    let (count, rest) = u32_of(bytes)?;
    if count > MOST_UNITS {
        return Err(ReadStop::Bad);
    }
    let (units, rest) = u16s_of(alloc, rest, count)?;
    Ok((Units::from_vec(units), rest))
}

#[tactic(auto, unfolding(crate::specs::Reading::path_at))]
pub(crate) fn path_of(alloc: Global, bytes: &[u8]) -> Result<(Path, &[u8]), ReadStop>
    ensures { Gives (λ x. (x.0, x.1.now)) result (path_at bytes.now) }
{
    let (count, rest) = u16_of(bytes)?;
    if count == 0 {
        return Err(ReadStop::Bad);
    }
    if count > LONGEST_PATH {
        return Err(ReadStop::Bad);
    }
    let (indexes, rest) = u32s_of(alloc, rest, count)?;
    Ok((Path::from_vec(indexes), rest))
}

// The number that 64 bits stand for, where it is a number of the language.
fn whole_from(bits: u64) -> Option<Whole>
    ensures { result ≡ whole_from bits }
{
    if bits <= GREATEST {
        Whole::new(bits as i64)
    } else if bits >= u64::MAX - GREATEST + 1 {
        Whole::new(-((u64::MAX - bits) as i64) - 1)
    } else {
        None
    }
}

#[tactic(auto, unfolding(crate::specs::Reading::whole_at))]
pub(crate) fn whole_of(bytes: &[u8]) -> Result<(Whole, &[u8]), ReadStop>
    ensures { Gives (λ x. (x.0, x.1.now)) result (whole_at bytes.now) }
{
    let (bits, rest) = u64_of(bytes)?;
    match whole_from(bits) {
        Some(number) => Ok((number, rest)),
        None => Err(ReadStop::Bad),
    }
}
