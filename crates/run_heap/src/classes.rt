//! What a key is for an array, and what number a value is.
ghost use Rattle.std.specs.Prelude.{◌≡◌, ◌≤◌, ◌∷◌, [], Some, None, IfOk, IfSome, is_some, true, false, not, if◌then◌else◌, length, insert, OnOk, OnErr};
ghost use Rattle.turk_base.specs.Cells.{decimal_of, digits_on, class_of, index, past_end, put_down, lower_than};
ghost use Rattle.turk_base.specs.Conversions.{number_in};
ghost use Rattle.value_cells.specs.Held.{Key};
ghost use Rattle.value_cells.specs.Seen.{Naming, val_in};
ghost use Rattle.run_heap.specs.Lengths.{NumberIs, PrimitiveIs, class_in, length_or_none, AllFrom};

use convert_rules::{Prim, Reading, reading};
use std::alloc::Global;
use turk_base::{NoMemory, Units, Whole};
use value_cells::{OpStop, Value};

/// What a key is for an array: an element's index, an index past the greatest, or a name like all
/// others.
#[derive(Clone, Copy, Drop)]
pub enum KeyClass {
    Index(u32),
    Past,
    Named,
}

/// Indexes are below this number.
const MOST: u64 = 1_000_000;

// whether a key has no needless zeros; the digits are still to be read
fn begins_well(key: &[u16]) -> bool
    ensures { decimal_of key.now ≡ (if result then digits_on 0 key.now else None) }
{
    match key {
        [] => false,
        [_] => true,
        [first, _, ..] => *first != 48,
    }
}

/// What a key is for an array. It takes no memory.
pub fn class(key: &[u16]) -> KeyClass
    ensures { class_in result ≡ class_of key.now }
{
    if !begins_well(key) {
        return KeyClass::Named;
    }
    let mut number = 0u64;
    for unit in key {
        if *unit < 48 || *unit > 57 {
            return KeyClass::Named;
        }
        number = number * 10 + (*unit as u64 - 48);
        if number >= 4_294_967_295 {
            return KeyClass::Named;
        }
    }
    if number < MOST {
        KeyClass::Index(number as u32)
    } else {
        KeyClass::Past
    }
}

/// The index of an element at or past a length.
pub fn element_past(key: &Units, length: u32) -> Option<u32>
    ensures past { past_end length (class_of key.now) ≡ is_some result }
    ensures index { IfSome result (λ i. class_of key.now ≡ index i) }
{
    match class(key.as_slice()) {
        KeyClass::Index(index) => { if index < length { None } else { Some(index) } }
        KeyClass::Past => None,
        KeyClass::Named => None,
    }
}

// the place before the first element of no higher index
fn place_down(keys: &[Units], at: u32) -> usize
    ensures within { result ≤ length keys.now }
    ensures place { (k : Key) → class_of k ≡ index at → insert keys.now result k ≡ put_down k keys.now }
{
    for place in 0..keys.len() {
        if !is_lower(at, &keys[place]) {
            return place;
        }
    }
    keys.len()
}

// whether an element's index is lower than that of a key
fn is_lower(at: u32, key: &Units) -> bool
    ensures { (k : Key) → class_of k ≡ index at → result ≡ lower_than (class_of k) (class_of key.now) }
{
    match class(key.as_slice()) {
        KeyClass::Index(other) => at < other,
        KeyClass::Past => false,
        KeyClass::Named => false,
    }
}

// the same, at once where all have a higher index
fn place_of(keys: &[Units], at: u32, lowest: u32) -> usize
    requires { AllFrom lowest keys.now }
    ensures within { result ≤ length keys.now }
    ensures place { (k : Key) → class_of k ≡ index at → insert keys.now result k ≡ put_down k keys.now }
{
    if at < lowest {
        return keys.len();
    }
    place_down(keys, at)
}

/// Puts an element's key before those of lower index. All that are there have at least the index
/// `lowest`, so that where the elements come with falling indexes the list isn't looked through.
/// After NoMemory nothing changed.
pub fn add_down(keys: &mut Vec<Units>, key: Units, at: u32, lowest: u32) -> Result<(), NoMemory>
    requires from { AllFrom lowest keys.old.items }
    requires class { class_of key ≡ index at }
    ensures ok { OnOk result (keys.new.items ≡ put_down key keys.old.items) }
    ensures err { OnErr result (keys.new.items ≡ keys.old.items) }
{
    let place = place_of(keys.as_slice(), at, lowest);
    match keys.insert(place, key) {
        Ok(()) => return Ok(()),
        Err(_) => {}
    }
    Err(NoMemory)
}

// the primitive that a value is, None for an object
fn primitive(alloc: Global, value: &Value) -> Result<Option<Prim>, NoMemory>
    ensures { IfOk result (λ found. (nu : Naming) → PrimitiveIs found (val_in nu value.now)) }
{
    match value {
        Value::Undefined => Ok(Some(Prim::Undefined)),
        Value::Null => Ok(Some(Prim::Null)),
        Value::Truth(truth) => Ok(Some(Prim::Truth(*truth))),
        Value::Number(number) => Ok(Some(Prim::Number(*number))),
        Value::Text(units) => Ok(Some(Prim::Text(units.copy(alloc)?))),
        Value::Object(_) => Ok(None),
    }
}

/// The number that a value is. NoPrimitive comes exactly for an object, NotWhole exactly where it is
/// no whole number in range.
pub fn number_of(alloc: Global, value: &Value) -> Result<Whole, OpStop>
    ensures { (nu : Naming) → NumberIs result (number_in (val_in nu value.now)) }
{
    match primitive(alloc, value)? {
        None => Err(OpStop::NoPrimitive),
        Some(found) => match reading(&found) {
            Reading::Whole(number) => Ok(number),
            Reading::Nan => Err(OpStop::NotWhole),
            Reading::Outside => Err(OpStop::NotWhole),
        },
    }
}

/// The length that a number is, or None exactly below 0 and past 1,000,000.
pub fn length_in(number: Whole) -> Option<u32>
    ensures { result ≡ length_or_none number }
{
    let number = number.get();
    if number < 0 || number > 1_000_000 {
        None
    } else {
        Some(number as u32)
    }
}
