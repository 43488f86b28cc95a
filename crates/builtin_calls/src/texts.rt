//! The calls on texts (ECMA-262 3rd ed. 15.5.1.1, 15.5.3.2, 15.5.4.4 to 15.5.4.7, 15.5.4.14, 15.5.4.15).
ghost use Rattle.std.specs.Prelude.{◌≡◌, ◌<◌, ◌≤◌, ◌+◌, ◌^◌, ◌%◌, ◌∷◌, [], length, map, IfOk, max, min, take, drop, ◌-◌};
ghost use Rattle.turk_base.specs.Conversions.{unsigned_32};
ghost use Rattle.turk_base.specs.Values.{Normal, Number, Text};
ghost use Rattle.turk_base.specs.Prog.{Put, ask, made};
ghost use Rattle.turk_base.specs.Errors.{index_text};
ghost use Rattle.turk_base.specs.BuiltIns as spec;
ghost use Rattle.value_cells.specs.Needs.{needs};
ghost use Rattle.value_cells.specs.Seen.{Naming, Seen, count, val_in};
ghost use Rattle.value_cells.specs.Does.{Runs, told};
ghost use Rattle.builtin_calls.specs.Gives.{Takes, Answers};

use crate::steps::{end_position, paid, position, put_at, text_of, whole};
use std::alloc::Global;
use std::mem;
use turk_base::{NoMemory, Units, Whole};
use value_cells::{CellKind, Heap, OpStop, Value};

/// The unit at a place, or None out of range.
fn unit_at(text: &Units, place: Whole) -> Option<u16>
    ensures { result ≡ spec.unit_at place text.now }
{
    let place = place.get();
    if place < 0 {
        return None;
    }
    text.as_slice().get(place as usize).copied()
}

/// The text of one unit, or the empty text.
fn unit_text(alloc: Global, unit: Option<u16>) -> Result<Units, NoMemory>
    ensures { IfOk result (λ text. text ≡ spec.unit_text unit) }
{
    match unit {
        Some(unit) => Units::from_slice(alloc, &[unit]),
        None => Ok(Units::new(alloc)),
    }
}

/// `charAt`: the unit at a position, or the empty text out of range.
pub fn char_at<H: Heap>(
    alloc: Global,
    heap: &mut H,
    this: &Units,
    place: &Value,
) -> Result<Value, OpStop>
    ensures did { Runs (λ nu. spec.char_at this.now (val_in nu place.now)) (λ nu. told (λ v. Normal (val_in nu v)) result) (H.seen heap.old) (H.seen heap.new) }
    ensures more { count (H.seen heap.old) ≤ count (H.seen heap.new) }
    ensures exists { IfOk result (λ v. needs v ≤ count (H.seen heap.new)) }
{
    let at = position(alloc, place)?;
    let unit = unit_at(this, at);
    let text = unit_text(alloc, unit)?;
    Ok(Value::Text(paid(heap, text)?))
}

/// `charCodeAt`: the unit at a position as a number; out of range it is refused.
pub fn char_code_at(alloc: Global, this: &Units, place: &Value) -> Result<Value, OpStop>
    ensures did { (s : Seen) → Runs (λ nu. spec.char_code_at this.now (val_in nu place.now)) (λ nu. told (λ v. Normal (val_in nu v)) result) s s }
    ensures exists { IfOk result (λ v. needs v ≤ 0) }
{
    let at = position(alloc, place)?;
    match unit_at(this, at) {
        Some(unit) => Ok(Value::Number(Whole::from_u32(unit as u32))),
        None => Err(OpStop::NotWhole),
    }
}

/// A position brought within a text of a length.
fn clamped(place: Whole, length: usize) -> usize
    ensures value { result ≡ spec.clamped place length }
    ensures within { result ≤ length }
{
    let place = place.get();
    if place < 0 {
        0
    } else {
        (place as usize).min(length)
    }
}

/// Whether a text begins with a part.
fn begins(text: &[u16], part: &[u16]) -> bool
    ensures { result ≡ spec.begins part.now text.now }
{
    text.starts_with(part)
}

/// The first place of a part in a text, which stands at a place of a longer one.
fn place_from(text: &[u16], part: &[u16], place: usize) -> Option<usize>
    requires { place + length text.now < 2 ^ 64 }
    ensures { result ≡ spec.place_from part.now text.now place }
{
    let mut rest = text;
    let mut at = place;
    loop {
        if begins(rest, part) {
            return Some(at);
        }
        match rest {
            [] => return None,
            [_, more @ ..] => {
                rest = more;
                at += 1;
            }
        }
    }
}

/// The first place of a part at or after a position.
fn place_of(text: &Units, part: &Units, place: Whole) -> Option<usize>
    ensures { let from = spec.clamped place (length text.now) in result ≡ spec.place_from part.now (drop from text.now) from }
{
    let units = text.as_slice();
    let from = clamped(place, units.len());
    place_from(&units[from..], part.as_slice(), from)
}

/// A place as a number, -1 for none. No text is longer than a number can say.
fn place_value(place: Option<usize>) -> Result<Whole, NoMemory>
    ensures { IfOk result (λ number. spec.place_value place ≡ Number number) }
{
    match place {
        Some(place) => {
            if place > 9_007_199_254_740_992 {
                return Err(NoMemory);
            }
            Ok(whole(place as u64))
        }
        None => Ok(Whole::from_u32(1).negated()),
    }
}

/// `indexOf`: the first place of a text at or after a position, or -1.
pub fn index_of<H: Heap>(
    alloc: Global,
    heap: &mut H,
    this: &Units,
    part: &Value,
    place: &Value,
) -> Result<Value, OpStop>
    ensures did { Runs (λ nu. spec.index_of this.now (val_in nu part.now) (val_in nu place.now)) (λ nu. told (λ v. Normal (val_in nu v)) result) (H.seen heap.old) (H.seen heap.new) }
    ensures more { count (H.seen heap.old) ≤ count (H.seen heap.new) }
    ensures exists { IfOk result (λ v. needs v ≤ count (H.seen heap.new)) }
{
    let part = text_of(alloc, heap, part)?;
    let at = position(alloc, place)?;
    let number = place_value(place_of(this, &part, at))?;
    Ok(Value::Number(number))
}

/// `substring`: the units between two positions, in order and within the text.
pub fn substring<H: Heap>(
    alloc: Global,
    heap: &mut H,
    this: &Units,
    begin: &Value,
    end: &Value,
) -> Result<Value, OpStop>
    ensures did { Runs (λ nu. spec.substring this.now (val_in nu begin.now) (val_in nu end.now)) (λ nu. told (λ v. Normal (val_in nu v)) result) (H.seen heap.old) (H.seen heap.new) }
    ensures more { count (H.seen heap.old) ≤ count (H.seen heap.new) }
    ensures exists { IfOk result (λ v. needs v ≤ count (H.seen heap.new)) }
{
    let start = position(alloc, begin)?;
    let stop = text_end(alloc, end, this)?;
    let part = between(alloc, this, start, stop)?;
    Ok(Value::Text(paid(heap, part)?))
}

/// A position that ends a part of a text: its length for undefined.
fn text_end(alloc: Global, value: &Value, text: &Units) -> Result<Whole, OpStop>
    ensures { (nu : Naming) → Answers (λ z. z) result (spec.end_in (val_in nu value.now) (length text.now)) }
{
    let length = text.len();
    if length > 9_007_199_254_740_992 {
        return Err(OpStop::Memory);
    }
    end_position(alloc, value, length as u64)
}

/// The units between two positions, in order and within the text.
fn between(alloc: Global, text: &Units, start: Whole, stop: Whole) -> Result<Units, NoMemory>
    ensures { IfOk result (λ part. let p = spec.clamped start (length text.now) in let q = spec.clamped stop (length text.now) in part ≡ take (max p q - min p q) (drop (min p q) text.now)) }
{
    let units = text.as_slice();
    let p = clamped(start, units.len());
    let q = clamped(stop, units.len());
    Units::from_slice(alloc, &units[p.min(q)..p.max(q)])
}

/// Each unit of a text as a text.
fn units_apart(alloc: Global, text: &[u16]) -> Result<Vec<Units>, NoMemory>
    ensures { IfOk result (λ pieces. pieces.items ≡ map (λ unit. unit ∷ []) text.now) }
{
    let mut pieces = Vec::new(alloc);
    for unit in text {
        let piece = Units::from_slice(alloc, &[*unit])?;
        if pieces.push(piece).is_err() {
            return Err(NoMemory);
        }
    }
    Ok(pieces)
}

/// The pieces of a text between the places of a part that isn't empty.
fn cut(alloc: Global, text: &[u16], part: &[u16]) -> Result<Vec<Units>, NoMemory>
    requires { 0 < length part.now }
    ensures { IfOk result (λ pieces. pieces.items ≡ spec.cut_at part.now 0 [] text.now) }
{
    let mut pieces = Vec::new(alloc);
    let mut piece = Units::new(alloc);
    let mut skip = 0;
    let mut rest = text;
    while let [unit, more @ ..] = rest {
        if skip > 0 {
            skip -= 1;
        } else if begins(rest, part) {
            let done = mem::replace(&mut piece, Units::new(alloc));
            if pieces.push(done).is_err() {
                return Err(NoMemory);
            }
            skip = part.len() - 1;
        } else {
            piece.push(*unit)?;
        }
        rest = more;
    }
    match pieces.push(piece) {
        Ok(()) => Ok(pieces),
        Err(_) => Err(NoMemory),
    }
}

/// The pieces of a text at a separator, its units for the empty one.
fn split_pieces(alloc: Global, text: &Units, separator: &Units) -> Result<Vec<Units>, NoMemory>
    ensures { IfOk result (λ pieces. pieces.items ≡ spec.split_pieces separator.now text.now) }
{
    if separator.len() == 0 {
        units_apart(alloc, text.as_slice())
    } else {
        cut(alloc, text.as_slice(), separator.as_slice())
    }
}

/// The pieces of a text at a value's text, the whole text for undefined.
fn pieces_in<H: Heap>(
    alloc: Global,
    heap: &mut H,
    separator: &Value,
    text: &Units,
) -> Result<Vec<Units>, OpStop>
    ensures did { Takes (λ nu. spec.pieces_in (val_in nu separator.now) text.now) (λ nu pieces. pieces.items) result (H.seen heap.old) (H.seen heap.new) }
    ensures more { count (H.seen heap.old) ≤ count (H.seen heap.new) }
{
    if let Value::Undefined = separator {
        return Ok(one_piece(alloc, text)?);
    }
    let part = text_of(alloc, heap, separator)?;
    Ok(split_pieces(alloc, text, &part)?)
}

/// A text as the one piece.
fn one_piece(alloc: Global, text: &Units) -> Result<Vec<Units>, NoMemory>
    ensures { IfOk result (λ pieces. pieces.items ≡ text.now ∷ []) }
{
    let mut pieces = Vec::new(alloc);
    match pieces.push(text.copy(alloc)?) {
        Ok(()) => Ok(pieces),
        Err(_) => Err(NoMemory),
    }
}

/// Pays a piece and puts it at an index.
fn put_piece<H: Heap>(
    alloc: Global,
    heap: &mut H,
    cell: u32,
    index: u64,
    piece: &Units,
) -> Result<(), OpStop>
    requires { cell < count (H.seen heap.old) }
    ensures did { Takes (λ nu go. made piece.now (λ t. ask (Put (nu cell) (index_text index) (Text t)) go)) (λ nu u. u) result (H.seen heap.old) (H.seen heap.new) }
    ensures more { count (H.seen heap.old) ≤ count (H.seen heap.new) }
{
    let text = paid(heap, piece.copy(alloc)?)?;
    put_at(alloc, heap, cell, index, Value::Text(text))
}

/// Puts pieces from the first index on, and answers the array.
fn put_pieces<H: Heap>(
    alloc: Global,
    heap: &mut H,
    cell: u32,
    pieces: &[Units],
) -> Result<Value, OpStop>
    requires { cell < count (H.seen heap.old) }
    ensures did { Runs (λ nu. spec.put_pieces (nu cell) 0 pieces.now) (λ nu. told (λ v. Normal (val_in nu v)) result) (H.seen heap.old) (H.seen heap.new) }
    ensures more { count (H.seen heap.old) ≤ count (H.seen heap.new) }
    ensures exists { IfOk result (λ v. needs v ≤ count (H.seen heap.new)) }
{
    for i in 0..pieces.len() {
        put_piece(alloc, heap, cell, i as u64, &pieces[i])?;
    }
    Ok(Value::Object(cell))
}

/// `split`: a new array of the pieces between the places of a text, of the units for the empty
/// text, of the whole for undefined.
pub fn split<H: Heap>(
    alloc: Global,
    heap: &mut H,
    this: &Units,
    separator: &Value,
) -> Result<Value, OpStop>
    ensures did { Runs (λ nu. spec.split this.now (val_in nu separator.now)) (λ nu. told (λ v. Normal (val_in nu v)) result) (H.seen heap.old) (H.seen heap.new) }
    ensures more { count (H.seen heap.old) ≤ count (H.seen heap.new) }
    ensures exists { IfOk result (λ v. needs v ≤ count (H.seen heap.new)) }
{
    let cell = heap.make(CellKind::Array)?;
    let pieces = pieces_in(alloc, heap, separator, this)?;
    put_pieces(alloc, heap, cell, pieces.as_slice())
}

/// The low 16 bits of a number.
fn low_unit(number: Whole) -> u16
    ensures { result ≡ unsigned_32 number % 2 ^ 16 }
{
    number.get().rem_euclid(65_536) as u16
}

/// The units that numbers stand for, modulo 65,536.
fn codes(alloc: Global, values: &[Value]) -> Result<Units, OpStop>
    ensures { (s : Seen) → Takes (λ nu. spec.codes_in (map (val_in nu) values.now)) (λ nu t. t) result s s }
{
    let mut units = Units::new(alloc);
    for value in values {
        let number = position(alloc, value)?;
        units.push(low_unit(number))?;
    }
    Ok(units)
}

/// `String.fromCharCode`: the text of the units that numbers stand for, modulo 65,536.
pub fn from_char_code<H: Heap>(
    alloc: Global,
    heap: &mut H,
    values: &[Value],
) -> Result<Value, OpStop>
    ensures did { Runs (λ nu. spec.from_char_code (map (val_in nu) values.now)) (λ nu. told (λ v. Normal (val_in nu v)) result) (H.seen heap.old) (H.seen heap.new) }
    ensures more { count (H.seen heap.old) ≤ count (H.seen heap.new) }
    ensures exists { IfOk result (λ v. needs v ≤ count (H.seen heap.new)) }
{
    let units = codes(alloc, values)?;
    Ok(Value::Text(paid(heap, units)?))
}

/// `String`: the text of a value, empty without one.
pub fn string_of<H: Heap>(alloc: Global, heap: &mut H, values: &[Value]) -> Result<Value, OpStop>
    ensures did { Runs (λ nu. spec.string_of (map (val_in nu) values.now)) (λ nu. told (λ v. Normal (val_in nu v)) result) (H.seen heap.old) (H.seen heap.new) }
    ensures more { count (H.seen heap.old) ≤ count (H.seen heap.new) }
    ensures exists { IfOk result (λ v. needs v ≤ count (H.seen heap.new)) }
{
    match values {
        [] => Ok(Value::Text(Units::new(alloc))),
        [value, ..] => Ok(Value::Text(text_of(alloc, heap, value)?)),
    }
}
