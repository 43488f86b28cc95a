//! Texts.
ghost use Rattle.std.specs.Prelude.{◌≡◌, ◌≤◌, ◌<◌, ◌+◌, ◌++◌, length, slice_index, IfOk};
ghost use Rattle.std.specs.Char.Escape.{encode_utf16};
ghost use Rattle.js_lexer.specs.Pieces as spec;
ghost use Rattle.js_lexer.specs.Pieces.{GoesOn, EndsSo, FewDigits};

use crate::chars::{at, is_digit, is_line_end};
use crate::{Escape, Next, Quoted};
use std::alloc::Global;
use turk_base::{NoMemory, Units};

/// What a backslash and this character begin.
#[tactic(auto, unfolding(crate::specs::Pieces::escape_of))]
fn escape_of(c: char) -> Escape
    ensures value { result ≡ spec.escape_of c }
    ensures few { FewDigits result }
{
    match c {
        'b' => Escape::Unit(8),
        't' => Escape::Unit(9),
        'n' => Escape::Unit(10),
        'v' => Escape::Unit(11),
        'f' => Escape::Unit(12),
        'r' => Escape::Unit(13),
        '0' => Escape::Null,
        'x' => Escape::Digits(2),
        'u' => Escape::Digits(4),
        _ => {
            if is_digit(10, c) || is_line_end(c) {
                Escape::Wrong
            } else {
                Escape::Itself
            }
        }
    }
}

/// So many hexadecimal digits from a place on.
fn hex_digits(text: &[char], place: usize, count: usize) -> Next
    requires count { count ≤ 4 }
    requires within { place ≤ length text.now }
    ensures value { result ≡ spec.hex_from text.now 0 place count }
    ensures goes_on { 0 < count → GoesOn text.now place result }
{
    let mut value = 0;
    for i in 0..count {
        if place + i >= text.len() {
            return Next::Open;
        }
        let c = at(text, place + i);
        match c.to_digit(16) {
            None => return Next::Wrong,
            Some(digit) => value = value * 16 + digit,
        }
    }
    Next::Part(value, place + count)
}

/// What stands from the character after a backslash on.
#[tactic(auto, unfolding(crate::specs::Pieces::escaped))]
fn escaped(text: &[char], place: usize) -> Next
    requires { place ≤ length text.now }
    ensures value { result ≡ spec.escaped text.now place }
    ensures goes_on { GoesOn text.now place result }
{
    if place >= text.len() {
        return Next::Open;
    }
    match escape_of(text[place]) {
        Escape::Unit(unit) => Next::Part(unit, place + 1),
        Escape::Null => {
            if is_digit(10, at(text, place + 1)) {
                Next::Wrong
            } else {
                Next::Part(0, place + 1)
            }
        }
        Escape::Digits(count) => hex_digits(text, place + 1, count),
        Escape::Itself => Next::Part(text[place] as u32, place + 1),
        Escape::Wrong => Next::Wrong,
    }
}

/// What stands at a place of a text.
#[tactic(auto, unfolding(crate::specs::Pieces::next_of))]
fn next_of(text: &[char], quote: char, place: usize) -> Next
    ensures value { result ≡ spec.next_of text.now quote place }
    ensures goes_on { GoesOn text.now place result }
{
    if place >= text.len() {
        return Next::Open;
    }
    let c = text[place];
    if c == quote {
        Next::Close
    } else if c == '\\' {
        escaped(text, place + 1)
    } else if is_line_end(c) {
        Next::Wrong
    } else {
        Next::Part(c as u32, place + 1)
    }
}

/// Adds a character's units, or a unit, at the end.
pub fn push_part(units: &mut Units, part: u32) -> Result<(), NoMemory>
    requires { part < 0x110000 }
    ensures { IfOk result (λ _. units.new ≡ units.old ++ encode_utf16 part) }
{
    if part < 0x1_0000 {
        return units.push(part as u16);
    }
    let over = part - 0x1_0000;
    units.push((0xD800 + over / 0x400) as u16)?;
    units.push((0xDC00 + over % 0x400) as u16)
}

/// The text whose opening quote stands at a place.
pub fn quoted(alloc: Global, text: &[char], place: usize) -> Result<Quoted, NoMemory>
    requires { place < length text.now }
    ensures { IfOk result (EndsSo text.now (slice_index text.now place) (place + 1)) }
{
    let quote = at(text, place);
    let mut units = Units::new(alloc);
    let mut here = place + 1;
    'parts: loop {
        match next_of(text, quote, here) {
            Next::Close => return Ok(Quoted::Closed(units, here + 1)),
            Next::Open => return Ok(Quoted::Open),
            Next::Wrong => return Ok(Quoted::Wrong),
            Next::Part(part, next) => {
                push_part(&mut units, part)?;
                here = next;
            }
        }
    }
}
