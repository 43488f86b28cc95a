//! What stands at a place of a script.
ghost use Rattle.std.specs.Prelude.{◌≡◌, ◌≤◌, ◌<◌, ◌+◌, ◌^◌, ◌&&◌, ◌==◌, pos, true, length, slice_index, IfOk};
ghost use Rattle.js_lexer.specs.Chars as class;
ghost use Rattle.js_lexer.specs.Tokens as spec;
ghost use Rattle.js_lexer.specs.Tokens.{PieceAt, IsOther};

use crate::chars::{at, is_digit, is_line_end, is_quote, is_white, starts};
use crate::comments::{block_comment, line_comment};
use crate::marks::mark;
use crate::numbers::number;
use crate::texts::{push_part, quoted};
use crate::words::{call_of, reserved_of, word_end};
use crate::{Kind, Piece, Quoted, Refusal};
use std::alloc::Global;
use turk_base::{NoMemory, Units, Whole};

/// What is found at a place: a piece and the place after it, or why there is none.
type Found = Result<(Piece, usize), Refusal>;

/// The greatest number of units of a text.
const MOST_UNITS: usize = 1_048_576;

/// The units of characters.
fn units_of(alloc: Global, word: &[char]) -> Result<Units, NoMemory>
    ensures { IfOk result (λ units. units ≡ spec.units_of word.now) }
{
    let mut units = Units::new(alloc);
    for c in word {
        push_part(&mut units, *c as u32)?;
    }
    Ok(units)
}

/// What a word is by its characters.
#[tactic(auto, unfolding(crate::specs::Tokens::word_kind))]
fn word_kind(alloc: Global, word: &[char]) -> Result<Kind, NoMemory>
    ensures { IfOk result (λ kind. kind ≡ spec.word_kind word.now) }
{
    if let Some(found) = reserved_of(word) {
        return Ok(Kind::Reserved(found));
    }
    if let Some(found) = call_of(word) {
        return Ok(Kind::Call(found));
    }
    let units = units_of(alloc, word)?;
    Ok(Kind::Word(units))
}

/// The word that begins at a place.
fn word_piece(alloc: Global, text: &[char], place: usize, broken: bool) -> Found
    requires within { place < length text.now }
    requires first { class.starts (slice_index text.now place) ≡ true }
    ensures { PieceAt text.now broken place result }
{
    let _ = broken;
    let after = word_end(text, place);
    match word_kind(alloc, &text[place..after]) {
        Ok(kind) => Ok((Piece::Token(kind), after)),
        Err(NoMemory) => Err(Refusal::Memory),
    }
}

/// The number of the language that a value is.
fn whole_of(value: u64) -> Whole
    requires { value ≤ 2 ^ 53 }
    ensures { result ≡ pos value }
{
    match Whole::new(value as i64) {
        Some(whole) => whole,
        None => unreachable!(),
    }
}

/// The number that begins at a place.
fn number_piece(text: &[char], place: usize, broken: bool) -> Found
    requires within { place < length text.now }
    requires first { class.is_digit 10 (slice_index text.now place) ≡ true }
    ensures { PieceAt text.now broken place result }
{
    let _ = broken;
    let Some((value, after)) = number(text, place) else {
        return Err(Refusal::Number);
    };
    Ok((Piece::Token(Kind::Number(whole_of(value))), after))
}

/// The text that begins at a place.
fn text_piece(alloc: Global, text: &[char], place: usize, broken: bool) -> Found
    requires within { place < length text.now }
    requires first { class.is_quote (slice_index text.now place) ≡ true }
    ensures { PieceAt text.now broken place result }
{
    match quoted(alloc, text, place) {
        Err(NoMemory) => Err(Refusal::Memory),
        Ok(Quoted::Closed(units, after)) => {
            if units.len() > MOST_UNITS {
                Err(Refusal::Token)
            } else {
                Ok((Piece::Token(Kind::Text(units)), after))
            }
        }
        Ok(Quoted::Open) => {
            if broken {
                Err(Refusal::Broken)
            } else {
                Err(Refusal::Token)
            }
        }
        Ok(Quoted::Wrong) => Err(Refusal::Token),
    }
}

/// The comment or punctuator that begins with `/`.
fn slash_piece(text: &[char], place: usize, broken: bool) -> Found
    requires within { place < length text.now }
    requires first { slice_index text.now place ≡ 47 }
    ensures { PieceAt text.now broken place result }
{
    let second = at(text, place + 1);
    if second == '/' {
        let after = line_comment(text, place);
        return Ok((Piece::Comment(false), after));
    }
    if second == '*' {
        return match block_comment(text, place) {
            Some((line, after)) => Ok((Piece::Comment(line), after)),
            None => {
                if broken {
                    Err(Refusal::Broken)
                } else {
                    Err(Refusal::Token)
                }
            }
        };
    }
    match mark(text, place) {
        Some((mark, after)) => Ok((Piece::Token(Kind::Mark(mark)), after)),
        None => Err(Refusal::Token),
    }
}

/// Whether these are a point and a digit.
fn is_point(first: char, second: char) -> bool
    ensures { result ≡ (first == 46 && class.is_digit 10 second) }
{
    first == '.' && is_digit(10, second)
}

/// The punctuator that begins at a place, with another character than `/`.
fn mark_piece(text: &[char], place: usize, broken: bool) -> Found
    requires within { place < length text.now }
    requires first { IsOther (slice_index text.now place) }
    ensures { PieceAt text.now broken place result }
{
    let _ = broken;
    let first = at(text, place);
    let second = at(text, place + 1);
    if is_point(first, second) {
        return Err(Refusal::Number);
    }
    match mark(text, place) {
        Some((mark, after)) => Ok((Piece::Token(Kind::Mark(mark)), after)),
        None => Err(Refusal::Token),
    }
}

/// What stands at a place.
pub fn piece(alloc: Global, text: &[char], place: usize, broken: bool) -> Found
    requires { place < length text.now }
    ensures { PieceAt text.now broken place result }
{
    let c = at(text, place);
    if is_white(c) {
        return Ok((Piece::Blank, place + 1));
    }
    if is_line_end(c) {
        return Ok((Piece::Line, place + 1));
    }
    if starts(c) {
        return word_piece(alloc, text, place, broken);
    }
    if is_digit(10, c) {
        return number_piece(text, place, broken);
    }
    if is_quote(c) {
        return text_piece(alloc, text, place, broken);
    }
    if c == '/' {
        return slash_piece(text, place, broken);
    }
    mark_piece(text, place, broken)
}
