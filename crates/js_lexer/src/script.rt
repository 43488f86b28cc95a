//! The tokens of a script.
ghost use Rattle.std.specs.Prelude.{◌≡◌, ◌≤◌, ◌<◌, ◌+◌, ◌++◌, ℕ, false, List, length, take, slice_index, encode_utf8_all, IfOk, IfErr, MatchResult};
ghost use Rattle.std.specs.Str.{chars, IsUtf8};
ghost use Rattle.js_lexer.specs.declared.Token.{Token};
ghost use Rattle.js_lexer.specs.declared.LexStop.{LexStop};
ghost use Rattle.js_lexer.specs.Tokens as spec;
ghost use Rattle.js_lexer.specs.Tokens.{CutSo, Decodes, Answers, Tokens, FirstFault, IsOnly, EndsOnce};

use crate::chars::at;
use crate::pieces::piece;
use crate::{Kind, LexStop, Piece, Refusal, Token};
use std::alloc::Global;
use std::str;

/// The greatest number of bytes of a script.
const MOST_BYTES: usize = 1_048_576;

/// How many bytes stand before a place, from how many stand before an earlier one.
fn byte_after(text: &[char], from: usize, to: usize, byte: u32) -> u32
    requires small { length (encode_utf8_all text.now) ≤ 1048576 }
    requires order { from ≤ to }
    requires within { to ≤ length text.now }
    requires byte { byte ≡ spec.byte_of text.now from }
    ensures { result ≡ spec.byte_of text.now to }
{
    let mut byte = byte;
    for i in from..to {
        byte += at(text, i).len_utf8() as u32;
    }
    byte
}

/// Adds the token that a piece is, if it is one, and tells whether a line terminator stands before
/// what follows it.
fn add(
    tokens: &mut Vec<Token>,
    piece: Piece,
    start: u32,
    end: u32,
    after: bool,
) -> Result<bool, LexStop>
    ensures ok { IfOk result (λ line. (line ≡ spec.line_after piece after) × (tokens.new.items ≡ tokens.old.items ++ spec.token_of piece start end after)) }
    ensures err { IfErr result (λ stop. stop ≡ LexStop.Memory) }
{
    match piece {
        Piece::Blank => Ok(after),
        Piece::Line => Ok(true),
        Piece::Comment(line) => Ok(after || line),
        Piece::Token(kind) => {
            let token = Token {
                kind,
                start,
                end,
                after_newline: after,
            };
            match tokens.push(token) {
                Ok(()) => Ok(false),
                Err(_) => Err(LexStop::Memory),
            }
        }
    }
}

/// The fault where no piece stands.
fn fault(text: &[char], place: usize, byte: u32, refusal: Refusal) -> LexStop
    requires small { length (encode_utf8_all text.now) ≤ 1048576 }
    requires within { place ≤ length text.now }
    requires byte { byte ≡ spec.byte_of text.now place }
    ensures { result ≡ spec.fault_at text.now place refusal }
{
    match refusal {
        Refusal::Broken => LexStop::NotUtf8(byte_after(text, place, text.len(), byte)),
        Refusal::Number => LexStop::NumberForm(byte),
        Refusal::Token => LexStop::BadToken(byte),
        Refusal::Memory => LexStop::Memory,
    }
}

/// The tokens of characters from a place on.
fn cut(alloc: Global, text: &[char], first: usize, broken: bool) -> Result<Vec<Token>, LexStop>
    requires small { length (encode_utf8_all text.now) ≤ 1048576 }
    requires within { first ≤ length text.now }
    ensures { CutSo text.now broken first (spec.items_of result) }
{
    let mut tokens = Vec::new(alloc);
    let mut place = first;
    let mut byte = byte_after(text, 0, first, 0);
    let mut after = false;
    while place < text.len() {
        let (found, next) = match piece(alloc, text, place, broken) {
            Ok(found) => found,
            Err(refusal) => return Err(fault(text, place, byte, refusal)),
        };
        let end = byte_after(text, place, next, byte);
        after = add(&mut tokens, found, byte, end, after)?;
        place = next;
        byte = end;
    }
    if broken {
        return Err(LexStop::NotUtf8(byte));
    }
    let _ = add(&mut tokens, Piece::Token(Kind::End), byte, byte, after)?;
    Ok(tokens)
}

/// The characters of a text.
fn characters(alloc: Global, text: &str) -> Result<Vec<char>, LexStop>
    ensures { MatchResult result (λ found. found.items ≡ chars text.now) (λ stop. stop ≡ LexStop.Memory) }
{
    match text.chars().collect(alloc) {
        Ok(found) => Ok(found),
        Err(_) => Err(LexStop::Memory),
    }
}

/// The characters of the longest front that is UTF-8, and whether bytes follow it.
fn decode(alloc: Global, bytes: &[u8]) -> Result<(Vec<char>, bool), LexStop>
    ensures { MatchResult result (λ r. Decodes bytes.now r.0.items r.1) (λ stop. stop ≡ LexStop.Memory) }
{
    match str::from_utf8(bytes) {
        Ok(text) => {
            let found = characters(alloc, text)?;
            Ok((found, false))
        }
        Err(error) => match str::from_utf8(&bytes[..error.valid_up_to()]) {
            Ok(text) => {
                let found = characters(alloc, text)?;
                Ok((found, true))
            }
            Err(_) => unreachable!(),
        },
    }
}

/// The tokens of a script, or its first fault.
fn read(alloc: Global, bytes: &[u8]) -> Result<Vec<Token>, LexStop>
    ensures { Answers bytes.now (spec.items_of result) }
{
    if bytes.len() > MOST_BYTES {
        return Err(LexStop::TooLarge);
    }
    let (text, broken) = decode(alloc, bytes)?;
    let first = if at(&text, 0) == '\u{FEFF}' { 1 } else { 0 };
    cut(alloc, &text, first, broken)
}

/// Cuts a script into its tokens, the last of which is `End` at the length of the bytes, and no other.
///
/// It takes at most 1,048,576 bytes of UTF-8; one U+FEFF at the start is skipped. A place is a byte's
/// index. The answers other than Ok: `TooLarge` exactly past that length; else the first of these
/// faults: `NotUtf8` at the byte where no whole character stands; `NumberForm` at a number of another
/// form than `0`, a digit 1 to 9 and digits, or `0x` and hexadecimal digits, or past `2^53`;
/// `BadToken` at anything else that begins no token. A comment or a text that reaches the byte where no
/// whole character stands is no fault of its own. `Memory` comes where memory runs out. The rules are
/// those of ECMA-262, 3rd edition, section 7, less escapes in identifiers, octal and decimal
/// fractions and exponents, and with the words of script calls.
pub fn tokens(alloc: Global, bytes: &[u8]) -> Result<Vec<Token>, LexStop>
    ensures answer { Answers bytes.now (spec.items_of result) }
    ensures end { IfOk result (λ found. EndsOnce found.items) }
    ensures tokens_only { (ts : List Token) → length bytes.now ≤ 1048576 → Tokens bytes.now ts → IsOnly (spec.items_of result) (Ok ts) }
    ensures fault_only { (f : LexStop) → length bytes.now ≤ 1048576 → FirstFault bytes.now f → IsOnly (spec.items_of result) (Err f) }
{
    read(alloc, bytes)
}
