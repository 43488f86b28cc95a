//! Numbers.
ghost use Rattle.std.specs.Prelude.{◌≡◌, ◌≤◌, ◌<◌, ◌+◌, ◌-◌, ◌*◌, ◌^◌, ◌⊎◌, ℕ, true, false, length, slice_index, IfSome, IfNone};
ghost use Rattle.js_lexer.specs.Chars as class;
ghost use Rattle.js_lexer.specs.Pieces as spec;
ghost use Rattle.js_lexer.specs.Pieces.{IsNumber, AreDigits, value, IsHexSign};

use crate::chars::{at, is_digit, starts};

/// The greatest number.
const GREATEST: u64 = 9_007_199_254_740_992;

/// Whether a number may be followed by the character.
fn follows_number(c: char) -> bool
    ensures { result ≡ spec.follows_number c }
{
    !(is_digit(10, c) || c == '.' || starts(c))
}

/// The value with one digit more, or the same value where it is past the greatest number.
fn more(base: u32, value: u64, digit: u32) -> u64
    requires base { base ≤ 16 }
    requires digit { digit < base }
    ensures small { value ≤ 2 ^ 53 → result ≡ value * base + digit }
    ensures large { 2 ^ 53 < value → result ≡ value }
{
    if value > GREATEST {
        return value;
    }
    value * u64::from(base) + u64::from(digit)
}

/// The longest run of digits from a place on, with the place after it, and its value or, where that
/// is past the greatest number, some value past it.
fn digits(base: u32, text: &[char], place: usize) -> (u64, usize)
    requires base { (base ≡ 10) ⊎ (base ≡ 16) }
    requires within { place ≤ length text.now }
    ensures after { place ≤ result.1 }
    ensures within { result.1 ≤ length text.now }
    ensures each { AreDigits base text.now place result.1 }
    ensures stop { class.is_digit base (slice_index text.now result.1) ≡ false }
    ensures small { result.0 ≤ 2 ^ 53 → result.0 ≡ value base text.now place (result.1 - place) }
    ensures large { 2 ^ 53 < result.0 → 2 ^ 53 < value base text.now place (result.1 - place) }
{
    let mut value = 0;
    let mut after = place;
    while let Some(digit) = at(text, after).to_digit(base) {
        value = more(base, value, digit);
        after += 1;
    }
    (value, after)
}

/// The value and the place after it, where these make a number.
fn finish(text: &[char], value: u64, after: usize) -> Option<(u64, usize)>
    ensures found { IfSome result (λ r. (r ≡ (value, after)) × (value ≤ 2 ^ 53) × (spec.follows_number (slice_index text.now after) ≡ true)) }
    ensures none { IfNone result (value ≤ 2 ^ 53 → spec.follows_number (slice_index text.now after) ≡ true → ⊥) }
{
    if value > GREATEST || !follows_number(at(text, after)) {
        None
    } else {
        Some((value, after))
    }
}

/// The number that begins with a digit 1 to 9.
fn decimal(text: &[char], place: usize) -> Option<(u64, usize)>
    requires within { place < length text.now }
    requires digit { class.is_digit 10 (slice_index text.now place) ≡ true }
    requires first { slice_index text.now place ≡ 48 → ⊥ }
    ensures found { IfSome result (λ r. IsNumber text.now r.0 place r.1) }
    ensures none { IfNone result ((n j : ℕ) → IsNumber text.now n place j → ⊥) }
{
    let (value, after) = digits(10, text, place);
    finish(text, value, after)
}

/// The number that begins with `0x`.
fn hexadecimal(text: &[char], place: usize) -> Option<(u64, usize)>
    requires within { place + 2 ≤ length text.now }
    requires first { slice_index text.now place ≡ 48 }
    requires second { IsHexSign (slice_index text.now (place + 1)) }
    ensures found { IfSome result (λ r. IsNumber text.now r.0 place r.1) }
    ensures none { IfNone result ((n j : ℕ) → IsNumber text.now n place j → ⊥) }
{
    let (value, after) = digits(16, text, place + 2);
    if after == place + 2 {
        return None;
    }
    finish(text, value, after)
}

/// The number `0`.
fn zero(text: &[char], place: usize) -> Option<(u64, usize)>
    requires within { place < length text.now }
    requires first { slice_index text.now place ≡ 48 }
    requires second { IsHexSign (slice_index text.now (place + 1)) → ⊥ }
    ensures found { IfSome result (λ r. IsNumber text.now r.0 place r.1) }
    ensures none { IfNone result ((n j : ℕ) → IsNumber text.now n place j → ⊥) }
{
    finish(text, 0, place + 1)
}

/// The number that begins at a place, with the place after it.
pub fn number(text: &[char], place: usize) -> Option<(u64, usize)>
    requires within { place < length text.now }
    requires digit { class.is_digit 10 (slice_index text.now place) ≡ true }
    ensures found { IfSome result (λ r. IsNumber text.now r.0 place r.1) }
    ensures none { IfNone result ((n j : ℕ) → IsNumber text.now n place j → ⊥) }
{
    let first = at(text, place);
    if first != '0' {
        return decimal(text, place);
    }
    let second = at(text, place + 1);
    if place + 1 < text.len() && (second == 'x' || second == 'X') {
        hexadecimal(text, place)
    } else {
        zero(text, place)
    }
}
