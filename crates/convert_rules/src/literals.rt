//! What a text reads as (ECMA-262 3rd ed. 9.3.1). No call takes memory.
ghost use Rattle.std.specs.Prelude.{◌≡◌, ◌==◌, ◌≤◌, ◌<◌, ◌^◌, IsTrue, reverse, true, Some, None, codes, drop, length, if◌then◌else◌};
ghost use Rattle.turk_base.specs.Conversions as spec;
ghost use Rattle.turk_base.specs.Conversions.{every, all_of};
ghost use Rattle.convert_rules.specs.Prims.{reading_of};
ghost use Rattle.convert_rules.specs.Digits.{value_or_none, pointed, CutsAt};

use crate::Reading;
use turk_base::Whole;

static INFINITY: [u16; 8] = [73, 110, 102, 105, 110, 105, 116, 121];

const GREATEST: u64 = 9_007_199_254_740_992;

/// What a text reads as.
pub fn read_text(units: &[u16]) -> Reading
    ensures { reading_of result ≡ spec.read_text units.now }
{
    read_trimmed(trim_end(trim_start(units)))
}

fn read_trimmed(units: &[u16]) -> Reading
    ensures { reading_of result ≡ spec.read_trimmed units.now }
{
    if units.is_empty() {
        return Reading::Whole(Whole::from_u32(0));
    }
    if has_hex_mark(units) {
        read_hex(&units[2..])
    } else {
        read_decimal(units)
    }
}

// the text begins with `0x` or `0X`
fn has_hex_mark(units: &[u16]) -> bool
    ensures rest { spec.hex_body units.now ≡ (if result then Some (drop 2 units.now) else None) }
    ensures long { IsTrue result → 2 ≤ length units.now }
{
    match units {
        [first, second, ..] => *first == 48 && (*second == 120 || *second == 88),
        _ => false,
    }
}

fn read_hex(units: &[u16]) -> Reading
    ensures { reading_of result ≡ spec.read_hex (Some units.now) units.now }
{
    if units.is_empty() || !are_hex_digits(units) {
        return Reading::Nan;
    }
    match value(units, 16) {
        Some(number) => Reading::Whole(Whole::make(number as i64)),
        None => Reading::Outside,
    }
}

fn read_decimal(units: &[u16]) -> Reading
    ensures { reading_of result ≡ spec.read_decimal units.now }
{
    let digits = unsigned(units);
    if digits.is_empty() || !are_digits(digits) {
        return if is_decimal_literal(digits) {
            Reading::Outside
        } else {
            Reading::Nan
        };
    }
    match value(digits, 10) {
        Some(number) => Reading::Whole(signed(is_negative(units), number)),
        None => Reading::Outside,
    }
}

fn signed(negative: bool, number: u64) -> Whole
    requires { number ≤ 2 ^ 53 }
    ensures { result ≡ spec.signed negative number }
{
    let whole = Whole::make(number as i64);
    if negative { whole.negated() } else { whole }
}

// the number that digits spell, None past 2^53
fn value(units: &[u16], base: u64) -> Option<u64>
    requires digits { every spec.hex_digit units.now ≡ true }
    requires low { 1 ≤ base }
    requires high { base ≤ 16 }
    ensures { result ≡ value_or_none (spec.value_onto base 0 units.now) }
{
    let mut value = 0;
    for unit in units {
        value = value * base + digit_value(*unit);
        if value > GREATEST {
            return None;
        }
    }
    Some(value)
}

fn digit_value(unit: u16) -> u64
    requires { IsTrue (spec.hex_digit unit) }
    ensures value { result ≡ spec.digit_value unit }
    ensures small { result < 16 }
{
    if unit < 65 {
        unit as u64 - 48
    } else if unit < 97 {
        unit as u64 - 55
    } else {
        unit as u64 - 87
    }
}

// `Infinity`, or digits with a point or an exponent
fn is_decimal_literal(units: &[u16]) -> bool
    ensures { result ≡ spec.decimal_literal units.now }
{
    if is_infinity(units) {
        return true;
    }
    match exponent_place(units) {
        None => is_pointed(units),
        Some(place) => {
            if !is_pointed(&units[..place]) {
                return false;
            }
            is_exponent(&units[place + 1..])
        }
    }
}

// the place of the first exponent mark
fn exponent_place(units: &[u16]) -> Option<usize>
    ensures { CutsAt spec.exponent_mark units.now result }
{
    for place in 0..units.len() {
        if is_exponent_mark(units[place]) {
            return Some(place);
        }
    }
    None
}

// the place of the first point
fn point_place(units: &[u16]) -> Option<usize>
    ensures { CutsAt (◌== 46) units.now result }
{
    for place in 0..units.len() {
        if units[place] == 46 {
            return Some(place);
        }
    }
    None
}

fn is_infinity(units: &[u16]) -> bool
    ensures { result ≡ spec.same_units units.now (codes "Infinity") }
{
    units == INFINITY.as_slice()
}

// digits, with a point or without one
fn is_pointed(units: &[u16]) -> bool
    ensures { result ≡ pointed units.now }
{
    match point_place(units) {
        None => !units.is_empty() && are_digits(units),
        Some(place) => {
            if !are_digits(&units[..place]) {
                return false;
            }
            if !are_digits(&units[place + 1..]) {
                return false;
            }
            units.len() > 1
        }
    }
}

// what stands after an exponent's mark
fn is_exponent(units: &[u16]) -> bool
    ensures { result ≡ all_of spec.digit (spec.unsigned units.now) }
{
    let digits = unsigned(units);
    !digits.is_empty() && are_digits(digits)
}

fn unsigned(units: &[u16]) -> &[u16]
    ensures { result.now ≡ spec.unsigned units.now }
{
    match units {
        [43 | 45, rest @ ..] => rest,
        _ => units,
    }
}

fn is_negative(units: &[u16]) -> bool
    ensures { result ≡ spec.negative units.now }
{
    matches!(units, [45, ..])
}

fn are_digits(units: &[u16]) -> bool
    ensures { result ≡ every spec.digit units.now }
{
    for unit in units {
        if !is_digit(*unit) {
            return false;
        }
    }
    true
}

fn are_hex_digits(units: &[u16]) -> bool
    ensures { result ≡ every spec.hex_digit units.now }
{
    for unit in units {
        if !is_hex_digit(*unit) {
            return false;
        }
    }
    true
}

fn is_digit(unit: u16) -> bool
    ensures { result ≡ spec.digit unit }
{
    matches!(unit, 48..=57)
}

fn is_hex_digit(unit: u16) -> bool
    ensures { result ≡ spec.hex_digit unit }
{
    matches!(unit, 48..=57 | 65..=70 | 97..=102)
}

fn is_exponent_mark(unit: u16) -> bool
    ensures { result ≡ spec.exponent_mark unit }
{
    matches!(unit, 69 | 101)
}

fn is_blank(unit: u16) -> bool
    ensures { result ≡ spec.blank unit }
{
    matches!(unit, 9..=13 | 32 | 160 | 5760 | 8192..=8202 | 8232..=8233 | 8239 | 8287 | 12288)
}

fn trim_start(units: &[u16]) -> &[u16]
    ensures { result.now ≡ spec.trim_front units.now }
{
    let mut rest = units;
    while let [first, tail @ ..] = rest {
        if !is_blank(*first) {
            return rest;
        }
        rest = tail;
    }
    rest
}

fn trim_end(units: &[u16]) -> &[u16]
    ensures { result.now ≡ reverse (spec.trim_front (reverse units.now)) }
{
    let mut rest = units;
    while let [front @ .., last] = rest {
        if !is_blank(*last) {
            return rest;
        }
        rest = front;
    }
    rest
}
