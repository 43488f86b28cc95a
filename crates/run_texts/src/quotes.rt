//! Texts between quotation marks.
ghost use Rattle.std.specs.Prelude.{◌≡◌, ◌<◌, ◌≤◌, ◌∷◌, [], ◌++◌, length, drop, IfOk, codes};
ghost use Rattle.std.specs.Char.Utf16.{is_high_surrogate, is_low_surrogate};
ghost use Rattle.run_texts.specs.Texts.{hex_digit, four_digits, begins_pair, single, escaped, quoted};

use turk_base::{NoMemory, Units};

/// Adds a text between quotation marks. A quotation mark and a backslash have a backslash before
/// them; a unit below 32, and a surrogate without its partner, is `\u` and four hexadecimal digits
/// in lower case; all else stands as it is, also a high surrogate and the low one after it.
pub fn push_quoted(text: &mut Units, units: &Units) -> Result<(), NoMemory>
    ensures { IfOk result (λ _. text.new ≡ text.old ++ quoted units.now) }
{
    text.push(34)?;
    push_escaped(text, units.as_slice())?;
    text.push(34)
}

fn push_escaped(text: &mut Units, units: &[u16]) -> Result<(), NoMemory>
    ensures { IfOk result (λ _. text.new ≡ text.old ++ escaped units.now) }
{
    let mut at = 0;
    while at < units.len() {
        at = push_next(text, units, at)?;
    }
    Ok(())
}

// adds the unit at a place, or the pair that begins there, and answers the place after it
fn push_next(text: &mut Units, units: &[u16], at: usize) -> Result<usize, NoMemory>
    requires { at < length units.now }
    ensures bound { IfOk result (λ next. (at < next) × (next ≤ length units.now)) }
    ensures added { IfOk result (λ next. text.new ++ escaped (drop next units.now) ≡ text.old ++ escaped (drop at units.now)) }
{
    if is_pair_at(units, at) {
        text.push(units[at])?;
        text.push(units[at + 1])?;
        return Ok(at + 2);
    }
    push_single(text, units[at])?;
    Ok(at + 1)
}

// whether a high surrogate stands at the place and a low one after it
fn is_pair_at(units: &[u16], at: usize) -> bool
    requires { at < length units.now }
    ensures { result ≡ begins_pair (drop at units.now) }
{
    if at + 1 == units.len() {
        return false;
    }
    is_high(units[at]) && is_low(units[at + 1])
}

fn is_high(unit: u16) -> bool
    ensures { result ≡ is_high_surrogate unit }
{
    unit >= 0xD800 && unit < 0xDC00
}

fn is_low(unit: u16) -> bool
    ensures { result ≡ is_low_surrogate unit }
{
    unit >= 0xDC00 && unit < 0xE000
}

// adds a unit that stands in no pair
fn push_single(text: &mut Units, unit: u16) -> Result<(), NoMemory>
    ensures { IfOk result (λ _. text.new ≡ text.old ++ single unit) }
{
    if unit == 34 || unit == 92 {
        text.push(92)?;
        return text.push(unit);
    }
    if unit < 32 || is_high(unit) || is_low(unit) {
        return push_by_number(text, unit);
    }
    text.push(unit)
}

// adds a unit's number as `\u` and four digits
fn push_by_number(text: &mut Units, unit: u16) -> Result<(), NoMemory>
    ensures { IfOk result (λ _. text.new ≡ text.old ++ (codes "\\u" ++ four_digits unit)) }
{
    text.push_bytes(b"\\u")?;
    text.push(hex_digit(unit / 4096))?;
    text.push(hex_digit(unit / 256 % 16))?;
    text.push(hex_digit(unit / 16 % 16))?;
    text.push(hex_digit(unit % 16))
}

fn hex_digit(number: u16) -> u16
    requires { number < 16 }
    ensures { result ≡ hex_digit number }
{
    if number < 10 {
        48 + number
    } else {
        87 + number
    }
}
