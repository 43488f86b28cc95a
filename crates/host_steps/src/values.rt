//! What values are, without a look at any cell.
ghost use Rattle.std.specs.Prelude.{◌≡◌, ◌≤◌, IfOk, ◌++◌, ◌∷◌, []};
ghost use Rattle.turk_base.specs.Conversions as spec;
ghost use Rattle.turk_base.specs.Operators as operators;
ghost use Rattle.value_cells.specs.Needs.{needs};
ghost use Rattle.run_host.specs.Moment.{cells};
ghost use Rattle.convert_rules.specs.Prims.{reading_of};
ghost use Rattle.value_cells.specs.Seen.{Naming, Fits, val_in};
ghost use Rattle.host_steps.specs.Answered.{answer_of, text_or_none};

use convert_rules::{Prim, Reading, read_text, same_numbers, same_texts};
use run_host::{Host, Refusal};
use std::alloc::Global;
use turk_base::{NoMemory, Units, Whole};
use value_cells::Value;

/// Whether a value counts as true (ECMA-262 3rd ed. 9.2).
pub fn truth(value: &Value) -> bool
    ensures { (nu : Naming) → spec.truth (val_in nu value.now) ≡ result }
{
    match value {
        Value::Undefined => false,
        Value::Null => false,
        Value::Truth(truth) => *truth,
        Value::Number(number) => number.get() != 0,
        Value::Text(units) => units.len() > 0,
        Value::Object(_) => true,
    }
}

/// What a value is as a number (9.3); an object is refused.
pub fn reading(value: &Value) -> Result<Reading, Refusal>
    ensures { (nu : Naming) → spec.reading (val_in nu value.now) ≡ answer_of reading_of result }
{
    match value {
        Value::Undefined => Ok(Reading::Nan),
        Value::Null | Value::Truth(false) => Ok(Reading::Whole(Whole::from_u32(0))),
        Value::Truth(true) => Ok(Reading::Whole(Whole::from_u32(1))),
        Value::Number(number) => Ok(Reading::Whole(*number)),
        Value::Text(units) => Ok(read_text(units.as_slice())),
        Value::Object(_) => Err(Refusal::NoPrimitive),
    }
}

/// The number of a value; what is no whole number in range is refused.
pub fn number(value: &Value) -> Result<Whole, Refusal>
    ensures { (nu : Naming) → spec.number_in (val_in nu value.now) ≡ answer_of (λ n. n) result }
{
    let read = reading(value)?;
    match read {
        Reading::Whole(number) => Ok(number),
        _ => Err(Refusal::NotWhole),
    }
}

/// The number that bit operators take (9.4 to 9.6): what is not a number counts as 0.
pub fn integer(value: &Value) -> Result<Whole, Refusal>
    ensures { (nu : Naming) → spec.integer_in (val_in nu value.now) ≡ answer_of (λ n. n) result }
{
    let read = reading(value)?;
    match read {
        Reading::Whole(number) => Ok(number),
        Reading::Nan => Ok(Whole::from_u32(0)),
        Reading::Outside => Err(Refusal::NotWhole),
    }
}

/// The text of a value (9.8), None for an object.
pub fn plain_text(alloc: Global, value: &Value) -> Result<Option<Units>, NoMemory>
    ensures { IfOk result (λ found. (nu : Naming) → spec.text_in (val_in nu value.now) ≡ text_or_none found) }
{
    match value {
        Value::Undefined => Ok(Some(Units::from_bytes(alloc, b"undefined")?)),
        Value::Null => Ok(Some(Units::from_bytes(alloc, b"null")?)),
        Value::Truth(true) => Ok(Some(Units::from_bytes(alloc, b"true")?)),
        Value::Truth(false) => Ok(Some(Units::from_bytes(alloc, b"false")?)),
        Value::Number(number) => Ok(Some(convert_rules::text(alloc, &Prim::Number(*number))?)),
        Value::Text(units) => Ok(Some(units.copy(alloc)?)),
        Value::Object(_) => Ok(None),
    }
}

/// Whether a text is this word of ASCII.
pub fn is_word(text: &Units, word: &[u8]) -> bool
    ensures { spec.same_units word.now text.now ≡ result }
{
    let mut units = text.as_slice();
    let mut bytes = word;
    loop {
        match bytes {
            [] => return units.is_empty(),
            [byte, bs @ ..] => match units {
                [] => return false,
                [unit, us @ ..] => {
                    if *byte as u16 != *unit {
                        return false;
                    }
                    bytes = bs;
                    units = us;
                }
            },
        }
    }
}

/// Whether two values are the same (11.9.6); objects are where they are one cell.
pub fn same<H: Host>(host: &H, x: &Value, y: &Value) -> bool
    requires sound { H.is_sound host.now }
    requires x { needs x.now ≤ cells (H.moment host.now) }
    requires y { needs y.now ≤ cells (H.moment host.now) }
    ensures { (nu : Naming) → Fits nu (H.moment host.now).heap.names → operators.same (val_in nu x.now) (val_in nu y.now) ≡ result }
{
    match (x, y) {
        (Value::Undefined, Value::Undefined) => true,
        (Value::Null, Value::Null) => true,
        (Value::Truth(a), Value::Truth(b)) => *a == *b,
        (Value::Number(a), Value::Number(b)) => same_numbers(*a, *b),
        (Value::Text(a), Value::Text(b)) => same_texts(a, b),
        (Value::Object(a), Value::Object(b)) => *a == *b,
        _ => false,
    }
}

/// Adds a value to a list.
pub fn push(values: &mut Vec<Value>, value: Value) -> Result<(), NoMemory>
    ensures { IfOk result (λ _. values.new.items ≡ values.old.items ++ value ∷ []) }
{
    match values.push(value) {
        Ok(()) => Ok(()),
        Err(_) => Err(NoMemory),
    }
}
