//! Properties of values (ECMA-262 3rd ed. 8.6.2, 9.9, 15.5.5.1).
ghost use Rattle.std.specs.Prelude.{◌≡◌, ◌<◌, ◌≤◌, IfOk, IfErr, length, pos, if◌then◌else◌};
ghost use Rattle.std.specs.Option.{option_map};
ghost use Rattle.turk_base.specs.Errors as spec;
ghost use Rattle.turk_base.specs.Errors.{is_key};
ghost use Rattle.turk_base.specs.Values.{Number, Undefined};
ghost use Rattle.js_tree.specs.Pieces as pieces;
ghost use Rattle.js_tree.specs.Operate as operate;
ghost use Rattle.value_cells.specs.Needs.{needs, option_needs};
ghost use Rattle.value_cells.specs.Seen.{Naming, val_in};
ghost use Rattle.run_host.specs.Moment.{cells};
ghost use Rattle.run_host.specs.Told.{told_value, exit_needs};
ghost use Rattle.run_host.specs.Did.{Runs};
ghost use Rattle.run_host.specs.Steps.{Takes};

use crate::errors::type_error_of;
use crate::values::is_word;
use run_host::{Exit, Host};
use std::alloc::Global;
use turk_base::{NoMemory, Units, Whole};
use value_cells::Value;

/// Undefined and null have no properties.
pub fn has_properties<H: Host>(alloc: Global, host: &mut H, value: &Value) -> Result<(), Exit>
    requires sound { H.is_sound host.old }
    ensures did { Takes (λ nu. pieces.has_properties (val_in nu value.now)) (λ nu u. u) result (H.moment host.old) (H.moment host.new) }
    ensures more { cells (H.moment host.old) ≤ cells (H.moment host.new) }
    ensures thrown { IfErr result (λ x. exit_needs x ≤ cells (H.moment host.new)) }
    ensures sound { H.is_sound host.new }
{
    match value {
        Value::Undefined => Err(type_error_of(alloc, host, b"undefined has no properties")),
        Value::Null => Err(type_error_of(alloc, host, b"null has no properties")),
        _ => Ok(()),
    }
}

/// What was found, or undefined.
pub fn or_undefined(found: Option<Value>) -> Value
    ensures value { (nu : Naming) → spec.or_undefined (option_map (val_in nu) found) ≡ val_in nu result }
    ensures needs { needs result ≤ option_needs found }
{
    match found {
        Some(value) => value,
        None => Value::Undefined,
    }
}

/// The length of a text as a number. None is longer than 2^53: it would not fit into memory.
fn length_number(text: &Units) -> Result<Whole, NoMemory>
    ensures { IfOk result (λ n. n ≡ pos (length text.now)) }
{
    let length = text.len();
    if length > 9_007_199_254_740_992 {
        return Err(NoMemory);
    }
    Ok(Whole::make(length as i64))
}

/// The property of a text: its length, or nothing.
fn text_property(text: &Units, key: &Units) -> Result<Value, NoMemory>
    ensures value { IfOk result (λ v. (nu : Naming) → (if is_key "length" key.now then Number (pos (length text.now)) else Undefined) ≡ val_in nu v) }
    ensures needs { IfOk result (λ v. needs v ≡ 0) }
{
    if is_word(key, b"length") {
        Ok(Value::Number(length_number(text)?))
    } else {
        Ok(Value::Undefined)
    }
}

/// The property of a value; a primitive has none but the length of a text.
pub fn get_property<H: Host>(host: &mut H, base: &Value, key: &Units) -> Result<Value, Exit>
    requires sound { H.is_sound host.old }
    requires base { needs base.now ≤ cells (H.moment host.old) }
    ensures did { Takes (λ nu. pieces.get_property (val_in nu base.now) key.now) val_in result (H.moment host.old) (H.moment host.new) }
    ensures more { cells (H.moment host.old) ≤ cells (H.moment host.new) }
    ensures thrown { IfErr result (λ x. exit_needs x ≤ cells (H.moment host.new)) }
    ensures sound { H.is_sound host.new }
    ensures exists { IfOk result (λ v. needs v ≤ cells (H.moment host.new)) }
{
    match base {
        Value::Object(cell) => {
            let found = host.get(*cell, key)?;
            Ok(or_undefined(found))
        }
        Value::Text(text) => Ok(text_property(text, key)?),
        _ => Ok(Value::Undefined),
    }
}

/// Sets the property of a value; a write to a primitive does nothing.
pub fn set_property<H: Host>(
    alloc: Global,
    host: &mut H,
    base: &Value,
    key: &Units,
    value: &Value,
) -> Result<(), Exit>
    requires sound { H.is_sound host.old }
    requires base { needs base.now ≤ cells (H.moment host.old) }
    requires value { needs value.now ≤ cells (H.moment host.old) }
    ensures did { Takes (λ nu. pieces.set_property (val_in nu base.now) key.now (val_in nu value.now)) (λ nu u. u) result (H.moment host.old) (H.moment host.new) }
    ensures more { cells (H.moment host.old) ≤ cells (H.moment host.new) }
    ensures thrown { IfErr result (λ x. exit_needs x ≤ cells (H.moment host.new)) }
    ensures sound { H.is_sound host.new }
{
    match base {
        Value::Object(cell) => host.put(*cell, key, value.copy(alloc)?),
        _ => Ok(()),
    }
}

/// `delete` of a property (11.4.1).
pub fn delete_property<H: Host>(host: &mut H, base: &Value, key: &Units) -> Result<Value, Exit>
    requires sound { H.is_sound host.old }
    requires base { needs base.now ≤ cells (H.moment host.old) }
    ensures did { Runs (λ nu. operate.delete_property (val_in nu base.now) key.now) (λ nu. told_value nu result) (H.moment host.old) (H.moment host.new) }
    ensures more { cells (H.moment host.old) ≤ cells (H.moment host.new) }
    ensures thrown { IfErr result (λ x. exit_needs x ≤ cells (H.moment host.new)) }
    ensures sound { H.is_sound host.new }
    ensures exists { IfOk result (λ v. needs v ≤ cells (H.moment host.new)) }
{
    match base {
        Value::Object(cell) => {
            let gone = host.remove(*cell, key)?;
            Ok(Value::Truth(gone))
        }
        Value::Text(_) => Ok(Value::Truth(!is_word(key, b"length"))),
        _ => Ok(Value::Truth(true)),
    }
}
