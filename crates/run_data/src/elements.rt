//! Whether the keys of an array are just its elements.
ghost use Rattle.std.specs.Prelude.{◌≡◌, ◌≤◌, Some, IfSome};
ghost use Rattle.std.specs.Option.{option_map};
ghost use Rattle.turk_base.specs.Values.{Array, Number as NumberVal};
ghost use Rattle.turk_base.specs.Steps.{just_elements, without_length};
ghost use Rattle.value_cells.specs.Seen.{Naming, val_in};
ghost use Rattle.run_data.specs.Elements.{element_count as count_of, counted};

use run_heap::{KeyClass, class, is_length};
use turk_base::{Units, Whole};
use value_cells::Value;

// how many elements below a number a key is: none for `length`, and None for another key
fn element_count(key: &Units, many: u64) -> Option<u64>
    ensures count { result ≡ count_of many key.now }
    ensures few { IfSome result (λ n. n ≤ 1) }
{
    if is_length(key) {
        return Some(0);
    }
    match class(key.as_slice()) {
        KeyClass::Index(index) => { if (index as u64) < many { Some(1) } else { None } }
        KeyClass::Past => None,
        KeyClass::Named => None,
    }
}

// whether keys but for `length` are just the elements below a number
fn are_elements(keys: &[Units], many: u64) -> bool
    ensures { result ≡ counted many 0 keys.now }
{
    let mut found = 0u64;
    for place in 0..keys.len() {
        match element_count(&keys[place], many) {
            None => return false,
            Some(more) => found += more,
        }
    }
    found == many
}

// the same, where the number is a length
fn elements_in(keys: &[Units], number: Whole) -> Option<u64>
    ensures { result ≡ just_elements (without_length Array keys.now) (Some (NumberVal number)) }
{
    let number = number.get();
    if number < 0 {
        return None;
    }
    let many = number as u64;
    if are_elements(keys, many) {
        Some(many)
    } else {
        None
    }
}

/// How many elements an array has whose keys but for `length` are just its elements, where its
/// length is that value; None for any other array.
pub fn elements(keys: &[Units], length: &Option<Value>) -> Option<u64>
    ensures { (nu : Naming) → result ≡ just_elements (without_length Array keys.now) (option_map (val_in nu) length.now) }
{
    match length {
        Some(Value::Number(number)) => elements_in(keys, *number),
        _ => None,
    }
}
