//! The built-in methods by their keys (ECMA-262 3rd ed. 15.4.4, 15.5.4).
ghost use Rattle.std.specs.Prelude.{◌≡◌};
ghost use Rattle.turk_base.specs.BuiltIns as spec;
ghost use Rattle.value_cells.specs.Seen.{Naming, kind_in};

use host_steps::values::is_word;
use turk_base::Units;
use value_cells::CellKind;

/// The method of an array under a key.
fn array_method(key: &Units) -> Option<u8>
    ensures { spec.array_method key.now ≡ result }
{
    if is_word(key, b"push") {
        Some(0)
    } else if is_word(key, b"pop") {
        Some(1)
    } else if is_word(key, b"join") {
        Some(2)
    } else if is_word(key, b"concat") {
        Some(3)
    } else if is_word(key, b"slice") {
        Some(4)
    } else if is_word(key, b"reverse") {
        Some(5)
    } else {
        None
    }
}

/// The method of a text under a key.
pub fn text_method(key: &Units) -> Option<u8>
    ensures { spec.text_method key.now ≡ result }
{
    if is_word(key, b"charAt") {
        Some(6)
    } else if is_word(key, b"charCodeAt") {
        Some(7)
    } else if is_word(key, b"indexOf") {
        Some(8)
    } else if is_word(key, b"substring") {
        Some(9)
    } else if is_word(key, b"split") {
        Some(10)
    } else {
        None
    }
}

/// The method of the cell of String under a key.
fn string_method(key: &Units) -> Option<u8>
    ensures { spec.string_method key.now ≡ result }
{
    if is_word(key, b"fromCharCode") {
        Some(11)
    } else {
        None
    }
}

/// The method of a cell under a key, by the cell's kind.
pub fn cell_method(kind: CellKind, key: &Units) -> Option<u8>
    ensures { (nu : Naming) → spec.cell_method (kind_in nu kind) key.now ≡ result }
{
    match kind {
        CellKind::Array => array_method(key),
        CellKind::BuiltIn(which) => {
            if which == 12 {
                string_method(key)
            } else {
                None
            }
        }
        CellKind::Frame(_) => None,
        CellKind::Plain(_) => None,
        CellKind::Function(_, _) => None,
    }
}
