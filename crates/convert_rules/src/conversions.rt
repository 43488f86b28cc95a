//! Truth, text and reading of a primitive.
ghost use Rattle.std.specs.Prelude.{◌≡◌, Ok, IfOk};
ghost use Rattle.std.specs.Fmt.{signed_decimal};
ghost use Rattle.turk_base.specs.Conversions as spec;
ghost use Rattle.convert_rules.specs.Prims.{val_of, reading_of};

use crate::literals::read_text;
use crate::{Prim, Reading};
use itoa::Buffer;
use std::alloc::Global;
use turk_base::{NoMemory, Units, Whole};

/// Whether the value counts as true.
pub fn truth(v: &Prim) -> bool
    ensures { result ≡ spec.truth (val_of v.now) }
{
    match v {
        Prim::Undefined | Prim::Null => false,
        Prim::Truth(truth) => *truth,
        Prim::Number(number) => number.get() != 0,
        Prim::Text(units) => units.len() != 0,
    }
}

/// What the value is as a number. Takes no memory.
pub fn reading(v: &Prim) -> Reading
    ensures { spec.reading (val_of v.now) ≡ Ok (reading_of result) }
{
    match v {
        Prim::Undefined => Reading::Nan,
        Prim::Null | Prim::Truth(false) => Reading::Whole(Whole::from_u32(0)),
        Prim::Truth(true) => Reading::Whole(Whole::from_u32(1)),
        Prim::Number(number) => Reading::Whole(*number),
        Prim::Text(units) => read_text(units.as_slice()),
    }
}

/// The value's text.
pub fn text(alloc: Global, v: &Prim) -> Result<Units, NoMemory>
    ensures { IfOk result (λ units. spec.text_in (val_of v.now) ≡ Ok units) }
{
    match v {
        Prim::Undefined => Units::from_bytes(alloc, b"undefined"),
        Prim::Null => Units::from_bytes(alloc, b"null"),
        Prim::Truth(true) => Units::from_bytes(alloc, b"true"),
        Prim::Truth(false) => Units::from_bytes(alloc, b"false"),
        Prim::Number(number) => number_text(alloc, *number),
        Prim::Text(units) => units.copy(alloc),
    }
}

fn number_text(alloc: Global, number: Whole) -> Result<Units, NoMemory>
    ensures { IfOk result (λ units. units ≡ signed_decimal number) }
{
    let mut buffer = Buffer::new();
    Units::from_bytes(alloc, buffer.format(number.get()).as_bytes())
}
