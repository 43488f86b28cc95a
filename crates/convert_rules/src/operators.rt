//! Equality and order of primitives. No call takes memory.
ghost use Rattle.std.specs.Prelude.{◌≡◌};
ghost use Rattle.turk_base.specs.Conversions.{same_units};
ghost use Rattle.turk_base.specs.Operators as spec;
ghost use Rattle.turk_base.specs.Operators.{same, equal, pair_of, units_less, same_integer, nothing_equals};
ghost use Rattle.convert_rules.specs.Prims.{val_of, reading_of, equal_of, less_of};

use crate::{Prim, Reading, reading};
use turk_base::{Units, Whole};

/// `===`: the same kind and the same value.
pub fn strict(a: &Prim, b: &Prim) -> bool
    ensures { result ≡ same (val_of a.now) (val_of b.now) }
{
    match (a, b) {
        (Prim::Undefined, Prim::Undefined) => true,
        (Prim::Null, Prim::Null) => true,
        (Prim::Truth(x), Prim::Truth(y)) => *x == *y,
        (Prim::Number(x), Prim::Number(y)) => same_numbers(*x, *y),
        (Prim::Text(x), Prim::Text(y)) => same_texts(x, y),
        _ => false,
    }
}

/// `==`; None exactly where a reading that is compared is Outside.
pub fn loose(a: &Prim, b: &Prim) -> Option<bool>
    ensures { equal (val_of a.now) (val_of b.now) ≡ equal_of result }
{
    match (a, b) {
        (Prim::Undefined | Prim::Null, _) => Some(is_nothing(b)),
        (_, Prim::Undefined | Prim::Null) => Some(false),
        (Prim::Text(x), Prim::Text(y)) => Some(same_texts(x, y)),
        _ => readings_equal(reading(a), reading(b)),
    }
}

/// Whether `a` is less than `b`: None exactly where a reading that is compared is Outside, Some(None) exactly where none is and one is Nan.
pub fn less(a: &Prim, b: &Prim) -> Option<Option<bool>>
    ensures { result ≡ less_of (pair_of (val_of a.now) (val_of b.now)) }
{
    match (a, b) {
        (Prim::Text(x), Prim::Text(y)) => Some(Some(is_before(x.as_slice(), y.as_slice()))),
        _ => reading_less(reading(a), reading(b)),
    }
}

/// `==` of two readings; None exactly where one is Outside.
pub fn readings_equal(a: Reading, b: Reading) -> Option<bool>
    ensures { spec.readings_equal (reading_of a) (reading_of b) ≡ equal_of result }
{
    match a {
        Reading::Outside => None,
        Reading::Nan => match b {
            Reading::Outside => None,
            _ => Some(false),
        },
        Reading::Whole(x) => match b {
            Reading::Outside => None,
            Reading::Nan => Some(false),
            Reading::Whole(y) => Some(same_numbers(x, y)),
        },
    }
}

/// Whether the one reading is less than the other: None exactly where one is Outside, Some(None) exactly where none is and one is Nan.
pub fn reading_less(a: Reading, b: Reading) -> Option<Option<bool>>
    ensures { result ≡ less_of (spec.numbers_of (reading_of a) (reading_of b)) }
{
    match a {
        Reading::Outside => None,
        Reading::Nan => match b {
            Reading::Outside => None,
            _ => Some(None),
        },
        Reading::Whole(x) => match b {
            Reading::Outside => None,
            Reading::Nan => Some(None),
            Reading::Whole(y) => Some(Some(x.get() < y.get())),
        },
    }
}

fn is_nothing(v: &Prim) -> bool
    ensures { result ≡ nothing_equals (val_of v.now) }
{
    matches!(v, Prim::Undefined | Prim::Null)
}

/// Whether two numbers are the same.
pub fn same_numbers(a: Whole, b: Whole) -> bool
    ensures { result ≡ same_integer a b }
{
    a.get() == b.get()
}

/// Whether two texts are the same.
pub fn same_texts(a: &Units, b: &Units) -> bool
    ensures { result ≡ same_units a.now b.now }
{
    a == b
}

/// Whether the one text is before the other by units: the first place where they differ decides, and a shorter text stands before one that begins with it.
pub fn is_before(a: &[u16], b: &[u16]) -> bool
    ensures { result ≡ units_less a.now b.now }
{
    let mut x = a;
    let mut y = b;
    loop {
        match y {
            [] => return false,
            [other, ys @ ..] => match x {
                [] => return true,
                [first, xs @ ..] => {
                    if *first != *other {
                        return *first < *other;
                    }
                    x = xs;
                    y = ys;
                }
            },
        }
    }
}
