//! Primitives, and what they are as numbers.
use turk_base::{Units, Whole};

/// What a value is as a number.
#[derive(Clone, Copy, Debug, Drop, PartialEq, Eq)]
pub enum Reading {
    Whole(Whole),
    /// Not a number.
    Nan,
    /// A number that isn't whole or isn't in range.
    Outside,
}

/// A value that is no object.
#[derive(Drop)]
pub enum Prim {
    Undefined,
    Null,
    Truth(bool),
    Number(Whole),
    Text(Units),
}
