//! The conversions of primitives, equality and order (ECMA-262 3rd ed. 9, 11.8.5, 11.9), with whole numbers.
#![tactic(auto)]

mod conversions;
mod kinds;
mod literals;
mod operators;
#[cfg(test)]
mod tests;

pub use conversions::{reading, text, truth};
pub use kinds::{Prim, Reading};
pub use literals::read_text;
pub use operators::{
    is_before, less, loose, reading_less, readings_equal, same_numbers, same_texts, strict,
};
