//! The rows of expressions: each reads one symbol of the grammar from the tokens, over functions that are handed in and
//! read what stands deeper.
#![tactic(auto)]

pub mod deeper;
pub mod delete;
pub mod expressions;
pub mod lists;
mod makers;
pub mod operands;
pub mod operators;
pub mod primary;
pub mod unary;
