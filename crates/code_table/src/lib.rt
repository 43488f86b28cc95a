//! The codes of a script's functions, by their numbers, and the names that statements declare.
//!
//! A table lends its trees from the script: only the declared names of each function are copied, once. The work is linear in
//! the script.
#![tactic(auto)]

mod codes;
mod hoist;
#[cfg(test)]
mod tests;

pub use codes::{codes_of, whole};
pub use hoist::variables;
