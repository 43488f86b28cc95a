//! The rows of `switch` and `try`, of a statement of any kind, and of declarations and statements in a row.
#![tactic(auto)]

mod any;
mod lists;
mod switches;
mod tries;

pub use any::statement;
pub use lists::elements;
