//! Lets go of parts of trees.
//!
//! A function that lets go of an expression by itself is checked over all types of a tree once more, so that what the walk
//! does not need is handed to these.

use js_tree::{Expr, ForStart, ForTarget};

/// Lets go of an expression.
pub fn expr(_it: Expr) {}

/// Lets go of an expression, where it stands.
pub fn option(it: Option<Expr>) {
    match it {
        Some(it) => expr(it),
        None => {}
    }
}

/// Lets go of the first part in the head of a `for`.
pub fn start(it: ForStart) {
    match it {
        ForStart::NoStart => {}
        ForStart::ValueStart(it) => expr(it),
        ForStart::VarStart(_it) => {}
    }
}

/// Lets go of what a `for` .. `in` sets.
pub fn target(it: ForTarget) {
    match it {
        ForTarget::TargetEach(it) => expr(it),
        ForTarget::VarEach(_it) => {}
    }
}
