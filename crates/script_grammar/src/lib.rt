//! The grammar of scripts as a table of rows, what its answers mean, and the steps of which a parser by descent is made.
#![tactic(auto)]

pub mod classes;
pub mod classify;
pub mod laws;
pub mod steps;
pub mod stop;

/// Forms of the language that scripts do not have.
#[derive(Clone, Copy, Debug, PartialEq, Eq)]
pub enum Form {
    /// `with`
    With,
    /// `eval` as a name
    Eval,
    /// `arguments` as a name
    Arguments,
    /// a regular expression
    RegExp,
    /// a label, or a jump to one
    Label,
    /// a hole in an array literal
    Elision,
    /// `delete` of what is no member
    Delete,
}
