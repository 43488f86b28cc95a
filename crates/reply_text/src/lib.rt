//! Replies from lines of JSON: each line an array of two strings, a token and the text that answers it.
#![tactic(auto)]

mod file;
mod leaf;
mod leaves;
mod line;
mod rows;

pub use file::replies;
pub use rows::{law_of_lines, rows_of_lines};

/// Why the lines of a file give no replies.
#[derive(Clone, Copy, Debug, Drop, PartialEq, Eq)]
pub enum LineStop {
    /// The first line, counted from 1, that isn't blank and no array of two strings. A string whose escapes give a lone surrogate is none, nor is one of more than 1,048,576 units.
    BadLine(u32),
    /// The first line, counted from 1, that is of the form, and whose text has more than 65,536 bytes of UTF-8.
    TooLong(u32),
    /// Memory ran out.
    Memory,
}

#[cfg(test)]
mod tests;
