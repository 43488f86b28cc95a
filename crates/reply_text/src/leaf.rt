//! A member of a line.

/// A text or a whole number of a line.
#[derive(Drop)]
pub enum Leaf {
    Text(String),
    Whole(u64),
}
