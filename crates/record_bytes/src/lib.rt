//! Records, heads and tasks as bytes, each with one spelling.
#![tactic(auto)]

mod heads;
mod records;
mod stop;
mod tasks;
#[cfg(test)]
mod tests;
mod texts;
mod trees;

pub use heads::{decode_head, encode_head};
pub use records::{decode, encode};
pub use tasks::{decode_task, encode_task};
use turk_base::{Bytes, Name};

/// What a journal begins with.
#[derive(Drop)]
pub struct Head {
    pub name: Name,
    /// The units that a run may spend, from 1 to 20,000,000.
    pub fuel: u64,
    /// At most 1,048,576 bytes.
    pub script: Bytes,
}
