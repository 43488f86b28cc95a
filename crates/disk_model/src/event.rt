//! What a disk in memory keeps of its calls.

/// Bytes that were written at a place.
#[derive(Drop)]
pub struct Write {
    pub at: usize,
    pub bytes: Vec<u8>,
}

/// A write, or a sync after writes.
#[derive(Drop)]
pub enum Event {
    Wrote(Write),
    Synced,
}
