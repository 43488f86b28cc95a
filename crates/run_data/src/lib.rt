//! What a run puts into its heap and takes from it as a whole: plain data, and the elements of an array.
#![tactic(auto)]

mod elements;
mod filling;
mod keys;
mod putting;
mod taking;

pub use filling::fill;
pub use putting::put_data;
pub use taking::take;
