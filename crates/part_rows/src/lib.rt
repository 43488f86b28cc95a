//! What the rows of statements are made of.
#![tactic(auto)]

pub mod below;
pub mod finish;
pub mod parts;
pub mod round;
