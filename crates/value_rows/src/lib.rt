//! Operators on values, `typeof`, and the asks, over a host.
#![tactic(auto)]

pub mod asks;
pub mod comparisons;
pub mod methods;
pub mod operators;
pub mod sums;
pub mod types;
