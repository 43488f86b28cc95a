//! The rows of operators and of the asks, over a host and over what runs the nodes below.
#![tactic(auto)]

pub mod asks;
pub mod operations;
