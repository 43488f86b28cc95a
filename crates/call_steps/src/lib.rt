//! The steps of calls over a host: the names of a frame, how calls end, built-in methods, and the line of `print`.
#![tactic(auto)]

pub mod ends;
pub mod lines;
pub mod names;
