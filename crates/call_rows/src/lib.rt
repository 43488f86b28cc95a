//! The rows of calls, `new`, `print`, `once` and `fork`, over a host and over what runs the nodes below.
#![tactic(auto)]

pub mod calls;
pub mod news;
pub mod prints;
pub mod scopes;
