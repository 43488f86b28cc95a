//! The rows of the evaluator: what each kind of node does, over a host and over what runs the nodes below.
#![tactic(auto)]

mod arrays;
mod below;
mod codes;
mod expressions;
mod for_ins;
mod fors;
mod kinds;
mod loops;
mod places;
mod statements;
mod switches;
mod tries;
mod variables;

pub use below::Below;
pub use codes::{CodeRef, Codes};
