//! Tests of the nodes that `tree_makers` makes and of what `tree_drops` lets go of. They stand in a crate of their own,
//! since a crate with tests is proved twice.
#![tactic(auto)]

#[cfg(test)]
mod drops;
#[cfg(test)]
mod makers;
