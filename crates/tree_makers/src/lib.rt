//! The nodes of a tree, made of their parts: what is handed in as a tree is put into boxes where a node holds it so.
//!
//! Each function answers the tree of its name; it fails for want of memory alone.
#![tactic(auto)]

pub mod exprs;
pub mod stmts;
