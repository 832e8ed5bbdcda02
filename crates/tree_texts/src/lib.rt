//! The text of a resolved tree tells the tree.
#![tactic(auto)]

pub mod laws;
