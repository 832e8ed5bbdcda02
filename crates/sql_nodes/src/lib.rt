//! The nodes of a parse tree, each made in a box: a box is passed on for the price of its address, whatever stands in it.
#![tactic(auto)]

pub mod boxes;
pub mod expr_nodes;
pub mod part_nodes;
pub mod query_nodes;
