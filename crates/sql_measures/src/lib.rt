//! The measures of a query: its depth and its weight.
#![tactic(auto)]

mod capped;
pub mod deep;
pub mod deep_parts;
pub mod deep_trees;
pub mod sets;
#[cfg(test)]
mod tests;
pub mod weighed;
pub mod weighed_names;
pub mod weighed_parts;
pub mod weighed_trees;

pub use deep_trees::{depth, expr_depth};
pub use sets::grouping_sets;
pub use weighed_trees::{expr_weight, weight};
