//! Groups of rows, and their aggregates.
#![tactic(auto)]

pub mod aggregating;
pub mod grouping;
pub mod groups;
#[cfg(test)]
mod separator_tests;
#[cfg(test)]
mod tests;

pub use aggregating::{Places, aggregate_rows};
pub use grouping::group_rows;
pub use groups::{Group, Groups};
