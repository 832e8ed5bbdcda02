//! Checks a resolved tree, and answers exactly by its first flaw.
#![tactic(auto)]

pub mod asked;
pub mod base;
pub mod calls;
pub mod finding;
pub mod gathered_trees;
pub mod gathering;
pub mod naming;
pub mod nodes;
pub mod numbers;
pub mod order;
pub mod outers;
pub mod part;
pub mod places;
pub mod progress;
pub mod refusal;
pub mod rows;
pub mod sight;
pub mod subqueries;
#[cfg(test)]
mod tests;
pub mod trees;
pub mod types;
pub mod typing;
pub mod whole_trees;
pub mod with_nodes;

pub use base::is_base;
pub use refusal::CheckRefusal;
pub use whole_trees::check;
