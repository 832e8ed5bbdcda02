//! Whether two trees are the same: places aside, and names by their letters, case aside.
#![tactic(auto)]

pub mod alike;
pub mod alike_names;
pub mod alike_parts;
pub mod alike_trees;

pub use alike::Alike;
pub use alike_trees::same_expr;
