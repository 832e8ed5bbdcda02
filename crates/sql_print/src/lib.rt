//! The canonical print of a query, and of each construct in it.
#![tactic(auto)]

pub mod clauses;
pub mod exprs;
pub mod from_items;
pub mod laws;
mod levels;
pub mod names;
pub mod operands;
pub mod parts;
pub mod printed;
mod printed_trees;
pub mod queries;
mod query_text;
pub mod spelled;
pub mod words;
pub mod writer;

pub use query_text::print_query;
