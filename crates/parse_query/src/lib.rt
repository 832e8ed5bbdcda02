//! Reads queries, and texts of queries and of expressions: a recursive descent that looks one token ahead.
#![tactic(auto)]

pub mod beginnings;
pub mod descent;
pub mod ends;
pub mod items;
pub mod laws;
pub mod parser;
pub mod selects;
pub mod set_operations;
pub mod whole_queries;

pub use parser::{parse, parse_body, parse_tokens};

#[cfg(test)]
mod tests;
