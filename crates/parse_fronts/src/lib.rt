//! Reads the expression that stands at the front of tokens: as far as it goes, whatever stands behind it.
#![tactic(auto)]

pub mod copies;
pub mod expressions;
pub mod stars;

pub use expressions::parse_expression;

#[cfg(test)]
mod tests;
