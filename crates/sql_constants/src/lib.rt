//! Constants as texts: which tokens are a constant of a type, and its value.
#![tactic(auto)]

mod constants;
mod cursor;
pub mod integers;
pub mod laws;
mod literals;
pub mod parse;
#[cfg(test)]
mod tests;

pub use integers::integer_value;
pub use parse::parse_constant;
