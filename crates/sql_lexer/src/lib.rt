//! The tokens of a text, and how deep its brackets nest.
#![tactic(auto)]

pub mod escape;
pub mod laws;
pub mod lexer;
pub mod literal;
pub mod machine;
pub mod nesting;
pub mod number;
pub mod piece;
pub mod tokens;

pub use lexer::lex;
pub use nesting::nest;
pub use tokens::{LexFault, Tokens};

#[cfg(test)]
mod tests;
