//! The distinct keys of rows, found by a hash.
#![tactic(auto)]

pub mod classes;
mod hashing;
pub mod key;
#[cfg(test)]
mod tests;

pub use classes::Classes;
pub use key::Key;
