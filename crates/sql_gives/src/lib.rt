//! The value of a row of the signature table has the type that the row gives.
#![tactic(auto)]

pub mod laws;
