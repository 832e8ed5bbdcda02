//! What a valid tree gives has the types that it says.
#![tactic(auto)]

pub mod laws;
