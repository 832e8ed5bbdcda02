//! What the texts of values and rows tell: a text is that of one answer alone.
#![tactic(auto)]

pub mod laws;
