//! Reads GROUP BY.
#![tactic(auto)]

pub mod beginnings;
pub mod groupings;

pub use groupings::group_by;
