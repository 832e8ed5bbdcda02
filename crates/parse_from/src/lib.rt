//! Reads FROM: tables, paths, UNNEST, queries in brackets, joins, PIVOT and UNPIVOT.
#![tactic(auto)]

pub mod beginnings;
pub mod joins;
pub mod primaries;
pub mod turns;

pub use joins::from_part;
