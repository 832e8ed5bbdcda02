//! The kernels over rows: joins, set operations, orders and cuts.
#![tactic(auto)]

pub mod cutting;
mod join_parts;
pub mod joining;
mod key_index;
pub mod key_joining;
mod list_parts;
mod set_parts;
pub mod sets;
pub mod sorting;
mod tally;
#[cfg(test)]
mod tests;

pub use cutting::cut_rows;
pub use joining::join_rows;
pub use key_joining::join_equal;
pub use sets::set_rows;
pub use sorting::sort_rows;
