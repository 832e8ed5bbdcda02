//! Tables as CSV files hold them.
#![tactic(auto)]

mod cell;
mod records;
pub mod refusal;
mod row;
pub mod table;

pub use refusal::TableRefusal;
pub use table::read_table;

#[cfg(test)]
mod tests;
