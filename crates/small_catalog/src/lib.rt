//! The catalog of one table, as JSON holds it.
#![tactic(auto)]

pub mod catalog;
mod column;
mod entry;
pub mod laws;
pub mod refusal;

pub use catalog::read_catalog;
pub use refusal::CatalogRefusal;

#[cfg(test)]
mod tests;
