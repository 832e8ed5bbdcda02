//! The catalog: tables, views, functions and parameters, found by name.
#![tactic(auto)]

pub mod built_in;
mod by_name;
mod called;
pub mod catalog;
pub mod entries;
pub mod refusal;
mod slot;
#[cfg(test)]
mod tests;

pub use catalog::Catalog;
pub use entries::{
    Argument, Arguments, Definition, Entries, FunctionDef, Measures, ParamDef, TableDef,
    TableOrView, ViewDef, Written,
};
pub use refusal::{AddRefusal, CatalogKind, CatalogRefusal};
