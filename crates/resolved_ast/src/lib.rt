//! The resolved tree of a query: columns by number, types everywhere, and nothing looked up by name.
#![tactic(auto)]

pub mod checked;
pub mod column;
pub mod flaw;
pub mod laws;
mod lines;
mod page;
pub mod rex;
pub mod scan;
mod shown;
mod shown_trees;
pub mod signature_names;
mod spelled;
#[cfg(test)]
mod tests;

pub use checked::Checked;
pub use column::{ColumnId, ColumnRef, ColumnRefs, MadeColumn, MadeColumns};
pub use flaw::{Flaw, FlawKind};
pub use rex::{Compute, Rex};
pub use scan::{Cte, Output, Outputs, Scan, Tree, UnnestKind};
pub use shown_trees::tree_text;
