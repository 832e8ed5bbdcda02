//! Types as texts write them: which SQL type a spelling names, and which type a whole text is.
#![tactic(auto)]

pub mod parse;
pub mod plain;
pub mod spellings;
#[cfg(test)]
mod tests;

pub use parse::parse_type;
pub use spellings::type_of;
