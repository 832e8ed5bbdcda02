//! Tests that texts of queries are printed as the grammar's canonical print, and read back from it.
#![tactic(auto)]

#[cfg(test)]
mod tests;
