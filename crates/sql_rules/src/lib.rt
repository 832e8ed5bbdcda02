//! The language: scopes, typing, and what a text means.
#![tactic(auto)]

pub mod scope;

pub use scope::{Binding, Entry, Found, Member, Members, Scope, What};
