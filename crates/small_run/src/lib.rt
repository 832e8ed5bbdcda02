//! A query of the first form, `SELECT names FROM table WHERE name = literal`: its plan over one table, and its rows.
#![tactic(auto)]

mod columns;
mod conditions;
mod equality;
pub mod form;
mod from;
mod literals;
mod parts;
mod picks;
pub mod planner;
pub mod runner;
mod selects;
#[cfg(test)]
mod tests;
mod views;

pub use form::{NoPlan, Plan};
pub use planner::plan;
pub use runner::run;
