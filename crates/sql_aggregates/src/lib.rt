//! The aggregates: what a list of values comes to.
#![tactic(auto)]

pub mod accumulator;
pub mod answer_types;
mod answers;
mod arguments;
pub mod call;
mod choosing;
mod counts;
mod extremes;
pub mod identity;
#[cfg(test)]
mod tests;
mod texts;
mod truths;

pub use accumulator::Accumulator;
pub use answer_types::answer_type;
pub use call::{AggCall, AggName};
pub use identity::{identity_order, identity_order_of_rows};
