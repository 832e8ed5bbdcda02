//! The signature table, the choice among signatures, and their values.
#![tactic(auto)]

mod candidates;
pub mod choice;
pub mod choosing;
mod coercion;
mod costs;
mod dated;
mod kernels;
mod liked;
mod open_types;
mod places;
pub mod sig;
pub mod table;
mod targets;
#[cfg(test)]
mod tests;

pub use choice::Choice;
pub use choosing::choose;
pub use kernels::apply;
pub use sig::SigId;
pub use table::{Needs, ROWS, Repeats, Row, Slot};
