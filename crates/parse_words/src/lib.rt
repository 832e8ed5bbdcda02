//! Reads what stands in a text beside its expressions and queries: single tokens, names, options and types. A descent looks one
//! token ahead.
#![tactic(auto)]

pub mod cursor;
pub mod kept;
pub mod marks;
pub mod names;
pub mod options;
pub mod repeat;
pub mod saying;
pub mod takes;
pub mod telling;
pub mod type_starts;
pub mod types;

pub use cursor::{Read, expect, refusal_at, sees, start_at, token_at};
pub use kept::Kept;
pub use marks::Mark;
