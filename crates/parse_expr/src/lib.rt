//! Reads expressions: a recursive descent that looks one token ahead.
#![tactic(auto)]

pub mod arguments;
pub mod arrays;
pub mod basics;
pub mod beginnings;
pub mod bindings;
pub mod bits;
pub mod brackets;
pub mod calls;
pub mod cases;
pub mod casts;
pub mod chains;
pub mod comparisons;
pub mod held;
pub mod logic;
pub mod parts;
pub mod reader;
pub mod single_words;
pub mod sorts;
pub mod starts;
pub mod structs;
pub mod sums;
pub mod variables;
pub mod whole;

pub use reader::Reader;
pub use starts::{Held, Opening, Start};
