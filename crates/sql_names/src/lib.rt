//! Names: when two are the same, which words are reserved, and how names and texts are spelled.
#![tactic(auto)]

pub mod naming;
pub mod spelling;
#[cfg(test)]
mod tests;
pub mod words;

pub use naming::{reserved_word, same_letters, same_name};
pub use spelling::{
    hex_digit, is_plain_name, quote_name, quote_text, write_name, write_separator, write_text,
};
pub use words::Reserved;
