//! The functions on dates, one call for each of their signatures.
#![tactic(auto)]

mod answer;
mod argument;
mod boundary;
pub mod calls;
mod field;
mod moving;
pub mod part;
#[cfg(test)]
mod tests;

pub use calls::{
    date_add_date_int64_string, date_diff_date_date_string, date_from_unix_date_int64,
    date_int64_int64_int64, date_sub_date_int64_string, date_trunc_date_string,
    extract_string_date, unix_date_date,
};
pub use part::{DateField, DatePart, field_named, part_named};
