//! The functions on STRING and BYTES, and LIKE.
#![tactic(auto)]

mod arguments;
pub mod array_to_string;
mod characters;
pub mod concat;
pub mod hex_digits;
pub mod lengths;
pub mod matching;
pub mod parts;
mod pattern;
pub mod places;
pub mod repeat;
pub mod replace;
pub mod reverse;
mod search;
pub mod split;
mod symbols;
#[cfg(test)]
mod tests;
pub mod trim;

pub use array_to_string::array_to_string_array_string_string;
pub use concat::{concat_bytes, concat_string, join_bytes_bytes, join_string_string};
pub use hex_digits::{from_hex_string, to_hex_bytes};
pub use lengths::{
    byte_length_bytes, byte_length_string, char_length_string, length_bytes, length_string,
};
pub use matching::like;
pub use parts::{substr_bytes_int64_int64, substr_string_int64_int64};
pub use places::{
    ends_with_bytes_bytes, ends_with_string_string, starts_with_bytes_bytes,
    starts_with_string_string, strpos_bytes_bytes, strpos_string_string,
};
pub use repeat::{repeat_bytes_int64, repeat_string_int64};
pub use replace::{replace_bytes_bytes_bytes, replace_string_string_string};
pub use reverse::{reverse_bytes, reverse_string};
pub use split::split_string_string;
pub use trim::{ltrim_string_string, rtrim_string_string, trim_string_string};
