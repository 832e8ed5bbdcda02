//! The functions on integers, truth values and arrays, the comparisons and the choices: one call for each signature.
#![tactic(auto)]

mod arguments;
pub mod arithmetic;
pub mod arrays;
pub mod bits;
pub mod choices;
pub mod comparisons;
pub mod divisions;
pub mod extremes;
pub mod generated;
pub mod joining;
pub mod logic;
mod results;
pub mod safe;
pub mod signs;
#[cfg(test)]
mod tests;

pub use arithmetic::{
    add_int64_int64, add_uint64_uint64, mul_int64_int64, mul_uint64_uint64, sub_int64_int64,
    sub_uint64_uint64,
};
pub use arrays::{
    array_first_array, array_includes_array_any, array_last_array, array_length_array,
};
pub use bits::{
    bitand_int64_int64, bitand_uint64_uint64, bitor_int64_int64, bitor_uint64_uint64,
    bitxor_int64_int64, bitxor_uint64_uint64, flip_int64, flip_uint64, shl_int64_int64,
    shl_uint64_int64, shr_int64_int64, shr_uint64_int64,
};
pub use choices::{
    coalesce_any, error_string, if_bool_any_any, iferror_any_any, ifnull_any_any, iserror_any,
    nullif_any_any, nulliferror_any,
};
pub use comparisons::{
    between_any_any_any, distinct_any_any, eq_any_any, ge_any_any, gt_any_any, le_any_any,
    lt_any_any, ne_any_any,
};
pub use divisions::{div_int64_int64, div_uint64_uint64, mod_int64_int64, mod_uint64_uint64};
pub use extremes::{greatest_any, least_any};
pub use generated::generate_array_int64_int64_int64;
pub use joining::{array_concat_array, array_reverse_array, join_array_array};
pub use logic::{and_bool_bool, is_false_bool, is_null_any, is_true_bool, not_bool, or_bool_bool};
pub use safe::{
    safe_add_int64_int64, safe_add_uint64_uint64, safe_multiply_int64_int64,
    safe_multiply_uint64_uint64, safe_subtract_int64_int64, safe_subtract_uint64_uint64,
};
pub use signs::{abs_int64, neg_int64, pos_int64, pos_uint64, sign_int64};
