//! SAFE_ADD, SAFE_SUBTRACT and SAFE_MULTIPLY: as `+`, `-` and `*`, with NULL in place of a fault.
ghost use Rattle.std.specs.Prelude.{◌≡◌, [], ◌∷◌, true, Ok};
ghost use Rattle.sql_types.specs.declared.sql_type.SqlType.TheVariants as types;
ghost use Rattle.sql_types.specs.Takes.{fits_types, as_int64, as_uint64};
ghost use Rattle.sql_numbers.specs.Integers as rows;

use crate::arithmetic::{
    add_int64_int64, add_uint64_uint64, mul_int64_int64, mul_uint64_uint64, sub_int64_int64,
    sub_uint64_uint64,
};
use crate::results::or_null;
use sql_types::Value;

/// SAFE_ADD of two INT64.
pub fn safe_add_int64_int64(values: &[Value]) -> Value
    requires { fits_types (types.Int64 ∷ types.Int64 ∷ []) values.now ≡ true }
    ensures { Ok result ≡ rows.apply_safe_add as_int64 values.now }
{
    or_null(add_int64_int64(values))
}

/// SAFE_ADD of two UINT64.
pub fn safe_add_uint64_uint64(values: &[Value]) -> Value
    requires { fits_types (types.Uint64 ∷ types.Uint64 ∷ []) values.now ≡ true }
    ensures { Ok result ≡ rows.apply_safe_add as_uint64 values.now }
{
    or_null(add_uint64_uint64(values))
}

/// SAFE_SUBTRACT of two INT64.
pub fn safe_subtract_int64_int64(values: &[Value]) -> Value
    requires { fits_types (types.Int64 ∷ types.Int64 ∷ []) values.now ≡ true }
    ensures { Ok result ≡ rows.apply_safe_subtract values.now }
{
    or_null(sub_int64_int64(values))
}

/// SAFE_SUBTRACT of two UINT64: an INT64.
pub fn safe_subtract_uint64_uint64(values: &[Value]) -> Value
    requires { fits_types (types.Uint64 ∷ types.Uint64 ∷ []) values.now ≡ true }
    ensures { Ok result ≡ rows.apply_safe_subtract values.now }
{
    or_null(sub_uint64_uint64(values))
}

/// SAFE_MULTIPLY of two INT64.
pub fn safe_multiply_int64_int64(values: &[Value]) -> Value
    requires { fits_types (types.Int64 ∷ types.Int64 ∷ []) values.now ≡ true }
    ensures { Ok result ≡ rows.apply_safe_multiply as_int64 values.now }
{
    or_null(mul_int64_int64(values))
}

/// SAFE_MULTIPLY of two UINT64.
pub fn safe_multiply_uint64_uint64(values: &[Value]) -> Value
    requires { fits_types (types.Uint64 ∷ types.Uint64 ∷ []) values.now ≡ true }
    ensures { Ok result ≡ rows.apply_safe_multiply as_uint64 values.now }
{
    or_null(mul_uint64_uint64(values))
}
