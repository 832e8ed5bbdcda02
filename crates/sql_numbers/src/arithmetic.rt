//! Sums, differences and products. A result past its type is OUT_OF_RANGE, and a call with a NULL argument is NULL.
ghost use Rattle.std.specs.Prelude.{◌≡◌, [], ◌∷◌, true, pos, ◌+◌, ◌*◌, ◌+ℤ◌, ◌-ℤ◌, ◌*ℤ◌};
ghost use Rattle.sql_types.specs.declared.sql_type.SqlType.TheVariants as types;
ghost use Rattle.sql_types.specs.Takes.{fits_types, as_int64, as_uint64};
ghost use Rattle.sql_numbers.specs.Integers as rows;

use crate::arguments::{int_of, some_null, uint_of};
use crate::results::{int_or_fault, uint_or_fault};
use sql_types::{FaultKind, Value};

/// `+` of two INT64.
pub fn add_int64_int64(values: &[Value]) -> Result<Value, FaultKind>
    requires { fits_types (types.Int64 ∷ types.Int64 ∷ []) values.now ≡ true }
    ensures { result ≡ rows.apply_add as_int64 values.now }
{
    if some_null(values) {
        return Ok(Value::Null);
    }
    match values {
        [left, right] => int_sum(int_of(left), int_of(right)),
        _ => Ok(Value::Null),
    }
}

/// `+` of two UINT64.
pub fn add_uint64_uint64(values: &[Value]) -> Result<Value, FaultKind>
    requires { fits_types (types.Uint64 ∷ types.Uint64 ∷ []) values.now ≡ true }
    ensures { result ≡ rows.apply_add as_uint64 values.now }
{
    if some_null(values) {
        return Ok(Value::Null);
    }
    match values {
        [left, right] => uint_sum(uint_of(left), uint_of(right)),
        _ => Ok(Value::Null),
    }
}

/// Binary `-` of two INT64.
pub fn sub_int64_int64(values: &[Value]) -> Result<Value, FaultKind>
    requires { fits_types (types.Int64 ∷ types.Int64 ∷ []) values.now ≡ true }
    ensures { result ≡ rows.apply_sub values.now }
{
    if some_null(values) {
        return Ok(Value::Null);
    }
    match values {
        [left, right] => int_difference(int_of(left), int_of(right)),
        _ => Ok(Value::Null),
    }
}

/// Binary `-` of two UINT64: an INT64.
pub fn sub_uint64_uint64(values: &[Value]) -> Result<Value, FaultKind>
    requires { fits_types (types.Uint64 ∷ types.Uint64 ∷ []) values.now ≡ true }
    ensures { result ≡ rows.apply_sub values.now }
{
    if some_null(values) {
        return Ok(Value::Null);
    }
    match values {
        [left, right] => uint_difference(uint_of(left), uint_of(right)),
        _ => Ok(Value::Null),
    }
}

/// `*` of two INT64.
pub fn mul_int64_int64(values: &[Value]) -> Result<Value, FaultKind>
    requires { fits_types (types.Int64 ∷ types.Int64 ∷ []) values.now ≡ true }
    ensures { result ≡ rows.apply_mul as_int64 values.now }
{
    if some_null(values) {
        return Ok(Value::Null);
    }
    match values {
        [left, right] => int_product(int_of(left), int_of(right)),
        _ => Ok(Value::Null),
    }
}

/// `*` of two UINT64.
pub fn mul_uint64_uint64(values: &[Value]) -> Result<Value, FaultKind>
    requires { fits_types (types.Uint64 ∷ types.Uint64 ∷ []) values.now ≡ true }
    ensures { result ≡ rows.apply_mul as_uint64 values.now }
{
    if some_null(values) {
        return Ok(Value::Null);
    }
    match values {
        [left, right] => uint_product(uint_of(left), uint_of(right)),
        _ => Ok(Value::Null),
    }
}

#[tactic(auto, using(crate::proofs::NumberLaws::int_fits))]
fn int_sum(left: i64, right: i64) -> Result<Value, FaultKind>
    ensures { result ≡ as_int64 (left +ℤ right) }
{
    int_or_fault(left.checked_add(right))
}

#[tactic(auto, using(crate::proofs::NumberLaws::uint_fits))]
fn uint_sum(left: u64, right: u64) -> Result<Value, FaultKind>
    ensures { result ≡ as_uint64 (pos (left + right)) }
{
    uint_or_fault(left.checked_add(right))
}

#[tactic(auto, using(crate::proofs::NumberLaws::int_fits))]
fn int_difference(left: i64, right: i64) -> Result<Value, FaultKind>
    ensures { result ≡ as_int64 (left -ℤ right) }
{
    int_or_fault(left.checked_sub(right))
}

#[tactic(auto, using(crate::proofs::NumberLaws::int_fits))]
fn uint_difference(left: u64, right: u64) -> Result<Value, FaultKind>
    ensures { result ≡ as_int64 (pos left -ℤ pos right) }
{
    int_or_fault(i64::try_from(i128::from(left) - i128::from(right)).ok())
}

#[tactic(auto, using(crate::proofs::NumberLaws::int_fits))]
fn int_product(left: i64, right: i64) -> Result<Value, FaultKind>
    ensures { result ≡ as_int64 (left *ℤ right) }
{
    int_or_fault(left.checked_mul(right))
}

#[tactic(auto, using(crate::proofs::NumberLaws::uint_fits))]
fn uint_product(left: u64, right: u64) -> Result<Value, FaultKind>
    ensures { result ≡ as_uint64 (pos (left * right)) }
{
    uint_or_fault(left.checked_mul(right))
}
