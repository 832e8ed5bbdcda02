//! DIV, toward 0, and MOD, with the sign of the first. A divisor that is 0 is DIVISION_BY_ZERO, and a call with a NULL
//! argument is NULL.
ghost use Rattle.std.specs.Prelude.{◌≡◌, [], ◌∷◌, true, pos, int_div, int_rem};
ghost use Rattle.sql_types.specs.declared.sql_type.SqlType.TheVariants as types;
ghost use Rattle.sql_types.specs.Takes.{fits_types, as_int64, as_uint64};
ghost use Rattle.sql_numbers.specs.Integers as rows;

use crate::arguments::{int_of, some_null, uint_of};
use crate::results::int_or_fault;
use sql_types::{FaultKind, Value};

/// DIV of two INT64. The least by -1 is OUT_OF_RANGE.
pub fn div_int64_int64(values: &[Value]) -> Result<Value, FaultKind>
    requires { fits_types (types.Int64 ∷ types.Int64 ∷ []) values.now ≡ true }
    ensures { result ≡ rows.apply_div as_int64 values.now }
{
    if some_null(values) {
        return Ok(Value::Null);
    }
    match values {
        [left, right] => int_quotient(int_of(left), int_of(right)),
        _ => Ok(Value::Null),
    }
}

/// DIV of two UINT64.
pub fn div_uint64_uint64(values: &[Value]) -> Result<Value, FaultKind>
    requires { fits_types (types.Uint64 ∷ types.Uint64 ∷ []) values.now ≡ true }
    ensures { result ≡ rows.apply_div as_uint64 values.now }
{
    if some_null(values) {
        return Ok(Value::Null);
    }
    match values {
        [left, right] => uint_quotient(uint_of(left), uint_of(right)),
        _ => Ok(Value::Null),
    }
}

/// MOD of two INT64. That of the least by -1 is 0.
pub fn mod_int64_int64(values: &[Value]) -> Result<Value, FaultKind>
    requires { fits_types (types.Int64 ∷ types.Int64 ∷ []) values.now ≡ true }
    ensures { result ≡ rows.apply_mod as_int64 values.now }
{
    if some_null(values) {
        return Ok(Value::Null);
    }
    match values {
        [left, right] => int_remainder(int_of(left), int_of(right)),
        _ => Ok(Value::Null),
    }
}

/// MOD of two UINT64.
pub fn mod_uint64_uint64(values: &[Value]) -> Result<Value, FaultKind>
    requires { fits_types (types.Uint64 ∷ types.Uint64 ∷ []) values.now ≡ true }
    ensures { result ≡ rows.apply_mod as_uint64 values.now }
{
    if some_null(values) {
        return Ok(Value::Null);
    }
    match values {
        [left, right] => uint_remainder(uint_of(left), uint_of(right)),
        _ => Ok(Value::Null),
    }
}

fn int_quotient(left: i64, right: i64) -> Result<Value, FaultKind>
    ensures { result ≡ rows.unless_zero right (as_int64 (int_div left right)) }
{
    if right == 0 {
        return Err(FaultKind::DivisionByZero);
    }
    int_or_fault(left.checked_div(right))
}

fn int_remainder(left: i64, right: i64) -> Result<Value, FaultKind>
    ensures { result ≡ rows.unless_zero right (as_int64 (int_rem left right)) }
{
    if right == 0 {
        return Err(FaultKind::DivisionByZero);
    }
    Ok(Value::Int(left.wrapping_rem(right)))
}

fn uint_quotient(left: u64, right: u64) -> Result<Value, FaultKind>
    ensures { result ≡ rows.unless_zero (pos right) (as_uint64 (int_div (pos left) (pos right))) }
{
    if right == 0 {
        return Err(FaultKind::DivisionByZero);
    }
    Ok(Value::Uint(left / right))
}

fn uint_remainder(left: u64, right: u64) -> Result<Value, FaultKind>
    ensures { result ≡ rows.unless_zero (pos right) (as_uint64 (int_rem (pos left) (pos right))) }
{
    if right == 0 {
        return Err(FaultKind::DivisionByZero);
    }
    Ok(Value::Uint(left % right))
}
