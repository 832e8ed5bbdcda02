//! Functions of one number. A call with a NULL argument is NULL.
ghost use Rattle.std.specs.Prelude.{◌≡◌, [], ◌∷◌, true, Ok, pos, neg_ℤ, nat_abs};
ghost use Rattle.sql_types.specs.declared.sql_type.SqlType.TheVariants as types;
ghost use Rattle.sql_types.specs.Takes.{fits_types, as_int64, as_uint64};
ghost use Rattle.sql_numbers.specs.Integers as rows;
ghost use Rattle.std.specs.Int.{int_signum};
ghost use Rattle.sql_types.specs.declared.value.Value.TheVariants as value;

use crate::arguments::{int_of, some_null, uint_of};
use crate::results::int_or_fault;
use sql_types::{FaultKind, Value};

/// Unary `-`. That of the least INT64 is OUT_OF_RANGE.
pub fn neg_int64(values: &[Value]) -> Result<Value, FaultKind>
    requires { fits_types (types.Int64 ∷ []) values.now ≡ true }
    ensures { result ≡ rows.apply_neg values.now }
{
    if some_null(values) {
        return Ok(Value::Null);
    }
    match values {
        [number] => opposite(int_of(number)),
        _ => Ok(Value::Null),
    }
}

/// Unary `+` of an INT64: itself.
pub fn pos_int64(values: &[Value]) -> Value
    requires { fits_types (types.Int64 ∷ []) values.now ≡ true }
    ensures { Ok result ≡ rows.apply_pos as_int64 values.now }
{
    if some_null(values) {
        return Value::Null;
    }
    match values {
        [number] => same_int(int_of(number)),
        _ => Value::Null,
    }
}

/// Unary `+` of a UINT64: itself.
pub fn pos_uint64(values: &[Value]) -> Value
    requires { fits_types (types.Uint64 ∷ []) values.now ≡ true }
    ensures { Ok result ≡ rows.apply_pos as_uint64 values.now }
{
    if some_null(values) {
        return Value::Null;
    }
    match values {
        [number] => same_uint(uint_of(number)),
        _ => Value::Null,
    }
}

/// ABS. That of the least INT64 is OUT_OF_RANGE.
pub fn abs_int64(values: &[Value]) -> Result<Value, FaultKind>
    requires { fits_types (types.Int64 ∷ []) values.now ≡ true }
    ensures { result ≡ rows.apply_abs values.now }
{
    if some_null(values) {
        return Ok(Value::Null);
    }
    match values {
        [number] => size(int_of(number)),
        _ => Ok(Value::Null),
    }
}

/// SIGN: -1, 0 or 1.
pub fn sign_int64(values: &[Value]) -> Value
    requires { fits_types (types.Int64 ∷ []) values.now ≡ true }
    ensures { Ok result ≡ rows.apply_sign values.now }
{
    if some_null(values) {
        return Value::Null;
    }
    match values {
        [number] => sign(int_of(number)),
        _ => Value::Null,
    }
}

#[tactic(auto, using(crate::proofs::NumberLaws::int_fits))]
fn opposite(number: i64) -> Result<Value, FaultKind>
    ensures { result ≡ as_int64 (neg_ℤ number) }
{
    int_or_fault(number.checked_neg())
}

fn same_int(number: i64) -> Value
    ensures { Ok result ≡ as_int64 number }
{
    Value::Int(number)
}

fn same_uint(number: u64) -> Value
    ensures { Ok result ≡ as_uint64 (pos number) }
{
    Value::Uint(number)
}

fn size(number: i64) -> Result<Value, FaultKind>
    ensures { result ≡ as_int64 (pos (nat_abs number)) }
{
    int_or_fault(i64::try_from(number.unsigned_abs()).ok())
}

fn sign(number: i64) -> Value
    ensures { Ok result ≡ as_int64 (int_signum number) }
{
    Value::Int(number.signum())
}
