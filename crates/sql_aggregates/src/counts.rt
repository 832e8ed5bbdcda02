//! Counts and totals.
ghost use Rattle.std.specs.Prelude.{◌≡◌, pos, negsuc, ◌≤ℤ◌};
ghost use Rattle.sql_types.specs.declared.value.Value.{out-Value};
ghost use Rattle.sql_types.specs.Takes as takes;
ghost use Rattle.sql_aggregates.specs.Aggregates as rows;

use crate::truths::is_true;
use sql_types::{FaultKind, Value};

/// A number of values or rows. Above the greatest INT64 it is OUT_OF_RANGE.
pub(crate) fn count(number: usize) -> Result<Value, FaultKind>
    ensures { result ≡ takes.count_value number }
{
    match i64::try_from(number) {
        Ok(number) => Ok(Value::Int(number)),
        Err(_) => Err(FaultKind::OutOfRange),
    }
}

/// How many values are TRUE.
pub(crate) fn trues(values: &[Value]) -> usize
    ensures { result ≡ rows.trues values.now }
{
    let mut number = 0;
    for value in values {
        if is_true(value) {
            number += 1;
        }
    }
    number
}

/// The exact total, of the type of the values. OUT_OF_RANGE where the type has no such number; that a partial sum is past
/// the type is no fault.
pub(crate) fn sum(values: &[Value]) -> Result<Value, FaultKind>
    ensures { result ≡ rows.sum values.now }
{
    match values {
        [] => Ok(Value::Null),
        [first, ..] => {
            if is_unsigned(first) {
                as_uint64(total(values))
            } else {
                as_int64(total(values))
            }
        }
    }
}

/// No list that memory holds has a total past 128 bits.
fn total(values: &[Value]) -> i128
    ensures { result ≡ rows.total values.now }
{
    let mut total = 0;
    for value in values {
        total += number(value);
    }
    total
}

fn number(value: &Value) -> i128
    ensures value { result ≡ takes.number value.now }
    ensures low { negsuc 9223372036854775807 ≤ℤ result }
    ensures high { result ≤ℤ pos 18446744073709551615 }
{
    match value {
        Value::Int(number) => i128::from(*number),
        Value::Uint(number) => i128::from(*number),
        Value::Date(day) => i128::from(*day),
        _ => 0,
    }
}

fn is_unsigned(value: &Value) -> bool
    ensures { result ≡ rows.is_unsigned (out-Value value.now) }
{
    matches!(value, Value::Uint(_))
}

fn as_int64(total: i128) -> Result<Value, FaultKind>
    ensures { result ≡ takes.as_int64 total }
{
    match i64::try_from(total) {
        Ok(number) => Ok(Value::Int(number)),
        Err(_) => Err(FaultKind::OutOfRange),
    }
}

fn as_uint64(total: i128) -> Result<Value, FaultKind>
    ensures { result ≡ takes.as_uint64 total }
{
    match u64::try_from(total) {
        Ok(number) => Ok(Value::Uint(number)),
        Err(_) => Err(FaultKind::OutOfRange),
    }
}
