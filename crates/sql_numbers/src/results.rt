//! What the calls make of numbers.
ghost use Rattle.std.specs.Prelude.{◌≡◌, Ok};
ghost use Rattle.sql_numbers.specs.Results as results;
ghost use Rattle.sql_numbers.specs.Integers as rows;

use sql_types::{FaultKind, Value};

/// An INT64, or OUT_OF_RANGE where there is no such number.
pub(crate) fn int_or_fault(number: Option<i64>) -> Result<Value, FaultKind>
    ensures { result ≡ results.int_or_fault number }
{
    match number {
        Some(number) => Ok(Value::Int(number)),
        None => Err(FaultKind::OutOfRange),
    }
}

/// A UINT64, or OUT_OF_RANGE where there is no such number.
pub(crate) fn uint_or_fault(number: Option<u64>) -> Result<Value, FaultKind>
    ensures { result ≡ results.uint_or_fault number }
{
    match number {
        Some(number) => Ok(Value::Uint(number)),
        None => Err(FaultKind::OutOfRange),
    }
}

/// NULL in place of a fault.
pub(crate) fn or_null(outcome: Result<Value, FaultKind>) -> Value
    ensures { Ok result ≡ rows.or_null outcome }
{
    match outcome {
        Ok(value) => value,
        Err(_) => Value::Null,
    }
}
