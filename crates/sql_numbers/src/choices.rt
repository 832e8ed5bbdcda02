//! The functions that choose one of their arguments, as rows over values.
ghost use Rattle.std.specs.Prelude.{◌≡◌, IfOk, Ok, Err};
ghost use Rattle.sql_types.specs.Outcome.{Answers, just};
ghost use Rattle.sql_numbers.specs.Comparisons as rows;

use crate::arguments::is_null;
use crate::logic::{is_true, truth_of};
use sql_types::{CallFault, FaultKind, Value, copy_value, equal};
use std::alloc::Global;

/// IF: the second where the first is TRUE, else the third.
pub fn if_bool_any_any(alloc: Global, values: &[Value]) -> Result<Value, CallFault>
    ensures { Answers (just (rows.apply_if values.now)) result }
{
    match values {
        [test, then, otherwise] => {
            if is_true(truth_of(test)) {
                Ok(copy_value(alloc, then)?)
            } else {
                Ok(copy_value(alloc, otherwise)?)
            }
        }
        _ => Ok(Value::Null),
    }
}

/// IFNULL: the first, or the second where the first is NULL.
pub fn ifnull_any_any(alloc: Global, values: &[Value]) -> Result<Value, CallFault>
    ensures { Answers (just (rows.apply_coalesce values.now)) result }
{
    coalesce_any(alloc, values)
}

/// COALESCE of one or more: the first that isn't NULL, and NULL where there is none.
pub fn coalesce_any(alloc: Global, values: &[Value]) -> Result<Value, CallFault>
    ensures { Answers (just (rows.apply_coalesce values.now)) result }
{
    for value in values {
        if !is_null(value) {
            return Ok(copy_value(alloc, value)?);
        }
    }
    Ok(Value::Null)
}

/// NULLIF: NULL where the two are equal, else the first.
pub fn nullif_any_any(alloc: Global, values: &[Value]) -> Result<Value, CallFault>
    ensures { Answers (just (rows.apply_nullif values.now)) result }
{
    match values {
        [value, other] => {
            if is_true(equal(value, other)) {
                Ok(Value::Null)
            } else {
                Ok(copy_value(alloc, value)?)
            }
        }
        _ => Ok(Value::Null),
    }
}

/// ERROR: always the fault USER, of NULL too.
pub fn error_string(_: &[Value]) -> Result<Value, FaultKind>
    ensures { result ≡ Err FaultKind.User }
{
    Err(FaultKind::User)
}

/// IFERROR of two values: the first. What it catches is a fault of its first argument, and a value has none.
pub fn iferror_any_any(alloc: Global, values: &[Value]) -> Result<Value, CallFault>
    ensures { Answers (just (rows.apply_iferror values.now)) result }
{
    match values {
        [value, _] => Ok(copy_value(alloc, value)?),
        _ => Ok(Value::Null),
    }
}

/// NULLIFERROR of a value: the value.
pub fn nulliferror_any(alloc: Global, values: &[Value]) -> Result<Value, CallFault>
    ensures { Answers (just (rows.apply_nulliferror values.now)) result }
{
    match values {
        [value] => Ok(copy_value(alloc, value)?),
        _ => Ok(Value::Null),
    }
}

/// ISERROR of a value: FALSE.
pub fn iserror_any(values: &[Value]) -> Value
    ensures { Ok result ≡ rows.apply_iserror values.now }
{
    match values {
        [_] => Value::Bool(false),
        _ => Value::Null,
    }
}
