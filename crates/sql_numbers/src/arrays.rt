//! The functions on arrays that make none. A call with a NULL argument is NULL.
ghost use Rattle.std.specs.Prelude.{◌≡◌, Ok, reverse};
ghost use Rattle.sql_types.specs.Outcome.{Answers, just};
ghost use Rattle.sql_types.specs.Takes as takes;
ghost use Rattle.sql_numbers.specs.Arrays as rows;

use crate::arguments::some_null;
use crate::logic::is_true;
use sql_types::{CallFault, FaultKind, Value, copy_value, equal};
use std::alloc::Global;

/// ARRAY_LENGTH. A length above the greatest INT64 is OUT_OF_RANGE.
pub fn array_length_array(values: &[Value]) -> Result<Value, FaultKind>
    ensures { result ≡ rows.apply_array_length values.now }
{
    if some_null(values) {
        return Ok(Value::Null);
    }
    match values {
        [array] => count(elements_of(array).len()),
        _ => Ok(Value::Null),
    }
}

/// ARRAY_FIRST. An empty array is the fault INDEX.
pub fn array_first_array(alloc: Global, values: &[Value]) -> Result<Value, CallFault>
    ensures { Answers (just (rows.apply_array_first values.now)) result }
{
    if some_null(values) {
        return Ok(Value::Null);
    }
    match values {
        [array] => first_of(alloc, elements_of(array)),
        _ => Ok(Value::Null),
    }
}

/// ARRAY_LAST. An empty array is the fault INDEX.
pub fn array_last_array(alloc: Global, values: &[Value]) -> Result<Value, CallFault>
    ensures { Answers (just (rows.apply_array_last values.now)) result }
{
    if some_null(values) {
        return Ok(Value::Null);
    }
    match values {
        [array] => last_of(alloc, elements_of(array)),
        _ => Ok(Value::Null),
    }
}

/// ARRAY_INCLUDES: whether some element is equal to the value.
pub fn array_includes_array_any(values: &[Value]) -> Value
    ensures { Ok result ≡ rows.apply_array_includes values.now }
{
    if some_null(values) {
        return Value::Null;
    }
    match values {
        [array, value] => Value::Bool(some_equal(value, elements_of(array))),
        _ => Value::Null,
    }
}

/// The elements of an ARRAY. NULL has none.
pub(crate) fn elements_of(value: &Value) -> &[Value]
    ensures { result.now ≡ takes.elements value.now }
{
    match value {
        Value::Array(elements) => elements.as_slice(),
        _ => &[],
    }
}

fn count(number: usize) -> Result<Value, FaultKind>
    ensures { result ≡ takes.count_value number }
{
    match i64::try_from(number) {
        Ok(number) => Ok(Value::Int(number)),
        Err(_) => Err(FaultKind::OutOfRange),
    }
}

fn first_of(alloc: Global, elements: &[Value]) -> Result<Value, CallFault>
    ensures { Answers (just (rows.first_of elements.now)) result }
{
    match elements {
        [first, ..] => Ok(copy_value(alloc, first)?),
        [] => Err(CallFault::Fault(FaultKind::Index)),
    }
}

fn last_of(alloc: Global, elements: &[Value]) -> Result<Value, CallFault>
    ensures { Answers (just (rows.first_of (reverse elements.now))) result }
{
    match elements {
        [.., last] => Ok(copy_value(alloc, last)?),
        [] => Err(CallFault::Fault(FaultKind::Index)),
    }
}

fn some_equal(value: &Value, elements: &[Value]) -> bool
    ensures { result ≡ rows.some_equal value.now elements.now }
{
    for element in elements {
        if is_true(equal(element, value)) {
            return true;
        }
    }
    false
}
