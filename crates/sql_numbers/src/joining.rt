//! The functions that make arrays of the elements of others. A call with a NULL argument is NULL.
ghost use Rattle.std.specs.Prelude.{◌≡◌, IfOk, reverse};
ghost use Rattle.sql_types.specs.Outcome.{Answers, just};
ghost use Rattle.sql_types.specs.Takes as takes;
ghost use Rattle.sql_numbers.specs.Arrays as rows;

use crate::arguments::some_null;
use crate::arrays::elements_of;
use sql_types::{CallFault, Items, Value, Values, copy_value, copy_values};
use std::alloc::{AllocError, Global};

/// `||` of two arrays: the elements of the first, then those of the second.
pub fn join_array_array(alloc: Global, values: &[Value]) -> Result<Value, CallFault>
    ensures { Answers (just (rows.apply_array_concat values.now)) result }
{
    array_concat_array(alloc, values)
}

/// ARRAY_CONCAT of one or more: their elements in order.
pub fn array_concat_array(alloc: Global, values: &[Value]) -> Result<Value, CallFault>
    ensures { Answers (just (rows.apply_array_concat values.now)) result }
{
    if some_null(values) {
        return Ok(Value::Null);
    }
    Ok(Value::Array(all_elements(alloc, values)?))
}

/// ARRAY_REVERSE: the elements from the last to the first.
pub fn array_reverse_array(alloc: Global, values: &[Value]) -> Result<Value, CallFault>
    ensures { Answers (just (rows.apply_array_reverse values.now)) result }
{
    if some_null(values) {
        return Ok(Value::Null);
    }
    match values {
        [array] => Ok(Value::Array(reversed(alloc, elements_of(array))?)),
        _ => Ok(Value::Null),
    }
}

fn all_elements(alloc: Global, arrays: &[Value]) -> Result<Values, AllocError>
    ensures { IfOk result (λ all. all ≡ rows.all_elements arrays.now) }
{
    let mut all = Items::new(alloc);
    for array in arrays {
        all.append(copy_elements(alloc, array)?)?;
    }
    Ok(all)
}

fn copy_elements(alloc: Global, array: &Value) -> Result<Values, AllocError>
    ensures { IfOk result (λ copies. copies ≡ takes.elements array.now) }
{
    match array {
        Value::Array(elements) => copy_values(alloc, elements),
        _ => Ok(Items::new(alloc)),
    }
}

fn reversed(alloc: Global, elements: &[Value]) -> Result<Values, AllocError>
    ensures { IfOk result (λ copies. copies ≡ reverse elements.now) }
{
    let mut copies = Items::new(alloc);
    let mut rest = elements;
    while let [before @ .., last] = rest {
        copies.push(copy_value(alloc, last)?)?;
        rest = before;
    }
    Ok(copies)
}
