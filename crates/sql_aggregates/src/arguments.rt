//! The lists of arguments and sort values that are added.
ghost use Rattle.std.specs.Prelude.{◌≡◌, IfOk, map};
ghost use Rattle.sql_types.specs.declared.value.Value.{out-Value};
ghost use Rattle.sql_types.specs.Before.{is_null};
ghost use Rattle.sql_aggregates.specs.Lists.{first, null_argument};

use sql_types::{Items, Value, Values, copy_value};
use std::alloc::{AllocError, Global};

/// A list equal to this one.
pub(crate) fn copy_list(alloc: Global, values: &[Value]) -> Result<Values, AllocError>
    ensures { IfOk result (λ copies. copies ≡ values.now) }
{
    let mut copies = Items::new(alloc);
    for value in values {
        copies.push(copy_value(alloc, value)?)?;
    }
    Ok(copies)
}

/// Whether there is an argument, and the first one is NULL.
pub(crate) fn is_null_argument(list: &[Value]) -> bool
    ensures { result ≡ null_argument list.now }
{
    match list {
        [value, ..] => is_null(value),
        [] => false,
    }
}

pub(crate) fn is_null(value: &Value) -> bool
    ensures { result ≡ is_null (out-Value value.now) }
{
    match value {
        Value::Null => true,
        _ => false,
    }
}

/// The first arguments of the lists.
pub(crate) fn firsts(alloc: Global, lists: Vec<Values>) -> Result<Vec<Value>, AllocError>
    ensures { IfOk result (λ values. values.items ≡ map first lists.items) }
{
    lists.into_iter().map(take_first).collect(alloc)
}

fn take_first(mut list: Values) -> Value
    ensures { result ≡ first list }
{
    if list.is_empty() {
        return Value::Null;
    }
    list.remove(0)
}
