//! The least and the greatest of values, and any of them.
ghost use Rattle.std.specs.Prelude.{◌≡◌, IfOk};
ghost use Rattle.sql_aggregates.specs.Aggregates as rows;

use sql_types::{Value, copy_value, order};
use std::alloc::{AllocError, Global};
use std::cmp::Ordering;

/// The least value. NULL where there is none.
pub(crate) fn least_of(alloc: Global, values: &[Value]) -> Result<Value, AllocError>
    ensures { IfOk result (λ v. v ≡ rows.best_of rows.lesser values.now) }
{
    match values {
        [first, rest @ ..] => copy_value(alloc, least(first, rest)),
        [] => Ok(Value::Null),
    }
}

/// The greatest value. NULL where there is none.
pub(crate) fn greatest_of(alloc: Global, values: &[Value]) -> Result<Value, AllocError>
    ensures { IfOk result (λ v. v ≡ rows.best_of rows.greater values.now) }
{
    match values {
        [first, rest @ ..] => copy_value(alloc, greatest(first, rest)),
        [] => Ok(Value::Null),
    }
}

/// The first value. NULL where there is none.
pub(crate) fn first_of(alloc: Global, values: &[Value]) -> Result<Value, AllocError>
    ensures { IfOk result (λ v. v ≡ rows.first_of values.now) }
{
    match values {
        [first, ..] => copy_value(alloc, first),
        [] => Ok(Value::Null),
    }
}

fn least<'a>(first: &'a Value, rest: &'a [Value]) -> &'a Value
    ensures { result.now ≡ rows.best rows.lesser first.now rest.now }
{
    let mut chosen = first;
    for value in rest {
        chosen = lesser(chosen, value);
    }
    chosen
}

fn greatest<'a>(first: &'a Value, rest: &'a [Value]) -> &'a Value
    ensures { result.now ≡ rows.best rows.greater first.now rest.now }
{
    let mut chosen = first;
    for value in rest {
        chosen = greater(chosen, value);
    }
    chosen
}

fn lesser<'a>(left: &'a Value, right: &'a Value) -> &'a Value
    ensures { result.now ≡ rows.lesser left.now right.now }
{
    match order(right, left) {
        Ordering::Less => right,
        Ordering::Equal => left,
        Ordering::Greater => left,
    }
}

fn greater<'a>(left: &'a Value, right: &'a Value) -> &'a Value
    ensures { result.now ≡ rows.greater left.now right.now }
{
    match order(right, left) {
        Ordering::Greater => right,
        Ordering::Equal => left,
        Ordering::Less => left,
    }
}
