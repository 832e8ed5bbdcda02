//! GREATEST and LEAST.
ghost use Rattle.std.specs.Prelude.{◌≡◌};
ghost use Rattle.sql_types.specs.Outcome.{Answers, just};
ghost use Rattle.sql_numbers.specs.Comparisons as rows;

use crate::arguments::some_null;
use sql_types::{CallFault, Value, copy_value, order};
use std::alloc::Global;
use std::cmp::Ordering;

/// GREATEST of one or more. A NULL argument gives NULL.
pub fn greatest_any(alloc: Global, values: &[Value]) -> Result<Value, CallFault>
    ensures { Answers (just (rows.apply_greatest values.now)) result }
{
    if some_null(values) {
        return Ok(Value::Null);
    }
    match values {
        [first, rest @ ..] => Ok(copy_value(alloc, greatest(first, rest))?),
        [] => Ok(Value::Null),
    }
}

/// LEAST of one or more. A NULL argument gives NULL.
pub fn least_any(alloc: Global, values: &[Value]) -> Result<Value, CallFault>
    ensures { Answers (just (rows.apply_least values.now)) result }
{
    if some_null(values) {
        return Ok(Value::Null);
    }
    match values {
        [first, rest @ ..] => Ok(copy_value(alloc, least(first, rest))?),
        [] => Ok(Value::Null),
    }
}

fn greatest<'a>(first: &'a Value, rest: &'a [Value]) -> &'a Value
    ensures { result.now ≡ rows.chosen rows.greater_of first.now rest.now }
{
    let mut chosen = first;
    for value in rest {
        chosen = greater_of(chosen, value);
    }
    chosen
}

fn least<'a>(first: &'a Value, rest: &'a [Value]) -> &'a Value
    ensures { result.now ≡ rows.chosen rows.lesser_of first.now rest.now }
{
    let mut chosen = first;
    for value in rest {
        chosen = lesser_of(chosen, value);
    }
    chosen
}

fn greater_of<'a>(left: &'a Value, right: &'a Value) -> &'a Value
    ensures { result.now ≡ rows.greater_of left.now right.now }
{
    match order(right, left) {
        Ordering::Greater => right,
        Ordering::Equal => left,
        Ordering::Less => left,
    }
}

fn lesser_of<'a>(left: &'a Value, right: &'a Value) -> &'a Value
    ensures { result.now ≡ rows.lesser_of left.now right.now }
{
    match order(right, left) {
        Ordering::Less => right,
        Ordering::Equal => left,
        Ordering::Greater => left,
    }
}
