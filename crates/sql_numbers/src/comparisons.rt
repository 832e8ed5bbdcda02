//! Comparisons of two values of one type. They take no memory.
ghost use Rattle.std.specs.Prelude.{◌≡◌, Ok, not};
ghost use Rattle.sql_numbers.specs.Comparisons as rows;

use crate::arguments::is_null;
use crate::logic::{both_true, of_truth, opposite};
use sql_types::{Value, equal, order, same};
use std::cmp::Ordering;

/// `=`: NULL where either is NULL, and of two STRUCTs by AND over their fields.
pub fn eq_any_any(values: &[Value]) -> Value
    ensures { Ok result ≡ rows.apply_eq values.now }
{
    match values {
        [left, right] => of_truth(equal(left, right)),
        _ => Value::Null,
    }
}

/// `!=`: NOT of `=`.
pub fn ne_any_any(values: &[Value]) -> Value
    ensures { Ok result ≡ rows.apply_ne values.now }
{
    match values {
        [left, right] => of_truth(opposite(equal(left, right))),
        _ => Value::Null,
    }
}

/// IS DISTINCT FROM: two NULLs are the same, and the answer is never NULL.
pub fn distinct_any_any(values: &[Value]) -> Value
    ensures { Ok result ≡ rows.apply_distinct values.now }
{
    match values {
        [left, right] => Value::Bool(!same(left, right)),
        _ => Value::Null,
    }
}

/// `<`: NULL where either is NULL, as in all of these.
pub fn lt_any_any(values: &[Value]) -> Value
    ensures { Ok result ≡ rows.apply_lt values.now }
{
    match values {
        [left, right] => of_truth(below(left, right)),
        _ => Value::Null,
    }
}

/// `<=`.
pub fn le_any_any(values: &[Value]) -> Value
    ensures { Ok result ≡ rows.apply_le values.now }
{
    match values {
        [left, right] => of_truth(at_most(left, right)),
        _ => Value::Null,
    }
}

/// `>`.
pub fn gt_any_any(values: &[Value]) -> Value
    ensures { Ok result ≡ rows.apply_gt values.now }
{
    match values {
        [left, right] => of_truth(above(left, right)),
        _ => Value::Null,
    }
}

/// `>=`.
pub fn ge_any_any(values: &[Value]) -> Value
    ensures { Ok result ≡ rows.apply_ge values.now }
{
    match values {
        [left, right] => of_truth(at_least(left, right)),
        _ => Value::Null,
    }
}

/// BETWEEN: at least the second and at most the third, by AND, so beside a NULL bound it may be FALSE.
pub fn between_any_any_any(values: &[Value]) -> Value
    ensures { Ok result ≡ rows.apply_between values.now }
{
    match values {
        [value, low, high] => of_truth(both_true(at_least(value, low), at_most(value, high))),
        _ => Value::Null,
    }
}

fn below(left: &Value, right: &Value) -> Option<bool>
    ensures { result ≡ rows.ordered rows.is_less left.now right.now }
{
    if is_null(left) || is_null(right) {
        return None;
    }
    Some(is_less(order(left, right)))
}

fn at_most(left: &Value, right: &Value) -> Option<bool>
    ensures { result ≡ rows.ordered (λ o. not (rows.is_greater o)) left.now right.now }
{
    if is_null(left) || is_null(right) {
        return None;
    }
    Some(!is_greater(order(left, right)))
}

fn above(left: &Value, right: &Value) -> Option<bool>
    ensures { result ≡ rows.ordered rows.is_greater left.now right.now }
{
    if is_null(left) || is_null(right) {
        return None;
    }
    Some(is_greater(order(left, right)))
}

fn at_least(left: &Value, right: &Value) -> Option<bool>
    ensures { result ≡ rows.ordered (λ o. not (rows.is_less o)) left.now right.now }
{
    if is_null(left) || is_null(right) {
        return None;
    }
    Some(!is_less(order(left, right)))
}

fn is_less(order: Ordering) -> bool
    ensures { result ≡ rows.is_less order }
{
    match order {
        Ordering::Less => true,
        Ordering::Equal => false,
        Ordering::Greater => false,
    }
}

fn is_greater(order: Ordering) -> bool
    ensures { result ≡ rows.is_greater order }
{
    match order {
        Ordering::Less => false,
        Ordering::Equal => false,
        Ordering::Greater => true,
    }
}
