//! Three-valued logic over values. The IS forms are never NULL.
ghost use Rattle.std.specs.Prelude.{◌≡◌, Ok, true, false};
ghost use Rattle.sql_types.specs.Logic as logic;
ghost use Rattle.sql_types.specs.Same.{both_true};
ghost use Rattle.sql_numbers.specs.Comparisons as rows;

use crate::arguments::is_null;
use sql_types::Value;

/// NOT: NULL stays NULL.
pub fn not_bool(values: &[Value]) -> Value
    ensures { Ok result ≡ rows.apply_not values.now }
{
    match values {
        [value] => of_truth(opposite(truth_of(value))),
        _ => Value::Null,
    }
}

/// AND of two values: FALSE beside anything is FALSE.
pub fn and_bool_bool(values: &[Value]) -> Value
    ensures { Ok result ≡ rows.apply_and values.now }
{
    match values {
        [left, right] => of_truth(both_true(truth_of(left), truth_of(right))),
        _ => Value::Null,
    }
}

/// OR of two values: TRUE beside anything is TRUE.
pub fn or_bool_bool(values: &[Value]) -> Value
    ensures { Ok result ≡ rows.apply_or values.now }
{
    match values {
        [left, right] => of_truth(either_true(truth_of(left), truth_of(right))),
        _ => Value::Null,
    }
}

/// IS NULL.
pub fn is_null_any(values: &[Value]) -> Value
    ensures { Ok result ≡ rows.apply_is_null values.now }
{
    match values {
        [value] => Value::Bool(is_null(value)),
        _ => Value::Null,
    }
}

/// IS TRUE.
pub fn is_true_bool(values: &[Value]) -> Value
    ensures { Ok result ≡ rows.apply_is_true values.now }
{
    match values {
        [value] => Value::Bool(is_true(truth_of(value))),
        _ => Value::Null,
    }
}

/// IS FALSE.
pub fn is_false_bool(values: &[Value]) -> Value
    ensures { Ok result ≡ rows.apply_is_false values.now }
{
    match values {
        [value] => Value::Bool(is_false(truth_of(value))),
        _ => Value::Null,
    }
}

/// The truth value of a value of BOOL; that of NULL is None.
pub(crate) fn truth_of(value: &Value) -> Option<bool>
    ensures { result ≡ logic.truth_of value.now }
{
    match value {
        Value::Bool(truth) => Some(*truth),
        _ => None,
    }
}

/// The value of a truth value.
pub(crate) fn of_truth(truth: Option<bool>) -> Value
    ensures { result ≡ logic.of_truth truth }
{
    match truth {
        Some(truth) => Value::Bool(truth),
        None => Value::Null,
    }
}

pub(crate) fn opposite(truth: Option<bool>) -> Option<bool>
    ensures { result ≡ logic.opposite truth }
{
    match truth {
        Some(true) => Some(false),
        Some(false) => Some(true),
        None => None,
    }
}

pub(crate) fn both_true(left: Option<bool>, right: Option<bool>) -> Option<bool>
    ensures { result ≡ both_true left right }
{
    match (left, right) {
        (Some(true), other) => other,
        (Some(false), _) => Some(false),
        (None, Some(false)) => Some(false),
        (None, Some(true)) => None,
        (None, None) => None,
    }
}

fn either_true(left: Option<bool>, right: Option<bool>) -> Option<bool>
    ensures { result ≡ logic.either_true left right }
{
    match (left, right) {
        (Some(true), _) => Some(true),
        (Some(false), other) => other,
        (None, Some(true)) => Some(true),
        (None, Some(false)) => None,
        (None, None) => None,
    }
}

pub(crate) fn is_true(truth: Option<bool>) -> bool
    ensures { result ≡ rows.is_truth true truth }
{
    match truth {
        Some(truth) => truth,
        None => false,
    }
}

fn is_false(truth: Option<bool>) -> bool
    ensures { result ≡ rows.is_truth false truth }
{
    match truth {
        Some(truth) => !truth,
        None => false,
    }
}
