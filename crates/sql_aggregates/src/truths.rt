//! AND and OR over values that aren't NULL.
ghost use Rattle.std.specs.Prelude.{◌≡◌};
ghost use Rattle.sql_types.specs.Logic as logic;
ghost use Rattle.sql_aggregates.specs.Aggregates as rows;

use sql_types::Value;

/// Whether all values are TRUE. NULL where there is none.
pub(crate) fn all_true(values: &[Value]) -> Value
    ensures { result ≡ rows.truth_on rows.all_of values.now }
{
    match values {
        [] => Value::Null,
        [..] => Value::Bool(all_of(values)),
    }
}

/// Whether some value is TRUE. NULL where there is none.
pub(crate) fn some_true(values: &[Value]) -> Value
    ensures { result ≡ rows.truth_on rows.some_of values.now }
{
    match values {
        [] => Value::Null,
        [..] => Value::Bool(some_of(values)),
    }
}

fn all_of(values: &[Value]) -> bool
    ensures { result ≡ rows.all_of values.now }
{
    for value in values {
        if !is_true(value) {
            return false;
        }
    }
    true
}

fn some_of(values: &[Value]) -> bool
    ensures { result ≡ rows.some_of values.now }
{
    for value in values {
        if is_true(value) {
            return true;
        }
    }
    false
}

pub(crate) fn is_true(value: &Value) -> bool
    ensures { result ≡ rows.is_true (logic.truth_of value.now) }
{
    match value {
        Value::Bool(truth) => *truth,
        _ => false,
    }
}
