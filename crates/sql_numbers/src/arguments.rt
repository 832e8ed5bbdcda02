//! What the arguments of a call say.
ghost use Rattle.std.specs.Prelude.{◌≡◌, ℕ, pos, negsuc, true, MatchResult};
ghost use Rattle.sql_types.specs.declared.value.Value.{out-Value};
ghost use Rattle.sql_types.specs.declared.sql_type.SqlType.TheVariants as types;
ghost use Rattle.sql_types.specs.Before.{is_null};
ghost use Rattle.sql_types.specs.Fits.{fits};
ghost use Rattle.sql_types.specs.Takes as takes;

use sql_types::{FaultKind, Value};

/// Whether some argument is NULL.
pub(crate) fn some_null(values: &[Value]) -> bool
    ensures { result ≡ takes.some_null values.now }
{
    for value in values {
        if is_null(value) {
            return true;
        }
    }
    false
}

pub(crate) fn is_null(value: &Value) -> bool
    ensures { result ≡ is_null (out-Value value.now) }
{
    match value {
        Value::Null => true,
        _ => false,
    }
}

/// The number of an INT64. That of NULL is 0.
pub(crate) fn int_of(value: &Value) -> i64
    requires { fits types.Int64 value.now ≡ true }
    ensures { result ≡ takes.number value.now }
{
    match value {
        Value::Int(number) => *number,
        _ => 0,
    }
}

/// The number of a UINT64. That of NULL is 0.
pub(crate) fn uint_of(value: &Value) -> u64
    requires { fits types.Uint64 value.now ≡ true }
    ensures { pos result ≡ takes.number value.now }
{
    match value {
        Value::Uint(number) => *number,
        _ => 0,
    }
}

/// A number of places. A negative one is the fault ARGUMENT.
pub(crate) fn as_places(number: i64) -> Result<u64, FaultKind>
    ensures { MatchResult result (λ n. number ≡ pos n) (λ f. (k : ℕ) × (number ≡ negsuc k) × (f ≡ FaultKind.Argument)) }
{
    if number < 0 {
        return Err(FaultKind::Argument);
    }
    Ok(number as u64)
}
