//! What the arguments of a call say, and the values that calls make.
ghost use Rattle.std.specs.Prelude.{◌≡◌, ℕ, pos, negsuc, true, IfOk, MatchResult};
ghost use Rattle.std.specs.List.{list_all};
ghost use Rattle.std.specs.Str.{chars};
ghost use Rattle.sql_types.specs.declared.value.Value.{out-Value};
ghost use Rattle.sql_types.specs.declared.value.Value.TheVariants as value;
ghost use Rattle.sql_types.specs.declared.sql_type.SqlType.TheVariants as types;
ghost use Rattle.sql_types.specs.Before.{is_null};
ghost use Rattle.sql_types.specs.Fits.{fits};
ghost use Rattle.sql_types.specs.Takes as takes;
ghost use Rattle.sql_strings.specs.Rows as rows;

use sql_types::{FaultKind, Items, Text, Value};
use std::alloc::{AllocError, Global};

/// Whether some argument is NULL.
pub(crate) fn some_null(values: &[Value]) -> bool
    ensures { result ≡ takes.some_null values.now }
{
    for value in values {
        if is_null(value) {
            return true;
        }
    }
    false
}

pub(crate) fn is_null(value: &Value) -> bool
    ensures { result ≡ is_null (out-Value value.now) }
{
    match value {
        Value::Null => true,
        _ => false,
    }
}

/// The text of a STRING. That of NULL is empty.
pub(crate) fn text_of(value: &Value) -> &str
    requires { fits types.Text value.now ≡ true }
    ensures { result.now ≡ takes.content value.now }
{
    match value {
        Value::Text(text) => text.as_str(),
        _ => "",
    }
}

/// The bytes of a BYTES. NULL has none.
pub(crate) fn bytes_of(value: &Value) -> &[u8]
    requires { fits types.Bytes value.now ≡ true }
    ensures { result.now ≡ takes.content value.now }
{
    match value {
        Value::Bytes(bytes) => bytes.as_slice(),
        _ => &[],
    }
}

/// The elements of an ARRAY<STRING>. NULL has none.
pub(crate) fn elements_of(value: &Value) -> &[Value]
    requires { fits (types.Array types.Text) value.now ≡ true }
    ensures value { result.now ≡ takes.elements value.now }
    ensures fit { list_all (fits types.Text) result.now ≡ true }
{
    match value {
        Value::Array(elements) => elements.as_slice(),
        _ => &[],
    }
}

/// The number of an INT64. That of NULL is 0.
pub(crate) fn number_of(value: &Value) -> i64
    requires { fits types.Int64 value.now ≡ true }
    ensures { result ≡ takes.number value.now }
{
    match value {
        Value::Int(number) => *number,
        _ => 0,
    }
}

/// A number of symbols or of times. A negative one is the fault ARGUMENT.
pub(crate) fn as_count(number: i64) -> Result<usize, FaultKind>
    ensures { MatchResult result (λ n. number ≡ pos n) (λ f. (k : ℕ) × (number ≡ negsuc k) × (f ≡ FaultKind.Argument)) }
{
    if number < 0 {
        return Err(FaultKind::Argument);
    }
    Ok(number as usize)
}

/// A STRING of this text.
pub(crate) fn string(alloc: Global, text: &str) -> Result<Value, AllocError>
    ensures { IfOk result (λ v. v ≡ rows.string (chars text.now)) }
{
    Ok(Value::Text(Text::copy_of(alloc, text)?))
}

/// A BYTES of these bytes.
pub(crate) fn bytes(alloc: Global, content: &[u8]) -> Result<Value, AllocError>
    ensures { IfOk result (λ v. v ≡ value.Bytes content.now) }
{
    Ok(Value::Bytes(Items::from_slice(alloc, content)?))
}
