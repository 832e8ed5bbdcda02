//! LIKE, as a row over values.
ghost use Rattle.std.specs.Prelude.{◌≡◌, [], ◌∷◌, true};
ghost use Rattle.sql_types.specs.declared.sql_type.SqlType.TheVariants as ty;
ghost use Rattle.sql_types.specs.declared.value.Value.{out-Value};
ghost use Rattle.sql_types.specs.Before.{is_null};
ghost use Rattle.sql_types.specs.Fits.{fits};
ghost use Rattle.sql_types.specs.Takes as takes;
ghost use Rattle.sql_strings.specs.Rows as rows;

use sql_strings::like;
use sql_types::{FaultKind, Value};

/// LIKE of two STRINGs.
pub(crate) fn like_string(values: &[Value]) -> Result<Value, FaultKind>
    requires { takes.fits_types (ty.Text ∷ ty.Text ∷ []) values.now ≡ true }
    ensures { result ≡ rows.apply_like rows.string_kind values.now }
{
    if some_null(values) {
        return Ok(Value::Null);
    }
    match values {
        [text, pattern] => truth(like(
            text_of(text).as_bytes(),
            text_of(pattern).as_bytes(),
            false,
        )),
        _ => Ok(Value::Null),
    }
}

/// LIKE of two BYTES.
pub(crate) fn like_bytes(values: &[Value]) -> Result<Value, FaultKind>
    requires { takes.fits_types (ty.Bytes ∷ ty.Bytes ∷ []) values.now ≡ true }
    ensures { result ≡ rows.apply_like rows.bytes_kind values.now }
{
    if some_null(values) {
        return Ok(Value::Null);
    }
    match values {
        [text, pattern] => truth(like(bytes_of(text), bytes_of(pattern), true)),
        _ => Ok(Value::Null),
    }
}

fn truth(answer: Result<bool, FaultKind>) -> Result<Value, FaultKind>
    ensures { result ≡ rows.truth answer }
{
    match answer {
        Ok(truth) => Ok(Value::Bool(truth)),
        Err(fault) => Err(fault),
    }
}

/// Whether some argument is NULL.
fn some_null(values: &[Value]) -> bool
    ensures { result ≡ takes.some_null values.now }
{
    for value in values {
        if is_null(value) {
            return true;
        }
    }
    false
}

fn is_null(value: &Value) -> bool
    ensures { result ≡ is_null (out-Value value.now) }
{
    matches!(value, Value::Null)
}

/// The text of a STRING. That of NULL is empty.
fn text_of(value: &Value) -> &str
    requires { fits ty.Text value.now ≡ true }
    ensures { result.now ≡ takes.content value.now }
{
    match value {
        Value::Text(text) => text.as_str(),
        _ => "",
    }
}

/// The bytes of a BYTES. NULL has none.
fn bytes_of(value: &Value) -> &[u8]
    requires { fits ty.Bytes value.now ≡ true }
    ensures { result.now ≡ takes.content value.now }
{
    match value {
        Value::Bytes(bytes) => bytes.as_slice(),
        _ => &[],
    }
}
