//! LENGTH, BYTE_LENGTH and CHAR_LENGTH.
ghost use Rattle.std.specs.Prelude.{◌≡◌, [], ◌∷◌, true};
ghost use Rattle.sql_types.specs.declared.sql_type.SqlType.TheVariants as types;
ghost use Rattle.sql_types.specs.Takes.{fits_types, count_value};
ghost use Rattle.sql_strings.specs.Rows.{apply_length, apply_byte_length, string_kind, bytes_kind};

use crate::arguments::{bytes_of, some_null, text_of};
use crate::characters::count_characters;
use sql_types::{FaultKind, Value};

/// LENGTH of a STRING, in characters. A length above the greatest INT64 is OUT_OF_RANGE, in all of these.
pub fn length_string(values: &[Value]) -> Result<Value, FaultKind>
    requires { fits_types (types.Text ∷ []) values.now ≡ true }
    ensures { result ≡ apply_length string_kind values.now }
{
    if some_null(values) {
        return Ok(Value::Null);
    }
    match values {
        [text] => count(count_characters(text_of(text))),
        _ => Ok(Value::Null),
    }
}

/// LENGTH of a BYTES.
pub fn length_bytes(values: &[Value]) -> Result<Value, FaultKind>
    requires { fits_types (types.Bytes ∷ []) values.now ≡ true }
    ensures { result ≡ apply_length bytes_kind values.now }
{
    if some_null(values) {
        return Ok(Value::Null);
    }
    match values {
        [content] => count(bytes_of(content).len()),
        _ => Ok(Value::Null),
    }
}

/// BYTE_LENGTH of a STRING: the bytes of its UTF-8.
pub fn byte_length_string(values: &[Value]) -> Result<Value, FaultKind>
    requires { fits_types (types.Text ∷ []) values.now ≡ true }
    ensures { result ≡ apply_byte_length values.now }
{
    if some_null(values) {
        return Ok(Value::Null);
    }
    match values {
        [text] => count(text_of(text).len()),
        _ => Ok(Value::Null),
    }
}

/// BYTE_LENGTH of a BYTES.
pub fn byte_length_bytes(values: &[Value]) -> Result<Value, FaultKind>
    requires { fits_types (types.Bytes ∷ []) values.now ≡ true }
    ensures { result ≡ apply_byte_length values.now }
{
    length_bytes(values)
}

/// CHAR_LENGTH of a STRING.
pub fn char_length_string(values: &[Value]) -> Result<Value, FaultKind>
    requires { fits_types (types.Text ∷ []) values.now ≡ true }
    ensures { result ≡ apply_length string_kind values.now }
{
    length_string(values)
}

/// A count as an INT64, and OUT_OF_RANGE above the greatest.
pub(crate) fn count(number: usize) -> Result<Value, FaultKind>
    ensures { result ≡ count_value number }
{
    match i64::try_from(number) {
        Ok(number) => Ok(Value::Int(number)),
        Err(_) => Err(FaultKind::OutOfRange),
    }
}
