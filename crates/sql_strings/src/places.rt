//! STARTS_WITH, ENDS_WITH and STRPOS.
ghost use Rattle.std.specs.Prelude.{◌≡◌, [], ◌∷◌, true, Ok};
ghost use Rattle.sql_types.specs.declared.sql_type.SqlType.TheVariants as types;
ghost use Rattle.sql_types.specs.Takes.{fits_types};
ghost use Rattle.sql_strings.specs.Rows.{apply_starts_with, apply_ends_with, apply_strpos, string_kind, bytes_kind};

use crate::arguments::{bytes_of, some_null, text_of};
use crate::lengths::count;
use crate::search::{bytes_begin, bytes_end, bytes_place, text_begins, text_ends, text_place};
use sql_types::{FaultKind, Value};

/// STARTS_WITH: whether the first STRING begins with the second.
pub fn starts_with_string_string(values: &[Value]) -> Value
    requires { fits_types (types.Text ∷ types.Text ∷ []) values.now ≡ true }
    ensures { apply_starts_with string_kind values.now ≡ Ok result }
{
    if some_null(values) {
        return Value::Null;
    }
    match values {
        [text, part] => Value::Bool(text_begins(text_of(text), text_of(part))),
        _ => Value::Null,
    }
}

/// STARTS_WITH: whether the first BYTES begins with the second.
pub fn starts_with_bytes_bytes(values: &[Value]) -> Value
    requires { fits_types (types.Bytes ∷ types.Bytes ∷ []) values.now ≡ true }
    ensures { apply_starts_with bytes_kind values.now ≡ Ok result }
{
    if some_null(values) {
        return Value::Null;
    }
    match values {
        [content, part] => Value::Bool(bytes_begin(bytes_of(content), bytes_of(part))),
        _ => Value::Null,
    }
}

/// ENDS_WITH: whether the first STRING ends with the second.
pub fn ends_with_string_string(values: &[Value]) -> Value
    requires { fits_types (types.Text ∷ types.Text ∷ []) values.now ≡ true }
    ensures { apply_ends_with string_kind values.now ≡ Ok result }
{
    if some_null(values) {
        return Value::Null;
    }
    match values {
        [text, part] => Value::Bool(text_ends(text_of(text), text_of(part))),
        _ => Value::Null,
    }
}

/// ENDS_WITH: whether the first BYTES ends with the second.
pub fn ends_with_bytes_bytes(values: &[Value]) -> Value
    requires { fits_types (types.Bytes ∷ types.Bytes ∷ []) values.now ≡ true }
    ensures { apply_ends_with bytes_kind values.now ≡ Ok result }
{
    if some_null(values) {
        return Value::Null;
    }
    match values {
        [content, part] => Value::Bool(bytes_end(bytes_of(content), bytes_of(part))),
        _ => Value::Null,
    }
}

/// STRPOS: the first place of the second STRING in the first, in characters from 1, and 0 where there is none. An empty
/// second is found at 1.
pub fn strpos_string_string(values: &[Value]) -> Result<Value, FaultKind>
    requires { fits_types (types.Text ∷ types.Text ∷ []) values.now ≡ true }
    ensures { result ≡ apply_strpos string_kind values.now }
{
    if some_null(values) {
        return Ok(Value::Null);
    }
    match values {
        [text, part] => count(text_place(text_of(text), text_of(part))),
        _ => Ok(Value::Null),
    }
}

/// STRPOS: the first place of the second BYTES in the first, from 1, and 0 where there is none.
pub fn strpos_bytes_bytes(values: &[Value]) -> Result<Value, FaultKind>
    requires { fits_types (types.Bytes ∷ types.Bytes ∷ []) values.now ≡ true }
    ensures { result ≡ apply_strpos bytes_kind values.now }
{
    if some_null(values) {
        return Ok(Value::Null);
    }
    match values {
        [content, part] => count(bytes_place(bytes_of(content), bytes_of(part))),
        _ => Ok(Value::Null),
    }
}
