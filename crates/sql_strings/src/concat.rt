//! `||` and CONCAT.
ghost use Rattle.std.specs.Prelude.{◌≡◌, [], ◌∷◌, true, IfOk, map};
ghost use Rattle.sql_types.specs.declared.sql_type.SqlType.TheVariants as types;
ghost use Rattle.sql_types.specs.declared.value.Value.TheVariants as value;
ghost use Rattle.sql_types.specs.Outcome.{Answers, just};
ghost use Rattle.sql_types.specs.Takes.{all_fit, content, fits_repeated, fits_types};
ghost use Rattle.sql_strings.specs.Rows.{apply_concat, characters, string, string_kind, bytes_kind};
ghost use Rattle.sql_strings.specs.Texts.{all_joined};

use crate::arguments::{bytes_of, some_null, text_of};
use sql_types::{CallFault, Items, Text, Value};
use std::alloc::{AllocError, Global};

/// `||` of two STRINGs.
pub fn join_string_string(alloc: Global, values: &[Value]) -> Result<Value, CallFault>
    requires { fits_types (types.Text ∷ types.Text ∷ []) values.now ≡ true }
    ensures { Answers (just (apply_concat string_kind values.now)) result }
{
    concat_string(alloc, values)
}

/// `||` of two BYTES.
pub fn join_bytes_bytes(alloc: Global, values: &[Value]) -> Result<Value, CallFault>
    requires { fits_types (types.Bytes ∷ types.Bytes ∷ []) values.now ≡ true }
    ensures { Answers (just (apply_concat bytes_kind values.now)) result }
{
    concat_bytes(alloc, values)
}

/// CONCAT of one or more STRINGs.
pub fn concat_string(alloc: Global, values: &[Value]) -> Result<Value, CallFault>
    requires { fits_repeated types.Text values.now ≡ true }
    ensures { Answers (just (apply_concat string_kind values.now)) result }
{
    if some_null(values) {
        return Ok(Value::Null);
    }
    Ok(joined_texts(alloc, values)?)
}

/// CONCAT of one or more BYTES.
pub fn concat_bytes(alloc: Global, values: &[Value]) -> Result<Value, CallFault>
    requires { fits_repeated types.Bytes values.now ≡ true }
    ensures { Answers (just (apply_concat bytes_kind values.now)) result }
{
    if some_null(values) {
        return Ok(Value::Null);
    }
    Ok(joined_bytes(alloc, values)?)
}

fn joined_texts(alloc: Global, values: &[Value]) -> Result<Value, AllocError>
    requires { all_fit types.Text values.now ≡ true }
    ensures { IfOk result (λ made. made ≡ string (all_joined (map characters values.now))) }
{
    let mut made = String::new(alloc);
    for value in values {
        made.push_str(text_of(value))?;
    }
    Ok(Value::Text(Text::from_string(made)))
}

fn joined_bytes(alloc: Global, values: &[Value]) -> Result<Value, AllocError>
    requires { all_fit types.Bytes values.now ≡ true }
    ensures { IfOk result (λ made. made ≡ value.Bytes (all_joined (map content values.now))) }
{
    let mut made = Vec::new(alloc);
    for value in values {
        made.extend_from_slice(bytes_of(value))?;
    }
    Ok(Value::Bytes(Items::from_vec(made)))
}
