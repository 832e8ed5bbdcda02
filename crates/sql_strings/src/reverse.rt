//! REVERSE.
ghost use Rattle.std.specs.Prelude.{◌≡◌, [], ◌∷◌, true, IfOk, reverse};
ghost use Rattle.std.specs.Str.{chars, encode_utf8_all};
ghost use Rattle.sql_types.specs.declared.sql_type.SqlType.TheVariants as types;
ghost use Rattle.sql_types.specs.Outcome.{Answers, just};
ghost use Rattle.sql_types.specs.Takes.{fits_types};
ghost use Rattle.sql_strings.specs.Rows.{apply_reverse, string_kind, bytes_kind};

use crate::arguments::{bytes_of, some_null, text_of};
use crate::characters::last_character;
use sql_types::{Bytes, CallFault, Items, Text, Value};
use std::alloc::{AllocError, Global};

/// REVERSE of a STRING: its characters from the last to the first.
pub fn reverse_string(alloc: Global, values: &[Value]) -> Result<Value, CallFault>
    requires { fits_types (types.Text ∷ []) values.now ≡ true }
    ensures { Answers (just (apply_reverse string_kind values.now)) result }
{
    if some_null(values) {
        return Ok(Value::Null);
    }
    match values {
        [text] => Ok(Value::Text(reversed_text(alloc, text_of(text))?)),
        _ => Ok(Value::Null),
    }
}

/// REVERSE of a BYTES: its bytes from the last to the first.
pub fn reverse_bytes(alloc: Global, values: &[Value]) -> Result<Value, CallFault>
    requires { fits_types (types.Bytes ∷ []) values.now ≡ true }
    ensures { Answers (just (apply_reverse bytes_kind values.now)) result }
{
    if some_null(values) {
        return Ok(Value::Null);
    }
    match values {
        [content] => Ok(Value::Bytes(reversed_bytes(alloc, bytes_of(content))?)),
        _ => Ok(Value::Null),
    }
}

fn reversed_text(alloc: Global, text: &str) -> Result<Text, AllocError>
    ensures { IfOk result (λ made. made ≡ encode_utf8_all (reverse (chars text.now))) }
{
    let mut made = String::new(alloc);
    let mut rest = text;
    while let Some((before, last)) = last_character(rest) {
        made.push(last)?;
        rest = before;
    }
    Ok(Text::from_string(made))
}

fn reversed_bytes(alloc: Global, content: &[u8]) -> Result<Bytes, AllocError>
    ensures { IfOk result (λ made. made ≡ reverse content.now) }
{
    Ok(Items::from_vec(content.iter().rev().copied().collect(alloc)?))
}
