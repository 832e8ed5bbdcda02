//! REPLACE.
ghost use Rattle.std.specs.Prelude.{◌≡◌, [], ◌∷◌, true, IfOk};
ghost use Rattle.std.specs.Str.{chars, encode_utf8_all};
ghost use Rattle.sql_types.specs.declared.sql_type.SqlType.TheVariants as types;
ghost use Rattle.sql_types.specs.Outcome.{Answers, just};
ghost use Rattle.sql_types.specs.Takes.{fits_types};
ghost use Rattle.sql_strings.specs.Rows.{apply_replace, string_kind, bytes_kind};
ghost use Rattle.sql_strings.specs.Texts.{replaced};

use crate::arguments::{bytes_of, some_null, text_of};
use crate::search::{cut_bytes, cut_text};
use sql_types::{Bytes, CallFault, Items, Text, Value};
use std::alloc::{AllocError, Global};

/// REPLACE of STRINGs: the third in each place at which the second stands in the first, found from the left. What it
/// writes isn't searched again, and an empty second leaves the first as it is.
pub fn replace_string_string_string(alloc: Global, values: &[Value]) -> Result<Value, CallFault>
    requires { fits_types (types.Text ∷ types.Text ∷ types.Text ∷ []) values.now ≡ true }
    ensures { Answers (just (apply_replace string_kind values.now)) result }
{
    if some_null(values) {
        return Ok(Value::Null);
    }
    match values {
        [text, old, new] => {
            let made = replaced_text(alloc, text_of(text), text_of(old), text_of(new))?;
            Ok(Value::Text(made))
        }
        _ => Ok(Value::Null),
    }
}

/// REPLACE of BYTES, the same by bytes.
pub fn replace_bytes_bytes_bytes(alloc: Global, values: &[Value]) -> Result<Value, CallFault>
    requires { fits_types (types.Bytes ∷ types.Bytes ∷ types.Bytes ∷ []) values.now ≡ true }
    ensures { Answers (just (apply_replace bytes_kind values.now)) result }
{
    if some_null(values) {
        return Ok(Value::Null);
    }
    match values {
        [content, old, new] => {
            let made = replaced_bytes(alloc, bytes_of(content), bytes_of(old), bytes_of(new))?;
            Ok(Value::Bytes(made))
        }
        _ => Ok(Value::Null),
    }
}

fn replaced_text(alloc: Global, text: &str, old: &str, new: &str) -> Result<Text, AllocError>
    ensures { IfOk result (λ made. made ≡ encode_utf8_all (replaced (chars old.now) (chars new.now) (chars text.now))) }
{
    if old.is_empty() {
        return Text::copy_of(alloc, text);
    }
    let mut made = String::new(alloc);
    let mut rest = text;
    while let Some((piece, behind)) = cut_text(rest, old) {
        made.push_str(piece)?;
        made.push_str(new)?;
        rest = behind;
    }
    made.push_str(rest)?;
    Ok(Text::from_string(made))
}

fn replaced_bytes(
    alloc: Global,
    content: &[u8],
    old: &[u8],
    new: &[u8],
) -> Result<Bytes, AllocError>
    ensures { IfOk result (λ made. made ≡ replaced old.now new.now content.now) }
{
    if old.is_empty() {
        return Items::from_slice(alloc, content);
    }
    let mut made = Vec::new(alloc);
    let mut rest = content;
    while let Some((piece, behind)) = cut_bytes(rest, old) {
        made.extend_from_slice(piece)?;
        made.extend_from_slice(new)?;
        rest = behind;
    }
    made.extend_from_slice(rest)?;
    Ok(Items::from_vec(made))
}
