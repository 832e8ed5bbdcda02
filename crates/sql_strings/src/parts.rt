//! SUBSTR.
ghost use Rattle.std.specs.Prelude.{◌≡◌, [], ◌∷◌, take, length, true};
ghost use Rattle.std.specs.Str.{chars};
ghost use Rattle.sql_types.specs.declared.sql_type.SqlType.TheVariants as types;
ghost use Rattle.sql_types.specs.Outcome.{Answers, just};
ghost use Rattle.sql_types.specs.Takes.{fits_types_or_less};
ghost use Rattle.sql_strings.specs.Rows.{apply_substr, string_kind, bytes_kind};
ghost use Rattle.sql_strings.specs.Texts as texts;

use crate::arguments::{as_count, bytes, bytes_of, number_of, some_null, string, text_of};
use crate::characters::{count_characters, first_part, without_first};
use sql_types::{CallFault, Value};
use std::alloc::Global;

/// SUBSTR of a STRING, from a place on and, where a length is given, at most so many characters. Places count from 1, and
/// from the end where they are negative; 0, or a place before the start, is 1, and past the end is the empty text. A
/// negative length is the fault ARGUMENT.
pub fn substr_string_int64_int64(alloc: Global, values: &[Value]) -> Result<Value, CallFault>
    requires { fits_types_or_less (types.Text ∷ types.Int64 ∷ []) types.Int64 values.now ≡ true }
    ensures { Answers (just (apply_substr string_kind values.now)) result }
{
    if some_null(values) {
        return Ok(Value::Null);
    }
    match values {
        [text, place] => Ok(string(alloc, text_from(text_of(text), number_of(place)))?),
        [text, place, count] => match as_count(number_of(count)) {
            Ok(count) => {
                let rest = text_from(text_of(text), number_of(place));
                Ok(string(alloc, first_part(rest, count))?)
            }
            Err(fault) => Err(CallFault::Fault(fault)),
        },
        _ => Ok(Value::Null),
    }
}

/// SUBSTR of a BYTES, the same by bytes.
pub fn substr_bytes_int64_int64(alloc: Global, values: &[Value]) -> Result<Value, CallFault>
    requires { fits_types_or_less (types.Bytes ∷ types.Int64 ∷ []) types.Int64 values.now ≡ true }
    ensures { Answers (just (apply_substr bytes_kind values.now)) result }
{
    if some_null(values) {
        return Ok(Value::Null);
    }
    match values {
        [content, place] => Ok(bytes(alloc, bytes_from(bytes_of(content), number_of(place)))?),
        [content, place, count] => match as_count(number_of(count)) {
            Ok(count) => {
                let rest = bytes_from(bytes_of(content), number_of(place));
                Ok(bytes(alloc, first_bytes(rest, count))?)
            }
            Err(fault) => Err(CallFault::Fault(fault)),
        },
        _ => Ok(Value::Null),
    }
}

/// The text from a place on.
fn text_from(text: &str, place: i64) -> &str
    ensures { chars result.now ≡ texts.from_place place (chars text.now) }
{
    without_first(text, before_place(count_characters(text), place))
}

/// The bytes from a place on.
fn bytes_from(content: &[u8], place: i64) -> &[u8]
    ensures { result.now ≡ texts.from_place place content.now }
{
    let before = before_place(content.len(), place);
    &content[before.min(content.len())..]
}

/// At most so many bytes.
fn first_bytes(content: &[u8], count: usize) -> &[u8]
    ensures { result.now ≡ take count content.now }
{
    &content[..count.min(content.len())]
}

/// How many symbols stand before a place of a text of this length.
fn before_place(length: usize, place: i64) -> usize
    ensures { result ≡ texts.before_place length place }
{
    if place > 0 {
        (place - 1) as usize
    } else if place == 0 {
        0
    } else {
        length.saturating_sub(place.unsigned_abs() as usize)
    }
}
