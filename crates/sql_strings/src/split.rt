//! SPLIT.
ghost use Rattle.std.specs.Prelude.{◌≡◌, ◌<◌, [], ◌∷◌, true, IfOk, map, length};
ghost use Rattle.std.specs.Str.{chars};
ghost use Rattle.sql_types.specs.declared.sql_type.SqlType.TheVariants as types;
ghost use Rattle.sql_types.specs.Outcome.{Answers, just};
ghost use Rattle.sql_types.specs.Takes.{fits_types};
ghost use Rattle.sql_strings.specs.Rows.{apply_split, string};
ghost use Rattle.sql_strings.specs.Texts as texts;

use crate::arguments::{some_null, string, text_of};
use crate::characters::first_character;
use crate::search::cut_text;
use sql_types::{CallFault, Items, Text, Value, Values};
use std::alloc::{AllocError, Global};

/// SPLIT: the pieces of the first STRING between the places of the second, found from the left. An empty first is one
/// empty piece, whatever the second; else an empty second parts every character.
pub fn split_string_string(alloc: Global, values: &[Value]) -> Result<Value, CallFault>
    requires { fits_types (types.Text ∷ types.Text ∷ []) values.now ≡ true }
    ensures { Answers (just (apply_split values.now)) result }
{
    if some_null(values) {
        return Ok(Value::Null);
    }
    match values {
        [text, separator] => Ok(Value::Array(split(alloc, text_of(text), text_of(separator))?)),
        _ => Ok(Value::Null),
    }
}

fn split(alloc: Global, text: &str, separator: &str) -> Result<Values, AllocError>
    ensures { IfOk result (λ made. made ≡ map string (texts.split_text (chars separator.now) (chars text.now))) }
{
    if text.is_empty() {
        return one_piece(alloc, text);
    }
    if separator.is_empty() {
        return singles(alloc, text);
    }
    pieces(alloc, text, separator)
}

fn one_piece(alloc: Global, text: &str) -> Result<Values, AllocError>
    ensures { IfOk result (λ made. made ≡ string (chars text.now) ∷ []) }
{
    let mut made = Items::new(alloc);
    made.push(string(alloc, text)?)?;
    Ok(made)
}

/// Each character alone.
fn singles(alloc: Global, text: &str) -> Result<Values, AllocError>
    ensures { IfOk result (λ made. made ≡ map string (texts.singles (chars text.now))) }
{
    let mut made = Items::new(alloc);
    let mut rest = text;
    while let Some((character, behind)) = first_character(rest) {
        made.push(single(alloc, character)?)?;
        rest = behind;
    }
    Ok(made)
}

fn single(alloc: Global, character: char) -> Result<Value, AllocError>
    ensures { IfOk result (λ made. made ≡ string (character ∷ [])) }
{
    let mut text = String::new(alloc);
    text.push(character)?;
    Ok(Value::Text(Text::from_string(text)))
}

/// The pieces between the places of a separator that isn't empty.
fn pieces(alloc: Global, text: &str, separator: &str) -> Result<Values, AllocError>
    requires { 0 < length separator.now }
    ensures { IfOk result (λ made. made ≡ map string (texts.pieces (chars separator.now) (chars text.now))) }
{
    let mut made = Items::new(alloc);
    let mut rest = text;
    while let Some((piece, behind)) = cut_text(rest, separator) {
        made.push(string(alloc, piece)?)?;
        rest = behind;
    }
    made.push(string(alloc, rest)?)?;
    Ok(made)
}
