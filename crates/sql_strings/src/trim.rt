//! TRIM, LTRIM and RTRIM.
ghost use Rattle.std.specs.Prelude.{◌≡◌, [], ◌∷◌, true};
ghost use Rattle.std.specs.Char.{is_whitespace};
ghost use Rattle.std.specs.Str.{chars};
ghost use Rattle.sql_types.specs.declared.sql_type.SqlType.TheVariants as types;
ghost use Rattle.sql_types.specs.Outcome.{Answers, just};
ghost use Rattle.sql_types.specs.Takes.{fits_types_or_less};
ghost use Rattle.sql_strings.specs.Rows.{apply_ltrim, apply_rtrim, apply_trim};
ghost use Rattle.sql_strings.specs.Texts.{drop_front, drop_back, stands_in};

use crate::arguments::{some_null, string, text_of};
use crate::characters::{first_character, last_character};
use sql_types::{CallFault, Value};
use std::alloc::Global;

/// TRIM: the first STRING without the characters at both its ends that stand in the second, or without white space, as
/// Unicode has it, where there is no second.
pub fn trim_string_string(alloc: Global, values: &[Value]) -> Result<Value, CallFault>
    requires { fits_types_or_less (types.Text ∷ []) types.Text values.now ≡ true }
    ensures { Answers (just (apply_trim values.now)) result }
{
    if some_null(values) {
        return Ok(Value::Null);
    }
    match values {
        [text] => Ok(string(alloc, without_spaces(text_of(text)))?),
        [text, set] => {
            let rest = without_front(text_of(text), text_of(set));
            Ok(string(alloc, without_back(rest, text_of(set)))?)
        }
        _ => Ok(Value::Null),
    }
}

/// LTRIM, the same at the start alone.
pub fn ltrim_string_string(alloc: Global, values: &[Value]) -> Result<Value, CallFault>
    requires { fits_types_or_less (types.Text ∷ []) types.Text values.now ≡ true }
    ensures { Answers (just (apply_ltrim values.now)) result }
{
    if some_null(values) {
        return Ok(Value::Null);
    }
    match values {
        [text] => Ok(string(alloc, without_front_spaces(text_of(text)))?),
        [text, set] => Ok(string(alloc, without_front(text_of(text), text_of(set)))?),
        _ => Ok(Value::Null),
    }
}

/// RTRIM, the same at the end alone.
pub fn rtrim_string_string(alloc: Global, values: &[Value]) -> Result<Value, CallFault>
    requires { fits_types_or_less (types.Text ∷ []) types.Text values.now ≡ true }
    ensures { Answers (just (apply_rtrim values.now)) result }
{
    if some_null(values) {
        return Ok(Value::Null);
    }
    match values {
        [text] => Ok(string(alloc, without_back_spaces(text_of(text)))?),
        [text, set] => Ok(string(alloc, without_back(text_of(text), text_of(set)))?),
        _ => Ok(Value::Null),
    }
}

fn without_spaces(text: &str) -> &str
    ensures { chars result.now ≡ drop_back is_whitespace (drop_front is_whitespace (chars text.now)) }
{
    without_back_spaces(without_front_spaces(text))
}

fn without_front_spaces(text: &str) -> &str
    ensures { chars result.now ≡ drop_front is_whitespace (chars text.now) }
{
    text.trim_start()
}

fn without_back_spaces(text: &str) -> &str
    ensures { chars result.now ≡ drop_back is_whitespace (chars text.now) }
{
    text.trim_end()
}

/// Without the characters at the start that stand in the set.
fn without_front<'a>(text: &'a str, set: &str) -> &'a str
    ensures { chars result.now ≡ drop_front (stands_in (chars set.now)) (chars text.now) }
{
    let mut rest = text;
    while let Some((first, behind)) = first_character(rest) {
        if !has_character(set, first) {
            return rest;
        }
        rest = behind;
    }
    rest
}

/// Without the characters at the end that stand in the set.
fn without_back<'a>(text: &'a str, set: &str) -> &'a str
    ensures { chars result.now ≡ drop_back (stands_in (chars set.now)) (chars text.now) }
{
    let mut rest = text;
    while let Some((before, last)) = last_character(rest) {
        if !has_character(set, last) {
            return rest;
        }
        rest = before;
    }
    rest
}

#[tactic(auto, using(std::proofs::lemmas::Str::chars_from_encodes))]
fn has_character(set: &str, wanted: char) -> bool
    ensures { result ≡ stands_in (chars set.now) wanted }
{
    set.chars().any(|character| character == wanted)
}
