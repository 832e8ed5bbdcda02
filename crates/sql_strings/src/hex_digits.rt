//! TO_HEX and FROM_HEX.
ghost use Rattle.std.specs.Prelude.{◌≡◌, ◌<◌, ℕ, List, [], ◌∷◌, length, true, IfOk, IfSome, MatchOption, Some, None, option_map};
ghost use Rattle.std.specs.Str.{IsUtf8, chars};
ghost use Rattle.sql_types.specs.declared.sql_type.SqlType.TheVariants as types;
ghost use Rattle.sql_types.specs.Outcome.{Answers, just};
ghost use Rattle.sql_types.specs.Takes.{fits_types};
ghost use Rattle.sql_strings.specs.Hex as digits;
ghost use Rattle.sql_strings.specs.Rows.{apply_from_hex, apply_to_hex, bytes_or_fault};

use crate::arguments::{bytes_of, some_null, text_of};
use crate::characters::{count_characters, first_character};
use sql_types::{CallFault, FaultKind, Items, Text, Value};
use std::alloc::{AllocError, Global};

/// TO_HEX: two digits in base 16 for each byte, in lower case.
pub fn to_hex_bytes(alloc: Global, values: &[Value]) -> Result<Value, CallFault>
    requires { fits_types (types.Bytes ∷ []) values.now ≡ true }
    ensures { Answers (just (apply_to_hex values.now)) result }
{
    if some_null(values) {
        return Ok(Value::Null);
    }
    match values {
        [content] => Ok(Value::Text(to_hex(alloc, bytes_of(content))?)),
        _ => Ok(Value::Null),
    }
}

/// FROM_HEX: the bytes of digits in base 16, in either case. An odd number of digits is read as with a `0` before it, and a
/// character that is no digit is the fault ARGUMENT.
pub fn from_hex_string(alloc: Global, values: &[Value]) -> Result<Value, CallFault>
    requires { fits_types (types.Text ∷ []) values.now ≡ true }
    ensures { Answers (just (apply_from_hex values.now)) result }
{
    if some_null(values) {
        return Ok(Value::Null);
    }
    match values {
        [text] => from_hex(alloc, text_of(text)),
        _ => Ok(Value::Null),
    }
}

fn to_hex(alloc: Global, content: &[u8]) -> Result<Text, AllocError>
    ensures { IfOk result (λ made. made ≡ digits.to_hex content.now) }
{
    Ok(Text::from_string(hex::encode(alloc, content)?))
}

fn from_hex(alloc: Global, text: &str) -> Result<Value, CallFault>
    ensures { Answers (just (bytes_or_fault (digits.from_hex (chars text.now)))) result }
{
    let mut made = Items::new(alloc);
    let mut rest = text;
    let mut is_odd = count_characters(text) % 2 == 1;
    while !rest.is_empty() {
        match first_byte(rest, is_odd) {
            Some((byte, behind)) => {
                made.push(byte)?;
                rest = behind;
            }
            None => return Err(CallFault::Fault(FaultKind::Argument)),
        }
        is_odd = false;
    }
    Ok(Value::Bytes(made))
}

/// The byte of the first two digits, or of the first one where their number is odd, and the text behind. None where one of
/// them is no digit, or the second is missing.
fn first_byte(text: &str, is_odd: bool) -> Option<(u8, &str)>
    requires { 0 < length text.now }
    ensures bytes { MatchOption result
        (digits.pairs_of (digits.padded is_odd (chars text.now)) ≡ None)
        (λ r. digits.pairs_of (digits.padded is_odd (chars text.now)) ≡ option_map (λ bytes. r.0 ∷ bytes) (digits.pairs_of (chars r.1.now))) }
    ensures shorter { IfSome result (λ r. length r.1.now < length text.now) }
    ensures utf8 { IfSome result (λ r. IsUtf8 r.1.now) }
{
    if is_odd {
        return first_digit(text);
    }
    let (high, behind) = first_digit(text)?;
    let (low, rest) = first_digit(behind)?;
    Some((16 * high + low, rest))
}

/// The value of the first character, where it is a digit, and the text behind.
fn first_digit(text: &str) -> Option<(u8, &str)>
    ensures digit { MatchOption result
        ((c : ℕ) (cs : List ℕ) → chars text.now ≡ c ∷ cs → digits.digit_value c ≡ None)
        (λ r. (c : ℕ) × (chars text.now ≡ c ∷ chars r.1.now) × (digits.digit_value c ≡ Some r.0)) }
    ensures small { IfSome result (λ r. r.0 < 16) }
    ensures shorter { IfSome result (λ r. length r.1.now < length text.now) }
    ensures utf8 { IfSome result (λ r. IsUtf8 r.1.now) }
{
    let (character, behind) = first_character(text)?;
    let value = digit_value(character)?;
    Some((value, behind))
}

/// The value of a digit in base 16, in either case.
fn digit_value(character: char) -> Option<u8>
    ensures value { result ≡ digits.digit_value character }
    ensures small { IfSome result (λ value. value < 16) }
{
    match character {
        '0'..='9' => Some(character as u8 - b'0'),
        'a'..='f' => Some(character as u8 - b'a' + 10),
        'A'..='F' => Some(character as u8 - b'A' + 10),
        _ => None,
    }
}
