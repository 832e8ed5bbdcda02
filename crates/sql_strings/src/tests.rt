//! Each call on its corners. `\N` stands for NULL.
ghost use Rattle.std.specs.Prelude.{◌≡◌, true, IfOk};
ghost use Rattle.sql_types.specs.declared.sql_type.SqlType.TheVariants as types;
ghost use Rattle.sql_types.specs.Fits.{fits};

use crate::*;
use sql_types::{CallFault, FaultKind, Items, Text, Value};
use std::alloc::{AllocError, Global};
use std::str;
use std::test::Fail;

/// A text, and its LENGTH, CHAR_LENGTH and BYTE_LENGTH, and as BYTES its LENGTH and BYTE_LENGTH.
const LENGTHS: [(&str, &str); 5] = [
    ("", "0;0;0;0;0;"),
    ("abc", "3;3;3;3;3;"),
    ("\u{e9}", "1;1;2;2;2;"),
    ("a\u{1f600}b", "3;3;6;6;6;"),
    ("\\N", "\\N;\\N;\\N;\\N;\\N;"),
];

#[test]
fn lengths(rt: HostRuntime) -> Result<(), Fail> {
    for (content, want) in LENGTHS {
        assert_eq!(rt; lengths_of(rt.alloc(), content)?.as_str(), want);
    }
    Ok(())
}

fn lengths_of(alloc: Global, content: &str) -> Result<String, AllocError> {
    let mut made = String::new(alloc);
    let values = [text(alloc, content)?];
    put(alloc, &mut made, counted(length_string(&values)))?;
    put(alloc, &mut made, counted(char_length_string(&values)))?;
    put(alloc, &mut made, counted(byte_length_string(&values)))?;
    put_lengths_of_bytes(alloc, &mut made, bytes(alloc, content)?)?;
    Ok(made)
}

fn put_lengths_of_bytes(alloc: Global, made: &mut String, content: Value) -> Result<(), AllocError>
    requires { fits types.Bytes content ≡ true }
{
    let values = [content];
    put(alloc, made, counted(length_bytes(&values)))?;
    put(alloc, made, counted(byte_length_bytes(&values)))
}

/// A text, a place, a length that may be missing, and the part, of a STRING and of a BYTES.
const PARTS: [(&str, i64, Option<i64>, &str); 14] = [
    ("abc", 2, None, "bc;bc;"),
    ("abc", 0, None, "abc;abc;"),
    ("abc", 4, None, ";;"),
    ("abc", -1, None, "c;c;"),
    ("abc", i64::MIN, None, "abc;abc;"),
    ("abc", i64::MAX, None, ";;"),
    ("abc", -5, Some(2), "ab;ab;"),
    ("abc", 2, Some(0), ";;"),
    ("abc", 2, Some(i64::MAX), "bc;bc;"),
    ("abc", 100, Some(-1), "ARGUMENT;ARGUMENT;"),
    ("h\u{e9}llo", 2, Some(3), "\u{e9}ll;\u{e9}l;"),
    ("h\u{e9}llo", -4, None, "\u{e9}llo;169 108 108 111 ;"),
    ("\\N", 1, Some(-1), "\\N;\\N;"),
    ("", 1, Some(1), ";;"),
];

#[test]
fn parts_of_texts(rt: HostRuntime) -> Result<(), Fail> {
    for (content, place, count, want) in PARTS {
        let got = match count {
            None => rest_of(rt.alloc(), content, place)?,
            Some(count) => part_of(rt.alloc(), content, place, count)?,
        };
        assert_eq!(rt; got.as_str(), want);
    }
    Ok(())
}

fn rest_of(alloc: Global, content: &str, place: i64) -> Result<String, AllocError> {
    let mut made = String::new(alloc);
    let values = [text(alloc, content)?, number(place)];
    put(alloc, &mut made, substr_string_int64_int64(alloc, &values))?;
    let values = [bytes(alloc, content)?, number(place)];
    put(alloc, &mut made, substr_bytes_int64_int64(alloc, &values))?;
    Ok(made)
}

fn part_of(alloc: Global, content: &str, place: i64, count: i64) -> Result<String, AllocError> {
    let mut made = String::new(alloc);
    let values = [text(alloc, content)?, number(place), number(count)];
    put(alloc, &mut made, substr_string_int64_int64(alloc, &values))?;
    let values = [bytes(alloc, content)?, number(place), number(count)];
    put(alloc, &mut made, substr_bytes_int64_int64(alloc, &values))?;
    Ok(made)
}

/// A NULL place comes before the fault of a negative length.
#[test]
fn null_comes_first(rt: HostRuntime) -> Result<(), Fail> {
    assert_eq!(rt; part_without_place(rt.alloc())?.as_str(), "\\N;");
    Ok(())
}

fn part_without_place(alloc: Global) -> Result<String, AllocError> {
    let mut made = String::new(alloc);
    let values = [text(alloc, "a")?, no_number(), number(-1)];
    put(alloc, &mut made, substr_string_int64_int64(alloc, &values))?;
    Ok(made)
}

/// A text, a part, and STARTS_WITH, ENDS_WITH and STRPOS of them as STRINGs and as BYTES.
const PLACES: [(&str, &str, &str); 11] = [
    ("abc", "ab", "TRUE;FALSE;1;TRUE;FALSE;1;"),
    ("abc", "bc", "FALSE;TRUE;2;FALSE;TRUE;2;"),
    ("abc", "abc", "TRUE;TRUE;1;TRUE;TRUE;1;"),
    ("abc", "", "TRUE;TRUE;1;TRUE;TRUE;1;"),
    ("", "", "TRUE;TRUE;1;TRUE;TRUE;1;"),
    ("", "a", "FALSE;FALSE;0;FALSE;FALSE;0;"),
    ("abc", "abcd", "FALSE;FALSE;0;FALSE;FALSE;0;"),
    ("\u{e9}\u{e8}a", "a", "FALSE;TRUE;3;FALSE;TRUE;5;"),
    ("\u{e9}\u{e8}a", "\u{e8}", "FALSE;FALSE;2;FALSE;FALSE;3;"),
    ("aab", "ab", "FALSE;TRUE;2;FALSE;TRUE;2;"),
    ("a", "\\N", "\\N;\\N;\\N;\\N;\\N;\\N;"),
];

#[test]
fn places(rt: HostRuntime) -> Result<(), Fail> {
    for (content, part, want) in PLACES {
        assert_eq!(rt; places_of(rt.alloc(), content, part)?.as_str(), want);
    }
    Ok(())
}

fn places_of(alloc: Global, content: &str, part: &str) -> Result<String, AllocError> {
    let mut made = String::new(alloc);
    let values = [text(alloc, content)?, text(alloc, part)?];
    put(alloc, &mut made, Ok(starts_with_string_string(&values)))?;
    put(alloc, &mut made, Ok(ends_with_string_string(&values)))?;
    put(alloc, &mut made, counted(strpos_string_string(&values)))?;
    put_places_of_bytes(
        alloc,
        &mut made,
        bytes(alloc, content)?,
        bytes(alloc, part)?,
    )?;
    Ok(made)
}

fn put_places_of_bytes(
    alloc: Global,
    made: &mut String,
    content: Value,
    part: Value,
) -> Result<(), AllocError>
    requires content { fits types.Bytes content ≡ true }
    requires part { fits types.Bytes part ≡ true }
{
    let values = [content, part];
    put(alloc, made, Ok(starts_with_bytes_bytes(&values)))?;
    put(alloc, made, Ok(ends_with_bytes_bytes(&values)))?;
    put(alloc, made, counted(strpos_bytes_bytes(&values)))
}

/// A text, an old and a new part, and the text with the one for the other, as STRINGs and as BYTES.
const REPLACED: [(&str, &str, &str, &str); 8] = [
    ("aaa", "aa", "b", "ba;ba;"),
    ("aa", "a", "aa", "aaaa;aaaa;"),
    ("abab", "ab", "", ";;"),
    ("abc", "", "x", "abc;abc;"),
    ("h\u{e9}\u{e9}", "\u{e9}", "e", "hee;hee;"),
    ("abc", "d", "e", "abc;abc;"),
    ("", "a", "b", ";;"),
    ("a", "b", "\\N", "\\N;\\N;"),
];

#[test]
fn replaced(rt: HostRuntime) -> Result<(), Fail> {
    for (content, old, new, want) in REPLACED {
        assert_eq!(rt; replaced_in(rt.alloc(), content, old, new)?.as_str(), want);
    }
    Ok(())
}

fn replaced_in(alloc: Global, content: &str, old: &str, new: &str) -> Result<String, AllocError> {
    let mut made = String::new(alloc);
    let values = [text(alloc, content)?, text(alloc, old)?, text(alloc, new)?];
    put(
        alloc,
        &mut made,
        replace_string_string_string(alloc, &values),
    )?;
    let values = [
        bytes(alloc, content)?,
        bytes(alloc, old)?,
        bytes(alloc, new)?,
    ];
    put(alloc, &mut made, replace_bytes_bytes_bytes(alloc, &values))?;
    Ok(made)
}

/// A text, a separator and the pieces, with `|` behind each.
const PIECES: [(&str, &str, &str); 10] = [
    ("", "", "|;"),
    ("", ",", "|;"),
    ("", "\\N", "\\N;"),
    ("aaa", "aa", "|a|;"),
    ("\u{e9}ab", "", "\u{e9}|a|b|;"),
    ("a,b,,c", ",", "a|b||c|;"),
    (",", ",", "||;"),
    ("a\u{e9}b", "\u{e9}", "a|b|;"),
    ("abc", "abc", "||;"),
    ("abc", "d", "abc|;"),
];

#[test]
fn pieces(rt: HostRuntime) -> Result<(), Fail> {
    for (content, separator, want) in PIECES {
        assert_eq!(rt; pieces_of(rt.alloc(), content, separator)?.as_str(), want);
    }
    Ok(())
}

fn pieces_of(alloc: Global, content: &str, separator: &str) -> Result<String, AllocError> {
    let mut made = String::new(alloc);
    let values = [text(alloc, content)?, text(alloc, separator)?];
    put(alloc, &mut made, split_string_string(alloc, &values))?;
    Ok(made)
}

/// A text, a count, and the text so many times, as a STRING and as a BYTES.
const REPEATED: [(&str, i64, &str); 7] = [
    ("ab", 3, "ababab;ababab;"),
    ("\u{e9}", 0, ";;"),
    ("", i64::MAX, ";;"),
    ("", -1, "ARGUMENT;ARGUMENT;"),
    ("\u{e9}", 524_289, "OUT_OF_RANGE;OUT_OF_RANGE;"),
    ("ab", i64::MAX, "OUT_OF_RANGE;OUT_OF_RANGE;"),
    ("\\N", -1, "\\N;\\N;"),
];

#[test]
fn repeated(rt: HostRuntime) -> Result<(), Fail> {
    for (content, count, want) in REPEATED {
        assert_eq!(rt; repeated_times(rt.alloc(), content, count)?.as_str(), want);
    }
    // the longest answers
    assert_eq!(rt;
        repeated_times(rt.alloc(), "\u{e9}", 524_288)?.len(),
        2_097_154
    );
    Ok(())
}

fn repeated_times(alloc: Global, content: &str, count: i64) -> Result<String, AllocError> {
    let mut made = String::new(alloc);
    let values = [text(alloc, content)?, number(count)];
    put(alloc, &mut made, repeat_string_int64(alloc, &values))?;
    let values = [bytes(alloc, content)?, number(count)];
    put(alloc, &mut made, repeat_bytes_int64(alloc, &values))?;
    Ok(made)
}

/// Two texts, `||` and CONCAT of them as STRINGs and as BYTES, and REVERSE of the first, as both.
const JOINED: [(&str, &str, &str); 3] = [
    (
        "ab",
        "\u{1f600}",
        "ab\u{1f600};ab\u{1f600};ab\u{1f600};ab\u{1f600};ba;ba;",
    ),
    (
        "a\u{e9}",
        "",
        "a\u{e9};a\u{e9};a\u{e9};a\u{e9};\u{e9}a;169 195 97 ;",
    ),
    ("", "\\N", "\\N;\\N;\\N;\\N;;;"),
];

#[test]
fn joined(rt: HostRuntime) -> Result<(), Fail> {
    for (first, second, want) in JOINED {
        assert_eq!(rt; joined_of(rt.alloc(), first, second)?.as_str(), want);
    }
    Ok(())
}

fn joined_of(alloc: Global, first: &str, second: &str) -> Result<String, AllocError> {
    let mut made = String::new(alloc);
    let values = [text(alloc, first)?, text(alloc, second)?];
    put(alloc, &mut made, join_string_string(alloc, &values))?;
    put(alloc, &mut made, concat_string(alloc, &values))?;
    let values = [bytes(alloc, first)?, bytes(alloc, second)?];
    put(alloc, &mut made, join_bytes_bytes(alloc, &values))?;
    put(alloc, &mut made, concat_bytes(alloc, &values))?;
    put_reversed(alloc, &mut made, first)?;
    Ok(made)
}

fn put_reversed(alloc: Global, made: &mut String, content: &str) -> Result<(), AllocError> {
    let values = [text(alloc, content)?];
    put(alloc, made, reverse_string(alloc, &values))?;
    let values = [bytes(alloc, content)?];
    put(alloc, made, reverse_bytes(alloc, &values))
}

/// A text, and TRIM, LTRIM and RTRIM of it.
const SPACES: [(&str, &str); 6] = [
    (" \t a b\n", "a b;a b\n; \t a b;"),
    ("\u{85}a\u{a0}", "a;a\u{a0};\u{85}a;"),
    ("\u{1f}a", "\u{1f}a;\u{1f}a;\u{1f}a;"),
    ("\u{200b}a", "\u{200b}a;\u{200b}a;\u{200b}a;"),
    ("  ", ";;;"),
    ("\\N", "\\N;\\N;\\N;"),
];

#[test]
fn trimmed_of_spaces(rt: HostRuntime) -> Result<(), Fail> {
    for (content, want) in SPACES {
        assert_eq!(rt; without_spaces(rt.alloc(), content)?.as_str(), want);
    }
    Ok(())
}

fn without_spaces(alloc: Global, content: &str) -> Result<String, AllocError> {
    let mut made = String::new(alloc);
    let values = [text(alloc, content)?];
    put(alloc, &mut made, trim_string_string(alloc, &values))?;
    put(alloc, &mut made, ltrim_string_string(alloc, &values))?;
    put(alloc, &mut made, rtrim_string_string(alloc, &values))?;
    Ok(made)
}

/// A text and a set, and the same three of them.
const TRIMMED: [(&str, &str, &str); 6] = [
    ("xyaxyx", "xy", "a;axyx;xya;"),
    ("\u{e9}a\u{e9}", "\u{e9}", "a;a\u{e9};\u{e9}a;"),
    (" a ", "x", " a ; a ; a ;"),
    ("a", "", "a;a;a;"),
    ("xx", "x", ";;;"),
    ("a", "\\N", "\\N;\\N;\\N;"),
];

#[test]
fn trimmed(rt: HostRuntime) -> Result<(), Fail> {
    for (content, set, want) in TRIMMED {
        assert_eq!(rt; without_set(rt.alloc(), content, set)?.as_str(), want);
    }
    Ok(())
}

fn without_set(alloc: Global, content: &str, set: &str) -> Result<String, AllocError> {
    let mut made = String::new(alloc);
    let values = [text(alloc, content)?, text(alloc, set)?];
    put(alloc, &mut made, trim_string_string(alloc, &values))?;
    put(alloc, &mut made, ltrim_string_string(alloc, &values))?;
    put(alloc, &mut made, rtrim_string_string(alloc, &values))?;
    Ok(made)
}

/// A text, its bytes as digits in base 16, and what it says as such digits.
const DIGITS: [(&str, &str); 8] = [
    ("", ";;"),
    ("abc", "616263;10 188 ;"),
    ("ABfF", "41426646;171 255 ;"),
    ("4", "34;\u{4};"),
    ("0g", "3067;ARGUMENT;"),
    ("\u{e9}", "c3a9;ARGUMENT;"),
    ("a\u{e9}", "61c3a9;ARGUMENT;"),
    ("\\N", "\\N;\\N;"),
];

#[test]
fn hex_digits(rt: HostRuntime) -> Result<(), Fail> {
    for (content, want) in DIGITS {
        assert_eq!(rt; digits_of(rt.alloc(), content)?.as_str(), want);
    }
    Ok(())
}

fn digits_of(alloc: Global, content: &str) -> Result<String, AllocError> {
    let mut made = String::new(alloc);
    let values = [bytes(alloc, content)?];
    put(alloc, &mut made, to_hex_bytes(alloc, &values))?;
    let values = [text(alloc, content)?];
    put(alloc, &mut made, from_hex_string(alloc, &values))?;
    Ok(made)
}

/// Three elements, ARRAY_TO_STRING of them by `-`, the text for NULL, and the same with that text.
const ARRAYS: [(&str, &str, &str, &str, &str); 4] = [
    ("a", "\\N", "", "x", "a-;a-x-;"),
    ("\\N", "b", "c", "x", "b-c;x-b-c;"),
    ("\\N", "\\N", "\\N", "", ";--;"),
    ("a", "b", "c", "\\N", "a-b-c;\\N;"),
];

#[test]
fn arrays_to_texts(rt: HostRuntime) -> Result<(), Fail> {
    for (first, second, third, null_text, want) in ARRAYS {
        let mut made = String::new(rt.alloc());
        put_joined(
            rt.alloc(),
            &mut made,
            array(rt.alloc(), first, second, third)?,
        )?;
        put_joined_with(
            rt.alloc(),
            &mut made,
            array(rt.alloc(), first, second, third)?,
            null_text,
        )?;
        assert_eq!(rt; made.as_str(), want);
    }
    Ok(())
}

fn put_joined(alloc: Global, made: &mut String, elements: Value) -> Result<(), AllocError>
    requires { fits (types.Array types.Text) elements ≡ true }
{
    let values = [elements, text(alloc, "-")?];
    put(
        alloc,
        made,
        array_to_string_array_string_string(alloc, &values),
    )
}

fn put_joined_with(
    alloc: Global,
    made: &mut String,
    elements: Value,
    null_text: &str,
) -> Result<(), AllocError>
    requires { fits (types.Array types.Text) elements ≡ true }
{
    let values = [elements, text(alloc, "-")?, text(alloc, null_text)?];
    put(
        alloc,
        made,
        array_to_string_array_string_string(alloc, &values),
    )
}

/// A text, a pattern, and whether they match by characters and by bytes.
const PATTERNS: [(&str, &str, &str, &str); 21] = [
    ("", "", "TRUE", "TRUE"),
    ("", "%", "TRUE", "TRUE"),
    ("", "_", "FALSE", "FALSE"),
    ("ab", "a%", "TRUE", "TRUE"),
    ("ba", "a%", "FALSE", "FALSE"),
    ("abc", "a_c", "TRUE", "TRUE"),
    ("abc", "ab", "FALSE", "FALSE"),
    ("\u{e9}", "_", "TRUE", "FALSE"),
    ("\u{e9}", "__", "FALSE", "TRUE"),
    ("a%b", "a\\%b", "TRUE", "TRUE"),
    ("axb", "a\\%b", "FALSE", "FALSE"),
    ("a_b", "a\\_b", "TRUE", "TRUE"),
    ("ab", "a\\b", "TRUE", "TRUE"),
    ("\\", "\\\\", "TRUE", "TRUE"),
    ("aXbXc", "a%b%c", "TRUE", "TRUE"),
    ("mississippi", "%iss%iss%", "TRUE", "TRUE"),
    ("mississippi", "%iss%iss%iss%", "FALSE", "FALSE"),
    ("aaab", "%aab", "TRUE", "TRUE"),
    ("aaaa", "%aab", "FALSE", "FALSE"),
    ("zzz", "a\\", "PATTERN", "PATTERN"),
    ("a", "\\", "PATTERN", "PATTERN"),
];

#[test]
fn patterns(rt: HostRuntime) -> Result<(), Fail> {
    for (content, pattern, characters, raw) in PATTERNS {
        assert_eq!(rt; matched(by_characters(content, pattern)), characters);
        assert_eq!(rt;
            matched(like(content.as_bytes(), pattern.as_bytes(), true)),
            raw
        );
    }
    Ok(())
}

fn by_characters(content: &str, pattern: &str) -> Result<bool, FaultKind> {
    like(content.as_bytes(), pattern.as_bytes(), false)
}

fn matched(answer: Result<bool, FaultKind>) -> &'static str {
    match answer {
        Ok(true) => "TRUE",
        Ok(false) => "FALSE",
        Err(FaultKind::Pattern) => "PATTERN",
        Err(_) => "?",
    }
}

/// An ARRAY of three STRINGs.
fn array(alloc: Global, first: &str, second: &str, third: &str) -> Result<Value, AllocError>
    ensures { IfOk result (λ v. fits (types.Array types.Text) v ≡ true) }
{
    let mut elements = Items::new(alloc);
    elements.push(text(alloc, first)?)?;
    elements.push(text(alloc, second)?)?;
    elements.push(text(alloc, third)?)?;
    Ok(Value::Array(elements))
}

/// A STRING of this text, or NULL.
fn text(alloc: Global, content: &str) -> Result<Value, AllocError>
    ensures { IfOk result (λ v. fits types.Text v ≡ true) }
{
    if content == "\\N" {
        return Ok(Value::Null);
    }
    Ok(Value::Text(Text::copy_of(alloc, content)?))
}

/// A BYTES of the bytes of this text, or NULL.
fn bytes(alloc: Global, content: &str) -> Result<Value, AllocError>
    ensures { IfOk result (λ v. fits types.Bytes v ≡ true) }
{
    if content == "\\N" {
        return Ok(Value::Null);
    }
    some_bytes(alloc, content.as_bytes())
}

fn some_bytes(alloc: Global, content: &[u8]) -> Result<Value, AllocError>
    ensures { IfOk result (λ v. fits types.Bytes v ≡ true) }
{
    Ok(Value::Bytes(Items::from_slice(alloc, content)?))
}

/// An INT64.
fn number(number: i64) -> Value
    ensures { fits types.Int64 result ≡ true }
{
    Value::Int(number)
}

/// NULL as an INT64.
fn no_number() -> Value
    ensures { fits types.Int64 result ≡ true }
{
    Value::Null
}

fn counted(answer: Result<Value, FaultKind>) -> Result<Value, CallFault> {
    match answer {
        Ok(value) => Ok(value),
        Err(fault) => Err(CallFault::Fault(fault)),
    }
}

/// Appends what a call answers, and `;`.
fn put(
    alloc: Global,
    made: &mut String,
    answer: Result<Value, CallFault>,
) -> Result<(), AllocError> {
    match answer {
        Ok(value) => show(alloc, made, &value)?,
        Err(CallFault::Fault(FaultKind::Argument)) => made.push_str("ARGUMENT")?,
        Err(CallFault::Fault(FaultKind::OutOfRange)) => made.push_str("OUT_OF_RANGE")?,
        Err(_) => made.push_str("?")?,
    }
    made.push_str(";")
}

/// Appends a value: a text as it is, bytes as their text or else as their numbers, and elements with `|` behind each.
fn show(alloc: Global, made: &mut String, value: &Value) -> Result<(), AllocError> {
    match value {
        Value::Array(elements) => {
            for element in elements.as_slice() {
                show_single(alloc, made, element)?;
                made.push_str("|")?;
            }
            Ok(())
        }
        _ => show_single(alloc, made, value),
    }
}

fn show_single(alloc: Global, made: &mut String, value: &Value) -> Result<(), AllocError> {
    match value {
        Value::Null => made.push_str("\\N"),
        Value::Bool(true) => made.push_str("TRUE"),
        Value::Bool(false) => made.push_str("FALSE"),
        Value::Int(number) => made.push_str(format!(in alloc; "{number}")?.as_str()),
        Value::Text(content) => made.push_str(content.as_str()),
        Value::Bytes(content) => match str::from_utf8(content.as_slice()) {
            Ok(content) => made.push_str(content),
            Err(_) => show_numbers(alloc, made, content.as_slice()),
        },
        _ => made.push_str("?"),
    }
}

fn show_numbers(alloc: Global, made: &mut String, content: &[u8]) -> Result<(), AllocError> {
    for byte in content {
        made.push_str(format!(in alloc; "{byte} ")?.as_str())?;
    }
    Ok(())
}
