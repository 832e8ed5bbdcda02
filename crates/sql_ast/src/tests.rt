//! Words, and spellings against the rules of literals and rows.
use crate::spelling::literal_text;
use crate::{Sign, Word, dates_fit, grammar_word, rows_text, sign_of};
use sql_types::{Items, Named, Rows, SqlType, Text, Value, Values};
use std::alloc::Global;
use std::test::Fail;

#[test]
fn words(rt: HostRuntime) -> Result<(), Fail> {
    assert_eq!(rt; grammar_word(b"pivot"), Some(Word::Pivot));
    assert_eq!(rt; sign_of(b"->"), Some(Sign::Arrow));
    Ok(())
}

fn text_value(alloc: Global, text: &str) -> Result<Value, Fail> {
    Ok(Value::Text(Text::copy_of(alloc, text)?))
}

fn bytes_value(alloc: Global, bytes: &[u8]) -> Result<Value, Fail> {
    Ok(Value::Bytes(Items::from_slice(alloc, bytes)?))
}

fn two(alloc: Global, first: Value, second: Value) -> Result<Values, Fail> {
    let mut values = Items::new(alloc);
    values.push(first)?;
    values.push(second)?;
    Ok(values)
}

#[test]
fn values_by_their_text(rt: HostRuntime) -> Result<(), Fail> {
    let alloc = rt.alloc();
    let pair = two(alloc, Value::Int(1), text_value(alloc, "a")?)?;
    let table: [(Value, &[u8]); 17] = [
        (Value::Null, b"NULL"),
        (Value::Bool(true), b"TRUE"),
        (Value::Bool(false), b"FALSE"),
        (Value::Int(-7), b"-7"),
        (Value::Int(i64::MIN), b"-9223372036854775808"),
        (Value::Uint(u64::MAX), b"18446744073709551615"),
        (
            text_value(alloc, "a\"\n\u{1f}\u{e9}")?,
            b"\"a\\\"\\n\\x1f\xc3\xa9\"",
        ),
        (bytes_value(alloc, b"")?, b"b\"\""),
        (bytes_value(alloc, b"a '\"\\~")?, b"b\"a '\\\"\\\\~\""),
        (
            bytes_value(alloc, b"\n\x00\x7f\xab\xff")?,
            b"b\"\\x0a\\x00\\x7f\\xab\\xff\"",
        ),
        (Value::Date(19_753), b"DATE \"2024-01-31\""),
        (Value::Date(-719_162), b"DATE \"0001-01-01\""),
        (Value::Date(2_932_896), b"DATE \"9999-12-31\""),
        (Value::Array(Items::new(alloc)), b"[]"),
        (
            Value::Array(two(alloc, Value::Int(1), Value::Int(2))?),
            b"[1, 2]",
        ),
        (
            Value::Array(two(alloc, Value::Null, Value::Struct(pair))?),
            b"[NULL, STRUCT(1, \"a\")]",
        ),
        (Value::Struct(Items::new(alloc)), b"STRUCT()"),
    ];
    for (value, text) in &table {
        assert!(rt; dates_fit(value));
        let literal = literal_text(alloc, value)?;
        assert_eq!(rt; literal.as_slice(), *text);
    }
    assert!(rt; !dates_fit(&Value::Date(-719_163)));
    assert!(rt; !dates_fit(&Value::Array(two(alloc, Value::Null, Value::Date(2_932_897))?)));
    Ok(())
}

#[test]
fn rows(rt: HostRuntime) -> Result<(), Fail> {
    let alloc = rt.alloc();
    let mut columns = Items::new(alloc);
    columns.push(Named {
        name: Some(Text::copy_of(alloc, "k")?),
        ty: SqlType::Int64,
    })?;
    let rows = Rows::start(alloc, columns);
    assert_eq!(rt;
        rows_text(alloc, &rows)?.as_slice(),
        b"k INT64\nrows=0\n".as_slice()
    );
    Ok(())
}
