//! Constants of each type, and texts that are none.
use crate::parse_constant;
use sql_ast::{dates_fit, literal_text};
use sql_types::{Boxed, Bytes, Items, Named, SqlType, Value};
use std::alloc::{AllocError, Global};
use std::test::Fail;

/// Types by name.
#[derive(Clone, Copy, Debug)]
enum Type {
    Bool,
    Int32,
    Int64,
    Uint32,
    Uint64,
    Text,
    Bytes,
    Date,
    /// ARRAY<INT64>
    Numbers,
    /// STRUCT<INT64, STRING>
    Pair,
    /// ARRAY<STRUCT<INT64, STRING>>
    Pairs,
    /// STRUCT<ARRAY<INT64>>
    Box,
}

/// A text, a type, and the literal of the constant of this type that the text is, or nothing.
const PLAIN: [(&[u8], Type, Option<&str>); 24] = [
    // NULL
    (b"NULL", Type::Int64, Some("NULL")),
    (b"null", Type::Pair, Some("NULL")),
    (b"Null", Type::Numbers, Some("NULL")),
    (b"`NULL`", Type::Text, None),
    (b"-NULL", Type::Int64, None),
    // BOOL
    (b"TRUE", Type::Bool, Some("TRUE")),
    (b" false ", Type::Bool, Some("FALSE")),
    (b"1", Type::Bool, None),
    (b"'true'", Type::Bool, None),
    (b"NOT TRUE", Type::Bool, None),
    // STRING
    (b"'a'", Type::Text, Some("\"a\"")),
    (b"\"\"", Type::Text, Some("\"\"")),
    (b"'''a\r\nb'''", Type::Text, Some("\"a\\nb\"")),
    (b"r'\\n'", Type::Text, Some("\"\\\\n\"")),
    (b"'h\xc3\xa9'", Type::Text, Some("\"hé\"")),
    (b"'a' 'b'", Type::Text, None),
    (b"b'a'", Type::Text, None),
    (b"a", Type::Text, None),
    (b"5", Type::Text, None),
    (b"'a", Type::Text, None),
    (b"'\xff'", Type::Text, None),
    // BYTES
    (b"b'a\\xff'", Type::Bytes, Some("b\"a\\xff\"")),
    (b"rb'\\n'", Type::Bytes, Some("b\"\\\\n\"")),
    (b"'a'", Type::Bytes, None),
];

/// A text, a type, and the literal of the constant of this type that the text is, or nothing.
const NUMBERS: [(&[u8], Type, Option<&str>); 32] = [
    // integers
    (b"5", Type::Int64, Some("5")),
    (b"-5", Type::Int64, Some("-5")),
    (b"- 5", Type::Int64, Some("-5")),
    (b"-/* five */5 -- and no more", Type::Int64, Some("-5")),
    (b"0x10", Type::Int64, Some("16")),
    (b"-0XfF", Type::Int32, Some("-255")),
    (b"+1", Type::Int64, None),
    (b"- -1", Type::Int64, None),
    (b"~1", Type::Int64, None),
    (b"(1)", Type::Int64, None),
    (b"1 + 1", Type::Int64, None),
    (b"1;", Type::Int64, None),
    (b"1.0", Type::Int64, None),
    (b"'1'", Type::Int64, None),
    (b"TRUE", Type::Int64, None),
    (b"-", Type::Int64, None),
    (
        b"9223372036854775807",
        Type::Int64,
        Some("9223372036854775807"),
    ),
    (b"9223372036854775808", Type::Int64, None),
    (
        b"-9223372036854775808",
        Type::Int64,
        Some("-9223372036854775808"),
    ),
    (b"-9223372036854775809", Type::Int64, None),
    (b"2147483647", Type::Int32, Some("2147483647")),
    (b"2147483648", Type::Int32, None),
    (b"-2147483648", Type::Int32, Some("-2147483648")),
    (b"-2147483649", Type::Int32, None),
    (b"4294967295", Type::Uint32, Some("4294967295")),
    (b"4294967296", Type::Uint32, None),
    (b"-1", Type::Uint32, None),
    (
        b"18446744073709551615",
        Type::Uint64,
        Some("18446744073709551615"),
    ),
    (b"18446744073709551616", Type::Uint64, None),
    (b"-0", Type::Uint64, Some("0")),
    (b"-0", Type::Int32, Some("0")),
    (b"-1", Type::Uint64, None),
];

/// A text, a type, and the literal of the constant of this type that the text is, or nothing.
const DATES_AND_ARRAYS: [(&[u8], Type, Option<&str>); 26] = [
    // DATE
    (b"'2024-01-31'", Type::Date, Some("DATE \"2024-01-31\"")),
    (
        b"DATE '2024-01-31'",
        Type::Date,
        Some("DATE \"2024-01-31\""),
    ),
    (
        b"date\n\"2024-2-9\"",
        Type::Date,
        Some("DATE \"2024-02-09\""),
    ),
    (b"'2023-02-29'", Type::Date, None),
    (b"DATE '2023-02-29'", Type::Date, None),
    (b"DATE", Type::Date, None),
    (b"`DATE` '2024-01-31'", Type::Date, None),
    (b"DATE ('2024-01-31')", Type::Date, None),
    (b"DATE '2024-01-31'", Type::Text, None),
    (b"19753", Type::Date, None),
    (b"''", Type::Date, None),
    // ARRAY
    (b"[]", Type::Numbers, Some("[]")),
    (b"[ /* none */ ]", Type::Numbers, Some("[]")),
    (b"[1]", Type::Numbers, Some("[1]")),
    (b"[1, -2,NULL]", Type::Numbers, Some("[1, -2, NULL]")),
    (b"[1,]", Type::Numbers, None),
    (b"[,]", Type::Numbers, None),
    (b"[1 2]", Type::Numbers, None),
    (b"[1", Type::Numbers, None),
    (b"[1]]", Type::Numbers, None),
    (b"[1)", Type::Numbers, None),
    (b"[[1]]", Type::Numbers, None),
    (b"['a']", Type::Numbers, None),
    (b"ARRAY[1]", Type::Numbers, None),
    (b"ARRAY<INT64>[1]", Type::Numbers, None),
    (b"[1]", Type::Int64, None),
];

/// A text, a type, and the literal of the constant of this type that the text is, or nothing.
const STRUCTS: [(&[u8], Type, Option<&str>); 17] = [
    // STRUCT
    (b"STRUCT(1, 'a')", Type::Pair, Some("STRUCT(1, \"a\")")),
    (
        b"struct ( NULL , NULL )",
        Type::Pair,
        Some("STRUCT(NULL, NULL)"),
    ),
    (b"(1, 'a')", Type::Pair, None),
    (b"STRUCT(1)", Type::Pair, None),
    (b"STRUCT(1, 'a', 2)", Type::Pair, None),
    (b"STRUCT(1, 'a',)", Type::Pair, None),
    (b"STRUCT('a', 1)", Type::Pair, None),
    (b"STRUCT()", Type::Pair, None),
    (b"STRUCT(1 AS x, 'a')", Type::Pair, None),
    (b"STRUCT<INT64, STRING>(1, 'a')", Type::Pair, None),
    (b"STRUCT[1, 'a']", Type::Pair, None),
    (
        b"[STRUCT(1, 'a'), NULL, STRUCT(NULL, '')]",
        Type::Pairs,
        Some("[STRUCT(1, \"a\"), NULL, STRUCT(NULL, \"\")]"),
    ),
    (b"STRUCT([1])", Type::Box, Some("STRUCT([1])")),
    (b"STRUCT([])", Type::Box, Some("STRUCT([])")),
    // no tokens at all
    (b"", Type::Int64, None),
    (b"-- 5", Type::Int64, None),
    (b"@p", Type::Int64, None),
];

#[test]
fn plain_constants(rt: HostRuntime) -> Result<(), Fail> {
    let alloc = rt.alloc();
    for (text, ty, want) in PLAIN {
        let literal = literal_of(alloc, text, ty)?;
        assert_eq!(rt;
            literal.as_slice(),
            want.unwrap_or("none").as_bytes(),
            "at {text:?}"
        );
    }
    Ok(())
}

#[test]
fn numbers(rt: HostRuntime) -> Result<(), Fail> {
    let alloc = rt.alloc();
    for (text, ty, want) in NUMBERS {
        let literal = literal_of(alloc, text, ty)?;
        assert_eq!(rt;
            literal.as_slice(),
            want.unwrap_or("none").as_bytes(),
            "at {text:?}"
        );
    }
    Ok(())
}

#[test]
fn dates_and_arrays(rt: HostRuntime) -> Result<(), Fail> {
    let alloc = rt.alloc();
    for (text, ty, want) in DATES_AND_ARRAYS {
        let literal = literal_of(alloc, text, ty)?;
        assert_eq!(rt;
            literal.as_slice(),
            want.unwrap_or("none").as_bytes(),
            "at {text:?}"
        );
    }
    Ok(())
}

#[test]
fn structs(rt: HostRuntime) -> Result<(), Fail> {
    let alloc = rt.alloc();
    for (text, ty, want) in STRUCTS {
        let literal = literal_of(alloc, text, ty)?;
        assert_eq!(rt;
            literal.as_slice(),
            want.unwrap_or("none").as_bytes(),
            "at {text:?}"
        );
    }
    Ok(())
}

/// The literal of the constant of a type that a text is.
fn literal_of(alloc: Global, text: &[u8], ty: Type) -> Result<Bytes, AllocError> {
    let ty = named(alloc, ty)?;
    shown(alloc, &parse_constant(alloc, text, &ty)?)
}

/// The literal of a value whose dates fit, or `none`.
fn shown(alloc: Global, found: &Option<Value>) -> Result<Bytes, AllocError> {
    match found {
        Some(value) if dates_fit(value) => literal_text(alloc, value),
        _ => Items::from_slice(alloc, b"none"),
    }
}

fn named(alloc: Global, ty: Type) -> Result<SqlType, AllocError> {
    match ty {
        Type::Bool => Ok(SqlType::Bool),
        Type::Int32 => Ok(SqlType::Int32),
        Type::Int64 => Ok(SqlType::Int64),
        Type::Uint32 => Ok(SqlType::Uint32),
        Type::Uint64 => Ok(SqlType::Uint64),
        Type::Text => Ok(SqlType::Text),
        Type::Bytes => Ok(SqlType::Bytes),
        Type::Date => Ok(SqlType::Date),
        Type::Numbers => array(alloc, SqlType::Int64),
        Type::Pair => pair(alloc),
        Type::Pairs => array(alloc, pair(alloc)?),
        Type::Box => {
            let mut fields = Items::new(alloc);
            let ty = array(alloc, SqlType::Int64)?;
            fields.push(Named { name: None, ty })?;
            Ok(SqlType::Struct(fields))
        }
    }
}

fn array(alloc: Global, element: SqlType) -> Result<SqlType, AllocError> {
    Ok(SqlType::Array(Boxed::new(alloc, element)?))
}

fn pair(alloc: Global) -> Result<SqlType, AllocError> {
    let mut fields = Items::new(alloc);
    fields.push(Named {
        name: None,
        ty: SqlType::Int64,
    })?;
    fields.push(Named {
        name: None,
        ty: SqlType::Text,
    })?;
    Ok(SqlType::Struct(fields))
}
