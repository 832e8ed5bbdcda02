//! Texts of types, with the types that they write or the rules that they break.
use crate::parse_type;
use sql_ast::Refusal;
use sql_types::{Bytes, Items, type_text};
use std::alloc::{AllocError, Global};
use std::test::Fail;

/// A text, and the spelling of the type that it writes.
const TYPES: [(&[u8], &str); 19] = [
    (b"BOOL", "BOOL"),
    (b"INT32", "INT32"),
    (b"INT64", "INT64"),
    (b"UINT32", "UINT32"),
    (b"UINT64", "UINT64"),
    (b"STRING", "STRING"),
    (b"BYTES", "BYTES"),
    (b"DATE", "DATE"),
    (b"int64", "INT64"),
    (b"`Int64`", "INT64"),
    (b" /* a day */ Date -- a day", "DATE"),
    (b"array<int64>", "ARRAY<INT64>"),
    (b"STRUCT<a INT64, STRING>", "STRUCT<a INT64, STRING>"),
    (b"STRUCT<INT64 STRING>", "STRUCT<INT64 STRING>"),
    (b"struct < A date , a bool >", "STRUCT<A DATE, a BOOL>"),
    (b"STRUCT<`a b` BYTES>", "STRUCT<`a b` BYTES>"),
    (b"STRUCT<ARRAY<INT64>>", "STRUCT<ARRAY<INT64>>"),
    (
        b"ARRAY<STRUCT<x ARRAY<BOOL>>>",
        "ARRAY<STRUCT<x ARRAY<BOOL>>>",
    ),
    (
        b"STRUCT<STRUCT<INT64>, DATE>",
        "STRUCT<STRUCT<INT64>, DATE>",
    ),
];

/// A text, and the rule that it breaks with its place.
const REFUSED: [(&[u8], u8, u64); 26] = [
    // no tokens
    (b"'INT64", 1, 0),
    (b"INT64 $", 1, 6),
    (b"ARRAY<\xff>", 1, 6),
    // no type
    (b"", 1, 0),
    (b"   ", 1, 3),
    (b"-- INT64", 1, 8),
    (b"INT64 x", 1, 6),
    (b"INT64;", 1, 5),
    (b"INT64>", 1, 5),
    (b"5", 1, 0),
    (b"TRUE", 1, 0),
    (b"ANY TYPE", 1, 0),
    (b"ARRAY", 1, 5),
    (b"ARRAY<INT64", 1, 11),
    (b"ARRAY<a INT64>", 1, 8),
    (b"`ARRAY`<INT64>", 1, 7),
    (b"STRUCT<>", 1, 6),
    (b"STRUCT<INT64,>", 1, 13),
    // no such name
    (b"FOO", 28, 0),
    (b" FLOAT64", 28, 1),
    (b"STRUCT<x FOO>", 28, 9),
    (b"STRUCT<INT64, FOO, BAR>", 28, 14),
    (b"ARRAY<ARRAY<FOO>>", 28, 12),
    // an array of arrays
    (b"ARRAY<ARRAY<INT64>>", 21, 0),
    (b"STRUCT<ARRAY<ARRAY<DATE>>, FOO>", 21, 7),
    (b"STRUCT<FOO, ARRAY<ARRAY<DATE>>>", 28, 7),
];

#[test]
fn types_of_texts(rt: HostRuntime) -> Result<(), Fail> {
    for (text, want) in TYPES {
        let spelled = spelling_of(rt.alloc(), text)?;
        assert_eq!(rt; spelled.as_slice(), want.as_bytes(), "at {text:?}");
    }
    Ok(())
}

#[test]
fn refused_texts(rt: HostRuntime) -> Result<(), Fail> {
    for (text, rule, place) in REFUSED {
        assert_eq!(rt;
            broken_rule(rt.alloc(), text)?,
            (rule, place),
            "at {text:?}"
        );
    }
    Ok(())
}

#[test]
fn levels_of_texts(rt: HostRuntime) -> Result<(), Fail> {
    let deepest = nested(rt.alloc(), 31)?;
    let spelled = spelling_of(rt.alloc(), deepest.as_slice())?;
    assert_eq!(rt; spelled.as_slice(), deepest.as_slice());
    let deeper = nested(rt.alloc(), 32)?;
    assert_eq!(rt; broken_rule(rt.alloc(), deeper.as_slice())?, (1, 217));
    Ok(())
}

/// INT64 in so many STRUCTs.
fn nested(alloc: Global, structs: usize) -> Result<Vec<u8>, AllocError> {
    let mut text = Vec::new(alloc);
    for _ in 0..structs {
        text.extend_from_slice(b"STRUCT<")?;
    }
    text.extend_from_slice(b"INT64")?;
    for _ in 0..structs {
        text.push(b'>')?;
    }
    Ok(text)
}

/// The spelling of the type that a text writes, or `none`.
fn spelling_of(alloc: Global, text: &[u8]) -> Result<Bytes, AllocError> {
    match parse_type(alloc, text) {
        Ok(ty) => type_text(alloc, &ty),
        Err(Refusal::Rule { .. }) => Items::from_slice(alloc, b"none"),
        Err(Refusal::OutOfMemory) => Err(AllocError),
    }
}

/// The rule that a text breaks, and its place; 0 where it breaks none.
fn broken_rule(alloc: Global, text: &[u8]) -> Result<(u8, u64), AllocError> {
    match parse_type(alloc, text) {
        Ok(_) => Ok((0, 0)),
        Err(Refusal::Rule { rule, place }) => Ok((rule, place)),
        Err(Refusal::OutOfMemory) => Err(AllocError),
    }
}
