//! Catalogs and their tables.
use crate::{CatalogRefusal, read_catalog};
use sql_catalog::TableDef;
use sql_types::{Column, SqlType};
use std::alloc::{AllocError, Global};
use std::test::Fail;

/// A table, and what stands behind the tables of a catalog.
const T: &str = r#"[{"name":"t","file":"f","columns":[{"name":"a","type":"INT64"}]}]"#;

const NO_MORE: &str = r#""definitions":[],"parameters":[]"#;

const READ: &str = "t in f: a INT64";

const REFUSED: &str = "other form";

/// The version, the tables and the other members of a catalog, and its table by `shown`.
const CATALOGS: [(&str, &str, &str, &str); 37] = [
    ("1", T, NO_MORE, READ),
    // the whole number 1 alone is a version
    ("1.0", T, NO_MORE, REFUSED),
    ("1e0", T, NO_MORE, REFUSED),
    ("1e999", T, NO_MORE, REFUSED),
    ("2", T, NO_MORE, REFUSED),
    ("-1", T, NO_MORE, REFUSED),
    ("\"1\"", T, NO_MORE, REFUSED),
    ("true", T, NO_MORE, REFUSED),
    // of a key that is given twice the last value counts
    (
        "1",
        T,
        r#""definitions":[1],"definitions":[],"parameters":[]"#,
        READ,
    ),
    (
        "1",
        T,
        r#""definitions":[],"parameters":[],"version":2"#,
        REFUSED,
    ),
    (
        "1",
        r#"[{"name":"u","file":"f","name":"t","columns":[{"name":"a","type":"INT64"}]}]"#,
        NO_MORE,
        READ,
    ),
    // keys that are missing or too many
    ("1", T, r#""definitions":[]"#, REFUSED),
    ("1", T, r#""definitions":[],"parameters":[],"x":1"#, REFUSED),
    (
        "1",
        r#"[{"name":"t","columns":[{"name":"a","type":"INT64"}]}]"#,
        NO_MORE,
        REFUSED,
    ),
    (
        "1",
        r#"[{"name":"t","file":"f","x":1,"columns":[{"name":"a","type":"INT64"}]}]"#,
        NO_MORE,
        REFUSED,
    ),
    (
        "1",
        r#"[{"name":"t","file":"f","columns":[{"name":"a"}]}]"#,
        NO_MORE,
        REFUSED,
    ),
    (
        "1",
        r#"[{"name":"t","file":"f","columns":[{"name":"a","type":"INT64","x":1}]}]"#,
        NO_MORE,
        REFUSED,
    ),
    // definitions and parameters
    ("1", T, r#""definitions":[{}],"parameters":[]"#, REFUSED),
    ("1", T, r#""definitions":[],"parameters":[0]"#, REFUSED),
    ("1", T, r#""definitions":{},"parameters":[]"#, REFUSED),
    // tables
    ("1", "[]", NO_MORE, REFUSED),
    (
        "1",
        r#"[{"name":"t","file":"f","columns":[{"name":"a","type":"INT64"}]},{"name":"u","file":"f","columns":[{"name":"a","type":"INT64"}]}]"#,
        NO_MORE,
        REFUSED,
    ),
    (
        "1",
        r#"[{"name":"","file":"f","columns":[{"name":"a","type":"INT64"}]}]"#,
        NO_MORE,
        REFUSED,
    ),
    (
        "1",
        r#"[{"name":"t","file":null,"columns":[{"name":"a","type":"INT64"}]}]"#,
        NO_MORE,
        REFUSED,
    ),
    (
        "1",
        r#"[{"name":"\u0054 t","file":"","columns":[{"name":"a","type":"String"},{"type":"int64","name":"b"}]}]"#,
        NO_MORE,
        "T t in : a STRING, b INT64",
    ),
    // columns
    (
        "1",
        r#"[{"name":"t","file":"f","columns":[]}]"#,
        NO_MORE,
        REFUSED,
    ),
    (
        "1",
        r#"[{"name":"t","file":"f","columns":["a"]}]"#,
        NO_MORE,
        REFUSED,
    ),
    (
        "1",
        r#"[{"name":"t","file":"f","columns":[{"name":"","type":"INT64"}]}]"#,
        NO_MORE,
        REFUSED,
    ),
    (
        "1",
        r#"[{"name":"t","file":"f","columns":[{"name":"\ud800","type":"INT64"}]}]"#,
        NO_MORE,
        REFUSED,
    ),
    (
        "1",
        r#"[{"name":"t","file":"f","columns":[{"name":"a","type":"INT32"}]}]"#,
        NO_MORE,
        REFUSED,
    ),
    (
        "1",
        r#"[{"name":"t","file":"f","columns":[{"name":"a","type":" INT64"}]}]"#,
        NO_MORE,
        REFUSED,
    ),
    (
        "1",
        r#"[{"name":"t","file":"f","columns":[{"name":"a","type":"INT64"},{"name":"b","type":"INT64"},{"name":"A","type":"INT64"}]}]"#,
        NO_MORE,
        REFUSED,
    ),
    (
        "1",
        r#"[{"name":"t","file":"f","columns":[{"name":"ä","type":"INT64"},{"name":"Ä","type":"INT64"}]}]"#,
        NO_MORE,
        "t in f: ä INT64, Ä INT64",
    ),
    // text behind the end, and no JSON
    ("1", T, r#""definitions":[],"parameters":[]}}"#, REFUSED),
    ("1", "", NO_MORE, REFUSED),
    ("1,", T, NO_MORE, REFUSED),
    ("", T, NO_MORE, REFUSED),
];

#[test]
fn reads_catalogs(rt: HostRuntime) -> Result<(), Fail> {
    for (version, tables, more, want) in CATALOGS {
        assert_eq!(rt; read(rt.alloc(), version, tables, more)?.as_str(), want);
    }
    Ok(())
}

#[test]
fn reads_no_other_bytes(rt: HostRuntime) -> Result<(), Fail> {
    assert_eq!(rt; answer(rt.alloc(), b"")?.as_str(), REFUSED);
    assert_eq!(rt; answer(rt.alloc(), b"[]")?.as_str(), REFUSED);
    assert_eq!(rt; answer(rt.alloc(), b"{\"\xff\":1}")?.as_str(), REFUSED);
    let marked =
        "\u{feff}{\"version\":1,\"tables\":[{\"name\":\"t\",\"file\":\"f\",\"columns\":[{\"name\":\"a\",\"type\":\"INT64\"}]}],\"definitions\":[],\"parameters\":[]}";
    assert_eq!(rt; answer(rt.alloc(), marked.as_bytes())?.as_str(), REFUSED);
    Ok(())
}

#[test]
fn takes_names_of_128_bytes(rt: HostRuntime) -> Result<(), Fail> {
    assert!(rt; takes_name_of(rt.alloc(), 128)?);
    assert!(rt; !takes_name_of(rt.alloc(), 129)?);
    Ok(())
}

fn read(alloc: Global, version: &str, tables: &str, more: &str) -> Result<String, AllocError> {
    let text = format!(in alloc; "{{\"version\":{version},\"tables\":{tables},{more}}}")?;
    answer(alloc, text.as_bytes())
}

/// Whether a catalog is read whose table has a name of so many bytes.
fn takes_name_of(alloc: Global, count: usize) -> Result<bool, AllocError> {
    let mut name = String::new(alloc);
    for _ in 0..count {
        name.push_str("n")?;
    }
    let tables = T.replace(alloc, "t\",", format!(in alloc; "{name}\",")?.as_str())?;
    let text = read(alloc, "1", tables.as_str(), NO_MORE)?;
    Ok(text.as_str() != REFUSED)
}

fn answer(alloc: Global, bytes: &[u8]) -> Result<String, AllocError> {
    match read_catalog(alloc, bytes) {
        Ok(table) => shown(alloc, &table),
        Err(CatalogRefusal::OtherForm) => String::from_str(alloc, REFUSED),
        Err(CatalogRefusal::OutOfMemory) => String::from_str(alloc, "out of memory"),
    }
}

/// The table's name, its file, and its columns with their types.
fn shown(alloc: Global, table: &TableDef) -> Result<String, AllocError> {
    let mut text = table.name.as_str().to_string(alloc)?;
    text.push_str(" in ")?;
    text.push_str(table.file.as_str())?;
    text.push_str(":")?;
    for (place, column) in table.columns.as_slice().iter().enumerate() {
        text.push_str(if place == 0 { " " } else { ", " })?;
        show_column(&mut text, column)?;
    }
    Ok(text)
}

fn show_column(text: &mut String, column: &Column) -> Result<(), AllocError> {
    if let Some(name) = &column.name {
        text.push_str(name.as_str())?;
    }
    match column.ty {
        SqlType::Int64 => text.push_str(" INT64"),
        SqlType::Text => text.push_str(" STRING"),
        _ => text.push_str(" another type"),
    }
}
