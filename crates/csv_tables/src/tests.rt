//! Table files and their rows.
use crate::{TableRefusal, read_table};
use sql_ast::{dates_fit, literal_text};
use sql_catalog::TableDef;
use sql_types::{Boxed, Bytes, Columns, Items, Named, Rows, SqlType, Text, Value, Values};
use std::alloc::{AllocError, Global};
use std::test::Fail;

/// A file for the columns a of INT64 and b of STRING, and its rows by `shown`, or the record and field at fault.
const FILES: [(&[u8], &str); 38] = [
    (b"a,b\n1,x\n", "1 <x>"),
    (b"A,B\r\n1,x\r\n2,y", "1 <x>; 2 <y>"),
    (b"\xef\xbb\xbfa,b\r1,x\r", "1 <x>"),
    (b"a,b\n", ""),
    (b"\n\na,b\n\n\r\n1,x\n\n", "1 <x>"),
    // quotes
    (b"\"a\",\"b\"\n\"1\",\"x, y\"\n", "1 <x, y>"),
    (
        b"a,b\n1,\"say \"\"x\"\"\r\nand y\"\n",
        "1 <say \"x\"\r\nand y>",
    ),
    (b"a,b\n1,\"x", "1 <x>"),
    // NULL, and empty cells
    (b"a,b\n\\N,\\N\n", "NULL NULL"),
    (b"a,b\n\"\\N\",\"\\N\"\n", "NULL NULL"),
    (b"a,b\n,\n", "NULL <>"),
    (b"a,b\n\"\",\"\"\n", "NULL <>"),
    // backslashes and N
    (b"a,b\n1,\\\\N\n", "1 <\\N>"),
    (b"a,b\n1,\\\\\\N\n", "1 <\\\\N>"),
    (
        b"a,b\n1,\\n\n2,\\Nx\n3,\\\\\n",
        "1 <\\n>; 2 <\\Nx>; 3 <\\\\>",
    ),
    (b"a,b\n1, \\\\N\n2,\\\\NN\n", "1 < \\\\N>; 2 <\\\\NN>"),
    (b"a,b\n\\\\N,x\n", "fault 1 0"),
    // integers
    (b"a,b\n-0x1F,\n+0xfF,\n", "-31 <>; 255 <>"),
    (
        b"a,b\n-0,\n+7,\n0000000000000000000000000000012,\n",
        "0 <>; 7 <>; 12 <>",
    ),
    (
        b"a,b\n9223372036854775807,\n-9223372036854775808,\n",
        "9223372036854775807 <>; -9223372036854775808 <>",
    ),
    (
        b"a,b\n0x7fffffffffffffff,\n-0x8000000000000000,\n",
        "9223372036854775807 <>; -9223372036854775808 <>",
    ),
    (b"a,b\n9223372036854775808,\n", "fault 1 0"),
    (b"a,b\n-9223372036854775809,\n", "fault 1 0"),
    (b"a,b\n18446744073709551617,\n", "fault 1 0"),
    (b"a,b\n0x,\n", "fault 1 0"),
    (b"a,b\n0X1F,\n", "fault 1 0"),
    (b"a,b\n--1,\n", "fault 1 0"),
    (b"a,b\n1F,\n", "fault 1 0"),
    (b"a,b\n 1,\n", "fault 1 0"),
    // a text that isn't UTF-8
    (b"a,b\n1,\xff\n", "fault 1 1"),
    // fields that are missing or too many
    (b"a,b\n1,x\n5\n", "fault 2 1"),
    (b"a,b\n1,x,y\n", "fault 1 2"),
    (b"a,b\nx\n", "fault 1 0"),
    // the header
    (b"a\n", "fault 0 1"),
    (b"a,b,c\n1,x,y\n", "fault 0 2"),
    (b"b,a\n", "fault 0 0"),
    (b"a,bb\n", "fault 0 1"),
    (b"\n\r\n", "fault 0 0"),
];

/// Types by name.
#[derive(Clone, Copy, Debug)]
enum Type {
    Bool,
    Int32,
    Uint32,
    Uint64,
    Text,
    Bytes,
    Date,
    /// ARRAY<STRING>
    Texts,
    /// STRUCT<INT64, DATE>
    Pair,
}

/// The type of the one column of a file, its cell in record 1, and the literal of the cell's value, or the fault.
const NULLS_AND_EMPTY: [(Type, &[u8], &str); 17] = [
    // NULL
    (Type::Bool, b"\\N", "NULL"),
    (Type::Bytes, b"\\N", "NULL"),
    (Type::Date, b"\"\\N\"", "NULL"),
    (Type::Texts, b"\\N", "NULL"),
    (Type::Pair, b"\\N", "NULL"),
    // empty cells
    (Type::Text, b"\"\"", "\"\""),
    (Type::Bytes, b"\"\"", "b\"\""),
    (Type::Bool, b"\"\"", "NULL"),
    (Type::Int32, b"\"\"", "NULL"),
    (Type::Uint64, b"\"\"", "NULL"),
    (Type::Date, b"\"\"", "NULL"),
    (Type::Texts, b"\"\"", "NULL"),
    (Type::Pair, b"\"\"", "NULL"),
    // backslashes and N count for STRING alone
    (Type::Text, b"\\\\N", "\"\\\\N\""),
    (Type::Bytes, b"\\\\N", "fault 1 0"),
    (Type::Bool, b"\\\\N", "fault 1 0"),
    (Type::Texts, b"\\\\N", "fault 1 0"),
];

/// The type of the one column of a file, its cell in record 1, and the literal of the cell's value, or the fault.
const TRUTHS_AND_NUMBERS: [(Type, &[u8], &str); 16] = [
    // BOOL
    (Type::Bool, b"true", "TRUE"),
    (Type::Bool, b"FaLsE", "FALSE"),
    (Type::Bool, b" true", "fault 1 0"),
    (Type::Bool, b"1", "fault 1 0"),
    // integers
    (Type::Int32, b"-0x80000000", "-2147483648"),
    (Type::Int32, b"2147483647", "2147483647"),
    (Type::Int32, b"2147483648", "fault 1 0"),
    (Type::Int32, b"-2147483649", "fault 1 0"),
    (Type::Uint32, b"+4294967295", "4294967295"),
    (Type::Uint32, b"4294967296", "fault 1 0"),
    (Type::Uint32, b"-1", "fault 1 0"),
    (Type::Uint64, b"0xffffffffffffffff", "18446744073709551615"),
    (Type::Uint64, b"18446744073709551616", "fault 1 0"),
    (Type::Uint64, b"-0", "0"),
    (Type::Uint64, b"-1", "fault 1 0"),
    (Type::Uint64, b"1.0", "fault 1 0"),
];

/// The type of the one column of a file, its cell in record 1, and the literal of the cell's value, or the fault.
const BYTES_AND_DATES: [(Type, &[u8], &str); 13] = [
    // BYTES
    (Type::Bytes, b"00fF61", "b\"\\x00\\xffa\""),
    (Type::Bytes, b"7F", "b\"\\x7f\""),
    (Type::Bytes, b"7", "fault 1 0"),
    (Type::Bytes, b"7f8", "fault 1 0"),
    (Type::Bytes, b"7g", "fault 1 0"),
    (Type::Bytes, b"0x7f", "fault 1 0"),
    (Type::Bytes, b"7f ", "fault 1 0"),
    // DATE
    (Type::Date, b"2024-01-31", "DATE \"2024-01-31\""),
    (Type::Date, b"2024-2-9", "DATE \"2024-02-09\""),
    (Type::Date, b"2023-02-29", "fault 1 0"),
    (Type::Date, b"'2024-01-31'", "fault 1 0"),
    (Type::Date, b"DATE '2024-01-31'", "fault 1 0"),
    (Type::Date, b"19753", "fault 1 0"),
];

/// The type of the one column of a file, its cell in record 1, and the literal of the cell's value, or the fault.
const ARRAYS_AND_STRUCTS: [(Type, &[u8], &str); 16] = [
    // ARRAY
    (Type::Texts, b"[]", "[]"),
    (Type::Texts, b"\"['a', NULL]\"", "[\"a\", NULL]"),
    (Type::Texts, b"\"[\"\"a\"\"]\"", "[\"a\"]"),
    (Type::Texts, b"NULL", "NULL"),
    (Type::Texts, b"['a'] -- one", "[\"a\"]"),
    (Type::Texts, b"\"['a',]\"", "fault 1 0"),
    (Type::Texts, b"[1]", "fault 1 0"),
    (Type::Texts, b"'a'", "fault 1 0"),
    (Type::Texts, b"ARRAY['a']", "fault 1 0"),
    (Type::Texts, b"['\xff']", "fault 1 0"),
    // STRUCT
    (
        Type::Pair,
        b"\"STRUCT(1, '2024-01-31')\"",
        "STRUCT(1, DATE \"2024-01-31\")",
    ),
    (
        Type::Pair,
        b"\"struct(-1,DATE '2024-01-31')\"",
        "STRUCT(-1, DATE \"2024-01-31\")",
    ),
    (Type::Pair, b"STRUCT(1)", "fault 1 0"),
    (Type::Pair, b"\"(1, '2024-01-31')\"", "fault 1 0"),
    (Type::Pair, b"\"STRUCT(1, '2024')\"", "fault 1 0"),
    (Type::Pair, b"\"STRUCT(1, NULL);\"", "fault 1 0"),
];

#[test]
fn reads_nulls_and_empty_cells(rt: HostRuntime) -> Result<(), Fail> {
    let alloc = rt.alloc();
    for (ty, cell, want) in NULLS_AND_EMPTY {
        let literal = cell_literal(alloc, ty, cell)?;
        assert_eq!(rt; literal.as_slice(), want.as_bytes(), "at {cell:?}");
    }
    Ok(())
}

#[test]
fn reads_truths_and_numbers(rt: HostRuntime) -> Result<(), Fail> {
    let alloc = rt.alloc();
    for (ty, cell, want) in TRUTHS_AND_NUMBERS {
        let literal = cell_literal(alloc, ty, cell)?;
        assert_eq!(rt; literal.as_slice(), want.as_bytes(), "at {cell:?}");
    }
    Ok(())
}

#[test]
fn reads_bytes_and_dates(rt: HostRuntime) -> Result<(), Fail> {
    let alloc = rt.alloc();
    for (ty, cell, want) in BYTES_AND_DATES {
        let literal = cell_literal(alloc, ty, cell)?;
        assert_eq!(rt; literal.as_slice(), want.as_bytes(), "at {cell:?}");
    }
    Ok(())
}

#[test]
fn reads_arrays_and_structs(rt: HostRuntime) -> Result<(), Fail> {
    let alloc = rt.alloc();
    for (ty, cell, want) in ARRAYS_AND_STRUCTS {
        let literal = cell_literal(alloc, ty, cell)?;
        assert_eq!(rt; literal.as_slice(), want.as_bytes(), "at {cell:?}");
    }
    Ok(())
}

/// The literal of the value of a cell of a type, in a file of one column.
fn cell_literal(alloc: Global, ty: Type, cell: &[u8]) -> Result<Bytes, AllocError> {
    let mut columns = Items::new(alloc);
    columns.push(column(alloc, "c", named(alloc, ty)?)?)?;
    let table = table(alloc, columns)?;
    let mut file = Vec::from_slice(alloc, b"c\n")?;
    file.extend_from_slice(cell)?;
    first_literal(alloc, &table, file.as_slice())
}

/// The literal of the first value of the file, or the record and field at fault.
fn first_literal(alloc: Global, table: &TableDef, file: &[u8]) -> Result<Bytes, AllocError> {
    match read_table(alloc, table, file) {
        Ok(rows) => match rows.rows.as_slice() {
            [row, ..] => first_of(alloc, row),
            [] => Items::from_slice(alloc, b"no row"),
        },
        Err(TableRefusal::Fault { row, field }) => {
            let text = format!(in alloc; "fault {row} {field}")?;
            Items::from_slice(alloc, text.as_bytes())
        }
        Err(TableRefusal::OutOfMemory) => Err(AllocError),
    }
}

fn first_of(alloc: Global, row: &Values) -> Result<Bytes, AllocError> {
    match row.as_slice() {
        [value, ..] if dates_fit(value) => literal_text(alloc, value),
        _ => Items::from_slice(alloc, b"no value"),
    }
}

fn named(alloc: Global, ty: Type) -> Result<SqlType, AllocError> {
    match ty {
        Type::Bool => Ok(SqlType::Bool),
        Type::Int32 => Ok(SqlType::Int32),
        Type::Uint32 => Ok(SqlType::Uint32),
        Type::Uint64 => Ok(SqlType::Uint64),
        Type::Text => Ok(SqlType::Text),
        Type::Bytes => Ok(SqlType::Bytes),
        Type::Date => Ok(SqlType::Date),
        Type::Texts => Ok(SqlType::Array(Boxed::new(alloc, SqlType::Text)?)),
        Type::Pair => {
            let mut fields = Items::new(alloc);
            fields.push(Named {
                name: None,
                ty: SqlType::Int64,
            })?;
            fields.push(Named {
                name: None,
                ty: SqlType::Date,
            })?;
            Ok(SqlType::Struct(fields))
        }
    }
}

#[test]
fn reads_files(rt: HostRuntime) -> Result<(), Fail> {
    let alloc = rt.alloc();
    let mut columns = Items::new(alloc);
    columns.push(column(alloc, "a", SqlType::Int64)?)?;
    columns.push(column(alloc, "b", SqlType::Text)?)?;
    let table = table(alloc, columns)?;
    for (file, want) in FILES {
        assert_eq!(rt; answer(alloc, &table, file)?.as_str(), want);
    }
    Ok(())
}

#[test]
fn reads_one_column(rt: HostRuntime) -> Result<(), Fail> {
    let alloc = rt.alloc();
    let mut columns = Items::new(alloc);
    columns.push(column(alloc, "Größe", SqlType::Text)?)?;
    let table = table(alloc, columns)?;
    assert_eq!(rt; answer(alloc, &table, "größe\n".as_bytes())?.as_str(), "");
    // quotes with nothing between them are a record
    assert_eq!(rt;
        answer(alloc, &table, "Größe\n\"\"\n\nx".as_bytes())?.as_str(),
        "<>; <x>"
    );
    assert_eq!(rt;
        answer(alloc, &table, "grÖße\n".as_bytes())?.as_str(),
        "fault 0 0"
    );
    assert_eq!(rt; answer(alloc, &table, b"")?.as_str(), "fault 0 0");
    Ok(())
}

#[test]
fn meets_no_unnamed_column(rt: HostRuntime) -> Result<(), Fail> {
    let alloc = rt.alloc();
    let mut columns = Items::new(alloc);
    columns.push(Named {
        name: None,
        ty: SqlType::Text,
    })?;
    let table = table(alloc, columns)?;
    assert_eq!(rt; answer(alloc, &table, b"\"\"\n")?.as_str(), "fault 0 0");
    Ok(())
}

fn column(alloc: Global, name: &str, ty: SqlType) -> Result<Named<SqlType>, AllocError> {
    Ok(Named {
        name: Some(Text::copy_of(alloc, name)?),
        ty,
    })
}

fn table(alloc: Global, columns: Columns) -> Result<TableDef, AllocError> {
    Ok(TableDef {
        name: Text::copy_of(alloc, "t")?,
        file: Text::copy_of(alloc, "t.csv")?,
        columns,
    })
}

fn answer(alloc: Global, table: &TableDef, file: &[u8]) -> Result<String, AllocError> {
    match read_table(alloc, table, file) {
        Ok(rows) => shown(alloc, &rows),
        Err(TableRefusal::Fault { row, field }) => format!(in alloc; "fault {row} {field}"),
        Err(TableRefusal::OutOfMemory) => String::from_str(alloc, "out of memory"),
    }
}

/// The rows, each as its values with a space between them, and texts in `<` and `>`.
fn shown(alloc: Global, rows: &Rows) -> Result<String, AllocError> {
    let mut text = String::new(alloc);
    for (index, row) in rows.rows.as_slice().iter().enumerate() {
        if index > 0 {
            text.push_str("; ")?;
        }
        show_row(alloc, &mut text, row)?;
    }
    Ok(text)
}

fn show_row(alloc: Global, text: &mut String, row: &Values) -> Result<(), AllocError> {
    for (index, value) in row.as_slice().iter().enumerate() {
        if index > 0 {
            text.push_str(" ")?;
        }
        show_value(alloc, text, value)?;
    }
    Ok(())
}

fn show_value(alloc: Global, text: &mut String, value: &Value) -> Result<(), AllocError> {
    match value {
        Value::Null => text.push_str("NULL"),
        Value::Int(number) => text.push_str(format!(in alloc; "{number}")?.as_str()),
        Value::Text(written) => {
            text.push_str("<")?;
            text.push_str(written.as_str())?;
            text.push_str(">")
        }
        _ => text.push_str("?"),
    }
}
