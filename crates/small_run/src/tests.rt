//! Names, equality and rows over a table with NULL in each column. Whole queries are tested where they are parsed.
use crate::columns::column_named;
use crate::equality::equal;
use crate::runner::{passes, picked};
use lists::OutOfMemory;
use sql_catalog::TableDef;
use sql_types::{Columns, Items, Named, SqlType, Text, Value, Values};
use std::alloc::Global;
use std::test::Fail;

/// A value of a table of tests.
#[derive(Clone, Copy, Debug)]
enum Cell {
    Null,
    Number(i64),
    Letters(&'static str),
}

use Cell::{Letters, Null, Number};

/// The rows of the table t, with the columns a of INT64 and b of STRING.
const ROWS: [[Cell; 2]; 4] = [
    [Number(1), Letters("x")],
    [Number(2), Letters("y")],
    [Number(2), Null],
    [Null, Letters("z")],
];

fn value(alloc: Global, cell: Cell) -> Result<Value, OutOfMemory> {
    match cell {
        Null => Ok(Value::Null),
        Number(number) => Ok(Value::Int(number)),
        Letters(text) => Ok(Value::Text(Text::copy_of(alloc, text)?)),
    }
}

fn values(alloc: Global, cells: &[Cell]) -> Result<Values, OutOfMemory> {
    let mut values = Items::new(alloc);
    for cell in cells {
        values.push(value(alloc, *cell)?)?;
    }
    Ok(values)
}

fn column(
    alloc: Global,
    columns: &mut Columns,
    name: &str,
    ty: SqlType,
) -> Result<(), OutOfMemory> {
    columns.push(Named {
        name: Some(Text::copy_of(alloc, name)?),
        ty,
    })
}

/// The table t, with a column of each name.
fn table(alloc: Global, names: &[&str]) -> Result<TableDef, OutOfMemory> {
    let mut columns = Items::new(alloc);
    for name in names {
        column(alloc, &mut columns, name, SqlType::Int64)?;
    }
    Ok(TableDef {
        name: Text::copy_of(alloc, "t")?,
        file: Text::copy_of(alloc, "t.csv")?,
        columns,
    })
}

#[test]
fn finds_columns(rt: HostRuntime) -> Result<(), Fail> {
    let alloc = rt.alloc();
    let cases: [(&[&str], &str, Option<usize>); 8] = [
        (&["a", "b"], "a", Some(0)),
        (&["a", "b"], "B", Some(1)),
        (&["a", "b"], "z", None),
        // the table's name is its range variable, which hides a column
        (&["a", "b"], "T", None),
        (&["a", "t"], "t", None),
        // two columns of one name are ambiguous, and hide no other
        (&["a", "A"], "a", None),
        (&["a", "b", "A"], "b", Some(1)),
        (&["a", "a", "a"], "a", None),
    ];
    for (names, name, place) in cases {
        let table = table(alloc, names)?;
        let found = column_named(&table, &Text::copy_of(alloc, name)?);
        assert_eq!(rt; found, place, "{name} in {names:?}");
    }
    Ok(())
}

#[test]
fn tests_rows(rt: HostRuntime) -> Result<(), Fail> {
    let alloc = rt.alloc();
    let cases = [
        (0, Number(2), [false, true, true, false]),
        (1, Letters("z"), [false, false, false, true]),
        (1, Letters("X"), [false, false, false, false]),
        (0, Null, [false, false, false, false]),
        (2, Number(2), [false, false, false, false]),
    ];
    for (place, literal, kept) in cases {
        for (row, keep) in ROWS.iter().zip(kept.iter()) {
            let passed = passes(place, &value(alloc, literal)?, &values(alloc, row)?);
            assert_eq!(rt; passed, *keep, "{literal:?} at {place} in {row:?}");
        }
    }
    Ok(())
}

#[test]
fn picks_values(rt: HostRuntime) -> Result<(), Fail> {
    let alloc = rt.alloc();
    let mut slots = Items::new(alloc);
    for slot in [1, 0, 1] {
        slots.push(slot)?;
    }
    let row = picked(alloc, &slots, &values(alloc, &[Number(2), Letters("y")])?)?;
    let wanted = values(alloc, &[Letters("y"), Number(2), Letters("y")])?;
    assert_eq!(rt; row.len(), 3);
    for (found, want) in row.as_slice().iter().zip(wanted.as_slice()) {
        assert_eq!(rt; equal(found, want), Some(true));
    }
    Ok(())
}

#[test]
fn compares_structs(rt: HostRuntime) -> Result<(), Fail> {
    let alloc = rt.alloc();
    let cases = [
        ([Number(1), Null], [Number(2), Number(2)], Some(false)),
        ([Number(1), Null], [Number(1), Number(2)], None),
        ([Number(1), Number(2)], [Number(1), Number(2)], Some(true)),
    ];
    for (left, right, answer) in cases {
        let left = Value::Struct(values(alloc, &left)?);
        let right = Value::Struct(values(alloc, &right)?);
        assert_eq!(rt; equal(&left, &right), answer);
    }
    Ok(())
}
