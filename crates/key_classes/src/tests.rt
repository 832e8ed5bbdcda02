//! The numbers of keys of all kinds of values.
use crate::{Classes, Key};
use sql_types::{Items, Text, Value, Values};
use std::alloc::{AllocError, Global};
use std::test::Fail;

/// How many samples there are.
const SAMPLES: usize = 10;

#[test]
fn kinds_are_apart(rt: HostRuntime) -> Result<(), Fail> {
    let alloc = rt.alloc();
    let rows = samples(alloc, 2 * SAMPLES)?;
    let mut classes = Classes::start(alloc);
    assert!(rt; classes.is_empty());
    for (number, row) in rows.as_slice().iter().enumerate() {
        let key = Key {
            columns: &[0],
            row: row.as_slice(),
        };
        assert_eq!(rt; classes.add(key)?, number % SAMPLES);
        assert_eq!(rt; classes.find(&key), Some(number % SAMPLES));
    }
    assert_eq!(rt; classes.len(), SAMPLES);
    Ok(())
}

#[test]
fn keys_of_columns(rt: HostRuntime) -> Result<(), Fail> {
    let alloc = rt.alloc();
    let rows = [
        pair(alloc, Value::Int(1), Value::Null)?,
        pair(alloc, Value::Null, Value::Int(1))?,
    ];
    let [first, second] = &rows;
    let mut classes = Classes::start(alloc);
    // the same values in other columns
    assert_eq!(rt;
        classes.add(Key {
            columns: &[0, 1],
            row: first.as_slice()
        })?,
        0
    );
    assert_eq!(rt;
        classes.find(&Key {
            columns: &[1, 0],
            row: second.as_slice()
        }),
        Some(0)
    );
    // a column that isn't there counts as NULL
    assert_eq!(rt;
        classes.find(&Key {
            columns: &[0, 7],
            row: first.as_slice()
        }),
        Some(0)
    );
    assert_eq!(rt;
        classes.find(&Key {
            columns: &[0],
            row: first.as_slice()
        }),
        None
    );
    assert_eq!(rt;
        classes.find(&Key {
            columns: &[0, 1],
            row: second.as_slice()
        }),
        None
    );
    assert_eq!(rt;
        classes.add(Key {
            columns: &[],
            row: first.as_slice()
        })?,
        1
    );
    let copied = Key {
        columns: &[1, 0],
        row: first.as_slice(),
    }
    .copy(alloc)?;
    assert_eq!(rt; copied.len(), 2);
    Ok(())
}

fn pair(alloc: Global, first: Value, second: Value) -> Result<Values, AllocError> {
    let mut row = Items::new(alloc);
    row.push(first)?;
    row.push(second)?;
    Ok(row)
}

/// Rows of one value each, all samples in turn.
fn samples(alloc: Global, count: usize) -> Result<Items<Values>, AllocError> {
    let mut rows = Items::new(alloc);
    for number in 0..count {
        let mut row = Items::new(alloc);
        row.push(sample(alloc, number % SAMPLES)?)?;
        rows.push(row)?;
    }
    Ok(rows)
}

/// Values of each kind, no two the same.
fn sample(alloc: Global, number: usize) -> Result<Value, AllocError> {
    match number {
        0 => Ok(Value::Null),
        1 => Ok(Value::Bool(true)),
        2 => Ok(Value::Int(1)),
        3 => Ok(Value::Uint(1)),
        4 => Ok(Value::Text(Text::copy_of(alloc, "a")?)),
        5 => Ok(Value::Bytes(Items::from_slice(alloc, b"a")?)),
        6 => Ok(Value::Date(1)),
        7 => Ok(Value::Array(Items::new(alloc))),
        8 => Ok(Value::Struct(pair(alloc, Value::Int(1), Value::Null)?)),
        _ => Ok(Value::Array(pair(alloc, Value::Int(1), Value::Null)?)),
    }
}
