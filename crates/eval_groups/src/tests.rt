//! Groups of rows of two INT64 columns, and their aggregates.
ghost use Rattle.std.specs.Prelude.{◌≡◌, ◌<◌, ◌∷◌, [], true, false, None, IfOk, OnOk};
ghost use Rattle.std.specs.List.{All};
ghost use Rattle.sql_types.specs.declared.sql_type.SqlType.TheVariants.{Int64};
ghost use Rattle.eval_groups.specs.Aggregated.{AllWithin, column_types};

use crate::*;
use sql_aggregates::{AggCall, AggName};
use sql_types::{
    CallFault, FaultKind, Items, Named, Rows, SortItem, SqlType, Value, Values, row_fits,
};
use std::alloc::{AllocError, Global};
use std::test::Fail;

type Pair = (Option<i64>, Option<i64>);

const ROWS: [Pair; 7] = [
    (Some(2), Some(1)),
    (None, Some(1)),
    (Some(1), Some(2)),
    (Some(2), Some(1)),
    (None, None),
    (Some(1), Some(3)),
    (None, Some(1)),
];

/// The groups of the rows by some columns, each as its key and then its rows. `N` stands for NULL.
const GROUPED: [(&[usize], &str); 5] = [
    (&[0], "2: 0 3|N: 1 4 6|1: 2 5|"),
    (&[1], "1: 0 1 3 6|2: 2|N: 4|3: 5|"),
    (&[0, 1], "2 1: 0 3|N 1: 1 6|1 2: 2|N N: 4|1 3: 5|"),
    (&[1, 0], "1 2: 0 3|1 N: 1 6|2 1: 2|N N: 4|3 1: 5|"),
    (&[], ": 0 1 2 3 4 5 6|"),
];

#[test]
fn groups(rt: HostRuntime) -> Result<(), Fail> {
    let alloc = rt.alloc();
    let rows = rows_of(alloc, &ROWS)?;
    for (keys, want) in GROUPED {
        let groups = group_rows(alloc, &rows, keys)?;
        assert_eq!(rt; text_of(alloc, groups.as_slice())?.as_str(), want);
    }
    Ok(())
}

#[test]
fn groups_of_nothing(rt: HostRuntime) -> Result<(), Fail> {
    let alloc = rt.alloc();
    let rows = rows_of(alloc, &[])?;
    assert_eq!(rt;
        text_of(alloc, group_rows(alloc, &rows, &[0])?.as_slice())?.as_str(),
        ""
    );
    // without keys there is a group all the same
    assert_eq!(rt;
        text_of(alloc, group_rows(alloc, &rows, &[])?.as_slice())?.as_str(),
        ":|"
    );
    Ok(())
}

/// Sort values, and values.
const VALUES: [Pair; 6] = [
    (Some(3), Some(5)),
    (Some(1), None),
    (Some(2), Some(7)),
    (Some(9), None),
    (None, Some(i64::MAX)),
    (Some(4), Some(1)),
];

/// The rows of some groups, and for each group COUNT(*), COUNT, SUM, MIN and MAX of the values, and ARRAY_AGG of them in the
/// order of the sort values; or the fault.
const AGGREGATED: [(&[&[usize]], &str); 5] = [
    (&[], ""),
    (&[&[]], "0 0 N N N N|"),
    (
        &[&[0, 1, 2], &[3], &[4]],
        "3 2 12 5 7 [N 7 5]|1 0 N N N [N]|1 1 9223372036854775807 9223372036854775807 9223372036854775807 [9223372036854775807]|",
    ),
    (
        &[&[5, 2, 0], &[1, 0]],
        "3 3 13 1 7 [7 5 1]|2 1 5 5 5 [N 5]|",
    ),
    (&[&[0], &[4, 5], &[2]], "OUT_OF_RANGE"),
];

#[test]
fn aggregates(rt: HostRuntime) -> Result<(), Fail> {
    for (lists, want) in AGGREGATED {
        assert_eq!(rt; aggregated_text(rt.alloc(), lists)?.as_str(), want);
    }
    Ok(())
}

fn aggregated_text(alloc: Global, lists: &[&[usize]]) -> Result<String, AllocError> {
    let rows = rows_of(alloc, &VALUES)?;
    if !two_numbers(&rows) {
        return String::from_str(alloc, "?");
    }
    let groups = groups_of(alloc, rows.len(), lists)?;
    match aggregated(alloc, &rows, &groups) {
        Ok(answer) => rows_text(alloc, &answer),
        Err(CallFault::Fault(FaultKind::OutOfRange)) => String::from_str(alloc, "OUT_OF_RANGE"),
        Err(_) => String::from_str(alloc, "?"),
    }
}

/// Whether the columns are two, both INT64.
fn two_numbers(rows: &Rows) -> bool
    ensures { result ≡ true → column_types rows.now ≡ Int64 ∷ Int64 ∷ [] }
{
    match rows.columns.as_slice() {
        [first, second] => is_number(&first.ty) && is_number(&second.ty),
        _ => false,
    }
}

fn is_number(ty: &SqlType) -> bool
    ensures { result ≡ true → ty.now ≡ Int64 }
{
    match ty {
        SqlType::Int64 => true,
        _ => false,
    }
}

/// Groups of these rows, of so many as there are.
fn groups_of(alloc: Global, count: usize, lists: &[&[usize]]) -> Result<Groups, AllocError>
    ensures { IfOk result (λ groups. All (λ group. All (λ number. number < count) group.rows) groups) }
{
    let mut groups = Items::new(alloc);
    for list in lists {
        let rows = numbers_of(alloc, count, list)?;
        let key = Items::new(alloc);
        groups.push(Group { key, rows })?;
    }
    Ok(groups)
}

fn numbers_of(alloc: Global, count: usize, list: &[usize]) -> Result<Items<usize>, AllocError>
    ensures { IfOk result (λ numbers. All (λ number. number < count) numbers) }
{
    let mut numbers = Items::new(alloc);
    for number in list {
        push_below(&mut numbers, count, *number)?;
    }
    Ok(numbers)
}

fn push_below(numbers: &mut Items<usize>, count: usize, number: usize) -> Result<(), AllocError>
    requires { All (λ number. number < count) numbers.old }
    ensures { OnOk result (All (λ number. number < count) numbers.new) }
{
    if number >= count {
        return Ok(());
    }
    numbers.push(number)?;
    Ok(())
}

/// The aggregates.
fn aggregated(alloc: Global, rows: &Rows, groups: &Groups) -> Result<Rows, CallFault>
    requires members { AllWithin rows.now groups.now }
    requires columns { column_types rows.now ≡ Int64 ∷ Int64 ∷ [] }
{
    let arguments = arguments_of(alloc)?;
    let calls = [
        plain(alloc, AggName::Count),
        plain(alloc, AggName::Count),
        plain(alloc, AggName::Sum),
        plain(alloc, AggName::Min),
        plain(alloc, AggName::Max),
        ordered(alloc)?,
    ];
    aggregate_rows(alloc, rows, groups, &calls, arguments.as_slice())
}

/// A call without modifiers.
fn plain(alloc: Global, name: AggName) -> AggCall
    ensures { result ≡ record { name = name; distinct = false; ignore_nulls = false; order = []; limit = None } }
{
    AggCall {
        name,
        distinct: false,
        ignore_nulls: false,
        order: Items::new(alloc),
        limit: None,
    }
}

/// ARRAY_AGG in the order of a second column.
fn ordered(alloc: Global) -> Result<AggCall, AllocError>
    ensures { IfOk result (λ call. call ≡ record { name = AggName.ArrayAgg; distinct = false; ignore_nulls = false; order = record { place = 1; descending = false; nulls_first = true } ∷ []; limit = None }) }
{
    let mut order = Items::new(alloc);
    order.push(SortItem {
        place: 1,
        descending: false,
        nulls_first: true,
    })?;
    Ok(AggCall {
        name: AggName::ArrayAgg,
        distinct: false,
        ignore_nulls: false,
        order,
        limit: None,
    })
}

/// The columns of each call.
fn arguments_of(alloc: Global) -> Result<Items<Places>, AllocError>
    ensures { IfOk result (λ arguments. arguments ≡ [] ∷ (1 ∷ []) ∷ (1 ∷ []) ∷ (1 ∷ []) ∷ (1 ∷ []) ∷ (1 ∷ 0 ∷ []) ∷ []) }
{
    let mut arguments = Items::new(alloc);
    arguments.push(Items::new(alloc))?;
    arguments.push(Items::from_slice(alloc, &[1])?)?;
    arguments.push(Items::from_slice(alloc, &[1])?)?;
    arguments.push(Items::from_slice(alloc, &[1])?)?;
    arguments.push(Items::from_slice(alloc, &[1])?)?;
    arguments.push(Items::from_slice(alloc, &[1, 0])?)?;
    Ok(arguments)
}

fn rows_text(alloc: Global, rows: &Rows) -> Result<String, AllocError> {
    let mut text = String::new(alloc);
    for row in rows.rows.as_slice() {
        for (place, value) in row.as_slice().iter().enumerate() {
            if place > 0 {
                text.push_str(" ")?;
            }
            put_value(alloc, &mut text, value)?;
        }
        text.push_str("|")?;
    }
    Ok(text)
}

fn put_value(alloc: Global, text: &mut String, value: &Value) -> Result<(), AllocError> {
    match value {
        Value::Array(elements) => {
            text.push_str("[")?;
            put_key(alloc, text, elements.as_slice())?;
            text.push_str("]")
        }
        _ => put_number(alloc, text, value),
    }
}

/// A table of two INT64 columns.
fn rows_of(alloc: Global, pairs: &[Pair]) -> Result<Rows, AllocError> {
    let mut columns = Items::new(alloc);
    columns.push(Named {
        name: None,
        ty: SqlType::Int64,
    })?;
    columns.push(Named {
        name: None,
        ty: SqlType::Int64,
    })?;
    let mut rows = Rows::start(alloc, columns);
    for (first, second) in pairs {
        let mut row = Items::new(alloc);
        row.push(number(*first))?;
        row.push(number(*second))?;
        add_fitting(&mut rows, row)?;
    }
    Ok(rows)
}

fn add_fitting(rows: &mut Rows, row: Values) -> Result<(), AllocError> {
    if row_fits(&row, &rows.columns) {
        rows.add(row)?;
    }
    Ok(())
}

fn number(number: Option<i64>) -> Value {
    match number {
        Some(number) => Value::Int(number),
        None => Value::Null,
    }
}

fn text_of(alloc: Global, groups: &[Group]) -> Result<String, AllocError> {
    let mut text = String::new(alloc);
    for group in groups {
        put_key(alloc, &mut text, group.key.as_slice())?;
        text.push_str(":")?;
        for number in group.rows.as_slice() {
            text.push_str(format!(in alloc; " {number}")?.as_str())?;
        }
        text.push_str("|")?;
    }
    Ok(text)
}

fn put_key(alloc: Global, text: &mut String, key: &[Value]) -> Result<(), AllocError> {
    for (place, value) in key.iter().enumerate() {
        if place > 0 {
            text.push_str(" ")?;
        }
        put_number(alloc, text, value)?;
    }
    Ok(())
}

fn put_number(alloc: Global, text: &mut String, value: &Value) -> Result<(), AllocError> {
    match value {
        Value::Int(number) => text.push_str(format!(in alloc; "{number}")?.as_str()),
        Value::Null => text.push_str("N"),
        _ => text.push_str("?"),
    }
}
