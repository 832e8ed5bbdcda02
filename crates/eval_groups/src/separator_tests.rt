//! STRING_AGG whose separator differs by group.
ghost use Rattle.std.specs.Prelude.{◌≡◌, ◌<◌, ◌∷◌, [], true, false, None, IfOk, length, slice_index_or};
ghost use Rattle.std.specs.List.{All};
ghost use Rattle.sql_types.specs.declared.sql_type.SqlType.TheVariants as types;
ghost use Rattle.sql_types.specs.declared.value.Value.TheVariants.{Null};
ghost use Rattle.eval_groups.specs.Aggregated.{AllWithin, OneSeparator, column_types, lists_of};

use crate::*;
use sql_aggregates::{AggCall, AggName};
use sql_types::{
    CallFault, Items, Named, Rows, SortItem, SqlType, Text, Value, Values, row_fits, same,
};
use std::alloc::{AllocError, Global};
use std::test::Fail;

/// A key, a text and a separator.
type Line = (i64, &'static str, &'static str);

const LINES: [Line; 5] = [
    (1, "b", "-"),
    (2, "d", "+"),
    (1, "a", "-"),
    (2, "c", "+"),
    (3, "e", "-"),
];

#[test]
fn a_separator_for_each_group(rt: HostRuntime) -> Result<(), Fail> {
    let text = grouped_texts(rt.alloc())?;
    assert_eq!(rt; text.as_str(), "a-b|c+d|e|");
    Ok(())
}

/// The texts of each key in their order.
fn grouped_texts(alloc: Global) -> Result<String, AllocError> {
    let rows = rows_of(alloc, &LINES)?;
    if !is_lines(&rows) {
        return String::from_str(alloc, "?");
    }
    let groups = group_rows(alloc, &rows, &[0])?;
    if !one_separator_each(&rows, &groups) {
        return String::from_str(alloc, "?");
    }
    match joined(alloc, &rows, &groups) {
        Ok(answer) => rows_text(alloc, &answer),
        Err(_) => String::from_str(alloc, "?"),
    }
}

/// Whether the columns are a number and two texts.
fn is_lines(rows: &Rows) -> bool
    ensures { result ≡ true → column_types rows.now ≡ types.Int64 ∷ types.Text ∷ types.Text ∷ [] }
{
    match rows.columns.as_slice() {
        [key, text, separator] => {
            matches!(key.ty, SqlType::Int64)
                && matches!(text.ty, SqlType::Text)
                && matches!(separator.ty, SqlType::Text)
        }
        _ => false,
    }
}

/// Whether the rows of each group have one separator.
fn one_separator_each(rows: &Rows, groups: &Groups) -> bool
    requires { AllWithin rows.now groups.now }
    ensures { result ≡ true → All (λ group. OneSeparator (lists_of rows.now.rows (1 ∷ 2 ∷ 1 ∷ []) group)) groups.now }
{
    for group in groups.as_slice() {
        if !one_separator(rows, group) {
            return false;
        }
    }
    true
}

fn one_separator(rows: &Rows, group: &Group) -> bool
    requires { All (λ number. number < length rows.now.rows) group.now.rows }
    ensures { result ≡ true → OneSeparator (lists_of rows.now.rows (1 ∷ 2 ∷ 1 ∷ []) group.now) }
{
    match group.rows.as_slice() {
        [] => true,
        [first, ..] => all_have(
            rows,
            group.rows.as_slice(),
            rows.row(*first).as_slice().get(2).unwrap_or(&Value::Null),
        ),
    }
}

/// Whether these rows have this separator.
fn all_have(rows: &Rows, numbers: &[usize], separator: &Value) -> bool
    requires { All (λ number. number < length rows.now.rows) numbers.now }
    ensures { result ≡ true → All (λ number. slice_index_or (slice_index_or rows.now.rows number []) 2 Null ≡ separator.now) numbers.now }
{
    for number in numbers {
        if !has(rows, *number, separator) {
            return false;
        }
    }
    true
}

fn has(rows: &Rows, number: usize, separator: &Value) -> bool
    requires { number < length rows.now.rows }
    ensures { result ≡ true → slice_index_or (slice_index_or rows.now.rows number []) 2 Null ≡ separator.now }
{
    let absent = Value::Null;
    same(
        rows.row(number).as_slice().get(2).unwrap_or(&absent),
        separator,
    )
}

/// STRING_AGG of the texts of each group.
fn joined(alloc: Global, rows: &Rows, groups: &Groups) -> Result<Rows, CallFault>
    requires members { AllWithin rows.now groups.now }
    requires columns { column_types rows.now ≡ types.Int64 ∷ types.Text ∷ types.Text ∷ [] }
    requires separators { All (λ group. OneSeparator (lists_of rows.now.rows (1 ∷ 2 ∷ 1 ∷ []) group)) groups.now }
{
    let arguments = arguments_of(alloc)?;
    let calls = [join(alloc)?];
    aggregate_rows(alloc, rows, groups, &calls, arguments.as_slice())
}

/// STRING_AGG with a separator, in the order of a third column.
fn join(alloc: Global) -> Result<AggCall, AllocError>
    ensures { IfOk result (λ call. call ≡ record { name = AggName.StringAgg; distinct = false; ignore_nulls = false; order = record { place = 2; descending = false; nulls_first = true } ∷ []; limit = None }) }
{
    let mut order = Items::new(alloc);
    order.push(SortItem {
        place: 2,
        descending: false,
        nulls_first: true,
    })?;
    Ok(AggCall {
        name: AggName::StringAgg,
        distinct: false,
        ignore_nulls: false,
        order,
        limit: None,
    })
}

/// The columns of the call.
fn arguments_of(alloc: Global) -> Result<Items<Places>, AllocError>
    ensures { IfOk result (λ arguments. arguments ≡ (1 ∷ 2 ∷ 1 ∷ []) ∷ []) }
{
    let mut arguments = Items::new(alloc);
    arguments.push(Items::from_slice(alloc, &[1, 2, 1])?)?;
    Ok(arguments)
}

fn rows_of(alloc: Global, lines: &[Line]) -> Result<Rows, AllocError> {
    let mut columns = Items::new(alloc);
    columns.push(column(SqlType::Int64))?;
    columns.push(column(SqlType::Text))?;
    columns.push(column(SqlType::Text))?;
    let mut rows = Rows::start(alloc, columns);
    for (key, text, separator) in lines {
        let mut row = Items::new(alloc);
        row.push(Value::Int(*key))?;
        row.push(Value::Text(Text::copy_of(alloc, text)?))?;
        row.push(Value::Text(Text::copy_of(alloc, separator)?))?;
        add_fitting(&mut rows, row)?;
    }
    Ok(rows)
}

fn column(ty: SqlType) -> Named<SqlType> {
    Named { name: None, ty }
}

fn add_fitting(rows: &mut Rows, row: Values) -> Result<(), AllocError> {
    if row_fits(&row, &rows.columns) {
        rows.add(row)?;
    }
    Ok(())
}

fn rows_text(alloc: Global, rows: &Rows) -> Result<String, AllocError> {
    let mut text = String::new(alloc);
    for row in rows.rows.as_slice() {
        match row.as_slice() {
            [Value::Text(joined)] => text.push_str(joined.as_str())?,
            _ => text.push_str("?")?,
        }
        text.push_str("|")?;
    }
    Ok(text)
}
