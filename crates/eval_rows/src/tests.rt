//! The kernels over rows of two INT64 columns. In a text `N` stands for NULL, and `|` ends a row.
ghost use Rattle.std.specs.Prelude.{◌≡◌, ◌∷◌, [], IfOk, map};
ghost use Rattle.sql_types.specs.declared.sql_type.SqlType.TheVariants.{Int64};
ghost use Rattle.eval_rows.specs.Sets.{column_types};
ghost use Rattle.sql_types.specs.Sorting as sorting;

use crate::*;
use sql_types::{
    CallFault, Column, Columns, FaultKind, Items, JoinKind, Named, Rows, SetKind, SortItem,
    SortItems, SqlType, Value, Values, equal, orderable, row_fits,
};
use std::alloc::{AllocError, Global};
use std::test::Fail;

type Pair = (Option<i64>, Option<i64>);

const LEFT: [Pair; 4] = [
    (Some(1), Some(10)),
    (Some(2), Some(20)),
    (Some(2), Some(21)),
    (None, Some(30)),
];

const RIGHT: [Pair; 4] = [
    (Some(2), Some(5)),
    (Some(3), Some(6)),
    (Some(2), Some(7)),
    (None, Some(8)),
];

/// A join of the two by their first columns. NULL is no match.
const JOINED: [(JoinKind, &str); 4] = [
    (JoinKind::Inner, "2 20 2 5|2 20 2 7|2 21 2 5|2 21 2 7|"),
    (
        JoinKind::Left,
        "1 10 N N|2 20 2 5|2 20 2 7|2 21 2 5|2 21 2 7|N 30 N N|",
    ),
    (
        JoinKind::Right,
        "2 20 2 5|2 20 2 7|2 21 2 5|2 21 2 7|N N 3 6|N N N 8|",
    ),
    (
        JoinKind::Full,
        "1 10 N N|2 20 2 5|2 20 2 7|2 21 2 5|2 21 2 7|N 30 N N|N N 3 6|N N N 8|",
    ),
];

#[test]
fn joins(rt: HostRuntime) -> Result<(), Fail> {
    let alloc = rt.alloc();
    let left = rows_of(alloc, &LEFT)?;
    let right = rows_of(alloc, &RIGHT)?;
    for (kind, want) in JOINED {
        assert_eq!(rt; joined_text(alloc, kind, &left, &right)?.as_str(), want);
        assert_eq!(rt; equal_text(alloc, kind, &left, &right)?.as_str(), want);
    }
    Ok(())
}

/// Nothing on one side.
const BESIDE_NOTHING: [(JoinKind, &str, &str); 5] = [
    (JoinKind::Cross, "", ""),
    (JoinKind::Inner, "", ""),
    (JoinKind::Left, "1 10 N N|2 20 N N|2 21 N N|N 30 N N|", ""),
    (JoinKind::Right, "", "N N 1 10|N N 2 20|N N 2 21|N N N 30|"),
    (
        JoinKind::Full,
        "1 10 N N|2 20 N N|2 21 N N|N 30 N N|",
        "N N 1 10|N N 2 20|N N 2 21|N N N 30|",
    ),
];

#[test]
fn joins_with_nothing(rt: HostRuntime) -> Result<(), Fail> {
    let alloc = rt.alloc();
    let some = rows_of(alloc, &LEFT)?;
    let none = rows_of(alloc, &[])?;
    for (kind, want, turned) in BESIDE_NOTHING {
        assert_eq!(rt; joined_text(alloc, kind, &some, &none)?.as_str(), want);
        assert_eq!(rt; joined_text(alloc, kind, &none, &some)?.as_str(), turned);
    }
    Ok(())
}

fn joined_text(
    alloc: Global,
    kind: JoinKind,
    left: &Rows,
    right: &Rows,
) -> Result<String, AllocError> {
    match join_rows(
        alloc,
        kind,
        left,
        right,
        &|left: &[Value], right: &[Value]| same_key(left, right),
    ) {
        Ok(rows) => text_of(alloc, &rows),
        Err(_) => String::from_str(alloc, "?"),
    }
}

/// The join by equal first columns.
fn equal_text(
    alloc: Global,
    kind: JoinKind,
    left: &Rows,
    right: &Rows,
) -> Result<String, AllocError> {
    if left.columns.is_empty() || right.columns.is_empty() {
        return String::from_str(alloc, "?");
    }
    let joined = match kind {
        JoinKind::Cross => return String::from_str(alloc, "?"),
        JoinKind::Inner => join_equal(alloc, JoinKind::Inner, left, right, 0, 0)?,
        JoinKind::Left => join_equal(alloc, JoinKind::Left, left, right, 0, 0)?,
        JoinKind::Right => join_equal(alloc, JoinKind::Right, left, right, 0, 0)?,
        JoinKind::Full => join_equal(alloc, JoinKind::Full, left, right, 0, 0)?,
    };
    text_of(alloc, &joined)
}

/// Each of a hundred thousand keys meets its own, where the two tables stand in opposite orders.
#[test]
fn joins_many(rt: HostRuntime) -> Result<(), Fail> {
    let alloc = rt.alloc();
    let left = many_rows(alloc, false)?;
    let right = many_rows(alloc, true)?;
    if left.columns.is_empty() || right.columns.is_empty() {
        return Ok(());
    }
    let joined = join_equal(alloc, JoinKind::Inner, &left, &right, 0, 0)?;
    assert_eq!(rt; joined.rows.len(), 100_000);
    Ok(())
}

/// A row for each of the keys from 1 to 100,000, up or down.
fn many_rows(alloc: Global, down: bool) -> Result<Rows, AllocError> {
    let mut pairs = Vec::new(alloc);
    for number in 1..100_001_i64 {
        let key = if down {
            100_001_i64.saturating_sub(number)
        } else {
            number
        };
        pairs.push((Some(key), Some(0)))?;
    }
    rows_of(alloc, &pairs)
}

/// Whether the first values are equal. A 9 on the right is a fault.
fn same_key(left: &[Value], right: &[Value]) -> Result<bool, CallFault> {
    match (left, right) {
        (_, [Value::Int(9), ..]) => Err(CallFault::Fault(FaultKind::User)),
        ([key, ..], [other, ..]) => Ok(equal(key, other) == Some(true)),
        _ => Ok(false),
    }
}

#[test]
fn faults_of_a_test(rt: HostRuntime) -> Result<(), Fail> {
    let alloc = rt.alloc();
    let left = rows_of(alloc, &LEFT)?;
    let right = rows_of(alloc, &[(Some(1), None), (Some(9), None)])?;
    assert_eq!(rt;
        joined_text(alloc, JoinKind::Left, &left, &right)?.as_str(),
        "?"
    );
    // no pair, no call
    let none = rows_of(alloc, &[])?;
    assert_eq!(rt;
        joined_text(alloc, JoinKind::Inner, &none, &right)?.as_str(),
        ""
    );
    Ok(())
}

const ONE: [Pair; 5] = [
    (Some(1), Some(1)),
    (Some(1), Some(1)),
    (Some(2), Some(2)),
    (None, Some(3)),
    (None, Some(3)),
];

const OTHER: [Pair; 5] = [
    (Some(1), Some(1)),
    (Some(1), Some(1)),
    (Some(1), Some(1)),
    (None, Some(3)),
    (Some(4), None),
];

/// A set operation over the two. NULL is the same as NULL.
const COMBINED: [(SetKind, &str); 6] = [
    (
        SetKind::UnionAll,
        "1 1|1 1|2 2|N 3|N 3|1 1|1 1|1 1|N 3|4 N|",
    ),
    (SetKind::UnionDistinct, "1 1|2 2|N 3|4 N|"),
    (SetKind::IntersectAll, "1 1|1 1|N 3|"),
    (SetKind::IntersectDistinct, "1 1|N 3|"),
    (SetKind::ExceptAll, "2 2|N 3|"),
    (SetKind::ExceptDistinct, "2 2|"),
];

#[test]
fn combines(rt: HostRuntime) -> Result<(), Fail> {
    let alloc = rt.alloc();
    let operands = [rows_of(alloc, &ONE)?, rows_of(alloc, &OTHER)?];
    for (kind, want) in COMBINED {
        let combined = set_rows(alloc, kind, &operands)?;
        assert_eq!(rt; text_of(alloc, &combined)?.as_str(), want);
    }
    Ok(())
}

/// Five rows.
const UNSORTED: [Pair; 5] = [
    (Some(2), Some(1)),
    (None, Some(2)),
    (Some(1), Some(3)),
    (Some(i64::MAX), None),
    (Some(1), Some(1)),
];

/// How many are skipped and taken of five rows.
const CUTS: [(u64, u64, &str); 12] = [
    (0, 2, "2 1|N 2|"),
    (0, 5, "2 1|N 2|1 3|9223372036854775807 N|1 1|"),
    (0, u64::MAX, "2 1|N 2|1 3|9223372036854775807 N|1 1|"),
    (1, 3, "N 2|1 3|9223372036854775807 N|"),
    (1, u64::MAX, "N 2|1 3|9223372036854775807 N|1 1|"),
    (2, 2, "1 3|9223372036854775807 N|"),
    (3, 1, "9223372036854775807 N|"),
    (3, 2, "9223372036854775807 N|1 1|"),
    (4, 0, ""),
    (4, 9, "1 1|"),
    (5, 1, ""),
    (u64::MAX, u64::MAX, ""),
];

#[test]
fn cuts(rt: HostRuntime) -> Result<(), Fail> {
    let alloc = rt.alloc();
    for (skip, take, want) in CUTS {
        let rows = rows_of(alloc, &UNSORTED)?;
        assert_eq!(rt;
            text_of(alloc, &cut_rows(rows, skip, take))?.as_str(),
            want,
            "{skip} {take}"
        );
    }
    Ok(())
}

/// The column of an item, whether it is DESC, and whether NULL comes first.
type Item = (usize, bool, bool);

/// The five rows in an order by some items. NULL comes first in ASC and last in DESC, where nothing else is written.
const SORTED: [(&[Item], &str); 7] = [
    (
        &[(0, false, true), (1, false, true)],
        "N 2|1 1|1 3|2 1|9223372036854775807 N|",
    ),
    (
        &[(0, true, false), (1, false, true)],
        "9223372036854775807 N|2 1|1 1|1 3|N 2|",
    ),
    (
        &[(0, false, true), (1, true, false)],
        "N 2|1 3|1 1|2 1|9223372036854775807 N|",
    ),
    (
        &[(1, false, true), (0, false, true)],
        "9223372036854775807 N|1 1|2 1|N 2|1 3|",
    ),
    (
        &[(1, true, false), (0, true, false)],
        "1 3|N 2|2 1|1 1|9223372036854775807 N|",
    ),
    (
        &[(0, false, false), (1, false, true)],
        "1 1|1 3|2 1|9223372036854775807 N|N 2|",
    ),
    (
        &[(0, true, true), (1, false, true)],
        "N 2|9223372036854775807 N|2 1|1 1|1 3|",
    ),
];

const TIED: [Pair; 4] = [
    (Some(2), Some(7)),
    (Some(1), None),
    (Some(2), Some(7)),
    (Some(1), None),
];

#[test]
fn sorts(rt: HostRuntime) -> Result<(), Fail> {
    let alloc = rt.alloc();
    for (items, want) in SORTED {
        assert_eq!(rt; sorted_text(alloc, &UNSORTED, items)?.as_str(), want);
    }
    // rows that tie all stay
    assert_eq!(rt;
        sorted_text(alloc, &TIED, &[(0, false, true)])?.as_str(),
        "1 N|1 N|2 7|2 7|"
    );
    Ok(())
}

fn sorted_text(alloc: Global, pairs: &[Pair], items: &[Item]) -> Result<String, AllocError> {
    let rows = rows_of(alloc, pairs)?;
    let items = items_of(alloc, items)?;
    if !orders(&rows.columns, &items) {
        return String::from_str(alloc, "?");
    }
    text_of(alloc, &sort_rows(alloc, rows, &items)?)
}

fn items_of(alloc: Global, list: &[Item]) -> Result<SortItems, AllocError> {
    let mut items = Items::new(alloc);
    for (place, descending, nulls_first) in list {
        items.push(SortItem {
            place: *place,
            descending: *descending,
            nulls_first: *nulls_first,
        })?;
    }
    Ok(items)
}

/// Whether each item goes by a column of an orderable type.
fn orders(columns: &Columns, items: &SortItems) -> bool
    ensures { result ≡ sorting.orders_columns columns.now items.now }
{
    for item in items.as_slice() {
        if !orders_at(columns.as_slice(), item.place) {
            return false;
        }
    }
    true
}

fn orders_at(columns: &[Column], place: usize) -> bool
    ensures { result ≡ sorting.orders_column columns.now place }
{
    if place >= columns.len() {
        return true;
    }
    orderable(&columns[place].ty)
}

/// A table of two INT64 columns.
fn rows_of(alloc: Global, pairs: &[Pair]) -> Result<Rows, AllocError>
    ensures { IfOk result (λ rows. column_types rows ≡ Int64 ∷ Int64 ∷ []) }
{
    let mut rows = Rows::start(alloc, pair_columns(alloc)?);
    for (first, second) in pairs {
        let mut row = Items::new(alloc);
        row.push(number(*first))?;
        row.push(number(*second))?;
        add_fitting(&mut rows, row)?;
    }
    Ok(rows)
}

fn pair_columns(alloc: Global) -> Result<Columns, AllocError>
    ensures { IfOk result (λ columns. map (λ c. c.ty) columns ≡ Int64 ∷ Int64 ∷ []) }
{
    let mut columns = Items::new(alloc);
    columns.push(Named {
        name: None,
        ty: SqlType::Int64,
    })?;
    columns.push(Named {
        name: None,
        ty: SqlType::Int64,
    })?;
    Ok(columns)
}

fn add_fitting(rows: &mut Rows, row: Values) -> Result<(), AllocError>
    ensures { rows.new.columns ≡ rows.old.columns }
{
    if row_fits(&row, &rows.columns) {
        rows.add(row)?;
    }
    Ok(())
}

fn number(number: Option<i64>) -> Value {
    match number {
        Some(number) => Value::Int(number),
        None => Value::Null,
    }
}

fn text_of(alloc: Global, rows: &Rows) -> Result<String, AllocError> {
    let mut text = String::new(alloc);
    for row in rows.rows.as_slice() {
        put_row(alloc, &mut text, row.as_slice())?;
    }
    Ok(text)
}

fn put_row(alloc: Global, text: &mut String, row: &[Value]) -> Result<(), AllocError> {
    for (place, value) in row.iter().enumerate() {
        if place > 0 {
            text.push_str(" ")?;
        }
        match value {
            Value::Int(number) => text.push_str(format!(in alloc; "{number}")?.as_str())?,
            Value::Null => text.push_str("N")?,
            _ => text.push_str("?")?,
        }
    }
    text.push_str("|")
}
