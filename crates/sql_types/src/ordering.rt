//! The order of values and of rows.
ghost use Rattle.std.specs.Prelude.{◌≡◌};
ghost use Rattle.std.specs.Ordering.{int_cmp, nat_cmp};
ghost use Rattle.std.specs.Cmp.Lexicographic.{slice_cmp};
ghost use Rattle.sql_types.specs.Before as before;
ghost use Rattle.sql_types.specs.declared.value.Value.{out-Value};

use crate::kinds::SortItem;
use crate::value::Value;
use std::cmp::Ordering;

/// The order of two values of one orderable type, neither of them NULL: FALSE comes before TRUE, numbers and days go by
/// size, STRING and BYTES by their bytes. Where one is NULL, or they are of no orderable type, the answer is `Equal`. It
/// takes no memory.
pub fn order(left: &Value, right: &Value) -> Ordering
    ensures { result ≡ before.order left.now right.now }
{
    match left {
        Value::Bool(truth) => match right {
            Value::Bool(other) => truth_order(truth, other),
            _ => Ordering::Equal,
        },
        Value::Int(number) => match right {
            Value::Int(other) => number_order(number, other),
            _ => Ordering::Equal,
        },
        Value::Uint(number) => match right {
            Value::Uint(other) => size_order(number, other),
            _ => Ordering::Equal,
        },
        Value::Text(text) => match right {
            Value::Text(other) => byte_order(text.as_bytes(), other.as_bytes()),
            _ => Ordering::Equal,
        },
        Value::Bytes(bytes) => match right {
            Value::Bytes(other) => byte_order(bytes.as_slice(), other.as_slice()),
            _ => Ordering::Equal,
        },
        Value::Date(day) => match right {
            Value::Date(other) => day_order(day, other),
            _ => Ordering::Equal,
        },
        Value::Null | Value::Array(_) | Value::Struct(_) => Ordering::Equal,
    }
}

fn truth_order(left: &bool, right: &bool) -> Ordering
    ensures { result ≡ before.truth_order left.now right.now }
{
    match (left, right) {
        (false, true) => Ordering::Less,
        (true, false) => Ordering::Greater,
        (true, true) => Ordering::Equal,
        (false, false) => Ordering::Equal,
    }
}

fn number_order(left: &i64, right: &i64) -> Ordering
    ensures { result ≡ int_cmp left.now right.now }
{
    left.cmp(right)
}

fn size_order(left: &u64, right: &u64) -> Ordering
    ensures { result ≡ nat_cmp left.now right.now }
{
    left.cmp(right)
}

fn day_order(left: &i32, right: &i32) -> Ordering
    ensures { result ≡ int_cmp left.now right.now }
{
    left.cmp(right)
}

fn byte_order(left: &[u8], right: &[u8]) -> Ordering
    ensures { result ≡ slice_cmp nat_cmp left.now right.now }
{
    left.cmp(right)
}

/// The order of two values by one item of an order, which says the direction and where NULL goes. It takes no memory.
pub fn item_order(item: &SortItem, left: &Value, right: &Value) -> Ordering
    ensures { result ≡ before.item_order item.now left.now right.now }
{
    match (is_null(left), is_null(right)) {
        (true, true) => Ordering::Equal,
        (true, false) => null_order(item.nulls_first),
        (false, true) => null_order(item.nulls_first).reverse(),
        (false, false) => directed(item.descending, order(left, right)),
    }
}

pub(crate) fn is_null(value: &Value) -> bool
    ensures { result ≡ before.is_null (out-Value value.now) }
{
    matches!(value, Value::Null)
}

pub(crate) fn null_order(nulls_first: bool) -> Ordering
    ensures { result ≡ before.null_order nulls_first }
{
    if nulls_first {
        Ordering::Less
    } else {
        Ordering::Greater
    }
}

pub(crate) fn directed(descending: bool, order: Ordering) -> Ordering
    ensures { result ≡ before.directed descending order }
{
    if descending { order.reverse() } else { order }
}

/// The order of two rows by the items of an order: the first item that tells them apart decides. A value that a row
/// doesn't have counts as NULL. It takes no memory.
pub fn compare_rows(items: &[SortItem], left: &[Value], right: &[Value]) -> Ordering
    ensures { result ≡ before.rows_order items.now left.now right.now }
{
    for item in items {
        match row_order(item, left, right) {
            Ordering::Equal => {}
            decided => return decided,
        }
    }
    Ordering::Equal
}

fn row_order(item: &SortItem, left: &[Value], right: &[Value]) -> Ordering
    ensures { result ≡ before.row_order item.now left.now right.now }
{
    let null = Value::Null;
    let one = left.get(item.place).unwrap_or(&null);
    let other = right.get(item.place).unwrap_or(&null);
    item_order(item, one, other)
}
