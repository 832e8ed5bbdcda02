//! An order of all rows, for sorting.
ghost use Rattle.std.specs.Prelude.{◌≡◌};
ghost use Rattle.sql_types.specs.Sorting as sorting;
ghost use Rattle.sql_types.specs.declared.value.Value.{out-Value};

use crate::kinds::SortItem;
use crate::ordering::{directed, is_null, null_order, order};
use crate::value::Value;
use std::cmp::Ordering;

/// The order of two rows by the items of an order, as `compare_rows` answers it for rows of one table where each item goes
/// by a column of an orderable type. It goes on to all other rows, so that it is a total order and a sort by it sorts. It
/// takes no memory.
pub fn sorting_order(items: &[SortItem], left: &[Value], right: &[Value]) -> Ordering
    ensures { result ≡ sorting.whole_rows_order items.now left.now right.now }
{
    for item in items {
        match row_order(item, left, right) {
            Ordering::Equal => {}
            decided => return decided,
        }
    }
    Ordering::Equal
}

fn row_order(item: &SortItem, left: &[Value], right: &[Value]) -> Ordering
    ensures { result ≡ sorting.whole_row_order item.now left.now right.now }
{
    let null = Value::Null;
    let one = left.get(item.place).unwrap_or(&null);
    let other = right.get(item.place).unwrap_or(&null);
    item_order(item, one, other)
}

fn item_order(item: &SortItem, left: &Value, right: &Value) -> Ordering
    ensures { result ≡ sorting.whole_item_order item.now left.now right.now }
{
    match (is_null(left), is_null(right)) {
        (true, true) => Ordering::Equal,
        (true, false) => null_order(item.nulls_first),
        (false, true) => null_order(item.nulls_first).reverse(),
        (false, false) => directed(item.descending, whole_order(left, right)),
    }
}

/// Values of different kinds go by their kind.
fn whole_order(left: &Value, right: &Value) -> Ordering
    ensures { result ≡ sorting.whole_order left.now right.now }
{
    match kind(left).cmp(&kind(right)) {
        Ordering::Equal => order(left, right),
        decided => decided,
    }
}

fn kind(value: &Value) -> u8
    ensures { result ≡ sorting.kind (out-Value value.now) }
{
    match value {
        Value::Bool(_) => 1,
        Value::Int(_) => 2,
        Value::Uint(_) => 3,
        Value::Text(_) => 4,
        Value::Bytes(_) => 5,
        Value::Date(_) => 6,
        Value::Null | Value::Array(_) | Value::Struct(_) => 0,
    }
}
