//! A total order of all values, in which only the same values tie.
ghost use Rattle.std.specs.Prelude.{◌≡◌, ◌↔◌, IsTrue};
ghost use Rattle.std.specs.Ordering.{is_eq};
ghost use Rattle.sql_types.specs.declared.value.Value.{out-Value};
ghost use Rattle.sql_aggregates.specs.Identity as identity;

use sql_types::{Value, Values, order};
use std::cmp::Ordering;

/// A total order of all values that brings the same ones together: `Equal` exactly where two are the same, NULL the same
/// as NULL. NULL comes first, and values of one orderable type stand in their order. It takes no memory.
#[tactic(auto, using(crate::proofs::IdentityLaws::value_ties))]
pub fn identity_order(left: &Value, right: &Value) -> Ordering
    ensures order { result ≡ identity.identity_order left.now right.now }
    ensures ties { IsTrue (is_eq result) ↔ (left.now ≡ right.now) }
{
    value_order(left, right)
}

/// The order of two lists of values, as of the keys of rows: the first values that differ decide, and then the length.
/// `Equal` exactly where the lists are the same. It takes no memory.
#[tactic(auto, using(crate::proofs::IdentityLaws::row_ties))]
pub fn identity_order_of_rows(left: &Values, right: &Values) -> Ordering
    ensures order { result ≡ identity.identity_order_of_rows left.now right.now }
    ensures ties { IsTrue (is_eq result) ↔ (left.now ≡ right.now) }
{
    row_order(left, right)
}

#[cycle(identity)]
#[tactic(auto, using(crate::proofs::IdentityOpens::identity_opens))]
fn value_order(left: &Value, right: &Value) -> Ordering
    ensures { result ≡ identity.identity_order left.now right.now }
{
    match kind(left).cmp(&kind(right)) {
        Ordering::Equal => within_kind(left, right),
        decided => decided,
    }
}

#[cycle(identity)]
fn row_order(left: &Values, right: &Values) -> Ordering
    ensures { result ≡ identity.identity_order_of_rows left.now right.now }
{
    let mut rest = right.as_slice();
    for value in left.as_slice() {
        match rest {
            [] => return Ordering::Greater,
            [other, more @ ..] => match value_order(value, other) {
                Ordering::Equal => rest = more,
                decided => return decided,
            },
        }
    }
    if rest.is_empty() {
        Ordering::Equal
    } else {
        Ordering::Less
    }
}

/// The order of two values of one kind.
#[cycle(identity)]
fn within_kind(left: &Value, right: &Value) -> Ordering
    ensures { result ≡ identity.order_within (out-Value left.now) (out-Value right.now) }
{
    match left {
        Value::Array(elements) => match right {
            Value::Array(others) => row_order(elements, others),
            _ => Ordering::Equal,
        },
        Value::Struct(fields) => match right {
            Value::Struct(others) => row_order(fields, others),
            _ => Ordering::Equal,
        },
        _ => order(left, right),
    }
}

fn kind(value: &Value) -> u8
    ensures { result ≡ identity.kind (out-Value value.now) }
{
    match value {
        Value::Null => 0,
        Value::Bool(_) => 1,
        Value::Int(_) => 2,
        Value::Uint(_) => 3,
        Value::Text(_) => 4,
        Value::Bytes(_) => 5,
        Value::Date(_) => 6,
        Value::Array(_) => 7,
        Value::Struct(_) => 8,
    }
}

/// The order of two lists by their first values. That of an empty list counts as NULL.
pub(crate) fn first_order(left: &[Value], right: &[Value]) -> Ordering
    ensures { result ≡ identity.first_order left.now right.now }
{
    let null = Value::Null;
    identity_order(
        left.first().unwrap_or(&null),
        right.first().unwrap_or(&null),
    )
}

/// Whether two lists have the same first value.
pub(crate) fn same_first(left: &[Value], right: &[Value]) -> bool
    ensures { result ≡ is_eq (identity.first_order left.now right.now) }
{
    match first_order(left, right) {
        Ordering::Equal => true,
        _ => false,
    }
}
