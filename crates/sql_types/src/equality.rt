//! When values are equal, which may be unknown.
ghost use Rattle.std.specs.Prelude.{◌≡◌, ◌==◌, ◌&&◌, map, Some, int_le};
ghost use Rattle.std.specs.Bool.{beq};
ghost use Rattle.std.specs.Str.{bytes_eq};
ghost use Rattle.sql_types.specs.Same.{Equal, equal, equal_fields};

use crate::value::{Value, Values};

/// Whether two values of one comparable type are equal: NULL, which is `None`, where either is NULL, and by AND over the
/// fields of two STRUCTs. Values of different kinds, and arrays, are answered by NULL. It takes no memory.
#[cycle(equal)]
#[tactic(auto, using(crate::proofs::ValueOpens::equal_opens))]
pub fn equal(left: &Value, right: &Value) -> Option<bool>
    ensures { Equal left.now right.now result }
{
    match left {
        Value::Null => None,
        Value::Bool(truth) => match right {
            Value::Bool(other) => equal_truths(truth, other),
            _ => None,
        },
        Value::Int(number) => match right {
            Value::Int(other) => equal_numbers(number, other),
            _ => None,
        },
        Value::Uint(number) => match right {
            Value::Uint(other) => Some(number == other),
            _ => None,
        },
        Value::Text(text) => match right {
            Value::Text(other) => equal_bytes(text.as_bytes(), other.as_bytes()),
            _ => None,
        },
        Value::Bytes(bytes) => match right {
            Value::Bytes(other) => equal_bytes(bytes.as_slice(), other.as_slice()),
            _ => None,
        },
        Value::Date(day) => match right {
            Value::Date(other) => equal_days(day, other),
            _ => None,
        },
        Value::Array(_) => None,
        Value::Struct(values) => match right {
            Value::Struct(others) => equal_values(values, others),
            _ => None,
        },
    }
}

/// AND over the pairs: a FALSE behind a NULL is still FALSE.
#[cycle(equal)]
fn equal_values(left: &Values, right: &Values) -> Option<bool>
    ensures { equal_fields (map equal left.now) right.now ≡ result }
{
    let mut null = false;
    let mut rest = right.as_slice();
    for value in left.as_slice() {
        match rest {
            [] => return None,
            [other, more @ ..] => {
                match equal(value, other) {
                    Some(false) => return Some(false),
                    Some(true) => {}
                    None => null = true,
                }
                rest = more;
            }
        }
    }
    if null || !rest.is_empty() {
        return None;
    }
    Some(true)
}

fn equal_truths(left: &bool, right: &bool) -> Option<bool>
    ensures { result ≡ Some (beq left.now right.now) }
{
    Some(left == right)
}

fn equal_numbers(left: &i64, right: &i64) -> Option<bool>
    ensures { result ≡ Some (int_le left.now right.now && int_le right.now left.now) }
{
    Some(left <= right && right <= left)
}

fn equal_days(left: &i32, right: &i32) -> Option<bool>
    ensures { result ≡ Some (int_le left.now right.now && int_le right.now left.now) }
{
    Some(left <= right && right <= left)
}

fn equal_bytes(left: &[u8], right: &[u8]) -> Option<bool>
    ensures { result ≡ Some (bytes_eq left.now right.now) }
{
    Some(left == right)
}
