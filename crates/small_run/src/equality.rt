//! Three-valued equality of values.
ghost use Rattle.std.specs.Prelude.{◌≡◌, map};
ghost use Rattle.sql_types.specs.declared.value.Value.{out-Value};
ghost use Rattle.sql_types.specs.declared.value.Value.TheOpen as v;
ghost use Rattle.sql_types.specs.Same as same;

use sql_types::{Bytes, Text, Value, Values};

/// Whether two values are equal: TRUE, FALSE, or none, which is NULL. NULL beside anything is NULL, STRUCTs are equal by
/// AND over their fields, and arrays aren't compared.
#[cycle(equality)]
pub fn equal(left: &Value, right: &Value) -> Option<bool>
    ensures { result ≡ same.equal left.now right.now }
{
    match left {
        Value::Null => None,
        Value::Bool(truth) => equal_truth(*truth, right),
        Value::Int(number) => equal_int(*number, right),
        Value::Uint(number) => equal_uint(*number, right),
        Value::Text(text) => equal_text(text, right),
        Value::Bytes(bytes) => equal_bytes(bytes, right),
        Value::Date(day) => equal_date(*day, right),
        Value::Array(_) => None,
        Value::Struct(fields) => equal_struct(fields, right),
    }
}

#[cycle(equality)]
fn equal_struct(fields: &Values, right: &Value) -> Option<bool>
    ensures { result ≡ same.equal_layer (v.Struct (map same.equal fields.now)) (out-Value right.now) }
{
    match right {
        Value::Struct(others) => equal_fields(fields.as_slice(), others.as_slice()),
        _ => None,
    }
}

/// AND over the fields of two STRUCTs, and none where one has more fields than the other.
#[cycle(equality)]
fn equal_fields(left: &[Value], right: &[Value]) -> Option<bool>
    ensures { result ≡ same.equal_fields (map same.equal left.now) right.now }
{
    let mut truth = Some(true);
    for (index, field) in left.iter().enumerate() {
        if index >= right.len() {
            return both_true(truth, None);
        }
        truth = both_true(truth, equal(field, &right[index]));
    }
    if left.len() < right.len() {
        both_true(truth, None)
    } else {
        truth
    }
}

/// Three-valued AND, where none stands for NULL: FALSE beside anything is FALSE.
fn both_true(left: Option<bool>, right: Option<bool>) -> Option<bool>
    ensures { result ≡ same.both_true left right }
{
    match (left, right) {
        (Some(true), other) => other,
        (Some(false), _) => Some(false),
        (None, Some(false)) => Some(false),
        (None, _) => None,
    }
}

fn equal_truth(truth: bool, right: &Value) -> Option<bool>
    ensures { result ≡ same.equal_layer (v.Bool truth) (out-Value right.now) }
{
    match right {
        Value::Bool(other) => Some(truth == *other),
        _ => None,
    }
}

fn equal_int(number: i64, right: &Value) -> Option<bool>
    ensures { result ≡ same.equal_layer (v.Int number) (out-Value right.now) }
{
    match right {
        Value::Int(other) => Some(number <= *other && *other <= number),
        _ => None,
    }
}

fn equal_uint(number: u64, right: &Value) -> Option<bool>
    ensures { result ≡ same.equal_layer (v.Uint number) (out-Value right.now) }
{
    match right {
        Value::Uint(other) => Some(number == *other),
        _ => None,
    }
}

fn equal_text(text: &Text, right: &Value) -> Option<bool>
    ensures { result ≡ same.equal_layer (v.Text text.now) (out-Value right.now) }
{
    match right {
        Value::Text(other) => Some(text.as_str() == other.as_str()),
        _ => None,
    }
}

fn equal_bytes(bytes: &Bytes, right: &Value) -> Option<bool>
    ensures { result ≡ same.equal_layer (v.Bytes bytes.now) (out-Value right.now) }
{
    match right {
        Value::Bytes(other) => Some(bytes.as_slice() == other.as_slice()),
        _ => None,
    }
}

fn equal_date(day: i32, right: &Value) -> Option<bool>
    ensures { result ≡ same.equal_layer (v.Date day) (out-Value right.now) }
{
    match right {
        Value::Date(other) => Some(day <= *other && *other <= day),
        _ => None,
    }
}
