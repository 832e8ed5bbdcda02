//! The hash of a value: the same values write the same.
ghost use Rattle.std.specs.Prelude.{◌≡◌, fold};
ghost use Rattle.key_classes.specs.Fed.{fed_value, fed_values};

use sql_types::Value;
use std::hash::{Hash, Hasher};

/// Writes the kind of a value and then what it holds.
#[cycle(hashing)]
pub(crate) fn hash_value<H: Hasher>(value: &Value, state: &mut H)
    ensures { state.new ≡ fold H.write state.old (fed_value value.now) }
{
    match value {
        Value::Null => state.write_u8(0),
        Value::Bool(truth) => {
            state.write_u8(1);
            truth.hash(state);
        }
        Value::Int(number) => {
            state.write_u8(2);
            number.hash(state);
        }
        Value::Uint(number) => {
            state.write_u8(3);
            number.hash(state);
        }
        Value::Text(text) => {
            state.write_u8(4);
            state.write(text.as_bytes());
        }
        Value::Bytes(bytes) => {
            state.write_u8(5);
            state.write(bytes.as_slice());
        }
        Value::Date(day) => {
            state.write_u8(6);
            day.hash(state);
        }
        Value::Array(elements) => {
            state.write_u8(7);
            hash_values(elements.as_slice(), state);
        }
        Value::Struct(fields) => {
            state.write_u8(8);
            hash_values(fields.as_slice(), state);
        }
    }
}

/// Writes the number of values and then each of them.
#[cycle(hashing)]
fn hash_values<H: Hasher>(values: &[Value], state: &mut H)
    ensures { state.new ≡ fold H.write state.old (fed_values values.now) }
{
    state.write_usize(values.len());
    for value in values {
        hash_value(value, state);
    }
}
