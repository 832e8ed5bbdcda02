//! REPEAT.
ghost use Rattle.std.specs.Prelude.{◌≡◌, ◌*◌, nat_lt, [], ◌∷◌, true, IfOk, length};
ghost use Rattle.sql_types.specs.declared.sql_type.SqlType.TheVariants as types;
ghost use Rattle.sql_types.specs.declared.value.Value.TheVariants as value;
ghost use Rattle.sql_types.specs.Outcome.{Answers, just};
ghost use Rattle.sql_types.specs.Takes.{fits_types};
ghost use Rattle.sql_strings.specs.Rows.{apply_repeat};
ghost use Rattle.sql_strings.specs.Texts.{repeated};

use crate::arguments::{as_count, bytes_of, number_of, some_null, text_of};
use sql_types::{Bytes, CallFault, FaultKind, Items, Text, Value};
use std::alloc::{AllocError, Global};

/// The greatest length of an answer, in bytes.
const LIMIT: u64 = 1_048_576;

/// REPEAT of a STRING: so many times its text. A negative count is the fault ARGUMENT, and an answer of more than 1,048,576
/// bytes is OUT_OF_RANGE.
pub fn repeat_string_int64(alloc: Global, values: &[Value]) -> Result<Value, CallFault>
    requires { fits_types (types.Text ∷ types.Int64 ∷ []) values.now ≡ true }
    ensures { Answers (just (apply_repeat value.Text values.now)) result }
{
    if some_null(values) {
        return Ok(Value::Null);
    }
    match values {
        [text, count] => match as_count(number_of(count)) {
            Ok(count) => {
                if is_too_long(count, text_of(text).len()) {
                    return Err(CallFault::Fault(FaultKind::OutOfRange));
                }
                Ok(Value::Text(repeated_text(alloc, text_of(text), count)?))
            }
            Err(fault) => Err(CallFault::Fault(fault)),
        },
        _ => Ok(Value::Null),
    }
}

/// REPEAT of a BYTES, with the same faults.
pub fn repeat_bytes_int64(alloc: Global, values: &[Value]) -> Result<Value, CallFault>
    requires { fits_types (types.Bytes ∷ types.Int64 ∷ []) values.now ≡ true }
    ensures { Answers (just (apply_repeat value.Bytes values.now)) result }
{
    if some_null(values) {
        return Ok(Value::Null);
    }
    match values {
        [content, count] => match as_count(number_of(count)) {
            Ok(count) => {
                if is_too_long(count, bytes_of(content).len()) {
                    return Err(CallFault::Fault(FaultKind::OutOfRange));
                }
                Ok(Value::Bytes(repeated_bytes(alloc, bytes_of(content), count)?))
            }
            Err(fault) => Err(CallFault::Fault(fault)),
        },
        _ => Ok(Value::Null),
    }
}

fn is_too_long(count: usize, length: usize) -> bool
    ensures { result ≡ nat_lt 1048576 (count * length) }
{
    (count as u64).saturating_mul(length as u64) > LIMIT
}

#[tactic(auto, using(crate::proofs::RepeatLaws::repeated_push))]
fn repeated_text(alloc: Global, text: &str, count: usize) -> Result<Text, AllocError>
    ensures { IfOk result (λ made. made ≡ repeated count text.now) }
{
    if text.is_empty() {
        return Text::copy_of(alloc, text);
    }
    let mut made = String::new(alloc);
    for _ in 0..count {
        made.push_str(text)?;
    }
    Ok(Text::from_string(made))
}

#[tactic(auto, using(crate::proofs::RepeatLaws::repeated_push))]
fn repeated_bytes(alloc: Global, content: &[u8], count: usize) -> Result<Bytes, AllocError>
    ensures { IfOk result (λ made. made ≡ repeated count content.now) }
{
    if content.is_empty() {
        return Items::from_slice(alloc, content);
    }
    let mut made = Vec::new(alloc);
    for _ in 0..count {
        made.extend_from_slice(content)?;
    }
    Ok(Items::from_vec(made))
}
