//! GENERATE_ARRAY. A call with a NULL argument is NULL.
ghost use Rattle.std.specs.Prelude.{◌≡◌, ◌<◌, [], ◌∷◌, true, ℕ, pos, ◌+ℤ◌, ◌*ℤ◌, IfOk, FitsSigned};
ghost use Rattle.std.specs.Int.{w64};
ghost use Rattle.sql_types.specs.declared.sql_type.SqlType.TheVariants as types;
ghost use Rattle.sql_types.specs.Outcome.{Answers, just};
ghost use Rattle.sql_types.specs.declared.value.Value.TheVariants as value;
ghost use Rattle.sql_types.specs.Fits.{fits};
ghost use Rattle.sql_types.specs.Takes.{fits_types_or_less, number};
ghost use Rattle.sql_numbers.specs.Arrays as rows;

use crate::arguments::{int_of, some_null};
use sql_types::{CallFault, FaultKind, Items, Value, Values};
use std::alloc::{AllocError, Global};

/// The most elements that GENERATE_ARRAY makes.
const GREATEST_COUNT: u128 = 1_048_576;

/// GENERATE_ARRAY: the first number and those that follow it step by step, none past the last. The step is 1 where none
/// is given. A step of 0 is the fault ARGUMENT, and more than 1,048,576 elements are OUT_OF_RANGE.
pub fn generate_array_int64_int64_int64(alloc: Global, values: &[Value]) -> Result<Value, CallFault>
    requires { fits_types_or_less (types.Int64 ∷ types.Int64 ∷ []) types.Int64 values.now ≡ true }
    ensures { Answers (just (rows.apply_generate_array values.now)) result }
{
    if some_null(values) {
        return Ok(Value::Null);
    }
    generated_of(alloc, values)
}

/// The same of arguments that aren't NULL.
fn generated_of(alloc: Global, values: &[Value]) -> Result<Value, CallFault>
    requires { fits_types_or_less (types.Int64 ∷ types.Int64 ∷ []) types.Int64 values.now ≡ true }
    ensures { Answers (just (rows.generate_row values.now)) result }
{
    match values {
        [first, last] => between(alloc, first, last, 1),
        [first, last, step] => between(alloc, first, last, int_of(step)),
        _ => Ok(Value::Null),
    }
}

fn between(alloc: Global, first: &Value, last: &Value, step: i64) -> Result<Value, CallFault>
    requires first { fits types.Int64 first.now ≡ true }
    requires last { fits types.Int64 last.now ≡ true }
    ensures { Answers (just (rows.generated (number first.now) (number last.now) step)) result }
{
    generated(alloc, int_of(first), int_of(last), step)
}

#[tactic(auto, using(crate::proofs::StepLaws::step_fits))]
fn generated(alloc: Global, first: i64, last: i64, step: i64) -> Result<Value, CallFault>
    ensures { Answers (just (rows.generated first last step)) result }
{
    if step == 0 {
        return Err(CallFault::Fault(FaultKind::Argument));
    }
    let count = number_of_steps(first, last, step);
    if count > GREATEST_COUNT {
        return Err(CallFault::Fault(FaultKind::OutOfRange));
    }
    Ok(Value::Array(in_steps(alloc, i128::from(first), i128::from(step), count as u64)?))
}

/// How many numbers there are from the first on, none past the last.
fn number_of_steps(first: i64, last: i64, step: i64) -> u128
    requires { step ≡ pos 0 → ⊥ }
    ensures { result ≡ rows.number_of_steps first last step }
{
    if step > 0 {
        steps(i128::from(last) - i128::from(first), step.unsigned_abs())
    } else {
        steps(i128::from(first) - i128::from(last), step.unsigned_abs())
    }
}

fn steps(distance: i128, size: u64) -> u128
    requires { 0 < size }
    ensures { result ≡ rows.steps distance size }
{
    if distance < 0 {
        return 0;
    }
    distance.unsigned_abs() / u128::from(size) + 1
}

/// So many numbers, each a step after the one before.
fn in_steps(alloc: Global, first: i128, step: i128, count: u64) -> Result<Values, AllocError>
    requires step { FitsSigned w64 step }
    requires numbers { (k : ℕ) → k < count → FitsSigned w64 (first +ℤ pos k *ℤ step) }
    ensures { IfOk result (λ numbers. numbers ≡ rows.in_steps first step count) }
{
    let mut numbers = Items::new(alloc);
    let mut number = first;
    for _ in 0..count {
        numbers.push(int_value(number))?;
        number += step;
    }
    Ok(numbers)
}

fn int_value(number: i128) -> Value
    requires { FitsSigned w64 number }
    ensures { result ≡ value.Int number }
{
    Value::Int(number as i64)
}
