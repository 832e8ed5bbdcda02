//! The rows that a plan answers.
ghost use Rattle.std.specs.Prelude.{◌≡◌, true, List, IfOk, slice_index_or};
ghost use Rattle.sql_types.specs.declared.value.Value.{Value};
ghost use Rattle.sql_types.specs.Fits.{fits_row};
ghost use Rattle.small_run.specs.Plans as plans;

use crate::equality::equal;
use crate::form::Plan;
use lists::OutOfMemory;
use sql_types::{Items, Rows, Value, Values, copy_columns, copy_value};
use std::alloc::Global;

/// The answer of a plan over the rows of its table: the rows that pass its test, in their order, each with the values at
/// its places. Fails where memory ran out.
pub fn run(alloc: Global, plan: &Plan, rows: &Rows) -> Result<Rows, OutOfMemory>
    // each row of the table, picked, fits the answer's columns, as it does where the plan is one over this table
    requires { (row : List Value) → fits_row rows.now.columns row ≡ true
        → fits_row plan.now.columns (plans.picked plan.now.slots row) ≡ true }
    ensures { IfOk result (λ answer. (answer.columns ≡ plan.now.columns) × (answer.rows ≡ plans.answers plan.now rows.now.rows)) }
{
    let mut answer = Rows::start(alloc, copy_columns(alloc, &plan.columns)?);
    for row in rows.rows.as_slice() {
        if passes(plan.test, &plan.literal, row) {
            answer.add(picked(alloc, &plan.slots, row)?)?;
        }
    }
    Ok(answer)
}

/// Whether it is TRUE that the value at a place of a row equals the literal.
pub(crate) fn passes(test: usize, literal: &Value, row: &Values) -> bool
    ensures { result ≡ plans.passes test literal.now row.now }
{
    match row.get(test) {
        Some(value) => equal(value, literal).unwrap_or(false),
        None => false,
    }
}

/// The values of a row at these places.
pub(crate) fn picked(
    alloc: Global,
    slots: &Items<usize>,
    row: &Values,
) -> Result<Values, OutOfMemory>
    ensures { IfOk result (λ values. values ≡ plans.picked slots.now row.now) }
{
    let mut values = Items::new(alloc);
    for slot in slots.as_slice() {
        values.push(value_at(alloc, *slot, row)?)?;
    }
    Ok(values)
}

/// The value of a row at a place, and NULL past its end.
fn value_at(alloc: Global, slot: usize, row: &Values) -> Result<Value, OutOfMemory>
    ensures { IfOk result (λ value. value ≡ slice_index_or row.now slot Value.Null) }
{
    match row.get(slot) {
        Some(value) => copy_value(alloc, value),
        None => Ok(Value::Null),
    }
}
