//! The aggregates of groups.
ghost use Rattle.std.specs.Prelude.{◌≡◌, ◌<◌, ◌-◌, [], ◌∷◌, IfOk, None, length, map, take, slice_index_or};
ghost use Rattle.std.specs.List.{All};
ghost use Rattle.sql_types.specs.declared.sql_type.SqlType.TheVariants.{Int64};
ghost use Rattle.sql_types.specs.Outcome.{Answers, Gather};
ghost use Rattle.sql_aggregates.specs.Aggregates.{AggMeans};
ghost use Rattle.sql_aggregates.specs.AnswerTypes as types;
ghost use Rattle.eval_groups.specs.Aggregated as specs;

use crate::groups::{Group, Groups};
use key_classes::Key;
use sql_aggregates::{Accumulator, AggCall, answer_type};
use sql_types::{CallFault, Columns, Items, Named, Rows, SqlType, Types, Value, Values, copy_type};
use std::alloc::{AllocError, Global};

/// The argument columns of one call, and then its sort columns.
pub type Places = Items<usize>;

/// The aggregates of each group: a row for each, in the order of the groups, with an unnamed column for each call. The
/// columns of a call are those of its arguments and then those of its sort items, and they have types that the call takes.
/// Where STRING_AGG has a separator, the rows of a group have the same one. A total or a count past its type is the fault
/// OUT_OF_RANGE.
///
/// The time is linear in the rows of the groups times the calls, but for what a call with DISTINCT or ORDER BY sorts. A call
/// holds copies of its values in one group at a time.
pub fn aggregate_rows(
    alloc: Global,
    rows: &Rows,
    groups: &Groups,
    calls: &[AggCall],
    arguments: &[Places],
) -> Result<Rows, CallFault>
    requires members { specs.AllWithin rows.now groups.now }
    requires calls { specs.AllAggregable rows.now groups.now calls.now arguments.now }
    ensures { Answers (specs.Aggregates rows.now calls.now arguments.now groups.now) result }
{
    let columns = answer_columns(alloc, rows, calls, arguments)?;
    let mut answer = Rows::start(alloc, columns);
    for group in groups.as_slice() {
        match group_row(alloc, rows, group, calls, arguments) {
            Ok(row) => answer.add(row)?,
            Err(fault) => return Err(fault),
        }
    }
    Ok(answer)
}

/// A column without a name for each call.
fn answer_columns(
    alloc: Global,
    rows: &Rows,
    calls: &[AggCall],
    arguments: &[Places],
) -> Result<Columns, AllocError>
    requires { specs.AllAggregable rows.now [] calls.now arguments.now }
    ensures { IfOk result (λ columns. columns ≡ specs.answer_columns (specs.column_types rows.now) calls.now arguments.now) }
{
    let mut columns = Items::new(alloc);
    for (number, call) in calls.iter().enumerate() {
        let ty = call_type(alloc, rows, call, arguments[number].as_slice())?;
        columns.push(Named { name: None, ty })?;
    }
    Ok(columns)
}

/// The type of what a call answers over the columns at these places.
fn call_type(
    alloc: Global,
    rows: &Rows,
    call: &AggCall,
    places: &[usize],
) -> Result<SqlType, AllocError>
    requires { All (λ place. place < length rows.now.columns) places.now }
    ensures { IfOk result (λ t. t ≡ types.answer_type call.now.name (take (length places.now - length call.now.order) (specs.types_at (specs.column_types rows.now) places.now))) }
{
    let types = types_at(alloc, rows, argument_places(call.order.len(), places))?;
    answer_type(alloc, call.name, types.as_slice())
}

/// The columns of the arguments, which stand before so many of the sort items.
fn argument_places(sorts: usize, places: &[usize]) -> &[usize]
    ensures { result.now ≡ take (length places.now - sorts) places.now }
{
    &places[..places.len().saturating_sub(sorts)]
}

/// The types of the columns at these places.
fn types_at(alloc: Global, rows: &Rows, places: &[usize]) -> Result<Types, AllocError>
    requires { All (λ place. place < length rows.now.columns) places.now }
    ensures { IfOk result (λ types. types ≡ specs.types_at (specs.column_types rows.now) places.now) }
{
    let mut types = Items::new(alloc);
    for place in places {
        types.push(copy_type(alloc, type_at(rows, *place))?)?;
    }
    Ok(types)
}

fn type_at(rows: &Rows, place: usize) -> &SqlType
    requires { place < length rows.now.columns }
    ensures { result.now ≡ slice_index_or (specs.column_types rows.now) place Int64 }
{
    &rows.columns.as_slice()[place].ty
}

/// What each call answers over a group.
fn group_row(
    alloc: Global,
    rows: &Rows,
    group: &Group,
    calls: &[AggCall],
    arguments: &[Places],
) -> Result<Values, CallFault>
    requires members { All (λ number. number < length rows.now.rows) group.now.rows }
    requires calls { specs.AllAggregable rows.now (group.now ∷ []) calls.now arguments.now }
    ensures { Answers (Gather (specs.calls_mean rows.now.rows calls.now arguments.now group.now)) result }
{
    let mut row = Items::new(alloc);
    for (number, call) in calls.iter().enumerate() {
        match call_answer(alloc, rows, group, call, arguments[number].as_slice()) {
            Ok(value) => row.push(value)?,
            Err(fault) => return Err(fault),
        }
    }
    Ok(row)
}

/// What a call answers over a group.
fn call_answer(
    alloc: Global,
    rows: &Rows,
    group: &Group,
    call: &AggCall,
    places: &[usize],
) -> Result<Value, CallFault>
    requires members { All (λ number. number < length rows.now.rows) group.now.rows }
    requires call { specs.Aggregable rows.now (group.now ∷ []) call.now places.now }
    ensures { Answers (AggMeans call.now (specs.lists_of rows.now.rows places.now group.now)) result }
{
    let mut accumulator = Accumulator::start(alloc, call)?;
    for number in group.rows.as_slice() {
        let key = Key {
            columns: places,
            row: rows.row(*number).as_slice(),
        };
        let list = key.copy(alloc)?;
        accumulator.add(list.as_slice())?;
    }
    accumulator.finish()
}
