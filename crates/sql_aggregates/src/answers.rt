//! What each aggregate answers for the lists that it goes over.
ghost use Rattle.std.specs.Prelude.{◌≡◌, IfOk, length};
ghost use Rattle.sql_types.specs.Outcome.{Answers, just};
ghost use Rattle.sql_aggregates.specs.Aggregates as rows;
ghost use Rattle.sql_aggregates.specs.Calls.{AllAddable};

use crate::arguments::firsts;
use crate::call::{AggCall, AggName};
use crate::counts::{count, sum, trues};
use crate::extremes::{first_of, greatest_of, least_of};
use crate::texts::{joined, separator};
use crate::truths::{all_true, some_true};
use sql_types::{CallFault, FaultKind, Items, Value, Values};
use std::alloc::{AllocError, Global};

/// The answer for these lists, in their order.
pub(crate) fn answer(alloc: Global, call: &AggCall, lists: Vec<Values>) -> Result<Value, CallFault>
    requires { AllAddable call.now lists.items }
    ensures { Answers (just (rows.answer call.now.name (length call.now.order) lists.items)) result }
{
    match call.name {
        AggName::Count => answered(count(lists.len())),
        AggName::CountIf => answered(count(trues(firsts(alloc, lists)?.as_slice()))),
        AggName::Sum => answered(sum(firsts(alloc, lists)?.as_slice())),
        AggName::Min => Ok(least_of(alloc, firsts(alloc, lists)?.as_slice())?),
        AggName::Max => Ok(greatest_of(alloc, firsts(alloc, lists)?.as_slice())?),
        AggName::LogicalAnd => Ok(all_true(firsts(alloc, lists)?.as_slice())),
        AggName::LogicalOr => Ok(some_true(firsts(alloc, lists)?.as_slice())),
        AggName::StringAgg => Ok(joined_lists(alloc, call, lists)?),
        AggName::ArrayAgg => Ok(array_of(firsts(alloc, lists)?)),
        AggName::AnyValue => Ok(first_of(alloc, firsts(alloc, lists)?.as_slice())?),
    }
}

fn answered(outcome: Result<Value, FaultKind>) -> Result<Value, CallFault>
    ensures { Answers (just outcome) result }
{
    match outcome {
        Ok(value) => Ok(value),
        Err(fault) => Err(CallFault::Fault(fault)),
    }
}

/// STRING_AGG: the first arguments, with the separator of the first list between.
fn joined_lists(alloc: Global, call: &AggCall, lists: Vec<Values>) -> Result<Value, AllocError>
    requires name { call.now.name ≡ AggName.StringAgg }
    requires addable { AllAddable call.now lists.items }
    ensures { IfOk result (λ v. v ≡ rows.joined_lists (length call.now.order) lists.items) }
{
    let [list, ..] = lists.as_slice() else {
        return Ok(Value::Null);
    };
    let separator = separator(alloc, arguments(call.order.len(), list.as_slice()))?;
    let texts = firsts(alloc, lists)?;
    joined(alloc, &separator, texts.as_slice())
}

/// The arguments of a list, which stand before so many sort values.
fn arguments(sorts: usize, list: &[Value]) -> &[Value]
    ensures { result.now ≡ rows.arguments sorts list.now }
{
    &list[..list.len().saturating_sub(sorts)]
}

fn array_of(values: Vec<Value>) -> Value
    ensures { result ≡ rows.array_of values.items }
{
    if values.is_empty() {
        return Value::Null;
    }
    Value::Array(Items::from_vec(values))
}
