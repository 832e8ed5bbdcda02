//! Calls of aggregates.
ghost use Rattle.std.specs.Prelude.{◌≡◌, IfOk};
ghost use Rattle.sql_aggregates.specs.Lists.{skips};

use sql_types::{Items, SortItems};
use std::alloc::{AllocError, Global};

/// The aggregates.
#[derive(Clone, Copy, Debug, PartialEq, Eq)]
pub enum AggName {
    /// The rows, or the values that aren't NULL.
    Count,
    /// The values that are TRUE.
    CountIf,
    Sum,
    Min,
    Max,
    LogicalAnd,
    LogicalOr,
    StringAgg,
    ArrayAgg,
    AnyValue,
}

/// A call of an aggregate, but for its arguments, which are added later. The sort items name places in the list that is
/// added, behind the arguments.
#[derive(Drop)]
pub struct AggCall {
    pub name: AggName,
    pub distinct: bool,
    pub ignore_nulls: bool,
    pub order: SortItems,
    /// How many elements are kept, where LIMIT is written.
    pub limit: Option<u64>,
}

/// A call equal to this one.
pub(crate) fn copy_call(alloc: Global, call: &AggCall) -> Result<AggCall, AllocError>
    ensures { IfOk result (λ copy. copy ≡ call.now) }
{
    Ok(AggCall {
        name: call.name,
        distinct: call.distinct,
        ignore_nulls: call.ignore_nulls,
        order: Items::from_slice(alloc, call.order.as_slice())?,
        limit: call.limit,
    })
}

/// Whether the aggregate leaves out a list whose first argument is NULL.
pub(crate) fn skips_nulls(call: &AggCall) -> bool
    ensures { result ≡ skips call.now.name call.now.ignore_nulls }
{
    match call.name {
        AggName::ArrayAgg => call.ignore_nulls,
        AggName::AnyValue => false,
        _ => true,
    }
}
