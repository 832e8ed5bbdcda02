//! The types of what aggregates answer.
ghost use Rattle.std.specs.Prelude.{◌≡◌, IfOk};
ghost use Rattle.sql_aggregates.specs.AnswerTypes as specs;

use crate::call::AggName;
use sql_types::{Boxed, SqlType, copy_type};
use std::alloc::{AllocError, Global};

/// The type of what an aggregate answers over arguments of these types, which it takes: INT64 for the counts, the type of
/// the values for a total and for one of them, BOOL for the truth values, STRING for texts that are joined, and an ARRAY of
/// the values' type.
pub fn answer_type(alloc: Global, name: AggName, types: &[SqlType]) -> Result<SqlType, AllocError>
    ensures { IfOk result (λ t. t ≡ specs.answer_type name types.now) }
{
    match name {
        AggName::Count | AggName::CountIf => Ok(SqlType::Int64),
        AggName::Sum | AggName::Min | AggName::Max | AggName::AnyValue => first_type(alloc, types),
        AggName::LogicalAnd | AggName::LogicalOr => Ok(SqlType::Bool),
        AggName::StringAgg => Ok(SqlType::Text),
        AggName::ArrayAgg => Ok(SqlType::Array(Boxed::new(alloc, first_type(alloc, types)?)?)),
    }
}

/// The type of the first argument.
fn first_type(alloc: Global, types: &[SqlType]) -> Result<SqlType, AllocError>
    ensures { IfOk result (λ t. t ≡ specs.first_type types.now) }
{
    match types {
        [first, ..] => copy_type(alloc, first),
        [] => Ok(SqlType::Int64),
    }
}
