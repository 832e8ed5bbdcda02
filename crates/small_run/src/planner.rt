//! Planning a query over one table.
ghost use Rattle.std.specs.Prelude.{◌≡◌, ℕ, IfOk, Err};
ghost use Rattle.sql_rules.specs.Typing.{TypeQuery, nothing_in_sight};
ghost use Rattle.small_run.specs.Plans.{one, Plans};

use crate::form::{NoPlan, Plan};
use crate::selects::select_plan;
use crate::views::{is_plain_query, select_in};
use sql_ast::Query;
use sql_catalog::TableDef;
use std::alloc::Global;

/// The plan of a query over a table. Fails with [`NoPlan::OtherForm`] where the query isn't typed in a catalog with this
/// table alone: it is of another form than `SELECT names FROM table WHERE name = literal`, or it breaks a rule; and with
/// [`NoPlan::OutOfMemory`] where memory ran out.
pub fn plan(alloc: Global, table: &TableDef, query: &Query) -> Result<Plan, NoPlan>
    ensures planned { IfOk result (λ p. Plans table.now query.now p) }
    ensures other { result ≡ Err NoPlan.OtherForm
        → (broken : ℕ × ℕ) × (TypeQuery (one table.now) query.now nothing_in_sight ≡ Err broken) }
{
    if !is_plain_query(query) {
        return Err(NoPlan::OtherForm);
    }
    match select_in(&query.body.first) {
        Some(select) => select_plan(alloc, table, select),
        None => Err(NoPlan::OtherForm),
    }
}
