//! SELECT.
ghost use Rattle.small_run.specs.Parts.{MakesSelect, MakesParts};

use crate::conditions::condition;
use crate::form::{NoPlan, Plan};
use crate::from::is_table;
use crate::picks::select_list;
use crate::views::is_plain_select;
use sql_ast::{Expr, FromItem, Item, Select};
use sql_catalog::TableDef;
use std::alloc::Global;

/// The plan of a SELECT of FROM, WHERE and a select list alone.
pub fn select_plan(alloc: Global, table: &TableDef, select: &Select) -> Result<Plan, NoPlan>
    ensures { MakesSelect table.now select.now result }
{
    if !is_plain_select(select) {
        return Err(NoPlan::OtherForm);
    }
    let Some(from) = &select.from else {
        return Err(NoPlan::OtherForm);
    };
    let Some(filter) = &select.filter else {
        return Err(NoPlan::OtherForm);
    };
    parts_plan(
        alloc,
        table,
        from.get(),
        filter.get(),
        select.items.as_slice(),
    )
}

/// The plan of FROM, WHERE and a select list.
fn parts_plan(
    alloc: Global,
    table: &TableDef,
    from: &FromItem,
    filter: &Expr,
    items: &[Item<Expr>],
) -> Result<Plan, NoPlan>
    ensures { MakesParts table.now from.now filter.now items.now result }
{
    if !is_table(table, from) {
        return Err(NoPlan::OtherForm);
    }
    let test = condition(alloc, table, filter)?;
    let selected = select_list(alloc, table, items)?;
    Ok(Plan {
        columns: selected.columns,
        slots: selected.slots,
        test: test.place,
        literal: test.literal,
    })
}
