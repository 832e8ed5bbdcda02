//! The select list.
ghost use Rattle.std.specs.Prelude.{◌≡◌};
ghost use Rattle.sql_rules.specs.Typing.{item_layer, items_layer, typed};
ghost use Rattle.small_run.specs.Plans.{one};
ghost use Rattle.small_run.specs.Parts.{Made, Refused, Picks, Selects, sight_of};

use crate::columns::column_named;
use crate::form::NoPlan;
use crate::parts::{Picked, Selected};
use crate::views::{name_of, plain_expr};
use lists::ListType;
use sql_ast::{Expr, Item};
use sql_catalog::TableDef;
use sql_types::{Items, Named, copy_type};
use std::alloc::Global;

/// The column and the place of a select item that names a column of the table. The column has the name as written.
fn pick(alloc: Global, table: &TableDef, item: &Item<Expr>) -> Result<Picked, NoPlan>
    ensures { Made (Picks table.now item.now)
        (Refused (item_layer (one table.now) (typed (one table.now)) item.now (sight_of table.now))) result }
{
    let Some(expr) = plain_expr(item) else {
        return Err(NoPlan::OtherForm);
    };
    let Some(name) = name_of(expr) else {
        return Err(NoPlan::OtherForm);
    };
    let Some(slot) = column_named(table, name) else {
        return Err(NoPlan::OtherForm);
    };
    let column = Named {
        name: Some(name.copy(alloc)?),
        ty: copy_type(alloc, &table.columns.at(slot).ty)?,
    };
    Ok(Picked { column, slot })
}

/// The columns and the places of the select list.
pub fn select_list(
    alloc: Global,
    table: &TableDef,
    items: &[Item<Expr>],
) -> Result<Selected, NoPlan>
    ensures { Made (Selects table.now items.now)
        (Refused (items_layer (one table.now) (typed (one table.now)) items.now (sight_of table.now))) result }
{
    let mut columns = Items::new(alloc);
    let mut slots = Items::new(alloc);
    for item in items {
        let picked = pick(alloc, table, item)?;
        columns.push(picked.column)?;
        slots.push(picked.slot)?;
    }
    Ok(Selected { columns, slots })
}
