//! FROM.
ghost use Rattle.std.specs.Prelude.{MatchBool};
ghost use Rattle.sql_rules.specs.Typing.{TypeFrom, TypePrimary, nothing_in_sight};
ghost use Rattle.small_run.specs.Plans.{one};
ghost use Rattle.small_run.specs.Parts.{Refused, IsTable, IsPrimary};

use crate::views::table_name;
use sql_ast::{FromItem, Primary, same_name};
use sql_catalog::TableDef;

/// Whether what follows FROM is this table, without an alias.
pub fn is_table(table: &TableDef, from: &FromItem) -> bool
    ensures { MatchBool result (IsTable table.now from.now)
        (Refused (TypeFrom (one table.now) from.now nothing_in_sight)) }
{
    from.rest.is_empty() && is_named_table(table, &from.first)
}

/// Whether an item of FROM is this table.
fn is_named_table(table: &TableDef, primary: &Primary) -> bool
    ensures { MatchBool result (IsPrimary table.now primary.now)
        (Refused (TypePrimary (one table.now) primary.now nothing_in_sight)) }
{
    match table_name(primary) {
        Some(name) => same_name(&table.name, &name.text),
        None => false,
    }
}
