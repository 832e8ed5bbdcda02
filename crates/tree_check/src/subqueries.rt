//! What is in order at the node of a subquery.
ghost use Rattle.std.specs.Prelude.{◌≡◌, ◌&&◌, ◌++◌, true, IfOk};
ghost use Rattle.sql_types.specs.Comparable.{comparable};
ghost use Rattle.sql_types.specs.SameType.{same_type};
ghost use Rattle.sql_types.specs.declared.sql_type.SqlType.TheVariants as types;
ghost use Rattle.resolved_ast.specs.Columns.{columns, element_of, free};
ghost use Rattle.resolved_ast.specs.Flaws as flaws;
ghost use Rattle.tree_check.specs.Orders.{order_of};
ghost use Rattle.tree_check.specs.Sights.{sight_of};
ghost use Rattle.tree_check.specs.Tests.{passes};

use crate::asked::Asked;
use crate::finding::{all_seen, if_seen, is_column};
use crate::order::Order;
use crate::outers::are_free;
use crate::sight::{InSight, all_sources};
use crate::types::Typed;
use resolved_ast::{ColumnRef, ColumnRefs, Scan};
use sql_types::{Boxed, SqlType, same_type};
use std::alloc::{AllocError, Global};

/// The list of a subquery is that of its free columns, and each is in sight.
pub fn subquery(
    alloc: Global,
    order: Order,
    outer: &ColumnRefs,
    scan: &Boxed<Scan>,
    sight: &InSight,
) -> Result<Order, AllocError>
    ensures { IfOk result (λ made. order_of made ≡ flaws.subquery outer.now scan.now (sight_of sight.now) (order_of order)) }
{
    let sources = all_sources(alloc, sight)?;
    let seen = all_seen(outer.as_slice(), sources.as_slice());
    let outers = are_free(alloc, outer.as_slice(), scan.get())?;
    Ok(Order {
        ids: order.ids,
        seen: order.seen && seen,
        outers,
        typed: order.typed,
        shaped: order.shaped,
    })
}

/// The column that a Scalar takes has its type.
pub fn takes_same(ty: &SqlType, column: &ColumnRef, scan: &Boxed<Scan>) -> Order
    ensures { order_of result ≡ flaws.takes column.now scan.now (same_type ty.now) flaws.any_type }
{
    takes(column, &Asked::Same(ty), &Asked::Anything, scan)
}

/// The node of ARRAY(..) is an array of the type of the column that it takes.
pub fn takes_element(ty: &SqlType, column: &ColumnRef, scan: &Boxed<Scan>) -> Order
    ensures { order_of result ≡ flaws.takes column.now scan.now (λ taken. flaws.is_type taken (element_of ty.now)) flaws.any_type }
{
    takes(column, &Asked::ElementOf(ty), &Asked::Anything, scan)
}

/// The column has the type of the search value, which can be compared.
pub fn takes_sought<P: Typed>(
    ty: &SqlType,
    column: &ColumnRef,
    search: &P,
    scan: &Boxed<Scan>,
) -> Order
    ensures { order_of result ≡ flaws.takes column.now scan.now (λ taken. same_type ty.now types.Bool && same_type taken (P.type_of search.now)) comparable }
{
    let truth = SqlType::Bool;
    let sought = Asked::SameWhere(same_type(ty, &truth), search.ty(&truth));
    takes(column, &sought, &Asked::Comparable, scan)
}

fn takes(column: &ColumnRef, typed: &Asked, shaped: &Asked, scan: &Boxed<Scan>) -> Order
    ensures { order_of result ≡ flaws.takes column.now scan.now (passes typed.now) (passes shaped.now) }
{
    let inner = scan.get();
    Order {
        ids: true,
        seen: is_column(column, inner),
        outers: true,
        typed: if_seen(column, typed, inner),
        shaped: if_seen(column, shaped, inner),
    }
}
