//! WITH lists, and references to their queries.
ghost use Rattle.std.specs.Prelude.{◌≡◌, false, [], ◌∷◌, ◌++◌, map, option_map, option_copied, Some, OnOk, IfOk};
ghost use Rattle.resolved_ast.specs.Flaws as flaws;
ghost use Rattle.tree_check.specs.Orders.{order_of};
ghost use Rattle.tree_check.specs.Sights.{cte_of, ctes_of, sight_of};
ghost use Rattle.tree_check.specs.TypesNamed.{types_found};
ghost use Rattle.tree_check.specs.WithWalks.{cte_part};
ghost use Rattle.tree_check.specs.Walked.{Walked};

use crate::asked::Asked;
use crate::finding::{all_columns, find_in};
use crate::numbers::Numbers;
use crate::order::Order;
use crate::part::{Part, Rows};
use crate::progress::{Made, Progress};
use crate::refusal::CheckRefusal;
use crate::sight::{CteInSight, InSight};
use crate::types::typed_as;
use resolved_ast::{Cte, MadeColumn, MadeColumns};
use sql_types::{Items, SqlType};
use std::alloc::{AllocError, Global};

/// A With node: each query sees those before it, and the scan sees them all.
pub fn above_ctes<S: Part + Rows, P: Part + Rows>(
    alloc: Global,
    order: Order,
    ctes: &Items<Cte<S>>,
    scan: &P,
    sight: &InSight,
    progress: &mut Progress,
) -> Result<(), CheckRefusal>
    ensures { Walked (flaws.at_node (order_of order) [] (flaws.with_walks [] (map (cte_part S.scan_of S.walk) ctes.now) (P.scan_of scan.now, P.walk scan.now) (sight_of sight.now)) progress.old) progress.new result }
{
    progress.pass(order, Made::Listed(&[]))?;
    check_ctes(alloc, ctes.as_slice(), scan, sight, progress)
}

fn check_ctes<'a, S: Part + Rows, P: Part + Rows>(
    alloc: Global,
    ctes: &'a [Cte<S>],
    scan: &P,
    sight: &InSight<'a>,
    progress: &mut Progress,
) -> Result<(), CheckRefusal>
    ensures { Walked (flaws.walk_all (flaws.with_walks [] (map (cte_part S.scan_of S.walk) ctes.now) (P.scan_of scan.now, P.walk scan.now) (sight_of sight.now)) progress.old) progress.new result }
{
    let mut seen = Vec::from_slice(alloc, sight.ctes)?;
    let mut earlier = Numbers::new(alloc);
    for cte in ctes {
        check_cte(
            alloc,
            cte,
            &mut earlier,
            &seeing(&*sight, seen.as_slice()),
            progress,
        )?;
        add_cte(&mut seen, in_sight(cte))?;
    }
    scan.check(alloc, &seeing(&*sight, seen.as_slice()), progress)
}

/// The same with other queries in sight.
fn seeing<'a>(sight: &InSight<'a>, ctes: &'a [CteInSight<'a>]) -> InSight<'a>
    ensures { sight_of result ≡ record (sight_of sight.now) { ctes = ctes_of ctes.now } }
{
    InSight {
        inner: sight.inner,
        outer: sight.outer,
        ctes,
    }
}

fn in_sight<S: Part + Rows>(cte: &Cte<S>) -> CteInSight<'_>
    ensures { cte_of result ≡ flaws.cte_seen (cte_part S.scan_of S.walk cte.now) }
{
    CteInSight {
        number: cte.number,
        columns: cte.columns.as_slice(),
        scan: cte.scan.rows(),
    }
}

fn add_cte<'a>(seen: &mut Vec<CteInSight<'a>>, cte: CteInSight<'a>) -> Result<(), AllocError>
    ensures { OnOk result (ctes_of seen.new.items ≡ cte_of cte.entry ∷ ctes_of seen.old.items) }
{
    seen.push(cte)?;
    Ok(())
}

/// A Cte node: its number is new in its list, and its columns are among those of its scan.
fn check_cte<S: Part + Rows>(
    alloc: Global,
    cte: &Cte<S>,
    earlier: &mut Numbers,
    sight: &InSight,
    progress: &mut Progress,
) -> Result<(), CheckRefusal>
    ensures walked { Walked (flaws.cte_walk earlier.old (cte_part S.scan_of S.walk cte.now) (sight_of sight.now) progress.old) progress.new result }
    ensures earlier { OnOk result (earlier.new ≡ cte.now.number ∷ earlier.old) }
{
    let ids = earlier.add(cte.number)?;
    let seen = all_columns(cte.columns.as_slice(), &cte.scan.rows());
    let order = Order {
        ids,
        seen,
        outers: true,
        typed: true,
        shaped: true,
    };
    progress.pass(order, Made::Listed(&[]))?;
    cte.scan.check(alloc, sight, progress)
}

/// A reference to a query of a WITH list: the query is in sight, and the columns have the types of its columns, one for each.
pub fn check_reference(
    alloc: Global,
    number: u64,
    columns: &MadeColumns,
    sight: &InSight,
    progress: &mut Progress,
) -> Result<(), CheckRefusal>
    ensures { Walked (flaws.at_node (flaws.reference (flaws.types_of columns.now) (flaws.cte_types number (sight_of sight.now).ctes)) columns.now [] progress.old) progress.new result }
{
    let order = reference_order(alloc, number, columns, sight)?;
    progress.pass(order, Made::Listed(columns.as_slice()))
}

fn reference_order(
    alloc: Global,
    number: u64,
    columns: &MadeColumns,
    sight: &InSight,
) -> Result<Order, AllocError>
    ensures { IfOk result (λ order. order_of order ≡ flaws.reference (flaws.types_of columns.now) (flaws.cte_types number (sight_of sight.now).ctes)) }
{
    match cte_numbered(number, sight.ctes) {
        None => Ok(missing()),
        Some(cte) => {
            let types = cte_types(alloc, cte)?;
            Ok(agreeing(columns, types.as_slice()))
        }
    }
}

fn missing() -> Order
    ensures { order_of result ≡ record flaws.in_order { seen = false } }
{
    crate::order::by_sight(false)
}

fn agreeing(columns: &MadeColumns, given: &[&SqlType]) -> Order
    ensures { order_of result ≡ flaws.reference (flaws.types_of columns.now) (Some (map (λ ty. ty.now) given.now)) }
{
    Order {
        ids: true,
        seen: true,
        outers: true,
        typed: typed_as(given, columns.as_slice()),
        shaped: given.len() == columns.len(),
    }
}

/// The newest query of a number.
fn cte_numbered<'a, 'b>(number: u64, ctes: &'b [CteInSight<'a>]) -> Option<&'b CteInSight<'a>>
    ensures { option_map (λ cte. (cte_of cte).types) (option_copied result) ≡ flaws.cte_types number (ctes_of ctes.now) }
{
    let mut left = ctes.len();
    while left > 0 {
        left -= 1;
        let cte = &ctes[left];
        if cte.number == number {
            return Some(cte);
        }
    }
    None
}

/// The types of a query's columns.
fn cte_types<'a>(alloc: Global, cte: &CteInSight<'a>) -> Result<Vec<&'a SqlType>, AllocError>
    ensures { IfOk result (λ types. map (λ ty. ty.now) types.items ≡ (cte_of cte.now).types) }
{
    let mut types = Vec::new(alloc);
    for column in cte.columns {
        add_type(&mut types, find_in(column, &Asked::Anything, &cte.scan))?;
    }
    Ok(types)
}

fn add_type<'a>(
    types: &mut Vec<&'a SqlType>,
    found: Option<&'a MadeColumn>,
) -> Result<(), AllocError>
    ensures { OnOk result (map (λ ty. ty.now) types.new.items ≡ map (λ ty. ty.now) types.old.items ++ types_found (option_copied found.entry)) }
{
    match found {
        None => Ok(()),
        Some(made) => {
            types.push(&made.ty)?;
            Ok(())
        }
    }
}
