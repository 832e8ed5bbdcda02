//! Nodes over their parts.
ghost use Rattle.std.specs.Prelude.{◌≡◌, [], ◌∷◌, ◌++◌, OnOk};
ghost use Rattle.resolved_ast.specs.Columns.{columns};
ghost use Rattle.resolved_ast.specs.Flaws as flaws;
ghost use Rattle.resolved_ast.specs.Parts.{there};
ghost use Rattle.tree_check.specs.LetWalks.{let_of};
ghost use Rattle.tree_check.specs.Orders.{order_of};
ghost use Rattle.tree_check.specs.Sights.{columns_of, sight_of};
ghost use Rattle.tree_check.specs.Walked.{Walked};

use crate::order::Order;
use crate::part::{Part, Rows, check_below, check_over};
use crate::progress::{Made, Progress};
use crate::refusal::CheckRefusal;
use crate::sight::{InSight, Source};
use crate::types::Typed;
use resolved_ast::{Compute, MadeColumn};
use sql_types::Items;
use std::alloc::{AllocError, Global};

/// A node with no part below it.
pub fn leaf(order: Order, progress: &mut Progress) -> Result<(), CheckRefusal>
    ensures { Walked (flaws.at_node (order_of order) [] [] progress.old) progress.new result }
{
    progress.pass(order, Made::Listed(&[]))
}

/// A node over one part.
pub fn above<P: Part>(
    alloc: Global,
    order: Order,
    part: &P,
    sight: &InSight,
    progress: &mut Progress,
) -> Result<(), CheckRefusal>
    ensures { Walked (flaws.at_node (order_of order) [] (P.walk part.now (sight_of sight.now) ∷ []) progress.old) progress.new result }
{
    progress.pass(order, Made::Listed(&[]))?;
    part.check(alloc, sight, progress)
}

/// A node over two parts.
pub fn above_both<P: Part, Q: Part>(
    alloc: Global,
    order: Order,
    first: &P,
    second: &Q,
    sight: &InSight,
    progress: &mut Progress,
) -> Result<(), CheckRefusal>
    ensures { Walked (flaws.at_node (order_of order) [] (P.walk first.now (sight_of sight.now) ∷ Q.walk second.now (sight_of sight.now) ∷ []) progress.old) progress.new result }
{
    progress.pass(order, Made::Listed(&[]))?;
    first.check(alloc, sight, progress)?;
    second.check(alloc, sight, progress)
}

/// A node over a subquery.
pub fn above_query<P: Part>(
    alloc: Global,
    order: Order,
    query: &P,
    sight: &InSight,
    progress: &mut Progress,
) -> Result<(), CheckRefusal>
    ensures { Walked (flaws.at_node (order_of order) [] (P.walk query.now (flaws.below (sight_of sight.now)) ∷ []) progress.old) progress.new result }
{
    progress.pass(order, Made::Listed(&[]))?;
    check_below(alloc, query, sight, progress)
}

/// A node over a search value and a subquery.
pub fn above_search<P: Part, Q: Part>(
    alloc: Global,
    order: Order,
    search: &P,
    query: &Q,
    sight: &InSight,
    progress: &mut Progress,
) -> Result<(), CheckRefusal>
    ensures { Walked (flaws.at_node (order_of order) [] (P.walk search.now (sight_of sight.now) ∷ Q.walk query.now (flaws.below (sight_of sight.now)) ∷ []) progress.old) progress.new result }
{
    progress.pass(order, Made::Listed(&[]))?;
    search.check(alloc, sight, progress)?;
    check_below(alloc, query, sight, progress)
}

/// A node over a scan, and a part that sees its columns.
pub fn above_rows<S: Part + Rows, P: Part>(
    alloc: Global,
    order: Order,
    scan: &S,
    part: &P,
    sight: &InSight,
    progress: &mut Progress,
) -> Result<(), CheckRefusal>
    ensures { Walked (flaws.at_node (order_of order) [] (S.walk scan.now (sight_of sight.now) ∷ P.walk part.now (flaws.over (sight_of sight.now) (columns (S.scan_of scan.now) ++ [])) ∷ []) progress.old) progress.new result }
{
    progress.pass(order, Made::Listed(&[]))?;
    scan.check(alloc, sight, progress)?;
    let sources = [scan.rows()];
    check_over(alloc, part, &sources, sight, progress)
}

/// A node over two scans, and a part that sees the columns of both.
pub fn above_pairs<S: Part + Rows, P: Part>(
    alloc: Global,
    order: Order,
    left: &S,
    right: &S,
    part: &P,
    sight: &InSight,
    progress: &mut Progress,
) -> Result<(), CheckRefusal>
    ensures { Walked (flaws.at_node (order_of order) [] (S.walk left.now (sight_of sight.now) ∷ S.walk right.now (sight_of sight.now) ∷ P.walk part.now (flaws.over (sight_of sight.now) (columns (S.scan_of left.now) ++ (columns (S.scan_of right.now) ++ []))) ∷ []) progress.old) progress.new result }
{
    progress.pass(order, Made::Listed(&[]))?;
    left.check(alloc, sight, progress)?;
    right.check(alloc, sight, progress)?;
    let sources = [left.rows(), right.rows()];
    check_over(alloc, part, &sources, sight, progress)
}

/// A node that makes the elements of an array that sees the columns of a scan, and a part that sees these elements too.
pub fn above_elements<S: Part + Rows, P: Part, Q: Part>(
    alloc: Global,
    order: Order,
    element: &MadeColumn,
    offset: &Option<MadeColumn>,
    scan: &S,
    array: &P,
    part: &Q,
    sight: &InSight,
    progress: &mut Progress,
) -> Result<(), CheckRefusal>
    ensures { Walked (flaws.at_node (order_of order) (element.now ∷ there offset.now) (S.walk scan.now (sight_of sight.now) ∷ P.walk array.now (flaws.over (sight_of sight.now) (columns (S.scan_of scan.now) ++ [])) ∷ Q.walk part.now (flaws.over (sight_of sight.now) (columns (S.scan_of scan.now) ++ (element.now ∷ (there offset.now ++ [])))) ∷ []) progress.old) progress.new result }
{
    progress.pass(order, Made::Element(element, offset))?;
    scan.check(alloc, sight, progress)?;
    let rows = scan.rows();
    check_over(alloc, array, &[rows], sight, progress)?;
    let sources = [rows, Source::Column(element), Source::Optional(offset)];
    check_over(alloc, part, &sources, sight, progress)
}

/// A node over columns that see those before them, and an expression that sees them all.
pub fn above_bindings<R: Part + Typed, P: Part>(
    alloc: Global,
    order: Order,
    bindings: &Items<Compute<R>>,
    expr: &P,
    sight: &InSight,
    progress: &mut Progress,
) -> Result<(), CheckRefusal>
    ensures { Walked (flaws.at_node (order_of order) [] (let_of R.type_of R.walk P.walk bindings.now expr.now (sight_of sight.now)) progress.old) progress.new result }
{
    progress.pass(order, Made::Listed(&[]))?;
    check_bindings(alloc, bindings.as_slice(), expr, sight, progress)
}

fn check_bindings<R: Part + Typed, P: Part>(
    alloc: Global,
    bindings: &[Compute<R>],
    expr: &P,
    sight: &InSight,
    progress: &mut Progress,
) -> Result<(), CheckRefusal>
    ensures { Walked (flaws.walk_all (let_of R.type_of R.walk P.walk bindings.now expr.now (sight_of sight.now)) progress.old) progress.new result }
{
    let mut columns = Vec::from_slice(alloc, sight.inner)?;
    for binding in bindings {
        check_over(alloc, binding, columns.as_slice(), sight, progress)?;
        add_column(&mut columns, &binding.column)?;
    }
    check_over(alloc, expr, columns.as_slice(), sight, progress)
}

fn add_column<'a>(columns: &mut Vec<Source<'a>>, column: &'a MadeColumn) -> Result<(), AllocError>
    ensures { OnOk result (columns_of columns.new.items ≡ columns_of columns.old.items ++ column.now ∷ []) }
{
    columns.push(Source::Column(column))?;
    Ok(())
}
