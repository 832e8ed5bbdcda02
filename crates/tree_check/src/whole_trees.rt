//! The check of whole trees.
ghost use Rattle.tree_check.specs.Answered.{Checks, Passes};

use crate::finding::all_outputs;
use crate::nodes::above;
use crate::order::by_sight;
use crate::progress::Progress;
use crate::refusal::CheckRefusal;
use crate::sight::InSight;
use resolved_ast::{Checked, Tree};
use std::alloc::Global;

/// Checks a tree: it is valid, or it is refused by its first flaw. It takes time linear in the tree, apart from looking columns up
/// and from the columns that subqueries take from outside, which are gathered anew at each subquery.
pub fn check(alloc: Global, tree: Tree) -> Result<Checked, CheckRefusal>
    ensures { Checks tree result }
{
    check_tree(alloc, &tree)?;
    Ok(Checked::seal(tree))
}

fn check_tree(alloc: Global, tree: &Tree) -> Result<(), CheckRefusal>
    ensures { Passes tree.now result }
{
    let mut progress = Progress::start(alloc);
    let sight = InSight {
        inner: &[],
        outer: &[],
        ctes: &[],
    };
    let order = by_sight(all_outputs(&tree.outputs, &tree.scan));
    above(alloc, order, &tree.scan, &sight, &mut progress)
}
