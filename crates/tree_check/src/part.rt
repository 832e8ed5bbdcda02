//! What is checked below a node, and lists of it.
ghost use Rattle.std.specs.Prelude.{◌≡◌, [], ◌∷◌, map};
ghost use Rattle.sql_types.specs.SameType.{same_type};
ghost use Rattle.resolved_ast.specs.Columns.{columns};
ghost use Rattle.resolved_ast.specs.Flaws as flaws;
ghost use Rattle.resolved_ast.specs.Parts.{there};
ghost use Rattle.tree_check.specs.Sights.{columns_of, sight_of, source_columns};
ghost use Rattle.tree_check.specs.Walked.{Walked};

use crate::order::by_type;
use crate::progress::{Made, Progress};
use crate::refusal::CheckRefusal;
use crate::sight::{InSight, Source, all_sources, below, over};
use crate::types::Typed;
use resolved_ast::{Compute, Scan};
use sql_types::{Boxed, Items, SqlType, same_type};
use std::alloc::Global;

/// A part of a tree.
pub trait Part {
    ghost use Rattle.resolved_ast.specs.Flaws.{Sight, Walk};

    // The walk that finds its first flaw.
    ghost walk: { Self → Sight → Walk };

    /// Goes past the part, or refuses it by its first flaw.
    fn check(
        &self,
        alloc: Global,
        sight: &InSight,
        progress: &mut Progress,
    ) -> Result<(), CheckRefusal>
        ensures { Walked (walk self.now (sight_of sight.now) progress.old) progress.new result };
}

/// What is a scan.
pub trait Rows {
    ghost use Rattle.resolved_ast.specs.declared.scan.Scan.{Scan};

    // The scan.
    ghost scan_of: { Self → Scan };

    /// Its columns.
    fn rows(&self) -> Source<'_>
        ensures { source_columns result ≡ columns (scan_of self.now) };
}

impl Rows for Scan {
    ghost scan_of = { λ scan. scan };

    fn rows(&self) -> Source<'_> {
        Source::Rows(self)
    }
}

impl<S: Rows> Rows for Boxed<S> {
    ghost scan_of = { λ scan. S.scan_of scan };

    fn rows(&self) -> Source<'_> {
        self.get().rows()
    }
}

impl<P: Part> Part for Boxed<P> {
    ghost walk = { λ part. P.walk part };

    fn check(
        &self,
        alloc: Global,
        sight: &InSight,
        progress: &mut Progress,
    ) -> Result<(), CheckRefusal> {
        self.get().check(alloc, sight, progress)
    }
}

impl<P: Part> Part for Option<P> {
    ghost walk = { λ part sight. flaws.walk_all (map (λ p. P.walk p sight) (there part)) };

    fn check(
        &self,
        alloc: Global,
        sight: &InSight,
        progress: &mut Progress,
    ) -> Result<(), CheckRefusal> {
        match self {
            None => Ok(()),
            Some(part) => part.check(alloc, sight, progress),
        }
    }
}

/// One part after another.
impl<P: Part> Part for Items<P> {
    ghost walk = { λ parts sight. flaws.walk_all (map (λ p. P.walk p sight) parts) };

    fn check(
        &self,
        alloc: Global,
        sight: &InSight,
        progress: &mut Progress,
    ) -> Result<(), CheckRefusal> {
        check_all(alloc, self.as_slice(), sight, progress)
    }
}

fn check_all<P: Part>(
    alloc: Global,
    parts: &[P],
    sight: &InSight,
    progress: &mut Progress,
) -> Result<(), CheckRefusal>
    ensures { Walked (flaws.walk_all (map (λ p. P.walk p (sight_of sight.now)) parts.now) progress.old) progress.new result }
{
    for part in parts {
        part.check(alloc, sight, progress)?;
    }
    Ok(())
}

/// A Compute node makes its column, whose type is that of its expression.
impl<R: Part + Typed> Part for Compute<R> {
    ghost walk = { λ c sight. flaws.at_node (record flaws.in_order { typed = same_type c.column.ty (R.type_of c.expr) }) (c.column ∷ []) (R.walk c.expr sight ∷ []) };

    fn check(
        &self,
        alloc: Global,
        sight: &InSight,
        progress: &mut Progress,
    ) -> Result<(), CheckRefusal> {
        let truth = SqlType::Bool;
        let typed = same_type(&self.column.ty, self.expr.ty(&truth));
        let none = None;
        progress.pass(by_type(typed), Made::Element(&self.column, &none))?;
        self.expr.check(alloc, sight, progress)
    }
}

/// Checks a part inside of a scan.
pub fn check_over<P: Part>(
    alloc: Global,
    part: &P,
    columns: &[Source],
    sight: &InSight,
    progress: &mut Progress,
) -> Result<(), CheckRefusal>
    ensures { Walked (P.walk part.now (flaws.over (sight_of sight.now) (columns_of columns.now)) progress.old) progress.new result }
{
    let inside = over(sight, columns);
    part.check(alloc, &inside, progress)
}

/// Checks a subquery.
pub fn check_below<P: Part>(
    alloc: Global,
    part: &P,
    sight: &InSight,
    progress: &mut Progress,
) -> Result<(), CheckRefusal>
    ensures { Walked (P.walk part.now (flaws.below (sight_of sight.now)) progress.old) progress.new result }
{
    let outside = all_sources(alloc, sight)?;
    let inside = below(sight, outside.as_slice());
    part.check(alloc, &inside, progress)
}
