//! What is in sight at a node.
ghost use Rattle.std.specs.Prelude.{◌≡◌, [], ◌++◌, IfOk};
ghost use Rattle.resolved_ast.specs.Flaws as flaws;
ghost use Rattle.tree_check.specs.Sights.{columns_of, sight_of};

use resolved_ast::{ColumnRef, MadeColumn, Scan};
use std::alloc::{AllocError, Global};

/// Columns: those of a scan, or a single one, which may be missing.
#[derive(Clone, Copy)]
pub enum Source<'a> {
    Rows(&'a Scan),
    Column(&'a MadeColumn),
    Optional(&'a Option<MadeColumn>),
}

/// A query of a WITH list, with the columns that it gives.
#[derive(Clone, Copy)]
pub struct CteInSight<'a> {
    pub number: u64,
    pub columns: &'a [ColumnRef],
    pub scan: Source<'a>,
}

/// The columns of the query in which a node stands, those of the queries outside of it, and the queries of WITH lists, the
/// newest last. A column is looked up in time linear in the scans in sight, down to the nodes that make their columns.
#[derive(Clone, Copy)]
pub struct InSight<'a> {
    pub inner: &'a [Source<'a>],
    pub outer: &'a [Source<'a>],
    pub ctes: &'a [CteInSight<'a>],
}

/// What stands inside of a scan sees its columns.
pub fn over<'a>(sight: &InSight<'a>, columns: &'a [Source<'a>]) -> InSight<'a>
    ensures { sight_of result ≡ flaws.over (sight_of sight.now) (columns_of columns.now) }
{
    InSight {
        inner: columns,
        outer: sight.outer,
        ctes: sight.ctes,
    }
}

/// A subquery has these columns outside.
pub fn below<'a>(sight: &InSight<'a>, outside: &'a [Source<'a>]) -> InSight<'a>
    ensures { sight_of result ≡ record { inner = []; outer = columns_of outside.now; ctes = (sight_of sight.now).ctes } }
{
    InSight {
        inner: &[],
        outer: outside,
        ctes: sight.ctes,
    }
}

/// The columns inside of a query and then those outside of it.
#[tactic(auto, using(crate::proofs::SightLaws::columns_append))]
pub fn all_sources<'a>(alloc: Global, sight: &InSight<'a>) -> Result<Vec<Source<'a>>, AllocError>
    ensures { IfOk result (λ sources. columns_of sources.items ≡ columns_of sight.now.inner.now ++ columns_of sight.now.outer.now) }
{
    let mut sources = Vec::from_slice(alloc, sight.inner)?;
    sources.extend_from_slice(sight.outer)?;
    Ok(sources)
}
