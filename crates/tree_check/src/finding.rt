//! Columns looked up in scans.
ghost use Rattle.std.specs.Prelude.{◌≡◌, ◌||◌, ◌++◌, not, is_some, option_copied};
ghost use Rattle.resolved_ast.specs.Columns.{columns, computed_columns};
ghost use Rattle.resolved_ast.specs.Flaws as flaws;
ghost use Rattle.tree_check.specs.Named.{first_such};
ghost use Rattle.tree_check.specs.Sights.{columns_of, source_columns};
ghost use Rattle.tree_check.specs.Tests.{passes};

use crate::asked::Asked;
use crate::naming::{
    names, or_else, such, such_computed, such_made, such_of, such_there, where_so,
};
use crate::sight::Source;
use resolved_ast::{ColumnRef, ColumnRefs, Compute, MadeColumn, Outputs, Rex, Scan};
use sql_types::{Items, SqlType};

/// The first column of a scan that is referred to and has a type that is asked for. It takes time linear in the scan, down to the
/// nodes that make its columns, and no memory.
pub fn find<'a>(wanted: &ColumnRef, asked: &Asked, scan: &'a Scan) -> Option<&'a MadeColumn>
    ensures { option_copied result ≡ first_such wanted.now (passes asked.now) (columns scan.now) }
{
    match scan {
        Scan::Single => None,
        Scan::Table { columns, .. } => such_of(wanted, asked, columns.as_slice()),
        Scan::With { scan, .. } => find(wanted, asked, scan.get()),
        Scan::CteRef { columns, .. } => such_of(wanted, asked, columns.as_slice()),
        Scan::Unnest {
            element,
            offset,
            scan,
            ..
        } => {
            let found = find(wanted, asked, scan.get());
            or_else(found, such_made(wanted, asked, element, offset))
        }
        Scan::Join { left, right, .. } => {
            let left = left.get();
            let right = right.get();
            let first = find(wanted, asked, left);
            let second = find(wanted, asked, right);
            or_else(first, second)
        }
        Scan::Filter { scan, .. } => find(wanted, asked, scan.get()),
        Scan::Project {
            columns,
            scan,
            computed,
        } => {
            let list = columns.as_slice();
            let made = computed.as_slice();
            let found = find(wanted, asked, scan.get());
            let any = or_else(found, such_computed(wanted, asked, made));
            where_so(names(wanted, list), any)
        }
    }
}

/// The first such column of a source.
pub fn find_in<'a>(wanted: &ColumnRef, asked: &Asked, source: &Source<'a>) -> Option<&'a MadeColumn>
    ensures { option_copied result ≡ first_such wanted.now (passes asked.now) (source_columns source.now) }
{
    match source {
        Source::Rows(scan) => find(wanted, asked, scan),
        Source::Column(column) => such(wanted, asked, column),
        Source::Optional(column) => such_there(wanted, asked, column),
    }
}

/// Whether there is a column.
fn is_there(found: Option<&MadeColumn>) -> bool
    ensures { result ≡ is_some (option_copied found.entry) }
{
    match found {
        None => false,
        Some(_) => true,
    }
}

fn source_has(wanted: &ColumnRef, asked: &Asked, source: &Source) -> bool
    ensures { result ≡ flaws.sees_such wanted.now (passes asked.now) (source_columns source.now) }
{
    is_there(find_in(wanted, asked, source))
}

/// Whether one of the columns is referred to and has a type that is asked for.
#[tactic(auto, using(crate::proofs::FindingLaws::skipped, crate::proofs::FindingLaws::hit))]
pub fn sees_such(wanted: &ColumnRef, asked: &Asked, sources: &[Source]) -> bool
    ensures { result ≡ flaws.sees_such wanted.now (passes asked.now) (columns_of sources.now) }
{
    for source in sources {
        if source_has(wanted, asked, source) {
            return true;
        }
    }
    false
}

/// Whether a column is in sight.
pub fn sees(wanted: &ColumnRef, sources: &[Source]) -> bool
    ensures { result ≡ flaws.sees wanted.now (columns_of sources.now) }
{
    sees_such(wanted, &Asked::Anything, sources)
}

/// Whether a column is in sight with this type.
pub fn sees_typed(wanted: &ColumnRef, ty: &SqlType, sources: &[Source]) -> bool
    ensures { result ≡ flaws.sees_typed wanted.now ty.now (columns_of sources.now) }
{
    sees_such(wanted, &Asked::Same(ty), sources)
}

/// Whether all columns of a list are in sight.
pub fn all_seen(list: &[ColumnRef], sources: &[Source]) -> bool
    ensures { result ≡ flaws.all_seen list.now (columns_of sources.now) }
{
    for column in list {
        if !sees(column, sources) {
            return false;
        }
    }
    true
}

/// Whether each column of the answer is one of a scan's, with its type.
pub fn all_outputs(outputs: &Outputs, scan: &Scan) -> bool
    ensures { result ≡ flaws.all_outputs outputs.now (columns scan.now) }
{
    for output in outputs.as_slice() {
        if !has_such(&output.column, &Asked::Same(&output.ty), scan) {
            return false;
        }
    }
    true
}

/// Whether a column, where it is one of a scan's, has a type that is asked for.
pub fn if_seen(wanted: &ColumnRef, asked: &Asked, scan: &Scan) -> bool
    ensures { result ≡ flaws.if_seen wanted.now (passes asked.now) (columns scan.now) }
{
    let seen = is_column(wanted, scan);
    implied(seen, has_such(wanted, asked, scan))
}

fn implied(premise: bool, holds: bool) -> bool
    ensures { result ≡ (not premise || holds) }
{
    if premise { holds } else { true }
}

/// Whether a column is one of a scan's, with a type that is asked for.
fn has_such(wanted: &ColumnRef, asked: &Asked, scan: &Scan) -> bool
    ensures { result ≡ flaws.sees_such wanted.now (passes asked.now) (columns scan.now) }
{
    is_there(find(wanted, asked, scan))
}

/// Whether a column is one of a scan's.
pub fn is_column(wanted: &ColumnRef, scan: &Scan) -> bool
    ensures { result ≡ flaws.sees wanted.now (columns scan.now) }
{
    has_such(wanted, &Asked::Anything, scan)
}

/// Whether all columns of a list are among those of a source.
pub fn all_columns(list: &[ColumnRef], source: &Source) -> bool
    ensures { result ≡ flaws.all_seen list.now (source_columns source.now) }
{
    for column in list {
        if !is_in(column, source) {
            return false;
        }
    }
    true
}

fn is_in(wanted: &ColumnRef, source: &Source) -> bool
    ensures { result ≡ flaws.sees wanted.now (source_columns source.now) }
{
    source_has(wanted, &Asked::Anything, source)
}

/// Whether all columns of a list are a scan's or computed.
pub fn all_listed(list: &ColumnRefs, scan: &Scan, computed: &Items<Compute<Rex>>) -> bool
    ensures { result ≡ flaws.all_seen list.now (columns scan.now ++ computed_columns computed.now) }
{
    for column in list.as_slice() {
        if !is_listed(column, scan, computed.as_slice()) {
            return false;
        }
    }
    true
}

fn is_listed(wanted: &ColumnRef, scan: &Scan, computed: &[Compute<Rex>]) -> bool
    ensures { result ≡ flaws.sees wanted.now (columns scan.now ++ computed_columns computed.now) }
{
    let found = find(wanted, &Asked::Anything, scan);
    is_there(or_else(found, such_computed(wanted, &Asked::Anything, computed)))
}
