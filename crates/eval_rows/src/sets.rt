//! The set operations.
ghost use Rattle.std.specs.Prelude.{◌≡◌, ◌<◌, IfOk, length, map};
ghost use Rattle.std.specs.List.{flat_map};
ghost use Rattle.eval_rows.specs.Counts.{AllWhole, CombinedBy, rows_of, shown};
ghost use Rattle.eval_rows.specs.Sets.{Alike, HasFirstColumns, Combines};

use crate::set_parts::{all_columns, borrowed, copies, in_each, once, with_all, without_all};
use sql_types::{Rows, SetKind, Values, copy_columns};
use std::alloc::{AllocError, Global};

/// A set operation over at least one operand, whose columns have equal types. The columns are those of the first operand.
/// Rows are the same where their values are, NULL the same as NULL, and stand in any order. Only the rows of the result are
/// copied. It takes time linear in the rows of all operands, on average: their values are hashed, but not by UNION ALL.
pub fn set_rows(alloc: Global, kind: SetKind, operands: &[Rows]) -> Result<Rows, AllocError>
    requires some { 0 < length operands.now }
    requires alike { Alike operands.now }
    ensures columns { IfOk result (λ rows. HasFirstColumns operands.now rows) }
    ensures rows { IfOk result (λ rows. Combines kind operands.now rows) }
{
    match operands {
        [first, others @ ..] => {
            let columns = copy_columns(alloc, &first.columns)?;
            let keys = all_columns(alloc, first.columns.len())?;
            let list = combined(alloc, kind, keys.as_slice(), first, others)?;
            let rows = copies(alloc, list.as_slice())?;
            Ok(Rows { columns, rows })
        }
        [] => unreachable!(),
    }
}

/// The rows of the result, where these are all columns.
fn combined<'a>(
    alloc: Global,
    kind: SetKind,
    columns: &[usize],
    first: &'a Rows,
    others: &'a [Rows],
) -> Result<Vec<&'a Values>, AllocError>
    requires first { AllWhole columns.now first.now.rows }
    requires others { AllWhole columns.now (flat_map rows_of others.now) }
    ensures { IfOk result (λ list. CombinedBy kind first.now.rows (map rows_of others.now) (shown list.items)) }
{
    let list = borrowed(alloc, first)?;
    match kind {
        SetKind::UnionAll => with_all(list, others),
        SetKind::UnionDistinct => once(alloc, columns, with_all(list, others)?.as_slice()),
        SetKind::IntersectAll => in_each(alloc, columns, list, others),
        SetKind::IntersectDistinct => {
            let left = in_each(alloc, columns, list, others)?;
            once(alloc, columns, left.as_slice())
        }
        SetKind::ExceptAll => without_all(alloc, columns, list.as_slice(), others),
        SetKind::ExceptDistinct => {
            let distinct = once(alloc, columns, list.as_slice())?;
            without_all(alloc, columns, distinct.as_slice(), others)
        }
    }
}
