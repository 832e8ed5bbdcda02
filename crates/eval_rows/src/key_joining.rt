//! Joins by equal keys.
ghost use Rattle.std.specs.Prelude.{◌≡◌, ◌<◌, ◌++◌, ◌≢◌, IfOk, length};
ghost use Rattle.sql_types.specs.Joined.{Joined};
ghost use Rattle.eval_rows.specs.EqualKeys.{equal_pairs};

use crate::join_parts::{
    both_columns, met_numbers, none_met, note_numbers, padded_right, rows_from_right,
};
use crate::key_index::KeyIndex;
use sql_types::{Items, JoinKind, Rows, Values};
use std::alloc::{AllocError, Global};

/// The join of two tables by the equality of two columns, which is not a CROSS JOIN: it keeps the pairs whose keys are
/// equal, so that a key with a NULL at any depth meets none. The columns are those of the left and then those of the right;
/// LEFT, RIGHT and FULL add the rows that meet none, with NULL in the other side's columns. The rows stand in the order of
/// the left rows, and under one left row in that of the right rows; right rows that meet none come last. It hashes the keys,
/// and takes time linear in the rows of both sides and of the result, on average. Running out of memory is the only error.
pub fn join_equal(
    alloc: Global,
    kind: JoinKind,
    left: &Rows,
    right: &Rows,
    left_key: usize,
    right_key: usize,
) -> Result<Rows, AllocError>
    requires kind { kind ≢ JoinKind.Cross }
    requires columns { (left_key < length left.now.columns) × (right_key < length right.now.columns) }
    ensures columns { IfOk result (λ joined. joined.columns ≡ left.now.columns ++ right.now.columns) }
    ensures rows { IfOk result (λ joined. Joined kind (length left.now.columns) (length right.now.columns) left.now.rows right.now.rows (equal_pairs left_key right_key left.now.rows right.now.rows) joined.rows) }
{
    let columns = both_columns(alloc, &left.columns, &right.columns)?;
    let rows = equal_rows(alloc, kind, left, right, left_key, right_key)?;
    Ok(Rows { columns, rows })
}

/// The rows of the join.
fn equal_rows(
    alloc: Global,
    kind: JoinKind,
    left: &Rows,
    right: &Rows,
    left_key: usize,
    right_key: usize,
) -> Result<Items<Values>, AllocError>
    ensures { IfOk result (λ rows. Joined kind (length left.now.columns) (length right.now.columns) left.now.rows right.now.rows (equal_pairs left_key right_key left.now.rows right.now.rows) rows) }
{
    let rights = right.rows.as_slice();
    let index = KeyIndex::of(alloc, &right_key, rights)?;
    let mut had = none_met(alloc, rights.len())?;
    let mut rows = Items::new(alloc);
    for item in left.rows.as_slice() {
        let row = item.as_slice();
        let met = index.numbers_of(left_key, row);
        let own = met_numbers(alloc, row, rights, met)?;
        rows.append(padded_right(alloc, kind, right.columns.len(), row, own)?)?;
        had = note_numbers(had, met);
    }
    rows.append(rows_from_right(alloc, kind, left.columns.len(), rights, had.as_slice())?)?;
    Ok(rows)
}
