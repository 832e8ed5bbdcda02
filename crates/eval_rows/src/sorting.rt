//! ORDER BY.
ghost use Rattle.std.specs.Prelude.{◌≡◌, IfOk, reverse, true, IsPermutation};
ghost use Rattle.std.specs.List.Sorted.{IsSortedBy};
ghost use Rattle.std.specs.Ordering.{is_lt};
ghost use Rattle.sql_types.specs.Arranged.{Arranged};
ghost use Rattle.sql_types.specs.Sorting.{whole_rows_order, orders_columns};

use sql_types::{Items, Rows, SortItem, SortItems, Values, sorting_order};
use std::alloc::{AllocError, Global};

/// The rows in an order by these items, each of which names a column of an orderable type. Rows that tie stand in any order.
/// The rows are moved.
pub fn sort_rows(alloc: Global, rows: Rows, items: &SortItems) -> Result<Rows, AllocError>
    requires { orders_columns rows.columns items.now ≡ true }
    ensures columns { IfOk result (λ sorted. sorted.columns ≡ rows.columns) }
    ensures rows { IfOk result (λ sorted. Arranged items.now rows.rows sorted.rows) }
{
    let Rows {
        columns,
        rows: list,
    } = rows;
    let sorted = in_order(items.as_slice(), moved(alloc, list)?);
    Ok(Rows {
        columns,
        rows: Items::from_vec(sorted),
    })
}

fn in_order(items: &[SortItem], mut list: Vec<Values>) -> Vec<Values>
    ensures permutation { IsPermutation list.items result.items }
    ensures sorted { IsSortedBy (λ a b. is_lt (whole_rows_order items.now a b)) result.items }
{
    list.sort_unstable_by(|left, right| sorting_order(items, left.as_slice(), right.as_slice()));
    list
}

/// The rows in a vector, from the last to the first.
fn moved(alloc: Global, mut list: Items<Values>) -> Result<Vec<Values>, AllocError>
    ensures { IfOk result (λ moved. moved.items ≡ reverse list) }
{
    let mut moved = Vec::with_capacity(alloc, list.len())?;
    while let Some(row) = list.pop() {
        moved.push(row)?;
    }
    Ok(moved)
}
