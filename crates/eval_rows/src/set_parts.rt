//! The steps of a set operation over borrowed rows.
ghost use Rattle.std.specs.Prelude.{◌≡◌, ◌-◌, ◌++◌, IfOk, length, map, true};
ghost use Rattle.std.specs.List.{flat_map, list_all};
ghost use Rattle.sql_types.specs.Combined.{at_most_one, least, total};
ghost use Rattle.sql_types.specs.Joined.{Row};
ghost use Rattle.key_classes.specs.Classes.{key_of};
ghost use Rattle.eval_rows.specs.Counts as counts;

use crate::tally::Tally;
use key_classes::{Classes, Key};
use sql_types::{Items, Rows, Values, copy_values};
use std::alloc::{AllocError, Global};

/// All columns of rows of this width.
pub(crate) fn all_columns(alloc: Global, width: usize) -> Result<Vec<usize>, AllocError>
    ensures { IfOk result (λ columns. (row : Row) → length row ≡ width → key_of columns.items row ≡ row) }
{
    let mut columns = Vec::new(alloc);
    for column in 0..width {
        columns.push(column)?;
    }
    Ok(columns)
}

/// The rows of a table, none of which is copied.
pub(crate) fn borrowed<'a>(alloc: Global, operand: &'a Rows) -> Result<Vec<&'a Values>, AllocError>
    ensures { IfOk result (λ list. counts.shown list.items ≡ operand.now.rows) }
{
    with_rows(Vec::new(alloc), operand.rows.as_slice())
}

/// A list of rows, and then those of all tables.
pub(crate) fn with_all<'a>(
    mut list: Vec<&'a Values>,
    operands: &'a [Rows],
) -> Result<Vec<&'a Values>, AllocError>
    ensures { IfOk result (λ all. counts.shown all.items ≡ counts.shown list.entry.items ++ flat_map counts.rows_of operands.now) }
{
    for operand in operands {
        list = with_rows(list, operand.rows.as_slice())?;
    }
    Ok(list)
}

fn with_rows<'a>(
    mut list: Vec<&'a Values>,
    rows: &'a [Values],
) -> Result<Vec<&'a Values>, AllocError>
    ensures { IfOk result (λ all. counts.shown all.items ≡ counts.shown list.entry.items ++ rows.now) }
{
    for row in rows {
        list.push(row)?;
    }
    Ok(list)
}

/// Each row once, where it stands first.
pub(crate) fn once<'a>(
    alloc: Global,
    columns: &[usize],
    list: &[&'a Values],
) -> Result<Vec<&'a Values>, AllocError>
    requires { counts.AllWhole columns.now (counts.shown list.now) }
    ensures counts { IfOk result (λ kept. (row : Row) → counts.count row (counts.shown kept.items) ≡ at_most_one (counts.count row (counts.shown list.now))) }
    ensures whole { IfOk result (λ kept. counts.AllWhole columns.now (counts.shown kept.items)) }
{
    let mut seen = Classes::start(alloc);
    let mut kept = Vec::new(alloc);
    for row in list {
        let class = seen.add(Key {
            columns,
            row: row.as_slice(),
        })?;
        if class == kept.len() {
            kept.push(*row)?;
        }
    }
    Ok(kept)
}

/// Each row as often as it stands in the list and in each table.
pub(crate) fn in_each<'a>(
    alloc: Global,
    columns: &[usize],
    mut list: Vec<&'a Values>,
    operands: &[Rows],
) -> Result<Vec<&'a Values>, AllocError>
    requires list { counts.AllWhole columns.now (counts.shown list.items) }
    requires operands { counts.AllWhole columns.now (flat_map counts.rows_of operands.now) }
    ensures counts { IfOk result (λ left. (row : Row) → counts.count row (counts.shown left.items) ≡ least (counts.count row (counts.shown list.entry.items)) (map (counts.count row) (map counts.rows_of operands.now))) }
    ensures whole { IfOk result (λ left. counts.AllWhole columns.now (counts.shown left.items)) }
{
    for operand in operands {
        let others = borrowed(alloc, operand)?;
        list = partnered(alloc, true, columns, list.as_slice(), others.as_slice())?;
    }
    Ok(list)
}

/// Without as many of each row as stand in the tables together.
pub(crate) fn without_all<'a>(
    alloc: Global,
    columns: &[usize],
    list: &[&'a Values],
    operands: &[Rows],
) -> Result<Vec<&'a Values>, AllocError>
    requires list { counts.AllWhole columns.now (counts.shown list.now) }
    requires operands { counts.AllWhole columns.now (flat_map counts.rows_of operands.now) }
    ensures { IfOk result (λ left. (row : Row) → counts.count row (counts.shown left.items) ≡ counts.count row (counts.shown list.now) - total (map (counts.count row) (map counts.rows_of operands.now))) }
{
    let others = with_all(Vec::new(alloc), operands)?;
    partnered(alloc, false, columns, list, others.as_slice())
}

/// The rows that have a partner among the others, or those that have none. Each of the others is the partner of at most one.
fn partnered<'a>(
    alloc: Global,
    wanted: bool,
    columns: &[usize],
    list: &[&'a Values],
    others: &[&Values],
) -> Result<Vec<&'a Values>, AllocError>
    requires list { counts.AllWhole columns.now (counts.shown list.now) }
    requires others { counts.AllWhole columns.now (counts.shown others.now) }
    ensures counts { IfOk result (λ kept. (row : Row) → counts.count row (counts.shown kept.items) ≡ counts.count_partnered wanted (counts.count row (counts.shown list.now)) (counts.count row (counts.shown others.now))) }
    ensures whole { IfOk result (λ kept. counts.AllWhole columns.now (counts.shown kept.items)) }
{
    let mut left = Tally::of(alloc, columns, others)?;
    let mut kept = Vec::new(alloc);
    for row in list {
        if left.take(*row) == wanted {
            kept.push(*row)?;
        }
    }
    Ok(kept)
}

/// Copies of the rows.
pub(crate) fn copies(alloc: Global, list: &[&Values]) -> Result<Items<Values>, AllocError>
    ensures { IfOk result (λ rows. rows ≡ counts.shown list.now) }
{
    let mut rows = Items::new(alloc);
    for row in list {
        rows.push(copy_values(alloc, *row)?)?;
    }
    Ok(rows)
}
