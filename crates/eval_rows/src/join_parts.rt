//! The rows of a join, by the pairs that are kept.
ghost use Rattle.std.specs.Prelude.{◌≡◌, ◌<◌, ◌++◌, [], IfOk, length, map, replicate, false, slice_index_or};
ghost use Rattle.std.specs.List.{All};
ghost use Rattle.sql_types.specs.declared.value.Value.TheVariants.{Null};
ghost use Rattle.sql_types.specs.Joined as joined;
ghost use Rattle.eval_rows.specs.Met.{either_each, noted_at, unmet, from_unmet};

use sql_types::{Columns, Items, JoinKind, Value, Values, copy_columns, copy_value};
use std::alloc::{AllocError, Global};

/// A left row with each right row that it is kept with.
pub(crate) fn met_rows(
    alloc: Global,
    left: &[Value],
    rights: &[Values],
    kept: &[bool],
) -> Result<Items<Values>, AllocError>
    ensures { IfOk result (λ rows. rows ≡ joined.met left.now rights.now kept.now) }
{
    let mut rows = Items::new(alloc);
    let mut rest = kept;
    for right in rights {
        match rest {
            [] => return Ok(rows),
            [keep, more @ ..] => {
                if *keep {
                    rows.push(beside(alloc, left, right.as_slice())?)?;
                }
                rest = more;
            }
        }
    }
    Ok(rows)
}

/// LEFT and FULL keep a left row that meets none, with NULL for each column of the right.
pub(crate) fn padded_right(
    alloc: Global,
    kind: JoinKind,
    right_width: usize,
    left: &[Value],
    own: Items<Values>,
) -> Result<Items<Values>, AllocError>
    ensures { IfOk result (λ rows. rows ≡ joined.padded_right kind right_width left.now own) }
{
    match kind {
        JoinKind::Left | JoinKind::Full => padded(alloc, right_width, left, own),
        JoinKind::Cross | JoinKind::Inner | JoinKind::Right => Ok(own),
    }
}

fn padded(
    alloc: Global,
    right_width: usize,
    left: &[Value],
    own: Items<Values>,
) -> Result<Items<Values>, AllocError>
    ensures { IfOk result (λ rows. rows ≡ joined.padded_right JoinKind.Left right_width left.now own) }
{
    if !own.is_empty() {
        return Ok(own);
    }
    let mut rows = Items::new(alloc);
    rows.push(with_nulls(alloc, left, right_width)?)?;
    Ok(rows)
}

/// RIGHT and FULL keep the right rows that met no left row.
pub(crate) fn rows_from_right(
    alloc: Global,
    kind: JoinKind,
    left_width: usize,
    rights: &[Values],
    had: &[bool],
) -> Result<Items<Values>, AllocError>
    ensures { IfOk result (λ rows. rows ≡ from_unmet kind left_width rights.now had.now) }
{
    match kind {
        JoinKind::Right | JoinKind::Full => unmet_rows(alloc, left_width, rights, had),
        JoinKind::Cross | JoinKind::Inner | JoinKind::Left => Ok(Items::new(alloc)),
    }
}

/// The right rows that met no left row, with NULL for each column of the left.
fn unmet_rows(
    alloc: Global,
    left_width: usize,
    rights: &[Values],
    had: &[bool],
) -> Result<Items<Values>, AllocError>
    ensures { IfOk result (λ rows. rows ≡ unmet left_width rights.now had.now) }
{
    let mut rows = Items::new(alloc);
    let mut rest = had;
    for right in rights {
        match rest {
            [] => return Ok(rows),
            [is_met, more @ ..] => {
                if !*is_met {
                    rows.push(behind_nulls(alloc, left_width, right.as_slice())?)?;
                }
                rest = more;
            }
        }
    }
    Ok(rows)
}

/// No right row has met a left row yet.
pub(crate) fn none_met(alloc: Global, count: usize) -> Result<Items<bool>, AllocError>
    ensures { IfOk result (λ had. had ≡ replicate count false) }
{
    let mut had = Items::new(alloc);
    for made in 0..count {
        had.push(false)?;
    }
    Ok(had)
}

/// Which right rows have met a left row, with those that one more left row is kept with.
pub(crate) fn note_met(mut had: Items<bool>, kept: &[bool]) -> Items<bool>
    requires { length had ≡ length kept.now }
    ensures { result ≡ either_each had kept.now }
{
    for (place, keep) in kept.iter().enumerate() {
        if *keep {
            had.set(place, true);
        }
    }
    had
}

/// A left row with each right row of these numbers.
pub(crate) fn met_numbers(
    alloc: Global,
    left: &[Value],
    rights: &[Values],
    numbers: &[usize],
) -> Result<Items<Values>, AllocError>
    requires { All (λ number. number < length rights.now) numbers.now }
    ensures { IfOk result (λ rows. rows ≡ map (λ number. left.now ++ slice_index_or rights.now number []) numbers.now) }
{
    let mut rows = Items::new(alloc);
    for number in numbers {
        rows.push(beside(alloc, left, rights[*number].as_slice())?)?;
    }
    Ok(rows)
}

/// Which right rows have met a left row, with those of these numbers.
pub(crate) fn note_numbers(mut had: Items<bool>, numbers: &[usize]) -> Items<bool>
    requires { All (λ number. number < length had) numbers.now }
    ensures { result ≡ noted_at had numbers.now }
{
    for number in numbers {
        had.set(*number, true);
    }
    had
}

/// The columns of the left and then those of the right.
pub(crate) fn both_columns(
    alloc: Global,
    left: &Columns,
    right: &Columns,
) -> Result<Columns, AllocError>
    ensures { IfOk result (λ columns. columns ≡ left.now ++ right.now) }
{
    let mut columns = copy_columns(alloc, left)?;
    columns.append(copy_columns(alloc, right)?)?;
    Ok(columns)
}

/// The values of one row and then those of another.
fn beside(alloc: Global, left: &[Value], right: &[Value]) -> Result<Values, AllocError>
    ensures { IfOk result (λ row. row ≡ left.now ++ right.now) }
{
    let mut row = copy_row(alloc, left)?;
    row.append(copy_row(alloc, right)?)?;
    Ok(row)
}

fn with_nulls(alloc: Global, left: &[Value], width: usize) -> Result<Values, AllocError>
    ensures { IfOk result (λ row. row ≡ left.now ++ replicate width Null) }
{
    let mut row = copy_row(alloc, left)?;
    row.append(nulls(alloc, width)?)?;
    Ok(row)
}

fn behind_nulls(alloc: Global, width: usize, right: &[Value]) -> Result<Values, AllocError>
    ensures { IfOk result (λ row. row ≡ replicate width Null ++ right.now) }
{
    let mut row = nulls(alloc, width)?;
    row.append(copy_row(alloc, right)?)?;
    Ok(row)
}

fn nulls(alloc: Global, width: usize) -> Result<Values, AllocError>
    ensures { IfOk result (λ row. row ≡ replicate width Null) }
{
    let mut row = Items::new(alloc);
    for made in 0..width {
        row.push(Value::Null)?;
    }
    Ok(row)
}

fn copy_row(alloc: Global, values: &[Value]) -> Result<Values, AllocError>
    ensures { IfOk result (λ row. row ≡ values.now) }
{
    let mut row = Items::new(alloc);
    for value in values {
        row.push(copy_value(alloc, value)?)?;
    }
    Ok(row)
}
