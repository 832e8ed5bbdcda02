//! Joins by a test.
ghost use Rattle.std.specs.Prelude.{◌≡◌, ◌++◌, IfOk, length};
ghost use Rattle.std.specs.List.{All};
ghost use Rattle.sql_types.specs.Outcome.{Answers};
ghost use Rattle.eval_rows.specs.Joins.{TakesPair, TakesPairs, TestGives, Answered, Joins, JoinsRows};

use crate::join_parts::{
    both_columns, met_rows, none_met, note_met, padded_right, rows_from_right,
};
use sql_types::{CallFault, Items, JoinKind, Rows, Value, Values};
use std::alloc::{AllocError, Global};

/// The join of two tables, by what a test answers for each pair of a left and a right row: it keeps the pairs for which
/// that is true. The columns are those of the left and then those of the right; LEFT, RIGHT and FULL add the rows that meet
/// none, with NULL in the other side's columns. A fault that the test answers is the answer. The test may be called on each
/// pair, also where the join is a CROSS JOIN. The cost is that of as many calls as there are pairs.
pub fn join_rows<P: Fn(&[Value], &[Value]) -> Result<bool, CallFault>>(
    alloc: Global,
    kind: JoinKind,
    left: &Rows,
    right: &Rows,
    test: &P,
) -> Result<Rows, CallFault>
    requires { TakesPairs P.Fn test.now left.now.rows right.now.rows }
    ensures { Answers (JoinsRows (TestGives P.Fn test.now) kind left.now right.now) result }
{
    let columns = both_columns(alloc, &left.columns, &right.columns)?;
    let list = join_lists(
        alloc,
        kind,
        left.columns.len(),
        right.columns.len(),
        left.rows.as_slice(),
        right.rows.as_slice(),
        test,
    );
    match list {
        Ok(rows) => Ok(Rows { columns, rows }),
        Err(fault) => Err(fault),
    }
}

/// The rows of the join.
fn join_lists<P: Fn(&[Value], &[Value]) -> Result<bool, CallFault>>(
    alloc: Global,
    kind: JoinKind,
    left_width: usize,
    right_width: usize,
    lefts: &[Values],
    rights: &[Values],
    test: &P,
) -> Result<Items<Values>, CallFault>
    requires { TakesPairs P.Fn test.now lefts.now rights.now }
    ensures { Answers (Joins (TestGives P.Fn test.now) kind left_width right_width lefts.now rights.now) result }
{
    let mut had = none_met(alloc, rights.len())?;
    let mut rows = Items::new(alloc);
    for left in lefts {
        match answers(alloc, left.as_slice(), rights, test) {
            Ok(kept) => {
                let own = met_rows(alloc, left.as_slice(), rights, kept.as_slice())?;
                rows.append(padded_right(alloc, kind, right_width, left.as_slice(), own)?)?;
                had = note_met(had, kept.as_slice());
            }
            Err(fault) => return Err(fault),
        }
    }
    rows.append(rows_from_right(alloc, kind, left_width, rights, had.as_slice())?)?;
    Ok(rows)
}

/// What the test answers for one left row and each right row.
fn answers<P: Fn(&[Value], &[Value]) -> Result<bool, CallFault>>(
    alloc: Global,
    left: &[Value],
    rights: &[Values],
    test: &P,
) -> Result<Items<bool>, CallFault>
    requires { All (TakesPair P.Fn test.now left.now) rights.now }
    ensures { Answers (Answered (TestGives P.Fn test.now) left.now rights.now) result }
{
    let mut kept = Items::new(alloc);
    for right in rights {
        match ask(left, right.as_slice(), test) {
            Ok(keep) => kept.push(keep)?,
            Err(fault) => return Err(fault),
        }
    }
    Ok(kept)
}

/// What the test answers.
fn ask<P: Fn(&[Value], &[Value]) -> Result<bool, CallFault>>(
    left: &[Value],
    right: &[Value],
    test: &P,
) -> Result<bool, CallFault>
    requires { TakesPair P.Fn test.now left.now right.now }
    ensures { Answers (TestGives P.Fn test.now left.now right.now) result }
{
    test(left, right)
}
