//! LIMIT and OFFSET.
ghost use Rattle.std.specs.Prelude.{◌≡◌};
ghost use Rattle.sql_types.specs.Cut.{cut, Cut};

use crate::list_parts::{keep_first, leave_out_first};
use sql_types::{Items, Rows, Values};

/// The rows that LIMIT and OFFSET keep: without the first `skip` rows, the first `take` of the others, or all of them
/// where there are fewer. It moves the rows and takes no memory. The cost is linear in the rows that were given where no
/// more are kept than skipped; else each row that is skipped costs a move of those that are kept.
#[tactic(auto, using(crate::proofs::FitLaws::cut_fits))]
pub fn cut_rows(rows: Rows, skip: u64, take: u64) -> Rows
    ensures columns { result.columns ≡ rows.columns }
    ensures rows { Cut rows.rows skip take result.rows }
{
    let Rows {
        columns,
        rows: list,
    } = rows;
    Rows {
        columns,
        rows: cut_list(list, skip as usize, take as usize),
    }
}

fn cut_list(mut list: Items<Values>, skip: usize, take: usize) -> Items<Values>
    ensures { result ≡ cut list skip take }
{
    if skip >= list.len() {
        keep_first(&mut list, 0);
        return list;
    }
    if take < list.len() - skip {
        keep_first(&mut list, skip + take);
    }
    leave_out_first(&mut list, skip);
    list
}
