//! The choice among the rows of a name.
ghost use Rattle.std.specs.Prelude.{◌≡◌, true, map, IfOk};
ghost use Rattle.std.specs.List.{filter_map, list_all};
ghost use Rattle.sql_builtins.specs.Choices as choices;
ghost use Rattle.sql_builtins.specs.Seen.{seen};
ghost use Rattle.sql_builtins.specs.Steps as steps;

use crate::candidates::{Applied, better_row};
use crate::choice::Choice;
use crate::table::{Row, rows};
use sql_coerce::Arg;
use sql_names::same_letters;
use sql_types::{OutOfMemory, Text};
use std::alloc::{AllocError, Global};

/// The signature of a call of this name, in any case, with these arguments: among the rows of the name that apply, the one
/// with the fewest coercions of arguments that aren't literals, then with the fewest of literals, then the first. None
/// exactly where no row applies. An operator's name is its sign or its words. It takes time in proportion to the
/// rows of the name times the size of the arguments' types, and copies no types but those of a row that is better than the
/// ones before it.
pub fn choose(alloc: Global, name: &Text, arguments: &[Arg]) -> Result<Option<Choice>, OutOfMemory>
    ensures { IfOk result (λ answer. answer ≡ choices.chosen name.now arguments.now) }
{
    match best_row(alloc, rows(), name.as_bytes(), arguments)? {
        Some(best) => Ok(Some(best.choice)),
        None => Ok(None),
    }
}

/// The best row of the name.
fn best_row(
    alloc: Global,
    rows: &[Row],
    name: &[u8],
    arguments: &[Arg],
) -> Result<Option<Applied>, AllocError>
    requires { list_all (λ row. steps.ends_open row.takes) (map seen rows.now) ≡ true }
    ensures { IfOk result (λ best. best ≡ choices.cheapest (filter_map (choices.applied arguments.now) (choices.rows_of name.now (map seen rows.now)))) }
{
    let mut best = None;
    for row in rows {
        if same_letters(row.name, name) {
            match better_row(alloc, &best, row, arguments)? {
                Some(better) => best = Some(better),
                None => {}
            }
        }
    }
    Ok(best)
}
