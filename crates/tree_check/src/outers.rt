//! The columns that a subquery takes from outside.
ghost use Rattle.std.specs.Prelude.{◌≡◌, IfOk};
ghost use Rattle.resolved_ast.specs.Columns.{firsts, free};
ghost use Rattle.resolved_ast.specs.Flaws.{same_numbers};
ghost use Rattle.tree_check.specs.Gathered.{ScanNumbers};
ghost use Rattle.tree_check.specs.Known.{knows_all};

use crate::gathering::{Gather, Gathering};
use crate::numbers::Numbers;
use resolved_ast::{ColumnRef, Scan};
use std::alloc::{AllocError, Global};

/// Whether a list is that of a scan's free columns, in the order of their first use. It takes time linear in the scan.
pub fn are_free(alloc: Global, list: &[ColumnRef], scan: &Scan) -> Result<bool, AllocError>
    ensures { IfOk result (λ same. same ≡ same_numbers list.now (free scan.now)) }
{
    let makes = gathered(alloc, Gathering::Makes, scan)?;
    let uses = gathered(alloc, Gathering::Uses, scan)?;
    let made = makes.as_slice();
    let used = uses.as_slice();
    let mut without = Numbers::new(alloc);
    know(&mut without, made)?;
    are_firsts(list, without, used)
}

/// The numbers that a scan uses or makes.
fn gathered(alloc: Global, what: Gathering, scan: &Scan) -> Result<Vec<u64>, AllocError>
    ensures { IfOk result (λ numbers. numbers.items ≡ ScanNumbers what scan.now) }
{
    let mut numbers = Vec::new(alloc);
    scan.gather(what, &mut numbers)?;
    Ok(numbers)
}

/// Adds numbers.
fn know(known: &mut Numbers, numbers: &[u64]) -> Result<(), AllocError>
    ensures { IfOk result (λ _. knows_all known.new numbers.now known.old) }
{
    for number in numbers {
        known.add(*number)?;
    }
    Ok(())
}

/// Whether a list is that of the numbers that aren't known, each where it stands first.
fn are_firsts(list: &[ColumnRef], known: Numbers, numbers: &[u64]) -> Result<bool, AllocError>
    ensures { IfOk result (λ same. same ≡ same_numbers list.now (firsts known numbers.now)) }
{
    let mut known = known;
    let mut rest = list;
    for number in numbers {
        if !known.add(*number)? {
            continue;
        }
        match rest {
            [] => return Ok(false),
            [column, more @ ..] => {
                if column.id.0 != *number {
                    return Ok(false);
                }
                rest = more;
            }
        }
    }
    Ok(rest.is_empty())
}
