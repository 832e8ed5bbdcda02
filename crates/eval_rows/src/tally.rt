//! How many of each row are left of a list.
ghost use Rattle.std.specs.Prelude.{◌≡◌, ◌↔◌, ◌<◌, ◌≤◌, ◌+◌, ◌-◌, ◌∷◌, ◌++◌, ◌^◌, [], true, IsTrue, IfOk, OnOk, length, slice_index_or, slice_set};
ghost use Rattle.sql_types.specs.Joined.{Row};
ghost use Rattle.eval_rows.specs.ByClass.{by_class};
ghost use Rattle.eval_rows.specs.Counts as counts;

use key_classes::{Classes, Key};
use sql_types::Values;
use std::alloc::{AllocError, Global};

/// How many of each row are left. A row is known by its values in the columns.
#[derive(Drop)]
pub(crate) struct Tally<'a> {
    columns: &'a [usize],
    rows: Classes<'a>,
    left: Vec<usize>,
    ghost as_many: { length left.items ≡ length rows },
}

impl<'a> Tally<'a> {
    /// As many of each row as stand in the list.
    pub(crate) fn of(
        alloc: Global,
        columns: &'a [usize],
        list: &[&'a Values],
    ) -> Result<Tally<'a>, AllocError>
        requires { counts.AllWhole columns.now (counts.shown list.now) }
        ensures columns { IfOk result (λ tally. tally.columns.now ≡ columns.now) }
        ensures left { IfOk result (λ tally. (row : Row) → by_class 0 tally.rows tally.left.items row ≡ counts.count row (counts.shown list.now)) }
    {
        let mut rows = Classes::start(alloc);
        let mut left = Vec::new(alloc);
        for row in list {
            let class = rows.add(Key {
                columns,
                row: row.as_slice(),
            })?;
            count_one(&mut left, class)?;
        }
        Ok(Tally {
            columns,
            rows,
            left,
        })
    }

    /// Takes one of the rows that are the same as this one, where there is one left.
    pub(crate) fn take(&mut self, row: &Values) -> bool
        requires { counts.is_whole self.old.columns.now row.now ≡ true }
        ensures found { IsTrue result ↔ (0 < by_class 0 self.old.rows self.old.left.items row.now) }
        ensures left { (other : Row) → by_class 0 self.new.rows self.new.left.items other ≡ by_class 0 self.old.rows self.old.left.items other - counts.count other (row.now ∷ []) }
        ensures columns { self.new.columns ≡ self.old.columns }
    {
        let key = Key {
            columns: self.columns,
            row: row.as_slice(),
        };
        match self.rows.find(&key) {
            Some(class) => take_one(&mut self.left, class),
            None => false,
        }
    }
}

/// Counts one more of a class, which may be the one behind the last.
fn count_one(left: &mut Vec<usize>, class: usize) -> Result<(), AllocError>
    requires room { slice_index_or left.old.items class 0 + 1 < 2 ^ 64 }
    ensures again { class < length left.old.items → OnOk result (left.new.items ≡ slice_set left.old.items class (slice_index_or left.old.items class 0 + 1)) }
    ensures first { class ≡ length left.old.items → OnOk result (left.new.items ≡ left.old.items ++ 1 ∷ []) }
{
    if class < left.len() {
        left[class] += 1;
    } else {
        left.push(1)?;
    }
    Ok(())
}

/// Takes one of a class, where there is one left.
fn take_one(left: &mut Vec<usize>, class: usize) -> bool
    requires { class < length left.old.items }
    ensures found { IsTrue result ↔ (0 < slice_index_or left.old.items class 0) }
    ensures left { left.new.items ≡ slice_set left.old.items class (slice_index_or left.old.items class 0 - 1) }
{
    let found = left[class] > 0;
    if found {
        left[class] -= 1;
    }
    found
}
