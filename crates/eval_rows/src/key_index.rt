//! The rows of a table, found by the value of a column.
ghost use Rattle.std.specs.Prelude.{◌≡◌, ◌<◌, ◌++◌, ◌∷◌, [], IfOk, OnOk, length, slice_index_or, slice_set};
ghost use Rattle.sql_types.specs.declared.value.Value.TheVariants.{Null};
ghost use Rattle.sql_types.specs.Same.{equal};
ghost use Rattle.eval_rows.specs.ByClass.{by_class};
ghost use Rattle.eval_rows.specs.EqualKeys as keys;

use key_classes::{Classes, Key};
use sql_types::{Items, Value, Values, equal};
use std::alloc::{AllocError, Global};
use std::slice;

/// The numbers of the rows that have a value in a column, in order. A value that isn't equal to itself, as one that holds a
/// NULL, has none.
#[derive(Drop)]
pub(crate) struct KeyIndex<'a> {
    values: Classes<'a>,
    numbers: Vec<Items<usize>>,
    ghost as_many: { length numbers.items ≡ length values },
}

impl<'a> KeyIndex<'a> {
    /// The index of rows by a column.
    pub(crate) fn of(
        alloc: Global,
        column: &'a usize,
        rows: &'a [Values],
    ) -> Result<KeyIndex<'a>, AllocError>
        ensures { IfOk result (λ index. keys.Indexes column.now rows.now index.values index.numbers.items) }
    {
        let mut values = Classes::start(alloc);
        let mut numbers = Vec::new(alloc);
        for (number, row) in rows.iter().enumerate() {
            if equals_itself(*column, row.as_slice()) {
                let class = values.add(Key {
                    columns: slice::from_ref(column),
                    row: row.as_slice(),
                })?;
                put_in(alloc, &mut numbers, class, number)?;
            }
        }
        Ok(KeyIndex { values, numbers })
    }

    /// The numbers of the rows whose value is that of this row in this column.
    pub(crate) fn numbers_of(&self, column: usize, row: &[Value]) -> &[usize]
        ensures { result.now ≡ by_class [] self.now.values self.now.numbers.items (keys.key_at column row.now ∷ []) }
    {
        let key = Key {
            columns: slice::from_ref(&column),
            row,
        };
        match self.values.find(&key) {
            Some(class) => self.numbers[class].as_slice(),
            None => &[],
        }
    }
}

fn equals_itself(column: usize, row: &[Value]) -> bool
    ensures { result ≡ keys.holds (equal (keys.key_at column row.now) (keys.key_at column row.now)) }
{
    let absent = Value::Null;
    let key = row.get(column).unwrap_or(&absent);
    equal(key, key) == Some(true)
}

/// Puts a row's number in a class, which may be the one behind the last.
fn put_in(
    alloc: Global,
    numbers: &mut Vec<Items<usize>>,
    class: usize,
    number: usize,
) -> Result<(), AllocError>
    ensures again { class < length numbers.old.items → OnOk result (numbers.new.items ≡ slice_set numbers.old.items class (slice_index_or numbers.old.items class [] ++ number ∷ [])) }
    ensures first { class ≡ length numbers.old.items → OnOk result (numbers.new.items ≡ numbers.old.items ++ (number ∷ []) ∷ []) }
{
    if class < numbers.len() {
        let own = &mut numbers[class];
        own.push(number)?;
    } else {
        let mut own = Items::new(alloc);
        own.push(number)?;
        numbers.push(own)?;
    }
    Ok(())
}
