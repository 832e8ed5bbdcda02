//! The key of a row.
ghost use Rattle.std.specs.Prelude.{◌≡◌, IfOk, fold, slice_index_or};
ghost use Rattle.std.specs.Cmp.{on_equiv, partial_equiv_from_equiv};
ghost use Rattle.sql_types.specs.declared.value.Value.TheVariants.{Null};
ghost use Rattle.sql_types.specs.SameValue.{same_value, same_values};
ghost use Rattle.key_classes.specs.Fed.{fed_values};
ghost use Rattle.key_classes.specs.Keys.{values_of};
ghost use Rattle.key_classes.specs.KeyLaws.{same_values_equiv, fed_alike};

use crate::hashing::hash_value;
use sql_types::{Items, Value, Values, copy_value, same};
use std::alloc::{AllocError, Global};
use std::hash::{Hash, Hasher};

/// A row's values in some columns, borrowed. A column that isn't there counts as NULL. Two keys are equal where their values
/// are the same, and NULL is the same as NULL.
#[derive(Clone, Copy)]
pub struct Key<'a> {
    pub columns: &'a [usize],
    pub row: &'a [Value],
}

impl<'a> Key<'a> {
    /// Copies of the key's values.
    pub fn copy(&self, alloc: Global) -> Result<Values, AllocError>
        ensures { IfOk result (λ values. values ≡ values_of self.now) }
    {
        let mut values = Items::new(alloc);
        for column in self.columns {
            values.push(copy_at(alloc, self.row, *column)?)?;
        }
        Ok(values)
    }
}

impl<'a> PartialEq for Key<'a> {
    ghost eq = { λ x y. same_values (values_of x) (values_of y) };

    ghost laws = { partial_equiv_from_equiv (on_equiv values_of same_values_equiv) };

    fn eq(&self, other: &Key<'a>) -> bool {
        let mut rest = other.columns;
        for column in self.columns {
            match rest {
                [] => return false,
                [first, more @ ..] => {
                    if !same_at(self, *column, other, *first) {
                        return false;
                    }
                    rest = more;
                }
            }
        }
        rest.is_empty()
    }
}

impl<'a> Eq for Key<'a> {
    ghost laws = { on_equiv values_of same_values_equiv };
}

impl<'a> Hash for Key<'a> {
    ghost hash_input = { λ key. fed_values (values_of key) };

    ghost respects_eq = { λ x y. fed_alike (values_of x) (values_of y) };

    fn hash<H: Hasher>(&self, state: &mut H) {
        let absent = Value::Null;
        state.write_usize(self.columns.len());
        for column in self.columns {
            hash_value(value_at(self.row, *column, &absent), state);
        }
    }
}

/// Whether two keys have the same value in these columns.
fn same_at(key: &Key, column: usize, other: &Key, place: usize) -> bool
    ensures { result ≡ same_value (slice_index_or key.now.row.now column Null) (slice_index_or other.now.row.now place Null) }
{
    let absent = Value::Null;
    same(
        value_at(key.row, column, &absent),
        value_at(other.row, place, &absent),
    )
}

fn copy_at(alloc: Global, row: &[Value], column: usize) -> Result<Value, AllocError>
    ensures { IfOk result (λ value. value ≡ slice_index_or row.now column Null) }
{
    let absent = Value::Null;
    copy_value(alloc, value_at(row, column, &absent))
}

fn value_at<'a>(row: &'a [Value], column: usize, absent: &'a Value) -> &'a Value
    ensures { result.now ≡ slice_index_or row.now column absent.now }
{
    row.get(column).unwrap_or(absent)
}
