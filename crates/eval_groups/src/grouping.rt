//! GROUP BY.
ghost use Rattle.std.specs.Prelude.{◌≡◌, [], ◌∷◌, IfOk, OnOk, length};
ghost use Rattle.sql_types.specs.Parted.{Grouped, Parted, numbers_from};
ghost use Rattle.key_classes.specs.Keys.{values_of};
ghost use Rattle.eval_groups.specs.Groups.{part, parts, keys_of, with_member};

use crate::groups::{Group, Groups};
use key_classes::{Classes, Key};
use sql_types::{Items, Rows, Values};
use std::alloc::{AllocError, Global};

/// The groups of rows by the values of some columns, where NULL is the same as NULL. The groups stand in the order of their
/// first rows. Without columns there is one group, also over no rows. A column that isn't there counts as NULL.
///
/// Keys are found by a hash, so the time is linear in the rows on average. A key is copied once for its group.
pub fn group_rows(alloc: Global, rows: &Rows, keys: &[usize]) -> Result<Groups, AllocError>
    ensures { IfOk result (λ groups. Grouped (length keys.now) (keys_of keys.now rows.now.rows) (parts groups)) }
{
    match keys {
        [] => one_group(alloc, rows.rows.as_slice()),
        [_, ..] => keyed_groups(alloc, keys, rows.rows.as_slice()),
    }
}

/// The group of all rows.
fn one_group(alloc: Global, rows: &[Values]) -> Result<Groups, AllocError>
    ensures { IfOk result (λ groups. parts groups ≡ record { key = []; members = numbers_from 0 (keys_of [] rows.now) } ∷ []) }
{
    let mut numbers = Items::new(alloc);
    for number in 0..rows.len() {
        numbers.push(number)?;
    }
    let mut groups = Items::new(alloc);
    groups.push(Group {
        key: Items::new(alloc),
        rows: numbers,
    })?;
    Ok(groups)
}

/// A group for each key.
fn keyed_groups(alloc: Global, keys: &[usize], rows: &[Values]) -> Result<Groups, AllocError>
    ensures { IfOk result (λ groups. Parted (keys_of keys.now rows.now) (parts groups)) }
{
    let mut classes = Classes::start(alloc);
    let mut groups = Vec::new(alloc);
    for (number, row) in rows.iter().enumerate() {
        let key = Key {
            columns: keys,
            row: row.as_slice(),
        };
        let class = classes.add(key)?;
        add_row(alloc, &mut groups, class, &key, number)?;
    }
    Ok(Items::from_vec(groups))
}

/// Adds a row to a group, or begins a group with it where there is none of this number.
fn add_row(
    alloc: Global,
    groups: &mut Vec<Group>,
    class: usize,
    key: &Key,
    row: usize,
) -> Result<(), AllocError>
    ensures { OnOk result (parts groups.new.items ≡ with_member (parts groups.old.items) class (values_of key.now) row) }
{
    if class < groups.len() {
        let group = &mut groups[class];
        group.rows.push(row)?;
    } else {
        groups.push(started(alloc, key, row)?)?;
    }
    Ok(())
}

/// The group of a first row.
fn started(alloc: Global, key: &Key, row: usize) -> Result<Group, AllocError>
    ensures { IfOk result (λ group. part group ≡ record { key = values_of key.now; members = row ∷ [] }) }
{
    let mut rows = Items::new(alloc);
    rows.push(row)?;
    let key = key.copy(alloc)?;
    Ok(Group { key, rows })
}
