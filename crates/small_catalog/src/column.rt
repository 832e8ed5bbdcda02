//! The columns of a table's entry.
ghost use Rattle.std.specs.Prelude.{◌≡◌, IfOk};
ghost use Rattle.serde_json.specs.View.{view, items_view};
ghost use Rattle.small_catalog.specs.Catalogs as catalogs;
ghost use Rattle.small_catalog.specs.Reads.{Reads};

use crate::entry::{has_keys, name_at, type_at};
use crate::refusal::CatalogRefusal;
use serde_json::Value;
use sql_types::{Column, Columns, Items, Named, Text};
use std::alloc::{AllocError, Global};
use std::collections::HashSet;

/// The columns of a table. One or more are needed, with distinct names.
pub(crate) fn read_columns(alloc: Global, items: &[Value]) -> Result<Columns, CatalogRefusal>
    ensures { Reads (catalogs.all_columns (items_view items.now)) result }
{
    let columns = read_items(alloc, items)?;
    if columns.is_empty() || !are_distinct(alloc, columns.as_slice())? {
        return Err(CatalogRefusal::OtherForm);
    }
    Ok(columns)
}

fn read_items(alloc: Global, items: &[Value]) -> Result<Columns, CatalogRefusal>
    ensures { Reads (catalogs.columns_of (items_view items.now)) result }
{
    let mut columns = Items::new(alloc);
    for item in items {
        columns.push(read_column(alloc, item)?)?;
    }
    Ok(columns)
}

fn read_column(alloc: Global, item: &Value) -> Result<Column, CatalogRefusal>
    ensures { Reads (catalogs.column_of (view item.now)) result }
{
    if !has_keys(item, 2) {
        return Err(CatalogRefusal::OtherForm);
    }
    let Some(name) = name_at(item) else {
        return Err(CatalogRefusal::OtherForm);
    };
    let Some(ty) = type_at(item) else {
        return Err(CatalogRefusal::OtherForm);
    };
    Ok(Named {
        name: Some(Text::copy_of(alloc, name)?),
        ty,
    })
}

/// Whether no two columns have one name, case aside.
fn are_distinct(alloc: Global, columns: &[Column]) -> Result<bool, AllocError>
    ensures { IfOk result (λ distinct. distinct ≡ catalogs.distinct columns.now) }
{
    let mut names = HashSet::new(alloc);
    let mut place = columns.len();
    'columns: while place > 0 {
        place -= 1;
        let column = &columns[place];
        if let Some(name) = &column.name {
            if !names.insert(name.as_str().to_ascii_lowercase(alloc)?)? {
                return Ok(false);
            }
        }
    }
    Ok(true)
}
