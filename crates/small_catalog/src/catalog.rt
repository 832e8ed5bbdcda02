//! A catalog as a whole.
ghost use Rattle.std.specs.Prelude.{◌≡◌, IfOk, option_map};
ghost use Rattle.serde_json.specs.View.{view, items_view};
ghost use Rattle.small_catalog.specs.Catalogs as catalogs;
ghost use Rattle.small_catalog.specs.Reads.{Reads};

use crate::column::read_columns;
use crate::entry::{has_keys, items_at, name_at, text_at};
use crate::refusal::CatalogRefusal;
use serde_json::Value;
use sql_catalog::TableDef;
use sql_types::Text;
use std::alloc::Global;

/// The table of a small catalog.
///
/// Such a catalog is a JSON object with exactly the keys `version`, which is the whole number 1, `tables`, an array of
/// one table, and `definitions` and `parameters`, which are empty arrays. The table has exactly the keys `name`, `file`
/// and `columns`, an array of one or more columns, and each column exactly the keys `name` and `type`. These are texts.
/// A type is INT64 or STRING, in any case. Names have 1 to 128 bytes, and no two columns have one name, case aside. Of a
/// key that is given twice the last value counts. Bytes of each other form, and bytes that are no JSON, are refused.
#[tactic(auto, unfolding(crate::specs::Catalogs::catalog_of))]
pub fn read_catalog(alloc: Global, bytes: &[u8]) -> Result<TableDef, CatalogRefusal>
    ensures ok { IfOk result (λ table. catalogs.catalog_of bytes.now ≡ Some table) }
    ensures other { result ≡ Err CatalogRefusal.OtherForm → catalogs.catalog_of bytes.now ≡ None }
{
    read_value(alloc, &read_json(alloc, bytes)?)
}

/// The JSON that the bytes are.
fn read_json(alloc: Global, bytes: &[u8]) -> Result<Value, CatalogRefusal>
    ensures ok { IfOk result (λ value. catalogs.json_of bytes.now ≡ Some (view value)) }
    ensures other { result ≡ Err CatalogRefusal.OtherForm → catalogs.json_of bytes.now ≡ None }
{
    match Value::from_slice(alloc, bytes) {
        Ok(value) => Ok(value),
        Err(error) => {
            if error.is_memory() {
                return Err(CatalogRefusal::OutOfMemory);
            }
            Err(CatalogRefusal::OtherForm)
        }
    }
}

fn read_value(alloc: Global, catalog: &Value) -> Result<TableDef, CatalogRefusal>
    ensures { Reads (catalogs.catalog_in (view catalog.now)) result }
{
    if !has_form(catalog) {
        return Err(CatalogRefusal::OtherForm);
    }
    let Some(tables) = items_at(catalog, "tables") else {
        return Err(CatalogRefusal::OtherForm);
    };
    match only_item(tables) {
        Some(table) => read_table(alloc, table),
        None => Err(CatalogRefusal::OtherForm),
    }
}

/// The item of a list of one.
fn only_item(items: &[Value]) -> Option<&Value>
    ensures { option_map (λ item. view item.now) result ≡ catalogs.only_item (items_view items.now) }
{
    if items.len() == 1 {
        Some(&items[0])
    } else {
        None
    }
}

/// Whether a value has the form of a small catalog, its tables aside.
fn has_form(catalog: &Value) -> bool
    ensures { result ≡ catalogs.has_form (view catalog.now) }
{
    has_keys(catalog, 4)
        && is_version_1(catalog)
        && is_empty_at(catalog, "definitions")
        && is_empty_at(catalog, "parameters")
}

fn is_version_1(catalog: &Value) -> bool
    ensures { result ≡ catalogs.is_version_1 (view catalog.now) }
{
    catalog.get("version").and_then(Value::as_u64) == Some(1)
}

fn is_empty_at(catalog: &Value, key: &str) -> bool
    ensures { result ≡ catalogs.is_empty_at key.now (view catalog.now) }
{
    match items_at(catalog, key) {
        Some(items) => items.is_empty(),
        None => false,
    }
}

fn read_table(alloc: Global, table: &Value) -> Result<TableDef, CatalogRefusal>
    ensures { Reads (catalogs.table_of (view table.now)) result }
{
    if !has_keys(table, 3) {
        return Err(CatalogRefusal::OtherForm);
    }
    let Some(name) = name_at(table) else {
        return Err(CatalogRefusal::OtherForm);
    };
    let Some(file) = text_at(table, "file") else {
        return Err(CatalogRefusal::OtherForm);
    };
    let Some(columns) = items_at(table, "columns") else {
        return Err(CatalogRefusal::OtherForm);
    };
    let columns = read_columns(alloc, columns)?;
    Ok(TableDef {
        name: Text::copy_of(alloc, name)?,
        file: Text::copy_of(alloc, file)?,
        columns,
    })
}
