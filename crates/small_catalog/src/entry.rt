//! The parts of an object of JSON.
ghost use Rattle.std.specs.Prelude.{◌≡◌, option_map, option_and_then};
ghost use Rattle.serde_json.specs.View.{view, items_view};
ghost use Rattle.small_catalog.specs.Catalogs as catalogs;

use serde_json::Value;
use sql_ast::naming::same_letters;
use sql_types::SqlType;

/// The most bytes of a name.
const NAME_MAX: usize = 128;

/// Whether a value is an object with so many keys. A key that is given twice counts once.
pub(crate) fn has_keys(value: &Value, count: usize) -> bool
    ensures { result ≡ catalogs.has_keys count (view value.now) }
{
    match value.as_object() {
        Some(members) => members.len() == count,
        None => false,
    }
}

/// The text at a key.
pub(crate) fn text_at<'v>(value: &'v Value, key: &str) -> Option<&'v str>
    ensures { option_map (λ text. text.now) result ≡ catalogs.text_at key.now (view value.now) }
{
    value.get(key).and_then(Value::as_str)
}

/// The items of the array at a key.
pub(crate) fn items_at<'v>(value: &'v Value, key: &str) -> Option<&'v [Value]>
    ensures { option_map (λ items. items_view items.now) result ≡ catalogs.items_at key.now (view value.now) }
{
    match value.get(key).and_then(Value::as_array) {
        Some(items) => Some(items.as_slice()),
        None => None,
    }
}

/// The name of an entry, a text of 1 to 128 bytes.
pub(crate) fn name_at(value: &Value) -> Option<&str>
    ensures { option_map (λ name. name.now) result ≡ catalogs.name_at (view value.now) }
{
    let name = text_at(value, "name")?;
    if name.is_empty() || name.len() > NAME_MAX {
        return None;
    }
    Some(name)
}

/// The type of a column, INT64 or STRING in any case.
pub(crate) fn type_at(value: &Value) -> Option<SqlType>
    ensures { result ≡ catalogs.type_at (view value.now) }
{
    let spelling = text_at(value, "type")?.as_bytes();
    if same_letters(b"INT64", spelling) {
        return Some(SqlType::Int64);
    }
    if same_letters(b"STRING", spelling) {
        return Some(SqlType::Text);
    }
    None
}
