//! The types that have no parts, by their names.
ghost use Rattle.std.specs.Prelude.{◌≡◌};
ghost use Rattle.written_types.specs.TypeNames.{plain_types, type_named};

use sql_names::same_letters;
use sql_types::SqlType;

/// The type without parts of this name in any case, if there is one.
pub fn plain_type(name: &[u8]) -> Option<SqlType>
    ensures { result ≡ type_named name.now plain_types }
{
    if same_letters(b"BOOL", name) {
        Some(SqlType::Bool)
    } else if same_letters(b"INT32", name) {
        Some(SqlType::Int32)
    } else if same_letters(b"INT64", name) {
        Some(SqlType::Int64)
    } else if same_letters(b"UINT32", name) {
        Some(SqlType::Uint32)
    } else if same_letters(b"UINT64", name) {
        Some(SqlType::Uint64)
    } else if same_letters(b"STRING", name) {
        Some(SqlType::Text)
    } else if same_letters(b"BYTES", name) {
        Some(SqlType::Bytes)
    } else if same_letters(b"DATE", name) {
        Some(SqlType::Date)
    } else {
        None
    }
}
