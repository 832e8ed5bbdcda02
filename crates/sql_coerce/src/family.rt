//! Families of types, by which the table of casts speaks.
ghost use Rattle.std.specs.Prelude.{◌≡◌};
ghost use Rattle.sql_types.specs.declared.sql_type.SqlType.{out-SqlType};
ghost use Rattle.sql_coerce.specs.Casts as casts;

use sql_types::SqlType;

/// What the table of casts sees of a type.
#[derive(Clone, Copy, Debug, PartialEq, Eq)]
pub enum Family {
    Bool,
    /// INT32, INT64, UINT32 or UINT64.
    Integer,
    /// STRING.
    Text,
    Bytes,
    Date,
    Array,
    Struct,
}

/// The family of a type.
pub fn family_of(ty: &SqlType) -> Family
    ensures { result ≡ casts.family_layer (out-SqlType ty.now) }
{
    match ty {
        SqlType::Bool => Family::Bool,
        SqlType::Int32 => Family::Integer,
        SqlType::Int64 => Family::Integer,
        SqlType::Uint32 => Family::Integer,
        SqlType::Uint64 => Family::Integer,
        SqlType::Text => Family::Text,
        SqlType::Bytes => Family::Bytes,
        SqlType::Date => Family::Date,
        SqlType::Array(_) => Family::Array,
        SqlType::Struct(_) => Family::Struct,
    }
}

/// Whether the table of casts has the pair, for types without parts.
pub fn is_plain_pair(from: Family, to: Family) -> bool
    ensures { result ≡ casts.plain_pair from to }
{
    match from {
        Family::Bool => matches!(to, Family::Bool | Family::Integer | Family::Text),
        Family::Integer => matches!(to, Family::Integer | Family::Bool | Family::Text),
        Family::Text => !matches!(to, Family::Array | Family::Struct),
        Family::Bytes => matches!(to, Family::Bytes | Family::Text),
        Family::Date => matches!(to, Family::Date | Family::Text),
        Family::Array | Family::Struct => false,
    }
}
