//! The types of values.
use lists::{Boxed, Items, Text};

/// A type with a name that may be missing: a field of a STRUCT, or a column.
#[derive(Debug, Drop)]
pub struct Named<T> {
    pub name: Option<Text>,
    pub ty: T,
}

/// The type of an expression or a column. Every type has NULL.
#[derive(Debug, Drop)]
pub enum SqlType {
    Bool,
    Int32,
    Int64,
    Uint32,
    Uint64,
    /// STRING, text in UTF-8.
    Text,
    Bytes,
    /// A day from 0001-01-01 to 9999-12-31.
    Date,
    /// An ARRAY of a type that isn't an ARRAY itself.
    Array(Boxed<SqlType>),
    /// A STRUCT of one or more fields. A field may be unnamed, and two may share a name.
    Struct(Items<Named<SqlType>>),
}

/// A field of a STRUCT.
pub type Field = Named<SqlType>;

/// The fields of a STRUCT in order.
pub type Fields = Items<Field>;

/// A column of a table or of an answer.
pub type Column = Named<SqlType>;

/// Columns in order.
pub type Columns = Items<Column>;

/// Types in order.
pub type Types = Items<SqlType>;
