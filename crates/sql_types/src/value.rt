//! Values of all types.
use lists::{Bytes, Items, Text};

/// A value. NULL stands in every type.
#[derive(Debug, Drop)]
pub enum Value {
    Null,
    Bool(bool),
    /// A value of INT32 or INT64.
    Int(i64),
    /// A value of UINT32 or UINT64.
    Uint(u64),
    Text(Text),
    Bytes(Bytes),
    /// Days since 1970-01-01.
    Date(i32),
    Array(Items<Value>),
    Struct(Items<Value>),
}

/// Values in order: a row, or the elements of an ARRAY.
pub type Values = Items<Value>;
