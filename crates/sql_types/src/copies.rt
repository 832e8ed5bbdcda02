//! Equal copies of types and values.
ghost use Rattle.std.specs.Prelude.{◌≡◌, IfOk, option_map, Some, None};

use crate::sql_type::{Columns, Named, SqlType};
use crate::value::{Value, Values};
use lists::{Boxed, Items, Text};
use std::alloc::{AllocError, Global};

/// A value equal to this one.
#[cycle(copies)]
pub fn copy_value(alloc: Global, value: &Value) -> Result<Value, AllocError>
    ensures { IfOk result (λ copy. copy ≡ value.now) }
{
    match value {
        Value::Null => Ok(Value::Null),
        Value::Bool(truth) => Ok(Value::Bool(*truth)),
        Value::Int(number) => Ok(Value::Int(*number)),
        Value::Uint(number) => Ok(Value::Uint(*number)),
        Value::Text(text) => Ok(Value::Text(text.copy(alloc)?)),
        Value::Bytes(bytes) => Ok(Value::Bytes(Items::from_slice(alloc, bytes.as_slice())?)),
        Value::Date(day) => Ok(Value::Date(*day)),
        Value::Array(elements) => Ok(Value::Array(copy_values(alloc, elements)?)),
        Value::Struct(fields) => Ok(Value::Struct(copy_values(alloc, fields)?)),
    }
}

/// Values equal to these.
#[cycle(copies)]
pub fn copy_values(alloc: Global, values: &Values) -> Result<Values, AllocError>
    ensures { IfOk result (λ copies. copies ≡ values.now) }
{
    let mut copies = Items::new(alloc);
    for value in values.as_slice() {
        copies.push(copy_value(alloc, value)?)?;
    }
    Ok(copies)
}

/// A type equal to this one.
#[cycle(types)]
pub fn copy_type(alloc: Global, ty: &SqlType) -> Result<SqlType, AllocError>
    ensures { IfOk result (λ copy. copy ≡ ty.now) }
{
    match ty {
        SqlType::Bool => Ok(SqlType::Bool),
        SqlType::Int32 => Ok(SqlType::Int32),
        SqlType::Int64 => Ok(SqlType::Int64),
        SqlType::Uint32 => Ok(SqlType::Uint32),
        SqlType::Uint64 => Ok(SqlType::Uint64),
        SqlType::Text => Ok(SqlType::Text),
        SqlType::Bytes => Ok(SqlType::Bytes),
        SqlType::Date => Ok(SqlType::Date),
        SqlType::Array(element) => Ok(SqlType::Array(Boxed::new(
            alloc,
            copy_type(alloc, element.get())?,
        )?)),
        SqlType::Struct(fields) => Ok(SqlType::Struct(copy_columns(alloc, fields)?)),
    }
}

/// Columns, or fields of a STRUCT, equal to these.
#[cycle(types)]
pub fn copy_columns(alloc: Global, columns: &Columns) -> Result<Columns, AllocError>
    ensures { IfOk result (λ copies. copies ≡ columns.now) }
{
    let mut copies = Items::new(alloc);
    for column in columns.as_slice() {
        let name = copy_name(alloc, &column.name)?;
        let ty = copy_type(alloc, &column.ty)?;
        copies.push(Named { name, ty })?;
    }
    Ok(copies)
}

/// A name equal to this one, where there is one.
pub fn copy_name(alloc: Global, name: &Option<Text>) -> Result<Option<Text>, AllocError>
    ensures { IfOk result (λ copy. copy ≡ name.now) }
{
    match name {
        None => Ok(None),
        Some(text) => Ok(Some(text.copy(alloc)?)),
    }
}
