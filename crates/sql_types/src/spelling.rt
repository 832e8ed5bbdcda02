//! How types are spelled.
ghost use Rattle.std.specs.Prelude.{◌≡◌, ◌++◌, IfOk, OnOk, map};
ghost use Rattle.sql_names.specs.Commas.{joined};
ghost use Rattle.sql_types.specs.TypeText as spell;

use crate::sql_type::{Column, SqlType};
use lists::{Bytes, Items, Text};
use sql_names::{write_name, write_separator};
use std::alloc::{AllocError, Global};

/// The spelling of a type, as `INT64` or `STRUCT<a INT64, ARRAY<STRING>>`.
pub fn type_text(alloc: Global, ty: &SqlType) -> Result<Bytes, AllocError>
    ensures { IfOk result (λ text. text ≡ spell.type_text ty.now) }
{
    let mut out = Vec::new(alloc);
    write_type(&mut out, ty)?;
    Ok(Items::from_vec(out))
}

/// Writes the spelling of a type.
#[cycle(spelling)]
#[tactic(auto, unfolding(crate::specs::TypeText::type_text))]
pub fn write_type(out: &mut Vec<u8>, ty: &SqlType) -> Result<(), AllocError>
    ensures { OnOk result (out.new.items ≡ out.old.items ++ spell.type_text ty.now) }
{
    match ty {
        SqlType::Bool => out.extend_from_slice(b"BOOL"),
        SqlType::Int32 => out.extend_from_slice(b"INT32"),
        SqlType::Int64 => out.extend_from_slice(b"INT64"),
        SqlType::Uint32 => out.extend_from_slice(b"UINT32"),
        SqlType::Uint64 => out.extend_from_slice(b"UINT64"),
        SqlType::Text => out.extend_from_slice(b"STRING"),
        SqlType::Bytes => out.extend_from_slice(b"BYTES"),
        SqlType::Date => out.extend_from_slice(b"DATE"),
        SqlType::Array(element) => {
            out.extend_from_slice(b"ARRAY<")?;
            write_type(out, element.get())?;
            out.extend_from_slice(b">")
        }
        SqlType::Struct(fields) => {
            out.extend_from_slice(b"STRUCT<")?;
            write_columns(out, fields.as_slice())?;
            out.push(b'>')?;
            Ok(())
        }
    }
}

/// Writes columns, or the fields of a STRUCT, joined by a comma and a space.
#[cycle(spelling)]
pub fn write_columns(out: &mut Vec<u8>, columns: &[Column]) -> Result<(), AllocError>
    ensures { OnOk result (out.new.items ≡ out.old.items ++ joined (map spell.column_text columns.now)) }
{
    for (place, column) in columns.iter().enumerate() {
        write_separator(out, place)?;
        write_front(out, &column.name)?;
        write_type(out, &column.ty)?;
    }
    Ok(())
}

/// Writes a name and a space, where there is a name.
fn write_front(out: &mut Vec<u8>, name: &Option<Text>) -> Result<(), AllocError>
    ensures { OnOk result (out.new.items ≡ out.old.items ++ spell.name_front name.now) }
{
    if let Some(name) = name {
        write_name(out, name)?;
        out.extend_from_slice(b" ")?;
    }
    Ok(())
}
