//! The type that a spelling names.
ghost use Rattle.std.specs.Prelude.{◌≡◌, IfOk};
ghost use Rattle.written_types.specs.TypeNames as names;
ghost use Rattle.written_types.specs.TypeNames.{known_type, name_text, plain_types, type_named, written_type};
ghost use Rattle.written_types.specs.Written.{Answered, written_fields};

use crate::plain::plain_type;
use sql_ast::{Name, Refusal, TypeField, TypeSpelling};
use sql_types::{Boxed, Fields, Items, Named, OutOfMemory, SqlType, Text};
use std::alloc::Global;

/// The type of this name. Rule 28 is broken where there is none, at the name.
fn named_type(name: &Name) -> Result<SqlType, Refusal>
    ensures { Answered (known_type name.now.place (type_named name.now.text plain_types)) result }
{
    match plain_type(name.text.as_bytes()) {
        Some(ty) => Ok(ty),
        None => Err(Refusal::Rule {
            rule: 28,
            place: name.place,
        }),
    }
}

/// The ARRAY of an element type that is written at this place. Rule 21 is broken there where the element is an ARRAY.
fn array_type(alloc: Global, element: SqlType, place: u64) -> Result<SqlType, Refusal>
    ensures { Answered (names.array_type place element) result }
{
    if matches!(element, SqlType::Array(_)) {
        return Err(Refusal::Rule { rule: 21, place });
    }
    Ok(SqlType::Array(Boxed::new(alloc, element)?))
}

/// The name of a field, where it has one.
fn field_name(alloc: Global, name: &Option<Name>) -> Result<Option<Text>, OutOfMemory>
    ensures { IfOk result (λ copy. copy ≡ name_text name.now) }
{
    match name {
        Some(name) => Ok(Some(name.text.copy(alloc)?)),
        None => Ok(None),
    }
}

/// The type that a spelling names. The first broken rule with its place, parts before the whole: 28 where there is no type
/// of a name, at the name, and 21 where an ARRAY is of ARRAYs, at the outer one.
#[cycle(types)]
#[tactic(auto, using(crate::proofs::WrittenLaws::written_opens))]
pub fn type_of(alloc: Global, spelling: &TypeSpelling) -> Result<SqlType, Refusal>
    ensures { Answered (written_type spelling.now) result }
{
    match spelling {
        TypeSpelling::Name { name } => named_type(name),
        TypeSpelling::Array { element, place } => {
            let element = type_of(alloc, element.get())?;
            array_type(alloc, element, *place)
        }
        TypeSpelling::Struct { fields, .. } => Ok(SqlType::Struct(field_types(alloc, fields)?)),
    }
}

/// The fields of a written STRUCT, from left to right.
#[cycle(types)]
fn field_types(alloc: Global, fields: &Items<TypeField<TypeSpelling>>) -> Result<Fields, Refusal>
    ensures { Answered (written_fields fields.now) result }
{
    let mut types = Items::new(alloc);
    for field in fields.as_slice() {
        let ty = type_of(alloc, &field.ty)?;
        let name = field_name(alloc, &field.name)?;
        types.push(Named { name, ty })?;
    }
    Ok(types)
}
