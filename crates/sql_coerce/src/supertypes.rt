//! The supertype of a list of expressions.
ghost use Rattle.std.specs.Prelude.{◌≡◌, [], IfOk};
ghost use Rattle.std.specs.List.{list_any};
ghost use Rattle.sql_types.specs.declared.sql_type.SqlType.{out-SqlType};
ghost use Rattle.sql_coerce.specs.Supertypes as supertypes;

use crate::arg::{Arg, Kind};
use crate::meets::meet;
use crate::member::Member;
use sql_types::{Boxed, SqlType};
use std::alloc::{AllocError, Global};

/// The supertype of a list of expressions, where they have one.
pub fn supertype(alloc: Global, arguments: &[Arg]) -> Result<Option<SqlType>, AllocError>
    ensures { IfOk result (λ answer. answer ≡ supertypes.supertype arguments.now) }
{
    let empty = has_empty_array(arguments);
    let members = members(alloc, arguments)?;
    match members.as_slice() {
        [] => supertype_of_none(alloc, empty),
        [first, ..] => Ok(with_empty_array(empty, meet(alloc, first.ty, members.as_slice())?)),
    }
}

/// Where no member is left, `[]` makes the answer an ARRAY.
fn supertype_of_none(alloc: Global, empty: bool) -> Result<Option<SqlType>, AllocError>
    ensures { IfOk result (λ answer. answer ≡ supertypes.supertype_of [] empty) }
{
    if empty {
        Ok(Some(SqlType::Array(Boxed::new(alloc, SqlType::Int64)?)))
    } else {
        Ok(Some(SqlType::Int64))
    }
}

/// An untyped `[]` needs the answer to be an ARRAY.
fn with_empty_array(empty: bool, answer: Option<SqlType>) -> Option<SqlType>
    ensures { result ≡ supertypes.with_empty_array empty answer }
{
    match answer {
        Some(ty) => {
            if empty && !is_array(&ty) {
                None
            } else {
                Some(ty)
            }
        }
        None => None,
    }
}

fn is_array(ty: &SqlType) -> bool
    ensures { result ≡ supertypes.is_array (out-SqlType ty.now) }
{
    matches!(ty, SqlType::Array(_))
}

fn has_empty_array(arguments: &[Arg]) -> bool
    ensures { result ≡ list_any (λ a. supertypes.empty_array a.ty a.kind) arguments.now }
{
    arguments.iter().any(|argument| is_empty_array(argument))
}

fn is_empty_array(argument: &Arg) -> bool
    ensures { result ≡ supertypes.empty_array argument.now.ty argument.now.kind }
{
    match &argument.ty {
        Some(ty) => match &argument.kind {
            Kind::Untyped => is_array(ty),
            _ => false,
        },
        None => false,
    }
}

/// The arguments that aren't untyped.
fn members<'a>(alloc: Global, arguments: &'a [Arg]) -> Result<Vec<Member<'a>>, AllocError>
    ensures { IfOk result (λ list. list.items ≡ supertypes.members arguments.now) }
{
    let mut list = Vec::new(alloc);
    for argument in arguments {
        match &argument.ty {
            Some(ty) => match &argument.kind {
                Kind::Untyped => {}
                kind => list.push(Member { ty, kind })?,
            },
            None => {}
        }
    }
    Ok(list)
}
