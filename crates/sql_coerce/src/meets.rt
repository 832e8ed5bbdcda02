//! The supertype of members that aren't untyped.
ghost use Rattle.std.specs.Prelude.{◌≡◌, ◌<◌, true, map, length, IfOk};
ghost use Rattle.std.specs.List.{list_all, list_any};
ghost use Rattle.sql_types.specs.declared.sql_type.SqlType.{out-SqlType};
ghost use Rattle.sql_coerce.specs.declared.arg.Kind.TheVariants as kinds;
ghost use Rattle.sql_types.specs.SameType as same;
ghost use Rattle.sql_coerce.specs.Coercions as coercions;
ghost use Rattle.sql_coerce.specs.Supertypes as supertypes;

use crate::arg::Kind;
use crate::coercions::coerces;
use crate::member::Member;
use sql_types::{Fields, Items, ListType, Named, SqlType, copy_name, copy_type, same_type};
use std::alloc::{AllocError, Global};

/// The supertype of members, of which the first has this type.
#[cycle(meet)]
#[tactic(auto, using(crate::proofs::MeetLevels::meet_level))]
pub(crate) fn meet(
    alloc: Global,
    first: &SqlType,
    list: &[Member],
) -> Result<Option<SqlType>, AllocError>
    ensures { IfOk result (λ answer. answer ≡ supertypes.meet first.now list.now) }
{
    match first {
        SqlType::Struct(fields) => {
            if !are_structs(fields.len(), list) {
                return Ok(None);
            }
            match meet_fields(alloc, fields, list)? {
                Some(met) => Ok(Some(SqlType::Struct(met))),
                None => Ok(None),
            }
        }
        SqlType::Array(_) => meet_arrays(alloc, first, list),
        _ => Ok(plain_supertype(list)),
    }
}

/// The first's names, and per field the supertype. All members are STRUCTs of as many fields.
#[cycle(meet)]
fn meet_fields(
    alloc: Global,
    fields: &Fields,
    list: &[Member],
) -> Result<Option<Fields>, AllocError>
    requires { list_all (λ m. supertypes.is_struct_of (length fields.now) (out-SqlType m.ty)) list.now ≡ true }
    ensures { IfOk result (λ answer. answer ≡ supertypes.fields_meet 0 fields.now list.now) }
{
    let other = Kind::Other;
    let mut met = Items::new(alloc);
    for (place, field) in fields.as_slice().iter().enumerate() {
        let column = column(alloc, &other, place, fields.len(), list)?;
        match meet(alloc, &field.ty, column.as_slice())? {
            Some(ty) => met.push(Named {
                name: copy_name(alloc, &field.name)?,
                ty,
            })?,
            None => return Ok(None),
        }
    }
    Ok(Some(met))
}

/// The fields at a place, as kind other. All members are STRUCTs of so many fields.
fn column<'a>(
    alloc: Global,
    other: &'a Kind,
    place: usize,
    count: usize,
    list: &[Member<'a>],
) -> Result<Vec<Member<'a>>, AllocError>
    requires kind { other.now ≡ kinds.Other }
    requires place { place < count }
    requires structs { list_all (λ m. supertypes.is_struct_of count (out-SqlType m.ty)) list.now ≡ true }
    ensures { IfOk result (λ column. column.items ≡ map (supertypes.field_at place) list.now) }
{
    let mut column = Vec::new(alloc);
    for member in list {
        let ty = field_type(member.ty, place, count);
        column.push(Member { ty, kind: other })?;
    }
    Ok(column)
}

/// The type of a field of a STRUCT of so many fields.
fn field_type(ty: &SqlType, place: usize, count: usize) -> &SqlType
    requires place { place < count }
    requires whole { supertypes.is_struct_of count (out-SqlType ty.now) ≡ true }
    ensures { result.now ≡ supertypes.field_type place (out-SqlType ty.now) }
{
    match ty {
        SqlType::Struct(fields) => {
            let field = fields.at(place);
            &field.ty
        }
        _ => unreachable!(),
    }
}

fn are_structs(count: usize, list: &[Member]) -> bool
    ensures { result ≡ list_all (λ m. supertypes.is_struct_of count (out-SqlType m.ty)) list.now }
{
    list.iter().all(|member| is_struct_of(count, member.ty))
}

fn is_struct_of(count: usize, ty: &SqlType) -> bool
    ensures { result ≡ supertypes.is_struct_of count (out-SqlType ty.now) }
{
    match ty {
        SqlType::Struct(fields) => fields.len() == count,
        _ => false,
    }
}

/// The type itself, where all members have it.
fn meet_arrays(
    alloc: Global,
    first: &SqlType,
    list: &[Member],
) -> Result<Option<SqlType>, AllocError>
    ensures { IfOk result (λ answer. answer ≡ supertypes.shared_type first.now list.now) }
{
    if !all_have(first, list) {
        return Ok(None);
    }
    Ok(Some(copy_type(alloc, first)?))
}

fn all_have(ty: &SqlType, list: &[Member]) -> bool
    ensures { result ≡ list_all (λ m. same.same_type ty.now m.ty) list.now }
{
    list.iter().all(|member| same_type(ty, member.ty))
}

/// The first type without parts that counts and to which every member coerces.
fn plain_supertype(list: &[Member]) -> Option<SqlType>
    ensures { result ≡ supertypes.plain_supertype list.now }
{
    if suits(&SqlType::Bool, list) {
        return Some(SqlType::Bool);
    }
    if suits(&SqlType::Int32, list) {
        return Some(SqlType::Int32);
    }
    if suits(&SqlType::Uint32, list) {
        return Some(SqlType::Uint32);
    }
    if suits(&SqlType::Int64, list) {
        return Some(SqlType::Int64);
    }
    if suits(&SqlType::Uint64, list) {
        return Some(SqlType::Uint64);
    }
    if suits(&SqlType::Date, list) {
        return Some(SqlType::Date);
    }
    if suits(&SqlType::Text, list) {
        return Some(SqlType::Text);
    }
    if suits(&SqlType::Bytes, list) {
        return Some(SqlType::Bytes);
    }
    None
}

/// Whether a type counts and every member coerces to it.
fn suits(ty: &SqlType, list: &[Member]) -> bool
    ensures { result ≡ supertypes.suits ty.now list.now }
{
    counts(ty, list) && all_coerce(ty, list)
}

fn all_coerce(ty: &SqlType, list: &[Member]) -> bool
    ensures { result ≡ list_all (λ m. coercions.coerces m.ty m.kind ty.now) list.now }
{
    list.iter()
        .all(|member| coerces(member.ty, member.kind, ty))
}

/// INT32, UINT32 and DATE count only if some member has that type.
fn counts(ty: &SqlType, list: &[Member]) -> bool
    ensures { result ≡ supertypes.counts ty.now list.now }
{
    match ty {
        SqlType::Int32 => has_type(ty, list),
        SqlType::Uint32 => has_type(ty, list),
        SqlType::Date => has_type(ty, list),
        _ => true,
    }
}

fn has_type(ty: &SqlType, list: &[Member]) -> bool
    ensures { result ≡ list_any (λ m. same.same_type m.ty ty.now) list.now }
{
    list.iter().any(|member| same_type(member.ty, ty))
}
