//! Whether the types of nodes' parts are right.
ghost use Rattle.std.specs.Prelude.{◌≡◌, ◌&&◌, ◌==◌, nat_lt, [], ◌∷◌, map, length, slice_get, None, Some};
ghost use Rattle.sql_coerce.specs.Casts.{castable};
ghost use Rattle.sql_types.specs.Comparable.{comparable};
ghost use Rattle.sql_types.specs.SameType.{same_type};
ghost use Rattle.sql_types.specs.declared.sql_type.SqlType.TheVariants as types;
ghost use Rattle.resolved_ast.specs.Columns.{element_of};
ghost use Rattle.resolved_ast.specs.Flaws as flaws;
ghost use Rattle.resolved_ast.specs.Parts.{there};
ghost use Rattle.resolved_ast.specs.Signatures.{typed_as};

use crate::types::{Typed, all_of_type, case_typed, element_of, fields_of, is_element, typed_as};
use resolved_ast::MadeColumn;
use sql_coerce::{Kind, castable, coerces};
use sql_types::{Items, JoinKind, SqlType, comparable, same_type};

/// Whether there are so many parts.
pub fn count_is<P>(parts: &Items<P>, count: usize) -> bool
    ensures { result ≡ (length parts.now == count) }
{
    parts.len() == count
}

/// Whether there is more than one part.
pub fn several<P>(parts: &Items<P>) -> bool
    ensures { result ≡ nat_lt 1 (length parts.now) }
{
    1 < parts.len()
}

/// Whether there is a part.
pub fn some_part<P>(parts: &Items<P>) -> bool
    ensures { result ≡ flaws.one_or_more parts.now }
{
    match parts.as_slice() {
        [] => false,
        [_, ..] => true,
    }
}

/// Whether a part has this type.
pub fn is_of_type<P: Typed>(ty: &SqlType, part: &P) -> bool
    ensures { result ≡ same_type ty.now (P.type_of part.now) }
{
    let truth = SqlType::Bool;
    same_type(ty, part.ty(&truth))
}

/// Whether a type is BOOL.
pub fn is_bool(ty: &SqlType) -> bool
    ensures { result ≡ same_type ty.now types.Bool }
{
    same_type(ty, &SqlType::Bool)
}

/// Whether a part's type can be cast to this one.
pub fn cast_typed<P: Typed>(ty: &SqlType, part: &P) -> bool
    ensures { result ≡ castable (P.type_of part.now) ty.now }
{
    let truth = SqlType::Bool;
    castable(part.ty(&truth), ty)
}

/// A test, and two of the node's type.
pub fn if_typed<P: Typed>(ty: &SqlType, operands: &Items<P>) -> bool
    ensures { result ≡ typed_as (types.Bool ∷ ty.now ∷ ty.now ∷ []) (map P.type_of operands.now) }
{
    let truth = SqlType::Bool;
    typed_as([&truth, ty, ty].as_slice(), operands.as_slice())
}

/// Tests and results of a CASE.
pub fn choice_typed<P: Typed>(ty: &SqlType, operands: &Items<P>) -> bool
    ensures { result ≡ flaws.case_typed ty.now (map P.type_of operands.now) }
{
    case_typed(ty, operands.as_slice())
}

/// Parts of the node's type.
pub fn parts_typed<P: Typed>(ty: &SqlType, parts: &Items<P>) -> bool
    ensures { result ≡ flaws.all_of_type ty.now (map P.type_of parts.now) }
{
    all_of_type(ty, parts.as_slice())
}

/// Truth values, in a node that is one.
pub fn truths_typed<P: Typed>(ty: &SqlType, operands: &Items<P>) -> bool
    ensures { result ≡ flaws.all_of_type types.Bool (ty.now ∷ map P.type_of operands.now) }
{
    let truth = SqlType::Bool;
    same_type(&truth, ty) && all_of_type(&truth, operands.as_slice())
}

/// A STRING.
pub fn raise_typed<P: Typed>(operands: &Items<P>) -> bool
    ensures { result ≡ typed_as (types.Text ∷ []) (map P.type_of operands.now) }
{
    let text = SqlType::Text;
    typed_as([&text].as_slice(), operands.as_slice())
}

/// A list of the type of the search value.
pub fn list_typed<P: Typed, Q: Typed>(search: &P, list: &Items<Q>) -> bool
    ensures { result ≡ flaws.all_of_type (P.type_of search.now) (map Q.type_of list.now) }
{
    let truth = SqlType::Bool;
    all_of_type(search.ty(&truth), list.as_slice())
}

/// One or more in a list, and a search value that can be compared.
pub fn list_shaped<P: Typed, Q>(search: &P, list: &Items<Q>) -> bool
    ensures { result ≡ (flaws.one_or_more list.now && comparable (P.type_of search.now)) }
{
    let truth = SqlType::Bool;
    some_part(list) && comparable(search.ty(&truth))
}

/// A value that can be compared.
pub fn can_compare<P: Typed>(search: &P) -> bool
    ensures { result ≡ comparable (P.type_of search.now) }
{
    let truth = SqlType::Bool;
    comparable(search.ty(&truth))
}

/// An array whose elements coerce to the type of the search value.
pub fn array_coerces<P: Typed, Q: Typed>(search: &P, array: &Q) -> bool
    ensures { result ≡ flaws.elements_coerce (Q.type_of array.now) (P.type_of search.now) }
{
    let truth = SqlType::Bool;
    match element_of(array.ty(&truth)) {
        None => false,
        Some(element) => coerces(element, &Kind::Other, search.ty(&truth)),
    }
}

/// Parts of an array's element type.
pub fn array_typed<P: Typed>(ty: &SqlType, parts: &Items<P>) -> bool
    ensures { result ≡ flaws.array_typed ty.now (map P.type_of parts.now) }
{
    match element_of(ty) {
        None => false,
        Some(element) => all_of_type(element, parts.as_slice()),
    }
}

/// One part of each field's type.
pub fn struct_typed<P: Typed>(ty: &SqlType, parts: &Items<P>) -> bool
    ensures { result ≡ flaws.struct_typed ty.now (map P.type_of parts.now) }
{
    match fields_of(ty) {
        None => false,
        Some(fields) => typed_as(fields.as_slice(), parts.as_slice()),
    }
}

/// As many parts as fields.
pub fn struct_shaped<P: Typed>(ty: &SqlType, parts: &Items<P>) -> bool
    ensures { result ≡ flaws.struct_shaped ty.now (map P.type_of parts.now) }
{
    match fields_of(ty) {
        None => true,
        Some(fields) => fields.len() == parts.len(),
    }
}

/// A STRUCT with a field of this type at a place.
pub fn field_typed<P: Typed>(place: usize, ty: &SqlType, part: &P) -> bool
    ensures { result ≡ flaws.has_field place ty.now (P.type_of part.now) }
{
    let truth = SqlType::Bool;
    match fields_of(part.ty(&truth)) {
        None => false,
        Some(fields) => match fields.as_slice().get(place) {
            None => false,
            Some(field) => same_type(ty, &field.ty),
        },
    }
}

/// An element of an array, by an INT64.
pub fn index_typed<P: Typed, Q: Typed>(ty: &SqlType, array: &P, index: &Q) -> bool
    ensures { result ≡ (flaws.is_type ty.now (element_of (P.type_of array.now)) && same_type types.Int64 (Q.type_of index.now)) }
{
    let truth = SqlType::Bool;
    is_element(ty, array.ty(&truth)) && same_type(&SqlType::Int64, index.ty(&truth))
}

/// A condition that may be missing.
pub fn condition_typed<P: Typed>(condition: &Option<P>) -> bool
    ensures { result ≡ flaws.all_of_type types.Bool (map P.type_of (there condition.now)) }
{
    let truth = SqlType::Bool;
    match condition {
        None => true,
        Some(condition) => same_type(&truth, condition.ty(&truth)),
    }
}

/// CROSS alone has no condition.
pub fn condition_shaped<P>(kind: JoinKind, condition: &Option<P>) -> bool
    ensures { result ≡ flaws.condition_shaped kind condition.now }
{
    match kind {
        JoinKind::Cross => condition.is_none(),
        _ => condition.is_some(),
    }
}

/// An array of the element's type, an INT64 place, and a condition.
pub fn unnest_typed<P: Typed, Q: Typed>(
    element: &MadeColumn,
    offset: &Option<MadeColumn>,
    array: &P,
    condition: &Option<Q>,
) -> bool
    ensures { result ≡ ((flaws.is_type element.now.ty (element_of (P.type_of array.now)) && flaws.all_of_type types.Int64 (flaws.types_of (there offset.now))) && flaws.all_of_type types.Bool (map Q.type_of (there condition.now))) }
{
    let truth = SqlType::Bool;
    is_element(&element.ty, array.ty(&truth)) && place_typed(offset) && condition_typed(condition)
}

/// A place that may be missing.
fn place_typed(offset: &Option<MadeColumn>) -> bool
    ensures { result ≡ flaws.all_of_type types.Int64 (flaws.types_of (there offset.now)) }
{
    match offset {
        None => true,
        Some(offset) => same_type(&SqlType::Int64, &offset.ty),
    }
}
