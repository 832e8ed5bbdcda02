//! Rows of the signature table, for calls whose arguments are converted already.
ghost use Rattle.std.specs.Prelude.{◌≡◌, map, option_map, option_copied, IfOk};
ghost use Rattle.sql_types.specs.SameType.{same_type};
ghost use Rattle.sql_types.specs.declared.sql_type.SqlType.TheVariants as types;
ghost use Rattle.sql_builtins.specs.Choices as choices;
ghost use Rattle.sql_builtins.specs.Seen.{seen};
ghost use Rattle.sql_builtins.specs.Table.{functions};
ghost use Rattle.resolved_ast.specs.Columns.{rex_type};
ghost use Rattle.resolved_ast.specs.Signatures as signatures;
ghost use Rattle.tree_check.specs.Opens.{is_open, needed};

use crate::types::{Typed, element_of, is_element};
use resolved_ast::Rex;
use sql_builtins::{Needs, Row, SigId, Slot, table};
use sql_coerce::{Arg, Kind, supertype};
use sql_types::{SqlType, comparable, copy_type, orderable, same_type};
use std::alloc::{AllocError, Global};

/// How many rows are those of functions and operators. They stand before those of aggregates.
const FUNCTIONS: usize = 105;

/// The row of a Call or a SafeCall.
pub fn call_row(signature: SigId) -> Option<&'static Row>
    ensures { option_map seen (option_copied result) ≡ signatures.call_row signature }
{
    for row in function_rows() {
        if row.sig == signature {
            return Some(row);
        }
    }
    None
}

fn function_rows() -> &'static [Row]
    ensures { map seen result.now ≡ functions }
{
    &table::rows()[..FUNCTIONS]
}

/// A place that has an open type.
#[derive(Clone, Copy)]
pub enum Open {
    Common,
    Element,
    ArrayOfElement,
}

fn is_open(wanted: Open, slot: Slot) -> bool
    ensures { result ≡ is_open wanted slot }
{
    match wanted {
        Open::Common => matches!(slot, Slot::Common),
        Open::Element => matches!(slot, Slot::Element),
        Open::ArrayOfElement => matches!(slot, Slot::ArrayOfElement),
    }
}

/// The arguments at the places of an open type.
fn standing(
    alloc: Global,
    wanted: Open,
    slots: &[Slot],
    arguments: &[Rex],
) -> Result<Vec<Arg>, AllocError>
    ensures { IfOk result (λ standing. standing.items ≡ choices.standing (is_open wanted) slots.now (signatures.args (map rex_type arguments.now))) }
{
    let mut standing = Vec::new(alloc);
    let mut rest = slots;
    for argument in arguments {
        match rest {
            [] => return Ok(standing),
            [slot, more @ ..] => {
                if is_open(wanted, *slot) {
                    standing.push(argument_of(alloc, argument)?)?;
                }
                rest = more;
            }
        }
    }
    Ok(standing)
}

/// An argument, which is converted already.
fn argument_of(alloc: Global, argument: &Rex) -> Result<Arg, AllocError>
    ensures { IfOk result (λ arg. arg ≡ signatures.arg (rex_type argument.now)) }
{
    let truth = SqlType::Bool;
    Ok(Arg {
        ty: Some(copy_type(alloc, argument.ty(&truth))?),
        kind: Kind::Other,
    })
}

/// The common type of the arguments.
pub fn common_type(
    alloc: Global,
    slots: &[Slot],
    arguments: &[Rex],
) -> Result<Option<SqlType>, AllocError>
    ensures { IfOk result (λ common. common ≡ choices.common_type slots.now (signatures.args (map rex_type arguments.now))) }
{
    let standing = standing(alloc, Open::Common, slots, arguments)?;
    supertype(alloc, standing.as_slice())
}

/// The element type of the row's arrays.
pub fn element_type(
    alloc: Global,
    slots: &[Slot],
    arguments: &[Rex],
) -> Result<Option<SqlType>, AllocError>
    ensures { IfOk result (λ element. element ≡ choices.element_type slots.now (signatures.args (map rex_type arguments.now))) }
{
    let truth = SqlType::Bool;
    match first_element(slots, arguments, &truth) {
        Some(element) => Ok(Some(copy_type(alloc, element)?)),
        None => {
            let standing = standing(alloc, Open::Element, slots, arguments)?;
            supertype(alloc, standing.as_slice())
        }
    }
}

/// The element type of the first ARRAY at a place for one.
fn first_element<'a>(
    slots: &[Slot],
    arguments: &'a [Rex],
    truth: &'a SqlType,
) -> Option<&'a SqlType>
    requires { truth.now ≡ types.Bool }
    ensures { option_copied result ≡ choices.first_element (choices.standing choices.is_array_of_element slots.now (signatures.args (map rex_type arguments.now))) }
{
    let mut rest = slots;
    for argument in arguments {
        match rest {
            [] => return None,
            [slot, more @ ..] => {
                if is_open(Open::ArrayOfElement, *slot) {
                    match element_of(argument.ty(truth)) {
                        Some(element) => return Some(element),
                        None => {}
                    }
                }
                rest = more;
            }
        }
    }
    None
}

/// Whether a type is that of a place.
pub fn slot_is(slot: Slot, common: &SqlType, element: &SqlType, own: &SqlType, ty: &SqlType) -> bool
    ensures { result ≡ same_type (choices.slot_type common.now element.now own.now slot) ty.now }
{
    match slot {
        Slot::Bool => same_type(&SqlType::Bool, ty),
        Slot::Int64 => same_type(&SqlType::Int64, ty),
        Slot::Uint64 => same_type(&SqlType::Uint64, ty),
        Slot::String => same_type(&SqlType::Text, ty),
        Slot::Bytes => same_type(&SqlType::Bytes, ty),
        Slot::Date => same_type(&SqlType::Date, ty),
        Slot::Texts => is_array_of(&SqlType::Text, ty),
        Slot::Numbers => is_array_of(&SqlType::Int64, ty),
        Slot::Common => same_type(common, ty),
        Slot::Element => same_type(element, ty),
        Slot::ArrayOfElement => is_array_of(element, ty),
        Slot::Any => same_type(own, ty),
    }
}

/// Whether a type is an ARRAY of this one.
fn is_array_of(element: &SqlType, ty: &SqlType) -> bool
    ensures { result ≡ same_type (types.Array element.now) ty.now }
{
    is_element(element, ty)
}

/// Whether an argument has the type of its place.
fn argument_fits(slot: Slot, common: &SqlType, element: &SqlType, argument: &Rex) -> bool
    ensures { result ≡ same_type (choices.slot_type common.now element.now (rex_type argument.now) slot) (rex_type argument.now) }
{
    let truth = SqlType::Bool;
    let ty = argument.ty(&truth);
    slot_is(slot, common, element, ty, ty)
}

/// Whether each argument has the type of its place, as far as there are both.
pub fn slots_fit(slots: &[Slot], common: &SqlType, element: &SqlType, arguments: &[Rex]) -> bool
    ensures { result ≡ signatures.typed_as (choices.target_types common.now element.now slots.now (signatures.args (map rex_type arguments.now))) (map rex_type arguments.now) }
{
    let mut rest = slots;
    for argument in arguments {
        match rest {
            [] => return true,
            [slot, more @ ..] => {
                if !argument_fits(*slot, common, element, argument) {
                    return false;
                }
                rest = more;
            }
        }
    }
    true
}

/// Whether a type is what a row needs.
pub fn meets(needs: Needs, ty: &Option<SqlType>) -> bool
    ensures { result ≡ needed needs ty.now }
{
    match ty {
        None => true,
        Some(ty) => match needs {
            Needs::Nothing => true,
            Needs::Comparable => comparable(ty),
            Needs::Orderable => orderable(ty),
            Needs::NoArray => element_of(ty).is_none(),
        },
    }
}
