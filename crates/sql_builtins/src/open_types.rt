//! The types that a row leaves open.
ghost use Rattle.std.specs.Prelude.{◌≡◌, true, length, option_copied};
ghost use Rattle.sql_types.specs.declared.sql_type.SqlType.{out-SqlType};
ghost use Rattle.sql_builtins.specs.Choices as choices;
ghost use Rattle.sql_builtins.specs.Opened as opened;
ghost use Rattle.sql_builtins.specs.Steps as steps;

use crate::table::{Needs, Slot};
use sql_coerce::{Arg, Kind};
use sql_types::{SqlType, comparable, orderable};

/// A type that a row leaves open.
#[derive(Clone, Copy)]
pub(crate) enum OpenType {
    Common,
    Element,
}

/// Whether a place has the open type.
fn is_open(slot: Slot, wanted: OpenType) -> bool
    ensures { result ≡ opened.is_open wanted slot }
{
    match wanted {
        OpenType::Common => matches!(slot, Slot::Common),
        OpenType::Element => matches!(slot, Slot::Element),
    }
}

/// The arguments at the places of an open type, which stand at the end.
pub(crate) fn standing<'a>(wanted: OpenType, slots: &[Slot], arguments: &'a [Arg]) -> &'a [Arg]
    requires ends { steps.at_end (opened.is_open wanted) slots.now ≡ true }
    requires same { length slots.now ≡ length arguments.now }
    ensures { result.now ≡ choices.standing (opened.is_open wanted) slots.now arguments.now }
{
    let mut rest = arguments;
    for slot in slots {
        if is_open(*slot, wanted) {
            return rest;
        }
        match rest {
            [] => return rest,
            [_, more @ ..] => rest = more,
        }
    }
    rest
}

/// The element type of the first typed ARRAY that stands at a place for an ARRAY of the element type.
pub(crate) fn first_element<'a>(slots: &[Slot], arguments: &'a [Arg]) -> Option<&'a SqlType>
    ensures { option_copied result ≡ choices.first_element (choices.standing choices.is_array_of_element slots.now arguments.now) }
{
    let mut rest = slots;
    for argument in arguments {
        match rest {
            [] => return None,
            [slot, more @ ..] => {
                if is_array_of_element(*slot) {
                    match element_of(argument) {
                        Some(element) => return Some(element),
                        None => {}
                    }
                }
                rest = more;
            }
        }
    }
    None
}

fn is_array_of_element(slot: Slot) -> bool
    ensures { result ≡ choices.is_array_of_element slot }
{
    matches!(slot, Slot::ArrayOfElement)
}

/// The element type of an ARRAY that isn't untyped.
fn element_of(argument: &Arg) -> Option<&SqlType>
    ensures { option_copied result ≡ choices.element_by argument.now.ty argument.now.kind }
{
    match &argument.ty {
        Some(ty) => match &argument.kind {
            Kind::Untyped => None,
            _ => array_element(ty),
        },
        None => None,
    }
}

fn array_element(ty: &SqlType) -> Option<&SqlType>
    ensures { option_copied result ≡ choices.element_layer (out-SqlType ty.now) }
{
    match ty {
        SqlType::Array(element) => Some(element.get()),
        _ => None,
    }
}

/// Whether a type is what the row needs.
pub(crate) fn meets(needs: Needs, ty: &SqlType) -> bool
    ensures { result ≡ choices.meets needs ty.now }
{
    match needs {
        Needs::Nothing => true,
        Needs::Comparable => comparable(ty),
        Needs::Orderable => orderable(ty),
        Needs::NoArray => !matches!(ty, SqlType::Array(_)),
    }
}
