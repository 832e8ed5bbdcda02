//! What it takes to bring an argument to a type.
ghost use Rattle.std.specs.Prelude.{◌≡◌};
ghost use Rattle.sql_types.specs.declared.sql_type.SqlType.{out-SqlType};
ghost use Rattle.sql_types.specs.declared.sql_type.SqlType.TheVariants as ty;
ghost use Rattle.sql_builtins.specs.Choices as choices;
ghost use Rattle.sql_builtins.specs.Steps as steps;

use crate::table::Slot;
use sql_coerce::{Arg, Kind, coerces};
use sql_types::{SqlType, same_type};

/// A coercion of one argument, as a choice counts it.
#[derive(Clone, Copy)]
pub(crate) enum Coercion {
    /// The argument has the type already, or is untyped.
    Free,
    OfLiteral,
    OfOther,
}

/// The coercion that brings an argument to the type of its place, None where it has none.
pub(crate) fn coercion_at(
    slot: Slot,
    argument: &Arg,
    common: &SqlType,
    element: &SqlType,
) -> Option<Coercion>
    ensures { result ≡ steps.coercion_at common.now element.now slot argument.now }
{
    match slot {
        Slot::Bool => coercion_to(argument, &SqlType::Bool),
        Slot::Int64 => coercion_to(argument, &SqlType::Int64),
        Slot::Uint64 => coercion_to(argument, &SqlType::Uint64),
        Slot::String => coercion_to(argument, &SqlType::Text),
        Slot::Bytes => coercion_to(argument, &SqlType::Bytes),
        Slot::Date => coercion_to(argument, &SqlType::Date),
        Slot::Texts => coercion_to_array(argument, &SqlType::Text),
        Slot::Numbers => coercion_to_array(argument, &SqlType::Int64),
        Slot::Common => coercion_to(argument, common),
        Slot::Element => coercion_to(argument, element),
        Slot::ArrayOfElement => coercion_to_array(argument, element),
        Slot::Any => coercion_to_own(argument),
    }
}

/// The coercion of an argument to a type.
fn coercion_to(argument: &Arg, to: &SqlType) -> Option<Coercion>
    ensures { result ≡ steps.coercion_to argument.now to.now }
{
    match &argument.ty {
        None => Some(Coercion::Free),
        Some(from) => {
            if coerces(from, &argument.kind, to) {
                Some(charged(from, &argument.kind, to))
            } else {
                None
            }
        }
    }
}

/// How a coercion counts.
fn charged(from: &SqlType, kind: &Kind, to: &SqlType) -> Coercion
    ensures { result ≡ steps.charged from.now kind.now to.now }
{
    match kind {
        Kind::Untyped => Coercion::Free,
        Kind::Literal(_) => unless_same(from, to, Coercion::OfLiteral),
        Kind::Parameter => unless_same(from, to, Coercion::OfOther),
        Kind::Other => unless_same(from, to, Coercion::OfOther),
    }
}

/// No coercion where the argument has the type already.
fn unless_same(from: &SqlType, to: &SqlType, coercion: Coercion) -> Coercion
    ensures { result ≡ steps.unless_same from.now to.now coercion }
{
    if same_type(from, to) {
        Coercion::Free
    } else {
        coercion
    }
}

/// The coercion of an argument to an ARRAY of a type. An untyped argument has one to every ARRAY.
fn coercion_to_array(argument: &Arg, element: &SqlType) -> Option<Coercion>
    ensures { result ≡ steps.coercion_to argument.now (ty.Array element.now) }
{
    match &argument.ty {
        None => Some(Coercion::Free),
        Some(from) => match &argument.kind {
            Kind::Untyped => Some(Coercion::Free),
            _ => array_coercion(from, element),
        },
    }
}

/// An ARRAY has a coercion to its own type alone.
fn array_coercion(from: &SqlType, element: &SqlType) -> Option<Coercion>
    ensures { result ≡ steps.array_coercion (out-SqlType from.now) element.now }
{
    match from {
        SqlType::Array(own) => {
            if same_type(own.get(), element) {
                Some(Coercion::Free)
            } else {
                None
            }
        }
        _ => None,
    }
}

/// The coercion of an argument to its own type, which is INT64 for an untyped NULL.
fn coercion_to_own(argument: &Arg) -> Option<Coercion>
    ensures { result ≡ steps.coercion_to argument.now (choices.own_type argument.now.ty) }
{
    match &argument.ty {
        None => Some(Coercion::Free),
        Some(own) => coercion_to(argument, own),
    }
}
