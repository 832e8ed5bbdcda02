//! The types that a chosen row converts its arguments to.
ghost use Rattle.std.specs.Prelude.{◌≡◌, IfOk};
ghost use Rattle.sql_types.specs.declared.sql_type.SqlType.TheVariants as ty;
ghost use Rattle.sql_builtins.specs.Choices as choices;

use crate::table::Slot;
use sql_coerce::Arg;
use sql_types::{Boxed, Items, SqlType, Types, copy_type};
use std::alloc::{AllocError, Global};

/// The type of each argument's place.
pub(crate) fn target_types(
    alloc: Global,
    slots: &[Slot],
    arguments: &[Arg],
    common: &SqlType,
    element: &SqlType,
) -> Result<Types, AllocError>
    ensures { IfOk result (λ targets. targets ≡ choices.target_types common.now element.now slots.now arguments.now) }
{
    let mut targets = Items::new(alloc);
    let mut rest = slots;
    for argument in arguments {
        match rest {
            [] => return Ok(targets),
            [slot, more @ ..] => {
                targets.push(slot_type(alloc, *slot, &argument.ty, common, element)?)?;
                rest = more;
            }
        }
    }
    Ok(targets)
}

/// The type of a place, by the argument's own type where it has one.
pub(crate) fn slot_type(
    alloc: Global,
    slot: Slot,
    own: &Option<SqlType>,
    common: &SqlType,
    element: &SqlType,
) -> Result<SqlType, AllocError>
    ensures { IfOk result (λ t. t ≡ choices.slot_type common.now element.now (choices.own_type own.now) slot) }
{
    match slot {
        Slot::Bool => Ok(SqlType::Bool),
        Slot::Int64 => Ok(SqlType::Int64),
        Slot::Uint64 => Ok(SqlType::Uint64),
        Slot::String => Ok(SqlType::Text),
        Slot::Bytes => Ok(SqlType::Bytes),
        Slot::Date => Ok(SqlType::Date),
        Slot::Texts => array_of(alloc, SqlType::Text),
        Slot::Numbers => array_of(alloc, SqlType::Int64),
        Slot::Common => copy_type(alloc, common),
        Slot::Element => copy_type(alloc, element),
        Slot::ArrayOfElement => array_of(alloc, copy_type(alloc, element)?),
        Slot::Any => own_type(alloc, own),
    }
}

fn array_of(alloc: Global, element: SqlType) -> Result<SqlType, AllocError>
    ensures { IfOk result (λ t. t ≡ ty.Array element) }
{
    Ok(SqlType::Array(Boxed::new(alloc, element)?))
}

/// An argument's own type, which is INT64 for an untyped NULL.
fn own_type(alloc: Global, own: &Option<SqlType>) -> Result<SqlType, AllocError>
    ensures { IfOk result (λ t. t ≡ choices.own_type own.now) }
{
    match own {
        Some(ty) => copy_type(alloc, ty),
        None => Ok(SqlType::Int64),
    }
}
