//! Whether a call is as the row of its signature says.
ghost use Rattle.std.specs.Prelude.{◌≡◌, ◌&&◌, ◌||◌, map, length, is_some, option_copied, slice_get, IfOk, None, Some};
ghost use Rattle.sql_types.specs.SameType.{same_type};
ghost use Rattle.sql_types.specs.declared.sql_type.SqlType.TheVariants as types;
ghost use Rattle.sql_builtins.specs.Choices as choices;
ghost use Rattle.sql_dates.specs.Parts.{field_named, part_named};
ghost use Rattle.sql_builtins.specs.Seen.{seen};
ghost use Rattle.resolved_ast.specs.Columns.{rex_type};
ghost use Rattle.resolved_ast.specs.Flaws as flaws;
ghost use Rattle.resolved_ast.specs.Signatures as signatures;
ghost use Rattle.tree_check.specs.Orders.{order_of};

use crate::order::{Order, by_types};
use crate::places::{slots_of, takes};
use crate::rows::{call_row, common_type, element_type, meets, slot_is, slots_fit};
use resolved_ast::Rex;
use sql_builtins::{Row, SigId};
use sql_dates::part::{field_named, part_named};
use sql_types::{Items, SqlType, Text, Value};
use std::alloc::{AllocError, Global};

/// Whether the types of a call and its form are those of its row.
pub fn call_order(
    alloc: Global,
    signature: SigId,
    ty: &SqlType,
    arguments: &Items<Rex>,
) -> Result<Order, AllocError>
    ensures { IfOk result (λ order. order_of order ≡ record flaws.in_order { typed = signatures.row_typed (signatures.call_row signature) (map rex_type arguments.now) ty.now; shaped = signatures.row_shaped (signatures.call_row signature) arguments.now }) }
{
    match call_row(signature) {
        None => Ok(by_types(false, true)),
        Some(row) => row_order(alloc, row, ty, arguments.as_slice()),
    }
}

fn row_order(alloc: Global, row: &Row, ty: &SqlType, arguments: &[Rex]) -> Result<Order, AllocError>
    ensures { IfOk result (λ order. order_of order ≡ record flaws.in_order { typed = signatures.row_typed (Some (seen row.now)) (map rex_type arguments.now) ty.now; shaped = signatures.row_shaped (Some (seen row.now)) arguments.now }) }
{
    let slots = slots_of(alloc, row, arguments.len())?;
    let common = common_type(alloc, slots.as_slice(), arguments)?;
    let element = element_type(alloc, slots.as_slice(), arguments)?;
    let taken = takes(alloc, row, arguments.len())?;
    let shaped = taken && meets_both(row, &common, &element) && parts_named(row.sig, arguments);
    Ok(by_types(
        row_typed(row, slots.as_slice(), &common, &element, ty, arguments),
        shaped,
    ))
}

fn meets_both(row: &Row, common: &Option<SqlType>, element: &Option<SqlType>) -> bool
    ensures { result ≡ (signatures.open_meets (seen row.now) common.now && signatures.open_meets (seen row.now) element.now) }
{
    meets(row.needs, common) && meets(row.needs, element)
}

/// Whether the arguments and the call have the types of the row, by the types that it leaves open.
fn row_typed(
    row: &Row,
    slots: &[sql_builtins::Slot],
    common: &Option<SqlType>,
    element: &Option<SqlType>,
    ty: &SqlType,
    arguments: &[Rex],
) -> bool
    ensures { result ≡ signatures.typed_by (seen row.now) slots.now (map rex_type arguments.now) ty.now common.now element.now }
{
    match common {
        None => false,
        Some(common) => match element {
            None => false,
            Some(element) => {
                slots_fit(slots, common, element, arguments) && gives(row, common, element, ty)
            }
        },
    }
}

/// Whether the row gives a type; ERROR gives any.
fn gives(row: &Row, common: &SqlType, element: &SqlType, ty: &SqlType) -> bool
    ensures { result ≡ (signatures.is_error row.now.sig || same_type ty.now (choices.slot_type common.now element.now types.Int64 row.now.gives)) }
{
    is_error(row.sig) || slot_is(row.gives, common, element, &SqlType::Int64, ty)
}

fn is_error(signature: SigId) -> bool
    ensures { result ≡ signatures.is_error signature }
{
    matches!(signature, SigId::Error)
}

/// Whether a date part among the arguments is one that the row takes.
fn parts_named(signature: SigId, arguments: &[Rex]) -> bool
    ensures { result ≡ signatures.parts_named signature arguments.now }
{
    match signature {
        SigId::DateAdd | SigId::DateSub | SigId::DateDiff => names_part(arguments.get(2)),
        SigId::DateTrunc => names_part(arguments.get(1)),
        SigId::Extract => names_field(arguments.first()),
        _ => true,
    }
}

fn names_part(argument: Option<&Rex>) -> bool
    ensures { result ≡ signatures.names part_named (signatures.literal_text (option_copied argument.entry)) }
{
    match literal_text(argument) {
        None => false,
        Some(name) => part_named(name.as_bytes()).is_some(),
    }
}

fn names_field(argument: Option<&Rex>) -> bool
    ensures { result ≡ signatures.names field_named (signatures.literal_text (option_copied argument.entry)) }
{
    match literal_text(argument) {
        None => false,
        Some(name) => field_named(name.as_bytes()).is_some(),
    }
}

/// The text of a STRING Literal.
fn literal_text(argument: Option<&Rex>) -> Option<&Text>
    ensures { option_copied result ≡ signatures.literal_text (option_copied argument.entry) }
{
    match argument {
        Some(
            Rex::Literal {
                value: Value::Text(text),
                ..
            },
        ) => Some(text),
        _ => None,
    }
}
