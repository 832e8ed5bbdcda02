//! One row of a name, as it applies to the arguments.
ghost use Rattle.std.specs.Prelude.{◌≡◌, true, length, IfOk, Some};
ghost use Rattle.sql_builtins.specs.Choices as choices;
ghost use Rattle.sql_builtins.specs.Seen.{seen};
ghost use Rattle.sql_builtins.specs.Steps as steps;

use crate::choice::Choice;
use crate::costs::{Cost, cost_at, is_cheaper};
use crate::open_types::{OpenType, first_element, meets, standing};
use crate::places::places;
use crate::table::{Row, Slot};
use crate::targets::{slot_type, target_types};
use sql_coerce::{Arg, supertype};
use sql_types::SqlType;
use std::alloc::{AllocError, Global};
use std::marker::Model;

/// A choice and its cost.
#[derive(Drop)]
pub(crate) struct Applied {
    pub(crate) choice: Choice,
    pub(crate) cost: Cost,
}

impl Model for Applied {
    ghost use Rattle.std.specs.Coded.{codes};
    ghost use Rattle.sql_builtins.specs.contracts.choice.Choice as chosen;
    ghost use Rattle.sql_builtins.specs.contracts.costs.Cost as costs;
    ghost use Rattle.sql_builtins.specs.Choices as choices;

    ghost Value = { choices.Applied };

    ghost view = { λ a. record { choice = a.choice; cost = a.cost } };

    ghost coded = { Prim.hlevel (codes, chosen.the_row.coded, costs.the_row.coded) };
}

/// The row as it applies to the arguments, where it does and is better than the best so far.
pub(crate) fn better_row(
    alloc: Global,
    best: &Option<Applied>,
    row: &Row,
    arguments: &[Arg],
) -> Result<Option<Applied>, AllocError>
    requires { steps.ends_open row.now.takes.now ≡ true }
    ensures { IfOk result (λ r. r ≡ steps.better_than best.now (choices.applied arguments.now (seen row.now))) }
{
    match places(alloc, row, arguments.len())? {
        Some(slots) => better_at(alloc, best, row, slots.as_slice(), arguments),
        None => Ok(None),
    }
}

/// The same at the places of the arguments.
fn better_at(
    alloc: Global,
    best: &Option<Applied>,
    row: &Row,
    slots: &[Slot],
    arguments: &[Arg],
) -> Result<Option<Applied>, AllocError>
    requires ends { steps.ends_open slots.now ≡ true }
    requires same { length slots.now ≡ length arguments.now }
    ensures { IfOk result (λ r. r ≡ steps.better_than best.now (choices.applied_at (seen row.now) arguments.now slots.now)) }
{
    let common = match supertype(alloc, standing(OpenType::Common, slots, arguments))? {
        Some(common) => common,
        None => return Ok(None),
    };
    match first_element(slots, arguments) {
        Some(element) => better_by(alloc, best, row, slots, arguments, &common, element),
        None => match supertype(alloc, standing(OpenType::Element, slots, arguments))? {
            Some(element) => better_by(alloc, best, row, slots, arguments, &common, &element),
            None => Ok(None),
        },
    }
}

/// The same by the types that the row leaves open.
fn better_by(
    alloc: Global,
    best: &Option<Applied>,
    row: &Row,
    slots: &[Slot],
    arguments: &[Arg],
    common: &SqlType,
    element: &SqlType,
) -> Result<Option<Applied>, AllocError>
    ensures { IfOk result (λ r. r ≡ steps.better_than best.now (choices.applied_by (seen row.now) arguments.now slots.now common.now element.now)) }
{
    if !meets(row.needs, common) || !meets(row.needs, element) {
        return Ok(None);
    }
    match cost_at(slots, arguments, common, element) {
        Some(cost) => {
            if !improves(best, &cost) {
                return Ok(None);
            }
            let targets = target_types(alloc, slots, arguments, common, element)?;
            let gives = slot_type(alloc, row.gives, &None, common, element)?;
            let choice = Choice {
                sig: row.sig,
                targets,
                gives,
            };
            Ok(Some(Applied { choice, cost }))
        }
        None => Ok(None),
    }
}

/// Whether a row of this cost is better than the best so far.
fn improves(best: &Option<Applied>, cost: &Cost) -> bool
    ensures { result ≡ steps.improves best.now cost.now }
{
    match best {
        Some(best) => is_cheaper(cost, &best.cost),
        None => true,
    }
}
