//! What a choice costs.
ghost use Rattle.std.specs.Prelude.{◌≡◌};
ghost use Rattle.sql_builtins.specs.Choices as choices;
ghost use Rattle.sql_builtins.specs.Steps as steps;

use crate::coercion::{Coercion, coercion_at};
use crate::table::Slot;
use sql_coerce::Arg;
use sql_types::SqlType;
use std::marker::Model;

/// The coercions of arguments that aren't literals, and those of literals.
#[derive(Drop)]
pub(crate) struct Cost {
    pub(crate) others: usize,
    pub(crate) literals: usize,
}

impl Model for Cost {
    ghost use Rattle.std.specs.Coded.{codes};
    ghost use Rattle.sql_builtins.specs.Choices as choices;

    ghost Value = { choices.Cost };

    ghost view = { λ c. record { others = c.others; literals = c.literals } };

    ghost coded = { Prim.hlevel (codes) };
}

/// Whether the first is less: by the coercions of others, and where they are as many by those of literals.
pub(crate) fn is_cheaper(cost: &Cost, than: &Cost) -> bool
    ensures { result ≡ choices.cheaper cost.now than.now }
{
    cost.others < than.others || (cost.others == than.others && cost.literals < than.literals)
}

/// What it costs to bring each argument to the type of its place, None where one can't be.
pub(crate) fn cost_at(
    slots: &[Slot],
    arguments: &[Arg],
    common: &SqlType,
    element: &SqlType,
) -> Option<Cost>
    ensures { result ≡ steps.cost_at common.now element.now slots.now arguments.now }
{
    let mut others = 0;
    let mut literals = 0;
    let mut rest = slots;
    for argument in arguments {
        match rest {
            [] => return Some(Cost { others, literals }),
            [slot, more @ ..] => {
                match coercion_at(*slot, argument, common, element)? {
                    Coercion::Free => {}
                    Coercion::OfLiteral => literals += 1,
                    Coercion::OfOther => others += 1,
                }
                rest = more;
            }
        }
    }
    Some(Cost { others, literals })
}
