//! What a column's type is asked for.
ghost use Rattle.std.specs.Prelude.{◌≡◌};
ghost use Rattle.tree_check.specs.Tests.{passes};

use crate::types::is_element;
use sql_types::{SqlType, comparable, same_type};

/// What a column's type has to be.
#[derive(Clone, Copy)]
pub enum Asked<'a> {
    Same(&'a SqlType),
    /// The element type of an array.
    ElementOf(&'a SqlType),
    /// The same, where something else holds too.
    SameWhere(bool, &'a SqlType),
    Comparable,
    /// Every type is so.
    Anything,
}

/// Whether a type is so.
pub fn passes(asked: &Asked, ty: &SqlType) -> bool
    ensures { result ≡ passes asked.now ty.now }
{
    match asked {
        Asked::Same(wanted) => same_type(wanted, ty),
        Asked::ElementOf(array) => is_element(ty, array),
        Asked::SameWhere(holds, wanted) => *holds && same_type(ty, wanted),
        Asked::Comparable => comparable(ty),
        Asked::Anything => true,
    }
}
