//! The pairs of the table of casts.
ghost use Rattle.std.specs.Prelude.{◌≡◌};
ghost use Rattle.sql_coerce.specs.Casts as casts;

use crate::family::{family_of, is_plain_pair};
use sql_types::{Fields, SqlType, same_type};

/// Whether the table of casts has the pair: an integer to every integer, BOOL, an integer and STRING to one another,
/// STRING and BYTES, DATE and STRING, a STRUCT to one of as many fields where each field has its pair, and each type to itself. It takes
/// no memory.
#[cycle(castable)]
#[tactic(auto, using(crate::proofs::CastLevels::castable_level))]
pub fn castable(from: &SqlType, to: &SqlType) -> bool
    ensures { result ≡ casts.castable from.now to.now }
{
    match from {
        SqlType::Array(element) => match to {
            SqlType::Array(other) => same_type(element.get(), other.get()),
            _ => false,
        },
        SqlType::Struct(fields) => match to {
            SqlType::Struct(others) => fields_castable(fields, others),
            _ => false,
        },
        _ => is_plain_pair(family_of(from), family_of(to)),
    }
}

#[cycle(castable)]
#[tactic(auto, using(crate::proofs::CastLevels::castable_level))]
fn fields_castable(fields: &Fields, others: &Fields) -> bool
    ensures { result ≡ casts.fields_castable fields.now others.now }
{
    let mut rest = others.as_slice();
    for field in fields.as_slice() {
        match rest {
            [] => return false,
            [other, more @ ..] => {
                if !castable(&field.ty, &other.ty) {
                    return false;
                }
                rest = more;
            }
        }
    }
    rest.is_empty()
}
