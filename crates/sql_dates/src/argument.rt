//! The arguments of a call, each None where it is NULL.
ghost use Rattle.std.specs.Prelude.{◌≡◌, true, IfSome};
ghost use Rattle.sql_types.specs.Fits.{is_day};
ghost use Rattle.sql_dates.specs.Arguments as arguments;

use crate::part::{DateField, DatePart, field_named, part_named};
use sql_types::Value;

/// The day of the DATE at a place.
pub(crate) fn date_at(values: &[Value], place: usize) -> Option<i32>
    requires { arguments.HasDates values.now }
    ensures value { result ≡ arguments.date_at values.now place }
    ensures day { IfSome result (λ day. is_day day ≡ true) }
{
    match values.get(place) {
        Some(Value::Date(day)) => Some(*day),
        _ => None,
    }
}

/// The number of the INT64 at a place.
pub(crate) fn int_at(values: &[Value], place: usize) -> Option<i64>
    ensures { result ≡ arguments.int_at values.now place }
{
    match values.get(place) {
        Some(Value::Int(number)) => Some(*number),
        _ => None,
    }
}

/// The part that the STRING at a place names.
pub(crate) fn part_at(values: &[Value], place: usize) -> Option<DatePart>
    ensures { result ≡ arguments.part_at values.now place }
{
    match values.get(place) {
        Some(Value::Text(name)) => part_named(name.as_bytes()),
        _ => None,
    }
}

/// What EXTRACT takes by the STRING at a place.
pub(crate) fn field_at(values: &[Value], place: usize) -> Option<DateField>
    ensures { result ≡ arguments.field_at values.now place }
{
    match values.get(place) {
        Some(Value::Text(name)) => field_named(name.as_bytes()),
        _ => None,
    }
}
