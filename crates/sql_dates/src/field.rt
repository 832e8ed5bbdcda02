//! What EXTRACT takes from a date.
ghost use Rattle.std.specs.Prelude.{◌≡◌, ◌≤◌, true};
ghost use Rattle.sql_types.specs.Fits.{is_day};
ghost use Rattle.sql_dates.specs.Parts as parts;

use crate::boundary::quarter_of;
use crate::part::DateField;
use sql_types::{date_of, day_of_year};

/// The field of a day.
pub(crate) fn field_of(field: DateField, day: i32) -> i64
    requires { is_day day ≡ true }
    ensures { result ≡ parts.field_of field day }
{
    let date = date_of(day);
    match field {
        DateField::Day => i64::from(date.day),
        DateField::Month => i64::from(date.month),
        DateField::Quarter => i64::from(quarter_of(date.month)),
        DateField::Year => i64::from(date.year),
        DateField::DayOfWeek => (i64::from(day) + 4).rem_euclid(7) + 1,
        DateField::DayOfYear => i64::from(day_of_year(day)),
    }
}
