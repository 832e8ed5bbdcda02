//! Days that lie a number of parts after a day.
ghost use Rattle.std.specs.Prelude.{◌≡◌, ◌<◌, ◌≤◌, ◌^◌, true, min};
ghost use Rattle.jiff_core.specs.Calendar.{IsWithin};
ghost use Rattle.sql_types.specs.Calendar as calendar;
ghost use Rattle.sql_types.specs.Fits.{is_day};
ghost use Rattle.sql_dates.specs.Parts as parts;

use crate::part::DatePart;
use sql_types::{CalendarDate, date_of, day_of, month_length};

/// The day so many parts after a day, or before it for a negative number. None where DATE has no such day.
pub(crate) fn parts_after(part: DatePart, count: i128, day: i32) -> Option<i32>
    requires count { IsWithin (2 ^ 63) count }
    requires day { is_day day ≡ true }
    ensures { result ≡ parts.parts_after part count day }
{
    match part {
        DatePart::Day => within_dates(i128::from(day) + count),
        DatePart::Week => within_dates(i128::from(day) + 7 * count),
        DatePart::Month => months_after(count, day),
        DatePart::Quarter => months_after(3 * count, day),
        DatePart::Year => months_after(12 * count, day),
    }
}

/// The day itself, where DATE has it.
pub(crate) fn within_dates(day: i128) -> Option<i32>
    ensures { result ≡ parts.within_dates day }
{
    if day < -719_162 || day > 2_932_896 {
        return None;
    }
    Some(day as i32)
}

fn months_after(count: i128, day: i32) -> Option<i32>
    requires count { IsWithin (2 ^ 67) count }
    requires day { is_day day ≡ true }
    ensures { result ≡ parts.months_after count day }
{
    let date = date_of(day);
    day_in_month(i128::from(month_count(date)) + count, date.day)
}

/// The months before the month of a date, counted from January of the year 0.
pub(crate) fn month_count(date: CalendarDate) -> u32
    requires { 1 ≤ date.month }
    ensures { result ≡ parts.month_count date }
{
    12 * u32::from(date.year) + u32::from(date.month - 1)
}

/// A day of the month with that count, or its last day where it is shorter.
fn day_in_month(count: i128, day: u8) -> Option<i32>
    ensures { result ≡ parts.day_in_month count day }
{
    let count = u64::try_from(count).ok()?;
    day_in_year(count / 12, count % 12 + 1, day)
}

/// A day of a month, or its last day where it is shorter.
fn day_in_year(year: u64, month: u64, day: u8) -> Option<i32>
    requires january { 1 ≤ month }
    requires december { month ≤ 12 }
    ensures { result ≡ calendar.day_of year month (min day (calendar.month_length year month)) }
{
    if year < 1 || year > 9999 {
        return None;
    }
    let last = month_length(year as u16, month as u8);
    day_of(year, month, u64::from(day.min(last)))
}
