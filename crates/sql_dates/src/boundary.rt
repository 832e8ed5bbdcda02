//! In which part a day lies, and with which day it begins.
ghost use Rattle.std.specs.Prelude.{◌≡◌, ◌≤◌, true};
ghost use Rattle.jiff_core.specs.Calendar.{IsWithin};
ghost use Rattle.sql_types.specs.Calendar as calendar;
ghost use Rattle.sql_types.specs.Fits.{is_day};
ghost use Rattle.sql_dates.specs.Parts as parts;

use crate::moving::{month_count, within_dates};
use crate::part::DatePart;
use sql_types::{CalendarDate, date_of, day_of};

/// The number of the part in which a day lies, one more from each part to the next.
pub(crate) fn part_index(part: DatePart, day: i32) -> i64
    requires { is_day day ≡ true }
    ensures value { result ≡ parts.part_index part day }
    ensures small { IsWithin 3_000_000 result }
{
    match part {
        DatePart::Day => i64::from(day),
        DatePart::Week => week_of(day),
        DatePart::Month => i64::from(month_count(date_of(day))),
        DatePart::Quarter => i64::from(quarter_count(date_of(day))),
        DatePart::Year => i64::from(date_of(day).year),
    }
}

/// The first day of the part in which a day lies. None where DATE doesn't have it, as before the first Sunday.
pub(crate) fn part_start(part: DatePart, day: i32) -> Option<i32>
    requires { is_day day ≡ true }
    ensures { result ≡ parts.part_start part day }
{
    let date = date_of(day);
    match part {
        DatePart::Day => Some(day),
        DatePart::Week => within_dates(7 * i128::from(week_of(day)) - 4),
        DatePart::Month => first_of(date.year, date.month),
        DatePart::Quarter => first_of(date.year, (quarter_of(date.month) - 1) * 3 + 1),
        DatePart::Year => first_of(date.year, 1),
    }
}

/// The first day of a month.
fn first_of(year: u16, month: u8) -> Option<i32>
    ensures { result ≡ calendar.day_of year month 1 }
{
    day_of(u64::from(year), u64::from(month), 1)
}

/// The week of a day, counted from the one that began on Sunday 1969-12-28.
fn week_of(day: i32) -> i64
    requires { is_day day ≡ true }
    ensures value { result ≡ parts.week_of day }
    ensures small { IsWithin 3_000_000 result }
{
    (i64::from(day) + 4).div_euclid(7)
}

/// The quarters before the quarter of a date, counted from the first of the year 0.
fn quarter_count(date: CalendarDate) -> u32
    requires { 1 ≤ date.month }
    ensures { result ≡ parts.quarter_count date }
{
    4 * u32::from(date.year) + u32::from(quarter_of(date.month) - 1)
}

/// The quarter of a month.
pub(crate) fn quarter_of(month: u8) -> u8
    requires { 1 ≤ month }
    ensures value { result ≡ parts.quarter_of month }
    ensures first { 1 ≤ result }
    ensures last { month ≤ 12 → result ≤ 4 }
{
    (month - 1) / 3 + 1
}
