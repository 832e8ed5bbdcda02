//! The parts of dates, and their names.
ghost use Rattle.std.specs.Prelude.{◌≡◌};
ghost use Rattle.sql_dates.specs.Parts as parts;

/// A part of the calendar, as DATE_ADD, DATE_SUB, DATE_DIFF and DATE_TRUNC take it.
#[derive(Clone, Copy, Debug, PartialEq, Eq)]
pub enum DatePart {
    Day,
    /// Seven days from a Sunday on.
    Week,
    Month,
    /// Three months from January, April, July or October on.
    Quarter,
    Year,
}

/// What EXTRACT takes from a date.
#[derive(Clone, Copy, Debug, PartialEq, Eq)]
pub enum DateField {
    /// The day of the month, from 1.
    Day,
    /// The month, from 1.
    Month,
    /// The quarter, from 1.
    Quarter,
    Year,
    /// The day of the week, 1 on Sunday.
    DayOfWeek,
    /// The day of the year, from 1.
    DayOfYear,
}

/// The part with a name in upper case, None where no part has it.
#[tactic(auto, unfolding(crate::specs::Parts::part_named))]
pub fn part_named(name: &[u8]) -> Option<DatePart>
    ensures { result ≡ parts.part_named name.now }
{
    if name == b"DAY".as_slice() {
        Some(DatePart::Day)
    } else if name == b"WEEK".as_slice() {
        Some(DatePart::Week)
    } else if name == b"MONTH".as_slice() {
        Some(DatePart::Month)
    } else if name == b"QUARTER".as_slice() {
        Some(DatePart::Quarter)
    } else if name == b"YEAR".as_slice() {
        Some(DatePart::Year)
    } else {
        None
    }
}

/// What EXTRACT takes by a name in upper case, None where it takes nothing by it.
#[tactic(auto, unfolding(crate::specs::Parts::field_named))]
pub fn field_named(name: &[u8]) -> Option<DateField>
    ensures { result ≡ parts.field_named name.now }
{
    if name == b"DAY".as_slice() {
        Some(DateField::Day)
    } else if name == b"MONTH".as_slice() {
        Some(DateField::Month)
    } else if name == b"QUARTER".as_slice() {
        Some(DateField::Quarter)
    } else if name == b"YEAR".as_slice() {
        Some(DateField::Year)
    } else if name == b"DAYOFWEEK".as_slice() {
        Some(DateField::DayOfWeek)
    } else if name == b"DAYOFYEAR".as_slice() {
        Some(DateField::DayOfYear)
    } else {
        None
    }
}
