//! The calls. Each is named by its function and the types of its arguments; a part of dates is a STRING. They take no
//! memory. A call with a NULL argument is NULL.
ghost use Rattle.std.specs.Prelude.{◌≡◌, [], ◌∷◌, true, IsSome};
ghost use Rattle.sql_types.specs.declared.sql_type.SqlType.TheVariants as ty;
ghost use Rattle.sql_dates.specs.Apply as rows;
ghost use Rattle.sql_dates.specs.Arguments.{answered, field_at, part_at};
ghost use Rattle.sql_types.specs.Takes.{fits_types};

use crate::answer::dated;
use crate::argument::{date_at, field_at, int_at, part_at};
use crate::boundary::{part_index, part_start};
use crate::field::field_of;
use crate::moving::{parts_after, within_dates};
use sql_types::{CallFault, FaultKind, Value, day_of};

/// `DATE(year, month, day)`: the date. ARGUMENT where the calendar has no such day from 0001-01-01 to 9999-12-31.
pub fn date_int64_int64_int64(values: &[Value]) -> Result<Value, CallFault>
    requires { fits_types (ty.Int64 ∷ ty.Int64 ∷ ty.Int64 ∷ []) values.now ≡ true }
    ensures { result ≡ answered (rows.date values.now) }
{
    match (int_at(values, 0), int_at(values, 1), int_at(values, 2)) {
        (Some(year), Some(month), Some(day)) => {
            dated(named_day(year, month, day), FaultKind::Argument)
        }
        _ => Ok(Value::Null),
    }
}

/// The day with this date. Negative numbers name none.
fn named_day(year: i64, month: i64, day: i64) -> Option<i32>
    ensures { result ≡ rows.named_day year month day }
{
    let year = u64::try_from(year).ok()?;
    let month = u64::try_from(month).ok()?;
    let day = u64::try_from(day).ok()?;
    day_of(year, month, day)
}

/// `DATE_ADD(date, INTERVAL count part)`: the date so many parts later. A month that is shorter has its last day in
/// place of the day. OUT_OF_RANGE past 0001-01-01 or 9999-12-31.
pub fn date_add_date_int64_string(values: &[Value]) -> Result<Value, CallFault>
    requires fits { fits_types (ty.Date ∷ ty.Int64 ∷ ty.Text ∷ []) values.now ≡ true }
    requires part { IsSome (part_at values.now 2) }
    ensures { result ≡ answered (rows.date_add values.now) }
{
    match (date_at(values, 0), int_at(values, 1), part_at(values, 2)) {
        (Some(day), Some(count), Some(part)) => {
            dated(
                parts_after(part, i128::from(count), day),
                FaultKind::OutOfRange,
            )
        }
        _ => Ok(Value::Null),
    }
}

/// `DATE_SUB(date, INTERVAL count part)`: the date so many parts earlier, as DATE_ADD of the negative count.
pub fn date_sub_date_int64_string(values: &[Value]) -> Result<Value, CallFault>
    requires fits { fits_types (ty.Date ∷ ty.Int64 ∷ ty.Text ∷ []) values.now ≡ true }
    requires part { IsSome (part_at values.now 2) }
    ensures { result ≡ answered (rows.date_sub values.now) }
{
    match (date_at(values, 0), int_at(values, 1), part_at(values, 2)) {
        (Some(day), Some(count), Some(part)) => {
            dated(
                parts_after(part, -i128::from(count), day),
                FaultKind::OutOfRange,
            )
        }
        _ => Ok(Value::Null),
    }
}

/// `DATE_DIFF(date, from, part)`: how many boundaries of parts lie between the two, from the second to the first.
pub fn date_diff_date_date_string(values: &[Value]) -> Result<Value, CallFault>
    requires fits { fits_types (ty.Date ∷ ty.Date ∷ ty.Text ∷ []) values.now ≡ true }
    requires part { IsSome (part_at values.now 2) }
    ensures { result ≡ answered (rows.date_diff values.now) }
{
    match (date_at(values, 0), date_at(values, 1), part_at(values, 2)) {
        (Some(day), Some(from), Some(part)) => {
            Ok(Value::Int(part_index(part, day) - part_index(part, from)))
        }
        _ => Ok(Value::Null),
    }
}

/// `DATE_TRUNC(date, part)`: the first day of the part in which the date lies. OUT_OF_RANGE for a WEEK that begins before
/// 0001-01-01.
pub fn date_trunc_date_string(values: &[Value]) -> Result<Value, CallFault>
    requires fits { fits_types (ty.Date ∷ ty.Text ∷ []) values.now ≡ true }
    requires part { IsSome (part_at values.now 1) }
    ensures { result ≡ answered (rows.date_trunc values.now) }
{
    match (date_at(values, 0), part_at(values, 1)) {
        (Some(day), Some(part)) => dated(part_start(part, day), FaultKind::OutOfRange),
        _ => Ok(Value::Null),
    }
}

/// `EXTRACT(part FROM date)`: the field of the date, as `DateField` says.
pub fn extract_string_date(values: &[Value]) -> Result<Value, CallFault>
    requires fits { fits_types (ty.Text ∷ ty.Date ∷ []) values.now ≡ true }
    requires part { IsSome (field_at values.now 0) }
    ensures { result ≡ answered (rows.extract values.now) }
{
    match (field_at(values, 0), date_at(values, 1)) {
        (Some(field), Some(day)) => Ok(Value::Int(field_of(field, day))),
        _ => Ok(Value::Null),
    }
}

/// `UNIX_DATE(date)`: the days since 1970-01-01, negative before it.
pub fn unix_date_date(values: &[Value]) -> Result<Value, CallFault>
    requires { fits_types (ty.Date ∷ []) values.now ≡ true }
    ensures { result ≡ answered (rows.unix_date values.now) }
{
    match date_at(values, 0) {
        Some(day) => Ok(Value::Int(i64::from(day))),
        None => Ok(Value::Null),
    }
}

/// `DATE_FROM_UNIX_DATE(days)`: the date so many days after 1970-01-01. OUT_OF_RANGE past 0001-01-01 or 9999-12-31.
pub fn date_from_unix_date_int64(values: &[Value]) -> Result<Value, CallFault>
    requires { fits_types (ty.Int64 ∷ []) values.now ≡ true }
    ensures { result ≡ answered (rows.date_from_unix_date values.now) }
{
    match int_at(values, 0) {
        Some(days) => dated(within_dates(i128::from(days)), FaultKind::OutOfRange),
        None => Ok(Value::Null),
    }
}
