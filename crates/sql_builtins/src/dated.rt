//! The functions on dates, for a part of any name: one that no part has gives NULL, as a part that is NULL does.
ghost use Rattle.std.specs.Prelude.{◌≡◌, [], ◌∷◌, true, is_some};
ghost use Rattle.sql_types.specs.declared.sql_type.SqlType.TheVariants as ty;
ghost use Rattle.sql_types.specs.Takes.{fits_types};
ghost use Rattle.sql_dates.specs.Apply as rows;
ghost use Rattle.sql_dates.specs.Arguments.{answered, field_at, part_at};

use sql_dates::{
    date_add_date_int64_string, date_diff_date_date_string, date_sub_date_int64_string,
    date_trunc_date_string, extract_string_date, field_named, part_named,
};
use sql_types::{CallFault, Value};

pub(crate) fn date_add(values: &[Value]) -> Result<Value, CallFault>
    requires { fits_types (ty.Date ∷ ty.Int64 ∷ ty.Text ∷ []) values.now ≡ true }
    ensures { result ≡ answered (rows.date_add values.now) }
{
    if has_part(values, 2) {
        date_add_date_int64_string(values)
    } else {
        Ok(Value::Null)
    }
}

pub(crate) fn date_sub(values: &[Value]) -> Result<Value, CallFault>
    requires { fits_types (ty.Date ∷ ty.Int64 ∷ ty.Text ∷ []) values.now ≡ true }
    ensures { result ≡ answered (rows.date_sub values.now) }
{
    if has_part(values, 2) {
        date_sub_date_int64_string(values)
    } else {
        Ok(Value::Null)
    }
}

pub(crate) fn date_diff(values: &[Value]) -> Result<Value, CallFault>
    requires { fits_types (ty.Date ∷ ty.Date ∷ ty.Text ∷ []) values.now ≡ true }
    ensures { result ≡ answered (rows.date_diff values.now) }
{
    if has_part(values, 2) {
        date_diff_date_date_string(values)
    } else {
        Ok(Value::Null)
    }
}

pub(crate) fn date_trunc(values: &[Value]) -> Result<Value, CallFault>
    requires { fits_types (ty.Date ∷ ty.Text ∷ []) values.now ≡ true }
    ensures { result ≡ answered (rows.date_trunc values.now) }
{
    if has_part(values, 1) {
        date_trunc_date_string(values)
    } else {
        Ok(Value::Null)
    }
}

pub(crate) fn extract(values: &[Value]) -> Result<Value, CallFault>
    requires { fits_types (ty.Text ∷ ty.Date ∷ []) values.now ≡ true }
    ensures { result ≡ answered (rows.extract values.now) }
{
    if has_field(values, 0) {
        extract_string_date(values)
    } else {
        Ok(Value::Null)
    }
}

/// Whether the STRING at a place names a part.
fn has_part(values: &[Value], place: usize) -> bool
    ensures { result ≡ is_some (part_at values.now place) }
{
    match values.get(place) {
        Some(Value::Text(name)) => part_named(name.as_bytes()).is_some(),
        _ => false,
    }
}

/// Whether the STRING at a place names what EXTRACT takes.
fn has_field(values: &[Value], place: usize) -> bool
    ensures { result ≡ is_some (field_at values.now place) }
{
    match values.get(place) {
        Some(Value::Text(name)) => field_named(name.as_bytes()).is_some(),
        _ => false,
    }
}
