//! Functions on the 64 bits of a number, of an INT64 those of its two's complement. A call with a NULL argument is NULL.
ghost use Rattle.std.specs.Prelude.{◌≡◌, [], ◌∷◌, true, Ok};
ghost use Rattle.sql_types.specs.declared.sql_type.SqlType.TheVariants as types;
ghost use Rattle.sql_types.specs.Takes.{fits_types, number};
ghost use Rattle.sql_types.specs.Fits.{fits};
ghost use Rattle.sql_types.specs.declared.value.Value.TheVariants as value;
ghost use Rattle.std.specs.Int.{w64, cast_unsigned, cast_signed};
ghost use Rattle.sql_numbers.specs.Integers as rows;

use crate::arguments::{as_places, int_of, some_null, uint_of};
use sql_types::{FaultKind, Value};

/// `~` of an INT64: each bit flipped.
pub fn flip_int64(values: &[Value]) -> Value
    requires { fits_types (types.Int64 ∷ []) values.now ≡ true }
    ensures { Ok result ≡ rows.apply_flip rows.int64_bits values.now }
{
    if some_null(values) {
        return Value::Null;
    }
    match values {
        [number] => signed(!bits_of(number)),
        _ => Value::Null,
    }
}

/// `~` of a UINT64: each bit flipped.
pub fn flip_uint64(values: &[Value]) -> Value
    requires { fits_types (types.Uint64 ∷ []) values.now ≡ true }
    ensures { Ok result ≡ rows.apply_flip rows.uint64_bits values.now }
{
    if some_null(values) {
        return Value::Null;
    }
    match values {
        [number] => Value::Uint(!uint_of(number)),
        _ => Value::Null,
    }
}

/// `&` of two INT64: AND bit by bit.
pub fn bitand_int64_int64(values: &[Value]) -> Value
    requires { fits_types (types.Int64 ∷ types.Int64 ∷ []) values.now ≡ true }
    ensures { Ok result ≡ rows.apply_bitand rows.int64_bits values.now }
{
    if some_null(values) {
        return Value::Null;
    }
    match values {
        [left, right] => signed(bits_of(left) & bits_of(right)),
        _ => Value::Null,
    }
}

/// `&` of two UINT64: AND bit by bit.
pub fn bitand_uint64_uint64(values: &[Value]) -> Value
    requires { fits_types (types.Uint64 ∷ types.Uint64 ∷ []) values.now ≡ true }
    ensures { Ok result ≡ rows.apply_bitand rows.uint64_bits values.now }
{
    if some_null(values) {
        return Value::Null;
    }
    match values {
        [left, right] => Value::Uint(uint_of(left) & uint_of(right)),
        _ => Value::Null,
    }
}

/// `^` of two INT64: exclusive OR bit by bit.
pub fn bitxor_int64_int64(values: &[Value]) -> Value
    requires { fits_types (types.Int64 ∷ types.Int64 ∷ []) values.now ≡ true }
    ensures { Ok result ≡ rows.apply_bitxor rows.int64_bits values.now }
{
    if some_null(values) {
        return Value::Null;
    }
    match values {
        [left, right] => signed(bits_of(left) ^ bits_of(right)),
        _ => Value::Null,
    }
}

/// `^` of two UINT64: exclusive OR bit by bit.
pub fn bitxor_uint64_uint64(values: &[Value]) -> Value
    requires { fits_types (types.Uint64 ∷ types.Uint64 ∷ []) values.now ≡ true }
    ensures { Ok result ≡ rows.apply_bitxor rows.uint64_bits values.now }
{
    if some_null(values) {
        return Value::Null;
    }
    match values {
        [left, right] => Value::Uint(uint_of(left) ^ uint_of(right)),
        _ => Value::Null,
    }
}

/// `|` of two INT64: OR bit by bit.
pub fn bitor_int64_int64(values: &[Value]) -> Value
    requires { fits_types (types.Int64 ∷ types.Int64 ∷ []) values.now ≡ true }
    ensures { Ok result ≡ rows.apply_bitor rows.int64_bits values.now }
{
    if some_null(values) {
        return Value::Null;
    }
    match values {
        [left, right] => signed(bits_of(left) | bits_of(right)),
        _ => Value::Null,
    }
}

/// `|` of two UINT64: OR bit by bit.
pub fn bitor_uint64_uint64(values: &[Value]) -> Value
    requires { fits_types (types.Uint64 ∷ types.Uint64 ∷ []) values.now ≡ true }
    ensures { Ok result ≡ rows.apply_bitor rows.uint64_bits values.now }
{
    if some_null(values) {
        return Value::Null;
    }
    match values {
        [left, right] => Value::Uint(uint_of(left) | uint_of(right)),
        _ => Value::Null,
    }
}

/// `<<` of an INT64: so many places to the left, and zeros come in. From 64 places on it is 0, and a negative place is ARGUMENT.
pub fn shl_int64_int64(values: &[Value]) -> Result<Value, FaultKind>
    requires { fits_types (types.Int64 ∷ types.Int64 ∷ []) values.now ≡ true }
    ensures { result ≡ rows.apply_shl rows.int64_bits values.now }
{
    if some_null(values) {
        return Ok(Value::Null);
    }
    match values {
        [number, places] => match as_places(int_of(places)) {
            Ok(places) => Ok(signed(shifted_left(bits_of(number), places))),
            Err(fault) => Err(fault),
        },
        _ => Ok(Value::Null),
    }
}

/// `<<` of a UINT64: so many places to the left, and zeros come in. From 64 places on it is 0, and a negative place is ARGUMENT.
pub fn shl_uint64_int64(values: &[Value]) -> Result<Value, FaultKind>
    requires { fits_types (types.Uint64 ∷ types.Int64 ∷ []) values.now ≡ true }
    ensures { result ≡ rows.apply_shl rows.uint64_bits values.now }
{
    if some_null(values) {
        return Ok(Value::Null);
    }
    match values {
        [number, places] => match as_places(int_of(places)) {
            Ok(places) => Ok(Value::Uint(shifted_left(uint_of(number), places))),
            Err(fault) => Err(fault),
        },
        _ => Ok(Value::Null),
    }
}

/// `>>` of an INT64: so many places to the right, and zeros come in. From 64 places on it is 0, and a negative place is ARGUMENT.
pub fn shr_int64_int64(values: &[Value]) -> Result<Value, FaultKind>
    requires { fits_types (types.Int64 ∷ types.Int64 ∷ []) values.now ≡ true }
    ensures { result ≡ rows.apply_shr rows.int64_bits values.now }
{
    if some_null(values) {
        return Ok(Value::Null);
    }
    match values {
        [number, places] => match as_places(int_of(places)) {
            Ok(places) => Ok(signed(shifted_right(bits_of(number), places))),
            Err(fault) => Err(fault),
        },
        _ => Ok(Value::Null),
    }
}

/// `>>` of a UINT64: so many places to the right, and zeros come in. From 64 places on it is 0, and a negative place is ARGUMENT.
pub fn shr_uint64_int64(values: &[Value]) -> Result<Value, FaultKind>
    requires { fits_types (types.Uint64 ∷ types.Int64 ∷ []) values.now ≡ true }
    ensures { result ≡ rows.apply_shr rows.uint64_bits values.now }
{
    if some_null(values) {
        return Ok(Value::Null);
    }
    match values {
        [number, places] => match as_places(int_of(places)) {
            Ok(places) => Ok(Value::Uint(shifted_right(uint_of(number), places))),
            Err(fault) => Err(fault),
        },
        _ => Ok(Value::Null),
    }
}

/// The bits of an INT64.
fn bits_of(value: &Value) -> u64
    requires { fits types.Int64 value.now ≡ true }
    ensures { result ≡ cast_unsigned w64 (number value.now) }
{
    int_of(value).cast_unsigned()
}

/// The INT64 with these bits.
fn signed(bits: u64) -> Value
    ensures { result ≡ value.Int (cast_signed w64 bits) }
{
    Value::Int(bits.cast_signed())
}

fn shifted_left(bits: u64, places: u64) -> u64
    ensures { result ≡ rows.shifted_left bits places }
{
    if places < 64 { bits << places } else { 0 }
}

fn shifted_right(bits: u64, places: u64) -> u64
    ensures { result ≡ rows.shifted_right bits places }
{
    if places < 64 { bits >> places } else { 0 }
}
