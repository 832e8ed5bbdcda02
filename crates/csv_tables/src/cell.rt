//! The value of a cell, by the type of its column.
ghost use Rattle.std.specs.Prelude.{◌≡◌, ◌==◌, option_and_then, option_map};
ghost use Rattle.sql_types.specs.Calendar as calendar;
ghost use Rattle.sql_types.specs.declared.value.Value.TheVariants as values;
ghost use Rattle.std.specs.List.{list_all};
ghost use Rattle.sql_types.specs.declared.sql_type.SqlType.{out-SqlType};
ghost use Rattle.sql_coerce.specs.Casts as casts;
ghost use Rattle.sql_coerce.specs.Numerals.{integer};
ghost use Rattle.sql_constants.specs.Values.{constant_value};
ghost use Rattle.csv_tables.specs.Cells as cells;
ghost use Rattle.csv_tables.specs.Reads.{Reads};

use crate::refusal::CellRefusal;
use hex::FromHexError;
use sql_coerce::{read_bool, read_integer};
use sql_constants::laws::one_constant;
use sql_constants::{integer_value, parse_constant};
use sql_types::{Bytes, Items, SqlType, Text, Value, read_date};
use std::alloc::Global;
use std::str;

/// The value of a cell. `\N` is NULL for each type. A STRING is its text in UTF-8, where two or more backslashes and then
/// `N` have one backslash too many, and BYTES are an even number of hex digits. For each other type an empty cell is NULL;
/// BOOL, integers and DATE are as in the cast from STRING, and an ARRAY or a STRUCT is a constant.
pub(crate) fn read_cell(alloc: Global, ty: &SqlType, cell: &[u8]) -> Result<Value, CellRefusal>
    ensures { Reads (cells.cell_of ty.now cell.now) result }
{
    if is_null_mark(cell) {
        return Ok(Value::Null);
    }
    match ty {
        SqlType::Text => Ok(Value::Text(read_text(alloc, cell)?)),
        SqlType::Bytes => Ok(Value::Bytes(read_hex(alloc, cell)?)),
        SqlType::Bool => read_truth(cell),
        SqlType::Date => read_day(cell),
        SqlType::Array(_) => read_constant(alloc, ty, cell),
        SqlType::Struct(_) => read_constant(alloc, ty, cell),
        _ => read_number(ty, cell),
    }
}

/// The BOOL that a cell writes.
fn read_truth(cell: &[u8]) -> Result<Value, CellRefusal>
    ensures { Reads (cells.unless_empty cell.now (option_map values.Bool (casts.truth_of_text cell.now))) result }
{
    if cell.is_empty() {
        return Ok(Value::Null);
    }
    Ok(Value::Bool(read_bool(cell).ok_or(CellRefusal::NoValue)?))
}

/// The DATE that a cell writes.
fn read_day(cell: &[u8]) -> Result<Value, CellRefusal>
    ensures { Reads (cells.unless_empty cell.now (option_map values.Date (calendar.read_date cell.now))) result }
{
    if cell.is_empty() {
        return Ok(Value::Null);
    }
    Ok(Value::Date(read_date(cell).ok_or(CellRefusal::NoValue)?))
}

/// The value of an integer type that a cell writes.
fn read_number(ty: &SqlType, cell: &[u8]) -> Result<Value, CellRefusal>
    ensures { Reads (cells.unless_empty cell.now (option_and_then (casts.integer_value (out-SqlType ty.now)) (integer cell.now))) result }
{
    if cell.is_empty() {
        return Ok(Value::Null);
    }
    match number_value(ty, cell) {
        Some(value) => Ok(value),
        None => Err(CellRefusal::NoValue),
    }
}

#[tactic(auto, using(sql_coerce::proofs::CastLaws::value_first))]
fn number_value(ty: &SqlType, cell: &[u8]) -> Option<Value>
    ensures { result ≡ option_and_then (casts.integer_value (out-SqlType ty.now)) (integer cell.now) }
{
    known_number(ty, read_integer(cell))
}

fn known_number(ty: &SqlType, number: Option<i128>) -> Option<Value>
    ensures { result ≡ option_and_then (casts.integer_value (out-SqlType ty.now)) number }
{
    integer_value(ty, number?)
}

/// The constant that a cell is.
fn read_constant(alloc: Global, ty: &SqlType, cell: &[u8]) -> Result<Value, CellRefusal>
    ensures { Reads (cells.unless_empty cell.now (constant_value ty.now cell.now)) result }
{
    if cell.is_empty() {
        return Ok(Value::Null);
    }
    one_constant();
    match parse_constant(alloc, cell, ty)? {
        Some(value) => Ok(value),
        None => Err(CellRefusal::NoValue),
    }
}

/// The bytes that hex digits write, two digits a byte.
fn read_hex(alloc: Global, cell: &[u8]) -> Result<Bytes, CellRefusal>
    ensures { Reads (cells.hex_bytes cell.now) result }
{
    match hex::decode(alloc, cell) {
        Ok(bytes) => Ok(Items::from_vec(bytes)),
        Err(FromHexError::OutOfMemory) => Err(CellRefusal::OutOfMemory),
        Err(_) => Err(CellRefusal::NoValue),
    }
}

fn is_null_mark(cell: &[u8]) -> bool
    ensures { result ≡ cells.is_null_mark cell.now }
{
    cell == b"\\N".as_slice()
}

/// Two or more backslashes and then `N`. They stand for the text with one backslash less.
fn is_escaped_mark(cell: &[u8]) -> bool
    ensures { result ≡ cells.is_escaped_mark cell.now }
{
    if cell.len() < 3 {
        return false;
    }
    let last = cell.len() - 1;
    cell[last] == b'N' && are_backslashes(&cell[..last])
}

fn are_backslashes(bytes: &[u8]) -> bool
    ensures { result ≡ list_all (λ c. c == cells.backslash) bytes.now }
{
    bytes.iter().all(|c| *c == b'\\')
}

/// The bytes of the text that a STRING cell writes.
#[tactic(auto, using(std::proofs::lemmas::List::take_rest))]
fn text_bytes(cell: &[u8]) -> &[u8]
    ensures { result.now ≡ cells.text_bytes cell.now }
{
    if is_escaped_mark(cell) {
        &cell[1..]
    } else {
        cell
    }
}

fn read_text(alloc: Global, cell: &[u8]) -> Result<Text, CellRefusal>
    ensures { Reads (cells.text_of cell.now) result }
{
    match str::from_utf8(text_bytes(cell)) {
        Ok(text) => Ok(Text::copy_of(alloc, text)?),
        Err(_) => Err(CellRefusal::NoValue),
    }
}
