//! The header of a table file, and its rows.
ghost use Rattle.std.specs.Prelude.{◌≡◌, if◌then◌else◌, nat_lt, length, Some, None, option_and_then, false};
ghost use Rattle.std.specs.Option.{option_map_or, option_copied};
ghost use Rattle.csv.specs.Records.{fields_of};
ghost use Rattle.csv_tables.specs.Cells.{cell_of};
ghost use Rattle.csv_tables.specs.Reads.{Reads, ReadsRow};
ghost use Rattle.csv_tables.specs.Tables as tables;

use crate::cell::read_cell;
use crate::refusal::{CellRefusal, RowRefusal};
use csv::ByteRecord;
use sql_ast::naming::same_letters;
use sql_types::{Column, Items, SqlType, Value, Values};
use std::alloc::Global;

/// The first place at fault of record 0, which holds the names of the columns in order. Case doesn't matter.
pub(crate) fn header_fault(columns: &[Column], cells: &ByteRecord) -> Option<u64>
    ensures { result ≡ tables.header_fault columns.now (fields_of cells.now) }
{
    for place in 0..columns.len() {
        if !is_name(&columns[place], cells.get(place)) {
            return Some(place as u64);
        }
    }
    extra_field(columns, cells)
}

/// The first field behind the columns.
fn extra_field(columns: &[Column], cells: &ByteRecord) -> Option<u64>
    ensures { result ≡ (if nat_lt (length columns.now) (length (fields_of cells.now)) then Some (length columns.now) else None) }
{
    if columns.len() < cells.len() {
        Some(columns.len() as u64)
    } else {
        None
    }
}

fn is_name(column: &Column, cell: Option<&[u8]>) -> bool
    ensures { result ≡ option_map_or (tables.names column.now.name) (option_copied cell.entry) false }
{
    match (&column.name, cell) {
        (Some(name), Some(cell)) => same_letters(name.as_bytes(), cell),
        _ => false,
    }
}

/// The values of a record, one per column. The first place at fault has a cell that writes no value of its column, or
/// no cell, or one too many.
pub(crate) fn read_row(
    alloc: Global,
    columns: &[Column],
    cells: &ByteRecord,
) -> Result<Values, RowRefusal>
    ensures { ReadsRow (tables.row_of columns.now (fields_of cells.now)) result }
{
    let mut values = Items::new(alloc);
    for place in 0..columns.len() {
        let column = &columns[place];
        match read_place(alloc, &column.ty, cells.get(place)) {
            Ok(value) => values.push(value)?,
            Err(CellRefusal::NoValue) => {
                return Err(RowRefusal::Fault {
                    field: place as u64,
                });
            }
            Err(CellRefusal::OutOfMemory) => return Err(RowRefusal::OutOfMemory),
        }
    }
    match extra_field(columns, cells) {
        Some(field) => Err(RowRefusal::Fault { field }),
        None => Ok(values),
    }
}

/// The value at a place, which has none where the cell is missing.
fn read_place(alloc: Global, ty: &SqlType, cell: Option<&[u8]>) -> Result<Value, CellRefusal>
    ensures { Reads (option_and_then (cell_of ty.now) (option_copied cell.entry)) result }
{
    match cell {
        Some(cell) => read_cell(alloc, ty, cell),
        None => Err(CellRefusal::NoValue),
    }
}
