//! A table file as a whole.
ghost use Rattle.std.specs.Prelude.{◌≡◌, ℕ, ◌+◌, length, [], Ok, IfOk, IfErr};
ghost use Rattle.csv_tables.specs.Reads.{IsFaultOf};
ghost use Rattle.csv_tables.specs.Records.{IsReading, records_left};
ghost use Rattle.csv_tables.specs.Tables.{TableOf, rows_from};

use crate::records::{open_records, read_next};
use crate::refusal::{RowRefusal, TableRefusal};
use crate::row::{header_fault, read_row};
use csv::{ByteRecord, Reader};
use sql_catalog::TableDef;
use sql_types::{Rows, copy_columns};
use std::alloc::Global;

/// The rows of a table from the bytes of its file, which are CSV. Record 0 holds the names of the columns in order, case
/// aside, and each later record is a row, with one cell per column.
///
/// A fault is the first one: a cell that isn't the name of its column, or that writes no value of the column's type, or
/// the first place of a record that is missing or too many. A file with no record is at fault at record 0, field 0.
#[tactic(auto, unfolding(crate::specs::Tables::TableOf))]
pub fn read_table(alloc: Global, table: &TableDef, bytes: &[u8]) -> Result<Rows, TableRefusal>
    ensures columns { IfOk result (λ rows. rows.columns ≡ table.now.columns) }
    ensures rows { IfOk result (λ rows. TableOf table.now.columns bytes.now ≡ Ok rows.rows) }
    ensures fault { (row field : ℕ) → result ≡ Err (TableRefusal.Fault row field) → TableOf table.now.columns bytes.now ≡ Err (row, field) }
{
    let columns = table.columns.as_slice();
    let mut reader = open_records(alloc, bytes);
    let mut cells = ByteRecord::new(alloc);
    if !read_next(&mut reader, &mut cells)? {
        return Err(TableRefusal::Fault { row: 0, field: 0 });
    }
    if let Some(field) = header_fault(columns, &cells) {
        return Err(TableRefusal::Fault { row: 0, field });
    }
    let rows = Rows::start(alloc, copy_columns(alloc, &table.columns)?);
    read_rows(alloc, rows, &mut reader, &mut cells)
}

/// Adds the rows that the reader has still to give. It stands behind the header.
fn read_rows(
    alloc: Global,
    mut rows: Rows,
    reader: &mut Reader<&[u8]>,
    cells: &mut ByteRecord,
) -> Result<Rows, TableRefusal>
    requires reading { IsReading reader.old }
    requires none { rows.rows ≡ [] }
    ensures columns { IfOk result (λ read. read.columns ≡ rows.columns) }
    ensures ok { IfOk result (λ read. rows_from rows.columns 1 (records_left reader.old) ≡ Ok read.rows) }
    ensures fault { IfErr result (IsFaultOf (rows_from rows.columns 1 (records_left reader.old))) }
{
    'records: while read_next(reader, cells)? {
        let number = next_number(&rows);
        match read_row(alloc, rows.columns.as_slice(), cells) {
            Ok(row) => rows.add(row)?,
            Err(RowRefusal::Fault { field }) => {
                return Err(TableRefusal::Fault { row: number, field });
            }
            Err(RowRefusal::OutOfMemory) => return Err(TableRefusal::OutOfMemory),
        }
    }
    Ok(rows)
}

/// The number of the record behind these rows. The header is record 0.
fn next_number(rows: &Rows) -> u64
    ensures { result ≡ length rows.now.rows + 1 }
{
    rows.rows.as_slice().len() as u64 + 1
}
