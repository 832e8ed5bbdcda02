//! The text of an answer's rows.
ghost use Rattle.std.specs.Prelude.{◌≡◌, ◌++◌, ◌∷◌, [], OnOk, IfOk, map, codes, true};
ghost use Rattle.std.specs.List.{list_all};
ghost use Rattle.sql_ast.specs.Rows as text;
ghost use Rattle.sql_ast.specs.Literals.{dates_fit};

use crate::spelling::write_literals;
use itoa::Buffer;
use sql_types::{Bytes, Column, Items, Rows, Value, Values, write_columns};
use std::alloc::{AllocError, Global};

fn write_header(out: &mut Vec<u8>, columns: &[Column]) -> Result<(), AllocError>
    ensures { OnOk result (out.new.items ≡ out.old.items ++ text.header_text columns.now) }
{
    write_columns(out, columns)?;
    out.push(b'\n')?;
    Ok(())
}

fn write_row(out: &mut Vec<u8>, row: &[Value]) -> Result<(), AllocError>
    requires { list_all dates_fit row.now ≡ true }
    ensures { OnOk result (out.new.items ≡ out.old.items ++ text.row_text row.now) }
{
    write_literals(out, row)?;
    out.push(b'\n')?;
    Ok(())
}

fn write_lines(out: &mut Vec<u8>, rows: &[Values]) -> Result<(), AllocError>
    requires { list_all (λ row. list_all dates_fit row) rows.now ≡ true }
    ensures { OnOk result (out.new.items ≡ out.old.items ++ text.rows_lines rows.now) }
{
    for row in rows {
        write_row(out, row.as_slice())?;
    }
    Ok(())
}

fn write_count(out: &mut Vec<u8>, count: usize) -> Result<(), AllocError>
    ensures { OnOk result (out.new.items ≡ out.old.items ++ text.count_text count) }
{
    out.extend_from_slice(b"rows=")?;
    let mut buffer = Buffer::new();
    out.extend_from_slice(buffer.format(count).as_bytes())?;
    out.push(b'\n')?;
    Ok(())
}

/// The text of rows: a header with the name and type of each column, one line of literals a row, and the number of rows.
pub fn rows_text(alloc: Global, rows: &Rows) -> Result<Bytes, AllocError>
    ensures { IfOk result (λ bytes. bytes ≡ text.RowsText rows.now.columns rows.now.rows) }
{
    let mut out = Vec::new(alloc);
    write_header(&mut out, rows.columns.as_slice())?;
    write_lines(&mut out, rows.rows.as_slice())?;
    write_count(&mut out, rows.rows.len())?;
    Ok(Items::from_vec(out))
}
