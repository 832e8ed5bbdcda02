//! The records of a table file, one after the other.
ghost use Rattle.std.specs.Prelude.{◌≡◌, IfOk};
ghost use Rattle.csv.specs.Records.{fields_of};
ghost use Rattle.csv_tables.specs.Records.{records_of, records_left, IsReading, IsNext};

use csv::{ByteRecord, Reader, ReaderBuilder};
use std::alloc::{AllocError, Global};

/// A reader before the first record of the bytes. Records may have different numbers of fields.
pub(crate) fn open_records(alloc: Global, bytes: &[u8]) -> Reader<&[u8]>
    ensures reading { IsReading result }
    ensures left { records_left result ≡ records_of bytes.now }
{
    ReaderBuilder::new()
        .has_headers(false)
        .flexible(true)
        .from_reader(alloc, bytes)
}

/// Reads the next record into `cells`, and says whether there was one. Bytes in memory are read without a fault, so
/// each error is want of memory.
pub(crate) fn read_next(
    reader: &mut Reader<&[u8]>,
    cells: &mut ByteRecord,
) -> Result<bool, AllocError>
    requires { IsReading reader.old }
    ensures { IfOk result (λ found. IsNext found reader.old (fields_of cells.new) reader.new) }
{
    let Ok(found) = reader.read_byte_record(cells) else {
        return Err(AllocError);
    };
    Ok(found)
}
