//! What a run reports: its status, and the whole texts for standard output and standard error.
ghost use Rattle.std.specs.Prelude.{◌≡◌, ◌++◌, ◌∷◌, [], IfOk, map, string_bytes};
ghost use Rattle.gsql.specs.Report as report;
ghost use Rattle.gsql.specs.Told.{Tells};

use crate::arguments::asked;
use crate::stages::catalog_stage;
use crate::status::{LimitName, Status, UsageKind};
use crate::stop::Stop;
use gsql_io::{Bytes, Inputs};
use itoa::Buffer;
use sql_ast::rows_text;
use sql_types::{Items, Rows};
use std::alloc::{AllocError, Global};

/// A report that isn't written yet.
#[derive(Drop)]
pub struct Printed {
    pub status: Status,
    pub out: Bytes,
    pub err: Bytes,
}

fn line(alloc: Global, text: &[u8]) -> Result<Bytes, AllocError>
    ensures { IfOk result (λ bytes. bytes ≡ text.now ++ 10 ∷ []) }
{
    let mut line = Vec::from_slice(alloc, text)?;
    line.push(b'\n')?;
    Ok(Items::from_vec(line))
}

fn refused_line(alloc: Global, rule: u8, place: u64) -> Result<Bytes, AllocError>
    ensures { IfOk result (λ bytes. bytes ≡ report.refused_line rule place) }
{
    let mut line = Vec::from_slice(alloc, b"REFUSED ")?;
    let mut buffer = Buffer::new();
    line.extend_from_slice(buffer.format(rule).as_bytes())?;
    line.push(b' ')?;
    line.extend_from_slice(buffer.format(place).as_bytes())?;
    line.push(b'\n')?;
    Ok(Items::from_vec(line))
}

fn bad_table_line(alloc: Global, table: u64, row: u64, field: u64) -> Result<Bytes, AllocError>
    ensures { IfOk result (λ bytes. bytes ≡ report.bad_table_line table row field) }
{
    let mut line = Vec::from_slice(alloc, b"BADTABLE ")?;
    let mut buffer = Buffer::new();
    line.extend_from_slice(buffer.format(table).as_bytes())?;
    line.push(b' ')?;
    line.extend_from_slice(buffer.format(row).as_bytes())?;
    line.push(b' ')?;
    line.extend_from_slice(buffer.format(field).as_bytes())?;
    line.push(b'\n')?;
    Ok(Items::from_vec(line))
}

fn limit_line(alloc: Global, name: LimitName) -> Result<Bytes, AllocError>
    ensures { IfOk result (λ bytes. bytes ≡ report.limit_line name) }
{
    let mut line = Vec::from_slice(alloc, b"LIMIT ")?;
    line.extend_from_slice(name.name())?;
    line.push(b'\n')?;
    Ok(Items::from_vec(line))
}

fn read_fault_line(alloc: Global, file: u64) -> Result<Bytes, AllocError>
    ensures { IfOk result (λ bytes. bytes ≡ report.read_fault_line file) }
{
    let mut line = Vec::from_slice(alloc, b"READFAULT ")?;
    let mut buffer = Buffer::new();
    line.extend_from_slice(buffer.format(file).as_bytes())?;
    line.push(b'\n')?;
    Ok(Items::from_vec(line))
}

fn out_of_memory(alloc: Global) -> Printed
    ensures { result ≡ record { status = Status.OutOfMemory; out = []; err = [] } }
{
    Printed {
        status: Status::OutOfMemory,
        out: Items::new(alloc),
        err: Items::new(alloc),
    }
}

fn refused(alloc: Global, rule: u8, place: u64) -> Result<Printed, AllocError>
    ensures { IfOk result (λ p. (p.status ≡ Status.Refused rule place) × (p.out ≡ []) × (p.err ≡ report.refused_line rule place)) }
{
    Ok(Printed {
        out: Items::new(alloc),
        err: refused_line(alloc, rule, place)?,
        status: Status::Refused { rule, place },
    })
}

// The only table of the catalog is number 0.
fn bad_table(alloc: Global, row: u64, field: u64) -> Result<Printed, AllocError>
    ensures { IfOk result (λ p. (p.status ≡ Status.BadTable 0 row field) × (p.out ≡ []) × (p.err ≡ report.bad_table_line 0 row field)) }
{
    let table = 0;
    Ok(Printed {
        out: Items::new(alloc),
        err: bad_table_line(alloc, table, row, field)?,
        status: Status::BadTable { table, row, field },
    })
}

// The report of an answer.
fn told(alloc: Global, answer: Result<Rows, Stop>) -> Result<Printed, AllocError>
    ensures { IfOk result (λ p. Tells answer p.status p.out p.err) }
{
    match answer {
        Ok(rows) => Ok(Printed {
            out: rows_text(alloc, &rows)?,
            err: Items::new(alloc),
            status: Status::Done {
                tree: Items::new(alloc),
            },
        }),
        Err(Stop::Unread(place)) => refused(alloc, 1, place),
        Err(Stop::OtherForm) => refused(alloc, 2, 0),
        Err(Stop::BadTable { row, field }) => bad_table(alloc, row, field),
        Err(Stop::Limit(name)) => Ok(Printed {
            out: Items::new(alloc),
            err: limit_line(alloc, name)?,
            status: Status::Limit { name },
        }),
        Err(Stop::ReadFault(file)) => Ok(Printed {
            out: Items::new(alloc),
            err: read_fault_line(alloc, file)?,
            status: Status::ReadFault { file },
        }),
        Err(Stop::OutOfMemory) => Ok(out_of_memory(alloc)),
    }
}

fn usage(alloc: Global) -> Result<Printed, AllocError>
    ensures { IfOk result (λ p. (p.status ≡ Status.Usage UsageKind.Words) × (p.out ≡ []) × (p.err ≡ report.usage_line)) }
{
    Ok(Printed {
        out: Items::new(alloc),
        err: line(alloc, b"USAGE Words")?,
        status: Status::Usage {
            kind: UsageKind::Words,
        },
    })
}

// The report of the stages that the words ask for.
fn asked_report<I: Inputs>(
    alloc: Global,
    words: &[String],
    inputs: &mut I,
) -> Result<Printed, AllocError>
    ensures { IfOk result (λ p. report.Report (map string_bytes words.now)
        (record { content = I.content inputs.old; begun = I.begun inputs.new; broken = I.broken inputs.new; before = I.faults inputs.old; after = I.faults inputs.new })
        p.status p.out p.err) }
{
    match asked(words) {
        None => usage(alloc),
        Some((catalog, query)) => told(alloc, catalog_stage(alloc, inputs, catalog, query)),
    }
}

/// The whole report of a run. Nothing is written yet.
pub fn report<I: Inputs>(alloc: Global, words: &[String], inputs: &mut I) -> Printed
    ensures { report.Report (map string_bytes words.now)
        (record { content = I.content inputs.old; begun = I.begun inputs.new; broken = I.broken inputs.new; before = I.faults inputs.old; after = I.faults inputs.new })
        result.status result.out result.err }
{
    match asked_report(alloc, words, inputs) {
        Ok(printed) => printed,
        Err(_) => out_of_memory(alloc),
    }
}
