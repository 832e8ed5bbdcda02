//! The top call.
ghost use Rattle.std.specs.Prelude.{◌≡◌, ◌⊎◌, [], Result, map, string_bytes};
ghost use Rattle.gsql.specs.Report as report;
ghost use Rattle.gsql.specs.Writing.{Delivers};

use crate::report::{Printed, report};
use crate::status::Status;
use gsql_io::{Failed, Inputs, Sink, write_all};
use std::alloc::Global;

// Writes a report, standard output before standard error. After a failed write nothing more is written.
fn deliver<O: Sink, E: Sink>(printed: Printed, out: &mut O, err: &mut E) -> Result<Status, Failed>
    ensures { Delivers printed.status printed.out printed.err
        (record { old = O.written out.old; new = O.written out.new; before = O.faults out.old; after = O.faults out.new })
        (record { old = E.written err.old; new = E.written err.new; before = E.faults err.old; after = E.faults err.new })
        result }
{
    let Printed {
        status,
        out: text,
        err: line,
    } = printed;
    match write_all(out, text.as_slice()) {
        Ok(()) => match write_all(err, line.as_slice()) {
            Ok(()) => Ok(status),
            Err(Failed) => Err(Failed),
        },
        Err(failed) => Err(failed),
    }
}

/// Runs the program's words over the inputs, and writes its report on standard output and standard error.
///
/// The words are `run`, the name of a catalog, and the name of a query. The whole report is made before the first write.
/// `Done` comes where the query was evaluated: its rows are on `out`, and they are rows that the query's meaning permits
/// over the table that was read. Every other status says why there are none, with one line on `err`: `Usage` by the words,
/// `Refused` with rule 1 where a query has no tokens, at the first byte that can't be read, and with rule 2 at place 0 where a
/// catalog or a query is of another form or the query has no type, `BadTable` where the table file is at fault, with its
/// first faulty record and field, `Limit` where a file has too many bytes or a query nests too deep or is too deep or too
/// heavy, `ReadFault` where a file can't be read. After a failed write the status is `WriteFault`, and a front of the report
/// was written.
/// `OutOfMemory` writes nothing.
pub fn run_gsql<I: Inputs, O: Sink, E: Sink>(
    alloc: Global,
    words: &[String],
    inputs: &mut I,
    out: &mut O,
    err: &mut E,
) -> Status
    ensures { report.Ran (map string_bytes words.now)
        (record { content = I.content inputs.old; begun = I.begun inputs.new; broken = I.broken inputs.new; before = I.faults inputs.old; after = I.faults inputs.new })
        (record { old = O.written out.old; new = O.written out.new; before = O.faults out.old; after = O.faults out.new })
        (record { old = E.written err.old; new = E.written err.new; before = E.faults err.old; after = E.faults err.new })
        result }
{
    let printed = report(alloc, words, inputs);
    match deliver(printed, out, err) {
        Ok(status) => status,
        Err(Failed) => Status::WriteFault,
    }
}
