//! Whole runs over memory: the worked examples of the first form, and the faults of the outside.
use crate::run::run_gsql;
use gsql_io::{Bytes, Calls, Files, MemInputs, MemSink, NamedFile};
use sql_types::Items;
use std::alloc::{AllocError, Global};
use std::test::Fail;

const CATALOG: &[u8] =
    b"{\"version\": 1, \"tables\": [{\"name\": \"t\", \"file\": \"t.csv\", \"columns\": [{\"name\": \"a\", \"type\": \"INT64\"}, {\"name\": \"b\", \"type\": \"STRING\"}]}], \"definitions\": [], \"parameters\": []}";

const TABLE: &[u8] = b"a,b\n1,x\n2,y\n2,\\N\n\\N,z\n";

const QUERY: &[u8] = b"SELECT a FROM t WHERE a = 2";

const ROWS: &[u8] = b"a INT64\n2\n2\nrows=2\n";

fn named(alloc: Global, name: &str, bytes: &[u8]) -> Result<NamedFile, AllocError> {
    Ok(NamedFile {
        name: String::from_str(alloc, name)?,
        bytes: Items::from_slice(alloc, bytes)?,
    })
}

fn files(alloc: Global, query: &[u8], table: &[u8]) -> Result<Files, AllocError> {
    let mut files = Items::new(alloc);
    files.push(named(alloc, "c.json", CATALOG)?)?;
    files.push(named(alloc, "q.sql", query)?)?;
    files.push(named(alloc, "t.csv", table)?)?;
    Ok(files)
}

fn calls(alloc: Global, numbers: &[u64]) -> Result<Calls, AllocError> {
    Items::from_slice(alloc, numbers)
}

// What a run ends with: the exit status, and what was written on standard output and standard error.
#[derive(Drop)]
struct Ended {
    code: u8,
    out: MemSink,
    err: MemSink,
}

fn run(
    alloc: Global,
    words: [&str; 3],
    inputs: MemInputs,
    out: MemSink,
) -> Result<Ended, AllocError> {
    let mut inputs = inputs;
    let mut out = out;
    let mut err = MemSink::new(alloc, Items::new(alloc), 64)?;
    let mut all = Vec::new(alloc);
    for word in words {
        all.push(String::from_str(alloc, word)?)?;
    }
    let status = run_gsql(alloc, all.as_slice(), &mut inputs, &mut out, &mut err);
    let code = status.exit_code();
    Ok(Ended { code, out, err })
}

fn run_query(alloc: Global, query: &[u8], table: &[u8]) -> Result<Ended, AllocError> {
    let inputs = MemInputs::new(files(alloc, query, table)?, Items::new(alloc));
    let out = MemSink::new(alloc, Items::new(alloc), 4096)?;
    run(alloc, ["run", "c.json", "q.sql"], inputs, out)
}

#[test]
fn rows(rt: HostRuntime) -> Result<(), Fail> {
    let alloc = rt.alloc();
    let table: [(&[u8], &[u8], &[u8]); 6] = [
        (QUERY, TABLE, ROWS),
        (
            b"select b, a from T where B = 'y'",
            TABLE,
            b"b STRING, a INT64\n\"y\", 2\nrows=1\n",
        ),
        (
            b"SELECT a, a FROM t WHERE a = 7",
            TABLE,
            b"a INT64, a INT64\nrows=0\n",
        ),
        (
            b"SELECT b FROM t WHERE a = 2",
            b"A,B\n2,\\\\N\n\n2,\"x, \"\"y\"\"\nz\"\n",
            b"b STRING\n\"\\\\N\"\n\"x, \\\"y\\\"\\nz\"\nrows=2\n",
        ),
        (
            b"SELECT a FROM t WHERE b = ''",
            b"a,b\n,\n1,\n",
            b"a INT64\nNULL\n1\nrows=2\n",
        ),
        (
            b"SELECT a -- all of it\n FROM `t` WHERE a = 0x7FFFFFFFFFFFFFFF",
            b"a,b\n0x7fffffffffffffff,u\n",
            b"a INT64\n9223372036854775807\nrows=1\n",
        ),
    ];
    for (query, cells, text) in table {
        let ended = run_query(alloc, query, cells)?;
        assert_eq!(rt; ended.out.bytes(), text);
        assert_eq!(rt; ended.err.bytes(), b"".as_slice());
        assert_eq!(rt; ended.code, 0);
    }
    Ok(())
}

#[test]
fn refusals(rt: HostRuntime) -> Result<(), Fail> {
    let alloc = rt.alloc();
    let table: [(&[u8], &[u8]); 13] = [
        (b"SELECT a FROM t WHERE z = 2", b"REFUSED 2 0\n"),
        (b"SELECT a FROM t", b"REFUSED 2 0\n"),
        (b"SELECT t FROM t WHERE a = 2", b"REFUSED 2 0\n"),
        (b"SELECT a FROM t WHERE a = 'x'", b"REFUSED 2 0\n"),
        (b"SELECT a FROM q WHERE a = 2", b"REFUSED 2 0\n"),
        (b"SELECT 'abc", b"REFUSED 1 7\n"),
        (b"SELECT 1 /*", b"REFUSED 1 9\n"),
        (b"SELECT 1;;", b"REFUSED 1 9\n"),
        (b"", b"REFUSED 1 0\n"),
        (b"SELECT a FROM t,", b"REFUSED 1 16\n"),
        (b"SELECT a FROM t, t FULL JOIN t ON TRUE", b"REFUSED 1 19\n"),
        (b"SELECT (a + 1", b"REFUSED 1 13\n"),
        (b"SELECT a IN ((SELECT 1)) FROM t", b"REFUSED 2 0\n"),
    ];
    for (query, line) in table {
        let ended = run_query(alloc, query, TABLE)?;
        assert_eq!(rt; ended.out.bytes(), b"".as_slice());
        assert_eq!(rt; ended.err.bytes(), line);
        assert_eq!(rt; ended.code, 1);
    }
    Ok(())
}

#[test]
fn bad_tables(rt: HostRuntime) -> Result<(), Fail> {
    let alloc = rt.alloc();
    let table: [(&[u8], &[u8]); 4] = [
        (b"a,b\n1,x\n5\n", b"BADTABLE 0 2 1\n"),
        (b"", b"BADTABLE 0 0 0\n"),
        (b"a,c\n", b"BADTABLE 0 0 1\n"),
        (b"a,b\nx,1\n", b"BADTABLE 0 1 0\n"),
    ];
    for (cells, line) in table {
        let ended = run_query(alloc, QUERY, cells)?;
        assert_eq!(rt; ended.out.bytes(), b"".as_slice());
        assert_eq!(rt; ended.err.bytes(), line);
        assert_eq!(rt; ended.code, 5);
    }
    Ok(())
}

// `SELECT`, a space, this part so many times, and an end.
fn repeated(alloc: Global, part: &[u8], count: usize, end: &[u8]) -> Result<Bytes, AllocError> {
    let mut text = Vec::from_slice(alloc, b"SELECT ")?;
    for _ in 0..count {
        text.extend_from_slice(part)?;
    }
    text.extend_from_slice(end)?;
    Ok(Items::from_vec(text))
}

#[test]
fn limits(rt: HostRuntime) -> Result<(), Fail> {
    let alloc = rt.alloc();
    let table: [(&[u8], usize, &[u8], &[u8], u8); 7] = [
        (b"(", 200, b"", b"REFUSED 1 207\n", 1),
        (b"(", 201, b"", b"LIMIT Nest\n", 6),
        (b"(", 1_048_570, b"", b"LIMIT QueryBytes\n", 6),
        (b"NOT ", 389, b"TRUE", b"REFUSED 2 0\n", 1),
        (b"NOT ", 390, b"TRUE", b"LIMIT Depth\n", 6),
        (b"1, ", 99_998, b"1", b"REFUSED 2 0\n", 1),
        (b"1, ", 99_999, b"1", b"LIMIT Weight\n", 6),
    ];
    for (part, count, end, line, code) in table {
        let query = repeated(alloc, part, count, end)?;
        let ended = run_query(alloc, query.as_slice(), TABLE)?;
        assert_eq!(rt; ended.out.bytes(), b"".as_slice());
        assert_eq!(rt; ended.err.bytes(), line);
        assert_eq!(rt; ended.code, code);
    }
    Ok(())
}

#[test]
fn words_and_reads(rt: HostRuntime) -> Result<(), Fail> {
    let alloc = rt.alloc();
    let table: [([&str; 3], &[u64], &[u8], u8); 6] = [
        (["walk", "c.json", "q.sql"], &[], b"USAGE Words\n", 3),
        (["run", "c.json", "-q"], &[], b"USAGE Words\n", 3),
        (["run", "d.json", "q.sql"], &[], b"READFAULT 0\n", 7),
        (["run", "c.json", "r.sql"], &[], b"READFAULT 1\n", 7),
        // Each file takes one `begin` and two reads.
        (["run", "c.json", "q.sql"], &[8], b"READFAULT 2\n", 7),
        (["run", "c.json", "q.sql"], &[6], b"READFAULT 2\n", 7),
    ];
    for (words, fail_at, line, code) in table {
        let inputs = MemInputs::new(files(alloc, QUERY, TABLE)?, calls(alloc, fail_at)?);
        let out = MemSink::new(alloc, Items::new(alloc), 4096)?;
        let ended = run(alloc, words, inputs, out)?;
        assert_eq!(rt; ended.out.bytes(), b"".as_slice());
        assert_eq!(rt; ended.err.bytes(), line);
        assert_eq!(rt; ended.code, code);
    }
    Ok(())
}

#[test]
fn writes(rt: HostRuntime) -> Result<(), Fail> {
    let alloc = rt.alloc();
    let table: [(&[u64], usize, &[u8]); 3] = [(&[1], 4, b"a IN"), (&[], 0, b""), (&[0], 64, b"")];
    for (fail_at, room, text) in table {
        let inputs = MemInputs::new(files(alloc, QUERY, TABLE)?, Items::new(alloc));
        let out = MemSink::new(alloc, calls(alloc, fail_at)?, room)?;
        let ended = run(alloc, ["run", "c.json", "q.sql"], inputs, out)?;
        assert_eq!(rt; ended.out.bytes(), text);
        assert_eq!(rt; ended.err.bytes(), b"".as_slice());
        assert_eq!(rt; ended.code, 8);
    }
    Ok(())
}
