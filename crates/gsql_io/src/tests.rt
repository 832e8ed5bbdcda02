//! Whole files and texts over memory, and once over the host.
use crate::{
    Bytes, Calls, Failed, Files, HostFiles, HostOut, Inputs, MemInputs, MemSink, NamedFile,
    OutOfMemory, ReadRefusal, Sink, read_file, write_all,
};
use lists::ListType;
use std::alloc::Global;
use std::fs;
use std::test::Fail;

// Two files: `greeting` holds five bytes, and `empty` none.
fn two_files(alloc: Global) -> Result<Files, OutOfMemory> {
    let mut files = Files::start(alloc);
    files.push(NamedFile {
        name: String::from_str(alloc, "greeting")?,
        bytes: Bytes::from_slice(alloc, b"hello")?,
    })?;
    files.push(NamedFile {
        name: String::from_str(alloc, "empty")?,
        bytes: Bytes::start(alloc),
    })?;
    Ok(files)
}

#[test]
fn reads_whole_files(rt: HostRuntime) -> Result<(), Fail> {
    let alloc = rt.alloc();
    // A name, the calls that fail, a limit, and what is read. Reading `greeting` takes three calls: a begin, a read that
    // gives all, and a read that gives nothing.
    let rows: [(&str, &[u64], u64, Result<&[u8], ReadRefusal>); 9] = [
        ("greeting", &[], 5, Ok(b"hello")),
        ("greeting", &[3, 7], u64::MAX, Ok(b"hello")),
        ("greeting", &[], 4, Err(ReadRefusal::TooLong)),
        ("greeting", &[0], 5, Err(ReadRefusal::Failed)),
        ("greeting", &[1], 5, Err(ReadRefusal::Failed)),
        ("greeting", &[9, 2], 5, Err(ReadRefusal::Failed)),
        ("empty", &[], 0, Ok(b"")),
        ("empty", &[1], 0, Err(ReadRefusal::Failed)),
        ("missing", &[], 5, Err(ReadRefusal::Failed)),
    ];
    for (name, fail_at, limit, want) in rows {
        let fail_at = Calls::from_slice(alloc, fail_at)?;
        let mut inputs = MemInputs::new(two_files(alloc)?, fail_at);
        let got = read_file(alloc, &mut inputs, String::from_str(alloc, name)?, limit);
        match (got, want) {
            (Ok(bytes), Ok(want)) => assert_eq!(rt; bytes.as_slice(), want, "at {name} {limit}"),
            (Err(got), Err(want)) => assert_eq!(rt; got, want, "at {name} {limit}"),
            _ => assert!(rt; false, "at {name} {limit}"),
        }
    }
    Ok(())
}

#[test]
fn fails_in_mid_file(rt: HostRuntime) -> Result<(), Fail> {
    let alloc = rt.alloc();
    let mut inputs = MemInputs::new(two_files(alloc)?, Calls::from_slice(alloc, &[2])?);
    let mut buf = [0u8; 3];
    assert_eq!(rt;
        inputs.read(&mut buf),
        Ok(0),
        "nothing is left before the first begin"
    );
    assert_eq!(rt; inputs.begin(String::from_str(alloc, "greeting")?), Ok(()));
    assert_eq!(rt; inputs.read(&mut buf), Err(Failed), "the call of number 2");
    assert_eq!(rt; inputs.read(&mut buf), Ok(3));
    assert_eq!(rt; buf.as_slice(), b"hel".as_slice());
    assert_eq!(rt; inputs.read(&mut buf), Ok(2));
    assert_eq!(rt; &buf[..2], b"lo".as_slice());
    assert_eq!(rt;
        inputs.begin(String::from_str(alloc, "missing")?),
        Err(Failed)
    );
    assert_eq!(rt;
        inputs.read(&mut buf),
        Ok(0),
        "nothing is left after a begin that failed"
    );
    Ok(())
}

#[test]
fn writes_whole_texts(rt: HostRuntime) -> Result<(), Fail> {
    let alloc = rt.alloc();
    // The calls that fail, the room, what is answered, and what was written. A sink without enough room takes four bytes
    // and fails at its second write.
    let rows: [(&[u64], usize, Result<(), Failed>, &[u8]); 6] = [
        (&[], 5, Ok(()), b"hello"),
        (&[1], 5, Ok(()), b"hello"),
        (&[], 4, Err(Failed), b"hell"),
        (&[1], 4, Err(Failed), b"hell"),
        (&[0], 5, Err(Failed), b""),
        (&[], 0, Err(Failed), b""),
    ];
    for (fail_at, room, want, written) in rows {
        let mut sink = MemSink::new(alloc, Calls::from_slice(alloc, fail_at)?, room)?;
        assert_eq!(rt; write_all(&mut sink, b"hello"), want, "at room {room}");
        assert_eq!(rt; sink.bytes(), written, "at room {room}");
    }
    let mut sink = MemSink::new(alloc, Calls::start(alloc), 0)?;
    assert_eq!(rt; sink.write(b""), Ok(0), "an empty piece needs no room");
    Ok(())
}

#[test]
fn writes_and_reads_a_file_of_the_host(rt: HostRuntime) -> Result<(), Fail> {
    let alloc = rt.alloc();
    let path = "gsql_io_test.txt";
    let mut out = HostOut::new(fs::create(&rt, path)?);
    assert_eq!(rt; write_all(&mut out, b"hello"), Ok(()));
    let mut files = HostFiles::new(&rt);
    let got = read_file(alloc, &mut files, String::from_str(alloc, path)?, 5)?;
    assert_eq!(rt; got.as_slice(), b"hello".as_slice());
    let long = read_file(alloc, &mut files, String::from_str(alloc, path)?, 4);
    assert_eq!(rt; long.err(), Some(ReadRefusal::TooLong));
    fs::remove_file(&rt, path)?;
    let missing = read_file(alloc, &mut files, String::from_str(alloc, path)?, 5);
    assert_eq!(rt; missing.err(), Some(ReadRefusal::Failed));
    Ok(())
}
