//! Whole files in, whole texts out.
ghost use Rattle.std.specs.Prelude.{◌≡◌, ℕ, ◌<◌, ◌≤◌, ◌+◌, List, length, Some, None, false, IfOk, OnOk, OnErr, IfNone, string_bytes};
ghost use Rattle.std.specs.Io.KnownBytes.{Appends};
ghost use Rattle.gsql_io.specs.Outside.{Rose};
ghost use Rattle.gsql_io.specs.Whole.{IsReadOf, Leaves, Counts, is_failed, WritesPrefix};

use crate::inputs::{Failed, Inputs};
use crate::sink::Sink;
use lists::{Bytes, Items};
use std::alloc::Global;

/// Why a file was not read.
#[derive(Clone, Copy, Debug, PartialEq, Eq)]
pub enum ReadRefusal {
    /// A call of the inputs failed. Their count of faults rose in this call, `begun` is the file's name, and `broken`
    /// holds.
    Failed,
    /// The file has more bytes than the limit. One byte more than the limit was read.
    TooLong,
    /// Memory ran out.
    OutOfMemory,
}

/// Reads a file from its start to its end, where it has at most `limit` bytes.
///
/// It is `TooLong` exactly where more than `limit` bytes can be read, and stops after `limit + 1` of them. It is `Failed`
/// only where the count of faults rose. With every other answer the count is as it was and the file is not broken. What
/// the files hold does not change.
pub fn read_file<I: Inputs>(
    alloc: Global,
    inputs: &mut I,
    name: String,
    limit: u64,
) -> Result<Bytes, ReadRefusal>
    ensures reads { IsReadOf (I.content inputs.old (string_bytes name)) limit result }
    ensures leaves { Leaves (I.content inputs.old (string_bytes name)) (I.left inputs.new) limit result }
    ensures begins { I.begun inputs.new ≡ Some (string_bytes name) }
    ensures breaks { I.broken inputs.new ≡ is_failed result }
    ensures same_content { I.content inputs.new ≡ I.content inputs.old }
    ensures counts { Counts (I.faults inputs.old) (I.faults inputs.new) result }
    ensures never_falls { I.faults inputs.old ≤ I.faults inputs.new }
{
    match inputs.begin(name) {
        Ok(()) => read_rest(alloc, inputs, limit),
        Err(Failed) => Err(ReadRefusal::Failed),
    }
}

// How many bytes are read at once.
const BUFFER: usize = 4096;

// Reads what is left, unless it has more than `limit` bytes.
fn read_rest<I: Inputs>(alloc: Global, inputs: &mut I, limit: u64) -> Result<Bytes, ReadRefusal>
    requires { I.broken inputs.old ≡ false }
    ensures reads { IsReadOf (I.left inputs.old) limit result }
    ensures leaves { Leaves (I.left inputs.old) (I.left inputs.new) limit result }
    ensures same_begun { I.begun inputs.new ≡ I.begun inputs.old }
    ensures breaks { I.broken inputs.new ≡ is_failed result }
    ensures same_content { I.content inputs.new ≡ I.content inputs.old }
    ensures counts { Counts (I.faults inputs.old) (I.faults inputs.new) result }
    ensures never_falls { I.faults inputs.old ≤ I.faults inputs.new }
{
    let mut bytes = Vec::new(alloc);
    let mut buf = [0u8; BUFFER];
    while bytes.len() as u64 <= limit {
        let more = limit - bytes.len() as u64;
        let room = more.saturating_add(1).min(BUFFER as u64) as usize;
        match inputs.read(&mut buf[..room]) {
            Err(_) => return Err(ReadRefusal::Failed),
            Ok(0) => return Ok(Items::from_vec(bytes)),
            Ok(n) => {
                if bytes.extend_from_slice(&buf[..n]).is_err() {
                    return Err(ReadRefusal::OutOfMemory);
                }
            }
        }
    }
    Err(ReadRefusal::TooLong)
}

/// Writes all of the bytes, one piece after the other.
///
/// `Failed` comes only where the count of faults rose. Then a prefix of the bytes was written. It takes no memory.
pub fn write_all<S: Sink>(sink: &mut S, bytes: &[u8]) -> Result<(), Failed>
    ensures ok { OnOk result (Appends (S.written sink.old) (S.written sink.new) bytes.now) }
    ensures err { OnErr result (WritesPrefix (S.written sink.old) (S.written sink.new) bytes.now) }
    ensures untold { IfNone (S.written sink.old) (S.written sink.new ≡ None) }
    ensures never_falls { S.faults sink.old ≤ S.faults sink.new }
    ensures stays { OnOk result (S.faults sink.new ≡ S.faults sink.old) }
    ensures rose { OnErr result (Rose (S.faults sink.old) (S.faults sink.new)) }
{
    let mut done = 0;
    while done < bytes.len() {
        match sink.write(&bytes[done..]) {
            Ok(n) => done += n,
            Err(Failed) => return Err(Failed),
        }
    }
    Ok(())
}
