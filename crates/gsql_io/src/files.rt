//! Files that lie in memory.
ghost use Rattle.std.specs.Prelude.{◌≡◌, ℕ, ◌<◌, ◌≤◌, ◌+◌, ◌++◌, ◌^◌, List, [], length, Some, None, MatchOption, take, drop, min};
ghost use Rattle.gsql_io.specs.Files.{bytes_of, bytes_at};

use lists::{Bytes, Items};

/// A file: its name, and what it holds.
#[derive(Debug, Drop)]
pub struct NamedFile {
    pub name: String,
    pub bytes: Bytes,
}

/// Files in order. Of two files with one name the first counts.
pub type Files = Items<NamedFile>;

// The index of the first file of that name, if there is one.
pub(crate) fn find_file(files: &Files, name: &str) -> Option<usize>
    ensures { MatchOption result (bytes_of files.now name.now ≡ None)
        (λ index. bytes_of files.now name.now ≡ Some (bytes_at files.now index)) }
{
    files
        .as_slice()
        .iter()
        .position(|file| file.name.as_str() == name)
}

// Copies what lies from a place of a file on to the front of the buffer, as much as there is room for, and tells how many
// bytes that are.
pub(crate) fn copy_from_file(files: &Files, index: usize, place: usize, buf: &mut [u8]) -> usize
    ensures count { result ≡ min (length buf.old) (length (drop place (bytes_at files.now index))) }
    ensures fits { place + result < 2 ^ 64 }
    ensures moves { drop place (bytes_at files.now index)
        ≡ take result buf.new ++ drop (place + result) (bytes_at files.now index) }
{
    match files.get(index) {
        None => 0,
        Some(file) => copy_from(file.bytes.as_slice(), place, buf),
    }
}

// Copies what lies from a place on to the front of the buffer, as much as there is room for.
fn copy_from(bytes: &[u8], place: usize, buf: &mut [u8]) -> usize
    ensures count { result ≡ min (length buf.old) (length (drop place bytes.now)) }
    ensures fits { place + result < 2 ^ 64 }
    ensures moves { drop place bytes.now ≡ take result buf.new ++ drop (place + result) bytes.now }
{
    if bytes.len() <= place {
        return 0;
    }
    let rest = &bytes[place..];
    let n = rest.len().min(buf.len());
    buf[..n].copy_from_slice(&rest[..n]);
    n
}
