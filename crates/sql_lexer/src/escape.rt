//! The escapes of literals and of names in backquotes.
ghost use Rattle.std.specs.Prelude.{◌≡◌, ◌≤◌, ◌<◌, ◌++◌, ◌+◌, length, if◌then◌else◌, IfOk, IfSome, Some, None, OnOk, option_map};
ghost use Rattle.sql_ast.specs.Values as values;
ghost use Rattle.sql_lexer.specs.Escapes.{bytes_of, escape_of};

use crate::number::number;
use sql_ast::Content;
use std::alloc::{AllocError, Global};

/// What an escape stands for.
#[derive(Clone, Copy, Debug, PartialEq, Eq)]
pub enum Coded {
    Byte(u8),
    Point(char),
}

/// An escape: what it stands for, and how many bytes it takes behind its backslash.
#[derive(Clone, Copy, Debug, PartialEq, Eq)]
pub struct Escape {
    pub coded: Coded,
    pub size: usize,
}

fn one(byte: u8) -> Option<Escape>
    ensures value { option_map escape_of result ≡ values.one byte }
    ensures size { IfSome result (λ e. e.size ≡ 1) }
{
    Some(Escape {
        coded: Coded::Byte(byte),
        size: 1,
    })
}

/// The number as a code point: at most 10FFFF, and no surrogate.
fn point(number: u64) -> Option<char>
    ensures { result ≡ (if values.is_code_point number then Some number else None) }
{
    if 0x10_FFFF < number {
        return None;
    }
    char::from_u32(number as u32)
}

fn code_of(kind: Content, number: u64) -> Option<Coded>
    ensures { option_map bytes_of result ≡ values.coded kind number }
{
    match kind {
        Content::Bytes => {
            if number <= 255 {
                Some(Coded::Byte(number as u8))
            } else {
                None
            }
        }
        Content::Text => match point(number) {
            Some(point) => Some(Coded::Point(point)),
            None => None,
        },
    }
}

fn numbered(kind: Content, size: usize, number: u64) -> Option<Escape>
    ensures value { option_map escape_of result ≡ values.numbered kind size number }
    ensures size { IfSome result (λ e. e.size ≡ size) }
{
    match code_of(kind, number) {
        Some(coded) => Some(Escape { coded, size }),
        None => None,
    }
}

fn number_at_start(base: u64, count: usize, bytes: &[u8]) -> Option<u64>
    requires { 0 < base }
    ensures value { result ≡ values.number_at_start base count bytes.now }
    ensures within { IfSome result (λ _. count ≤ length bytes.now) }
{
    if count <= bytes.len() {
        number(base, &bytes[..count])
    } else {
        None
    }
}

/// Three octal digits up to 377.
fn octal(kind: Content, bytes: &[u8]) -> Option<Escape>
    ensures value { option_map escape_of result ≡ values.octal kind bytes.now }
    ensures within { IfSome result (λ e. e.size ≤ length bytes.now) }
{
    match number_at_start(8, 3, bytes) {
        Some(number) => {
            if number <= 0o377 {
                numbered(kind, 3, number)
            } else {
                None
            }
        }
        None => None,
    }
}

/// Behind `x` or `X` two hexadecimal digits.
fn hexadecimal(kind: Content, more: &[u8]) -> Option<Escape>
    ensures value { option_map escape_of result ≡ values.hexadecimal kind more.now }
    ensures within { IfSome result (λ e. e.size ≤ length more.now + 1) }
{
    match number_at_start(16, 2, more) {
        Some(number) => numbered(kind, 3, number),
        None => None,
    }
}

/// Behind `u` four hexadecimal digits, behind `U` eight; none in BYTES.
fn code_point(kind: Content, count: usize, more: &[u8]) -> Option<Escape>
    requires { count ≤ 8 }
    ensures value { option_map escape_of result ≡ values.code_point kind count more.now }
    ensures within { IfSome result (λ e. e.size ≤ length more.now + 1) }
{
    match kind {
        Content::Bytes => None,
        Content::Text => match number_at_start(16, count, more) {
            Some(number) => numbered(kind, count + 1, number),
            None => None,
        },
    }
}

/// The escape with which the bytes behind a backslash begin. None where they begin with none.
#[tactic(auto, unfolding(sql_ast::specs::Values::escape))]
pub fn escape_at_start(kind: Content, bytes: &[u8]) -> Option<Escape>
    ensures value { option_map escape_of result ≡ values.escape kind bytes.now }
    ensures within { IfSome result (λ e. e.size ≤ length bytes.now) }
{
    let [first, more @ ..] = bytes else {
        return None;
    };
    match *first {
        b'a' => one(7),
        b'b' => one(8),
        b't' => one(9),
        b'n' => one(10),
        b'v' => one(11),
        b'f' => one(12),
        b'r' => one(13),
        b'\\' | b'?' | b'"' | b'\'' | b'`' => one(*first),
        b'x' | b'X' => hexadecimal(kind, more),
        b'u' => code_point(kind, 4, more),
        b'U' => code_point(kind, 8, more),
        _ => octal(kind, bytes),
    }
}

/// Puts what an escape stands for behind the bytes.
fn put(bytes: &mut Vec<u8>, coded: Coded) -> Result<(), AllocError>
    ensures { OnOk result (bytes.new.items ≡ bytes.old.items ++ bytes_of coded) }
{
    match coded {
        Coded::Byte(byte) => bytes.push(byte)?,
        Coded::Point(point) => {
            let mut buffer = [0; 4];
            bytes.extend_from_slice(point.encode_utf8(&mut buffer).as_bytes())?;
        }
    }
    Ok(())
}

/// The bytes with their escapes read. None where a backslash begins no escape.
#[tactic(auto, unfolding(sql_ast::specs::Values::unescape))]
pub fn unescape(alloc: Global, kind: Content, bytes: &[u8]) -> Result<Option<Vec<u8>>, AllocError>
    ensures { IfOk result (λ r. option_map (λ v. v.items) r ≡ values.unescape kind bytes.now) }
{
    let mut read = Vec::with_capacity(alloc, bytes.len())?;
    let mut at = 0;
    'bytes: while at < bytes.len() {
        if bytes[at] != b'\\' {
            read.push(bytes[at])?;
            at += 1;
            continue;
        }
        match escape_at_start(kind, &bytes[at + 1..]) {
            Some(escape) => {
                put(&mut read, escape.coded)?;
                at += 1 + escape.size;
            }
            None => return Ok(None),
        }
    }
    Ok(Some(read))
}
