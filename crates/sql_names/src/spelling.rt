//! How names and texts are spelled in what the program prints.
ghost use Rattle.std.specs.Prelude.{◌≡◌, ◌++◌, ◌<◌, ◌∷◌, [], IfOk, OnOk};
ghost use Rattle.std.specs.List.{list_all};
ghost use Rattle.sql_names.specs.Commas.{separator};
ghost use Rattle.sql_names.specs.Spelling as spell;

use crate::naming::reserved_word;
use lists::{Bytes, Items, Text};
use std::alloc::{AllocError, Global};

/// The digit of base 16 of a number below 16, in lower case.
pub fn hex_digit(number: u8) -> u8
    requires { number < 16 }
    ensures { result ≡ spell.hex_digit number }
{
    if number < 10 {
        b'0' + number
    } else {
        b'a' - 10 + number
    }
}

/// Writes a byte that stands between two marks.
#[tactic(auto, unfolding(crate::specs::Spelling::escaped))]
fn write_escaped(out: &mut Vec<u8>, mark: u8, byte: u8) -> Result<(), AllocError>
    ensures { OnOk result (out.new.items ≡ out.old.items ++ spell.escaped mark byte) }
{
    if byte == b'\\' || byte == mark {
        return out.extend_from_slice(&[b'\\', byte]);
    }
    match byte {
        b'\n' => out.extend_from_slice(b"\\n"),
        b'\r' => out.extend_from_slice(b"\\r"),
        b'\t' => out.extend_from_slice(b"\\t"),
        0..=31 | 127 => out.extend_from_slice(&[
            b'\\',
            b'x',
            hex_digit(byte / 16),
            hex_digit(byte % 16),
        ]),
        _ => out.extend_from_slice(&[byte]),
    }
}

fn write_escapes(out: &mut Vec<u8>, mark: u8, text: &[u8]) -> Result<(), AllocError>
    ensures { OnOk result (out.new.items ≡ out.old.items ++ spell.escapes mark text.now) }
{
    for byte in text {
        write_escaped(out, mark, *byte)?;
    }
    Ok(())
}

/// Writes a text between two marks.
fn write_quoted(out: &mut Vec<u8>, mark: u8, text: &[u8]) -> Result<(), AllocError>
    ensures { OnOk result (out.new.items ≡ out.old.items ++ spell.quoted mark text.now) }
{
    out.push(mark)?;
    write_escapes(out, mark, text)?;
    out.push(mark)?;
    Ok(())
}

/// A text as a STRING literal.
pub fn quote_text(alloc: Global, text: &Text) -> Result<Bytes, AllocError>
    ensures { IfOk result (λ bytes. bytes ≡ spell.quote_text text.now) }
{
    let mut out = Vec::new(alloc);
    write_text(&mut out, text)?;
    Ok(Items::from_vec(out))
}

/// Writes a STRING literal.
pub fn write_text(out: &mut Vec<u8>, text: &Text) -> Result<(), AllocError>
    ensures { OnOk result (out.new.items ≡ out.old.items ++ spell.quote_text text.now) }
{
    write_quoted(out, b'"', text.as_bytes())
}

fn is_letter(byte: u8) -> bool
    ensures { result ≡ spell.is_letter byte }
{
    byte.is_ascii_uppercase() || byte.is_ascii_lowercase() || byte == b'_'
}

fn is_inner(byte: u8) -> bool
    ensures { result ≡ spell.is_inner byte }
{
    is_letter(byte) || byte.is_ascii_digit()
}

fn is_identifier(name: &[u8]) -> bool
    ensures { result ≡ spell.is_identifier name.now }
{
    match name {
        [] => false,
        [first, rest @ ..] => is_letter(*first) && all_inner(rest),
    }
}

fn all_inner(bytes: &[u8]) -> bool
    ensures { result ≡ list_all spell.is_inner bytes.now }
{
    bytes.iter().all(|byte| is_inner(*byte))
}

/// Whether a name is printed as it is: it is an identifier that isn't reserved.
#[tactic(auto, unfolding(crate::specs::Spelling::is_plain))]
pub fn is_plain_name(name: &[u8]) -> bool
    ensures { result ≡ spell.is_plain name.now }
{
    is_identifier(name) && reserved_word(name).is_none()
}

/// A name as it is printed: as it is where it is plain, and else in backquotes.
pub fn quote_name(alloc: Global, name: &Text) -> Result<Bytes, AllocError>
    ensures { IfOk result (λ bytes. bytes ≡ spell.quote_name name.now) }
{
    let mut out = Vec::new(alloc);
    write_name(&mut out, name)?;
    Ok(Items::from_vec(out))
}

/// Writes a name, in backquotes where it isn't plain.
pub fn write_name(out: &mut Vec<u8>, name: &Text) -> Result<(), AllocError>
    ensures { OnOk result (out.new.items ≡ out.old.items ++ spell.quote_name name.now) }
{
    if is_plain_name(name.as_bytes()) {
        out.extend_from_slice(name.as_bytes())
    } else {
        write_quoted(out, b'`', name.as_bytes())
    }
}

/// Writes what stands before a piece of a list that has so many before it: nothing, or a comma and a space.
pub fn write_separator(out: &mut Vec<u8>, place: usize) -> Result<(), AllocError>
    ensures { OnOk result (out.new.items ≡ out.old.items ++ separator place) }
{
    if place == 0 {
        Ok(())
    } else {
        out.extend_from_slice(b", ")
    }
}
