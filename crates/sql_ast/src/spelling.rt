//! How values are spelled as literals.
ghost use Rattle.std.specs.Prelude.{◌≡◌, ◌++◌, IfOk, OnOk, decimal, map, true};
ghost use Rattle.std.specs.Fmt.{signed_decimal};
ghost use Rattle.std.specs.List.{list_all};
ghost use Rattle.sql_names.specs.Commas.{joined};
ghost use Rattle.sql_types.specs.Fits.{is_day};
ghost use Rattle.sql_ast.specs.Literals as literals;

use itoa::Buffer;
use sql_names::spelling::hex_digit;
pub use sql_names::spelling::{
    is_plain_name, quote_name, quote_text, write_name, write_separator, write_text,
};
use sql_types::{Bytes, Items, Value, write_date};
use std::alloc::{AllocError, Global};

/// The literal that spells a value. Each DATE in it lies in DATE's range.
pub fn literal_text(alloc: Global, value: &Value) -> Result<Bytes, AllocError>
    requires { literals.dates_fit value.now ≡ true }
    ensures { IfOk result (λ text. text ≡ literals.LiteralText value.now) }
{
    let mut out = Vec::new(alloc);
    write_literal(&mut out, value)?;
    Ok(Items::from_vec(out))
}

/// Writes the literal that spells a value. Each DATE in it lies in DATE's range.
#[cycle(literals)]
#[tactic(auto, using(crate::proofs::LiteralLaws::day_dates), unfolding(crate::specs::Literals::LiteralText))]
pub fn write_literal(out: &mut Vec<u8>, value: &Value) -> Result<(), AllocError>
    requires { literals.dates_fit value.now ≡ true }
    ensures { OnOk result (out.new.items ≡ out.old.items ++ literals.LiteralText value.now) }
{
    match value {
        Value::Null => out.extend_from_slice(b"NULL"),
        Value::Bool(truth) => write_truth(out, *truth),
        Value::Int(number) => write_signed(out, *number),
        Value::Uint(number) => write_unsigned(out, *number),
        Value::Text(text) => write_text(out, text),
        Value::Bytes(bytes) => write_bytes(out, bytes.as_slice()),
        Value::Date(day) => write_quoted_date(out, *day),
        Value::Array(elements) => {
            out.push(b'[')?;
            write_literals(out, elements.as_slice())?;
            out.push(b']')?;
            Ok(())
        }
        Value::Struct(fields) => {
            out.extend_from_slice(b"STRUCT(")?;
            write_literals(out, fields.as_slice())?;
            out.push(b')')?;
            Ok(())
        }
    }
}

/// Writes the literals of values, joined by a comma and a space.
#[cycle(literals)]
pub fn write_literals(out: &mut Vec<u8>, values: &[Value]) -> Result<(), AllocError>
    requires { list_all literals.dates_fit values.now ≡ true }
    ensures { OnOk result (out.new.items ≡ out.old.items ++ joined (map literals.LiteralText values.now)) }
{
    for (place, value) in values.iter().enumerate() {
        write_separator(out, place)?;
        write_literal(out, value)?;
    }
    Ok(())
}

fn write_truth(out: &mut Vec<u8>, truth: bool) -> Result<(), AllocError>
    ensures { OnOk result (out.new.items ≡ out.old.items ++ literals.truth_text truth) }
{
    if truth {
        out.extend_from_slice(b"TRUE")
    } else {
        out.extend_from_slice(b"FALSE")
    }
}

fn write_signed(out: &mut Vec<u8>, number: i64) -> Result<(), AllocError>
    ensures { OnOk result (out.new.items ≡ out.old.items ++ signed_decimal number) }
{
    let mut buffer = Buffer::new();
    out.extend_from_slice(buffer.format(number).as_bytes())
}

fn write_unsigned(out: &mut Vec<u8>, number: u64) -> Result<(), AllocError>
    ensures { OnOk result (out.new.items ≡ out.old.items ++ decimal number) }
{
    let mut buffer = Buffer::new();
    out.extend_from_slice(buffer.format(number).as_bytes())
}

/// Writes a DATE literal.
fn write_quoted_date(out: &mut Vec<u8>, day: i32) -> Result<(), AllocError>
    requires { is_day day ≡ true }
    ensures { OnOk result (out.new.items ≡ out.old.items ++ literals.quote_date day) }
{
    out.extend_from_slice(b"DATE \"")?;
    write_date(out, day)?;
    out.extend_from_slice(b"\"")
}

/// Writes a BYTES literal.
pub fn write_bytes(out: &mut Vec<u8>, bytes: &[u8]) -> Result<(), AllocError>
    ensures { OnOk result (out.new.items ≡ out.old.items ++ literals.quote_bytes bytes.now) }
{
    out.extend_from_slice(b"b\"")?;
    write_each_byte(out, bytes)?;
    out.push(b'"')?;
    Ok(())
}

fn write_each_byte(out: &mut Vec<u8>, bytes: &[u8]) -> Result<(), AllocError>
    ensures { OnOk result (out.new.items ≡ out.old.items ++ literals.bytes_text bytes.now) }
{
    for byte in bytes {
        write_byte(out, *byte)?;
    }
    Ok(())
}

#[tactic(auto, unfolding(crate::specs::Literals::byte_text))]
fn write_byte(out: &mut Vec<u8>, byte: u8) -> Result<(), AllocError>
    ensures { OnOk result (out.new.items ≡ out.old.items ++ literals.byte_text byte) }
{
    match byte {
        b'\\' | b'"' => out.extend_from_slice(&[b'\\', byte]),
        b' '..=b'~' => out.extend_from_slice(&[byte]),
        _ => out.extend_from_slice(&[b'\\', b'x', hex_digit(byte / 16), hex_digit(byte % 16)]),
    }
}
