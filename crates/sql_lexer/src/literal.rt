//! What literals and names in backquotes say.
ghost use Rattle.std.specs.Prelude.{◌≡◌, ◌+◌, IfOk, IsUtf8, option_map, string_bytes};
ghost use Rattle.sql_ast.specs.Values as values;
ghost use Rattle.sql_lexer.specs.Marked.{Marked};

use crate::escape::unescape;
use sql_ast::{Content, Lexeme, LiteralPrefix, Quotes};
use sql_types::{Items, Text};
use std::alloc::{AllocError, Global};

/// The text between so many bytes at its start and so many at its end.
pub fn inside(text: &str, front: usize, back: usize) -> &str
    requires { Marked text.now front back }
    ensures { result.now ≡ values.inside front back text.now }
{
    &text[front..text.len() - back]
}

/// The bytes with each CR and CRLF as LF.
#[tactic(auto, unfolding(sql_ast::specs::Values::lines))]
fn lines(alloc: Global, bytes: &[u8]) -> Result<Vec<u8>, AllocError>
    ensures { IfOk result (λ v. v.items ≡ values.lines bytes.now) }
{
    let mut read = Vec::with_capacity(alloc, bytes.len())?;
    let mut before = 0;
    let mut at = 0;
    'bytes: while at < bytes.len() {
        let byte = bytes[at];
        if byte != b'\n' || before != b'\r' {
            read.push(if byte == b'\r' { b'\n' } else { byte })?;
        }
        before = byte;
        at += 1;
    }
    Ok(read)
}

/// These bytes as a text.
fn string_of(bytes: Vec<u8>) -> String
    requires { IsUtf8 bytes.items }
    ensures { string_bytes result ≡ bytes.items }
{
    String::from_utf8(bytes).unwrap()
}

/// The text with its escapes read. None where a backslash begins no escape.
pub fn unescaped(alloc: Global, text: &str) -> Result<Option<Text>, AllocError>
    ensures { IfOk result (λ t. t ≡ values.unescape Content.Text text.now) }
{
    match unescape(alloc, Content::Text, text.as_bytes())? {
        Some(bytes) => Ok(Some(Text::from_string(string_of(bytes)))),
        None => Ok(None),
    }
}

/// What stands between quotes, by the letters before them: `r` keeps backslashes as they are, `b` makes BYTES.
fn content(alloc: Global, prefix: LiteralPrefix, text: &str) -> Result<Option<Lexeme>, AllocError>
    ensures { IfOk result (λ l. l ≡ values.literal_of prefix text.now) }
{
    match prefix {
        LiteralPrefix::Plain => match unescaped(alloc, text)? {
            Some(text) => Ok(Some(Lexeme::Text(text))),
            None => Ok(None),
        },
        LiteralPrefix::Raw => Ok(Some(Lexeme::Text(Text::copy_of(alloc, text)?))),
        LiteralPrefix::Bytes => match unescape(alloc, Content::Bytes, text.as_bytes())? {
            Some(bytes) => Ok(Some(Lexeme::Bytes(Items::from_vec(bytes)))),
            None => Ok(None),
        },
        LiteralPrefix::RawBytes => Ok(Some(Lexeme::Bytes(Items::from_slice(
            alloc,
            text.as_bytes(),
        )?))),
    }
}

fn prefix_size(prefix: LiteralPrefix) -> usize
    ensures { result ≡ values.prefix_size prefix }
{
    match prefix {
        LiteralPrefix::Plain => 0,
        LiteralPrefix::Raw => 1,
        LiteralPrefix::Bytes => 1,
        LiteralPrefix::RawBytes => 2,
    }
}

fn quotes_size(quotes: Quotes) -> usize
    ensures { result ≡ values.quotes_size quotes }
{
    match quotes {
        Quotes::One => 1,
        Quotes::Three => 3,
    }
}

/// What a literal says. None where a backslash begins no escape.
pub fn literal(
    alloc: Global,
    prefix: LiteralPrefix,
    quotes: Quotes,
    text: &str,
) -> Result<Option<Lexeme>, AllocError>
    requires { Marked text.now (values.prefix_size prefix + values.quotes_size quotes) (values.quotes_size quotes) }
    ensures { IfOk result (λ l. l ≡ values.literal prefix quotes text.now) }
{
    let count = quotes_size(quotes);
    let enclosed = inside(text, prefix_size(prefix) + count, count);
    match quotes {
        Quotes::One => content(alloc, prefix, enclosed),
        Quotes::Three => {
            let lines = string_of(lines(alloc, enclosed.as_bytes())?);
            content(alloc, prefix, lines.as_str())
        }
    }
}
