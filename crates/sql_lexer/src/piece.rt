//! What pieces of text say.
ghost use Rattle.std.specs.Prelude.{◌≡◌, IfOk, map, drop, option_map, option_and_then, IsCharBoundary};
ghost use Rattle.sql_ast.specs.Classes.{class};
ghost use Rattle.sql_ast.specs.Forms.{Form};
ghost use Rattle.sql_ast.specs.Values as values;
ghost use Rattle.sql_ast.specs.Words as words;
ghost use Rattle.sql_lexer.specs.Marked.{Marked};

use crate::literal::{inside, literal, unescaped};
use crate::number::integer;
use sql_ast::{Content, Lexeme, Piece, Shape, Sign, grammar_word, reserved_word, sign_of};
use sql_types::Text;
use std::alloc::{AllocError, Global};

/// A name isn't empty and has at most 128 bytes.
fn is_name(name: &str) -> bool
    ensures { result ≡ values.is_name name.now }
{
    0 < name.len() && name.len() <= 128
}

/// An identifier outside of backquotes, with the word that the grammar may read at its place.
fn plain_name(alloc: Global, letters: &str) -> Result<Option<Lexeme>, AllocError>
    ensures { IfOk result (λ l. l ≡ values.plain_name letters.now) }
{
    if !is_name(letters) {
        return Ok(None);
    }
    let word = grammar_word(letters.as_bytes());
    Ok(Some(Lexeme::Name {
        name: Text::copy_of(alloc, letters)?,
        word,
    }))
}

/// A word: directly behind the token `.` a reserved word is an identifier.
#[tactic(auto, unfolding(sql_ast::specs::Values::word))]
fn word(alloc: Global, dot: bool, letters: &str) -> Result<Option<Lexeme>, AllocError>
    ensures { IfOk result (λ l. l ≡ values.word dot letters.now) }
{
    if dot {
        return plain_name(alloc, letters);
    }
    match reserved_word(letters.as_bytes()) {
        Some(word) => Ok(Some(Lexeme::Reserved(word))),
        None => plain_name(alloc, letters),
    }
}

/// An identifier in backquotes is never a word of the grammar.
fn quoted_name(name: Text) -> Option<Lexeme>
    ensures { result ≡ values.quoted_name name }
{
    if is_name(name.as_str()) {
        Some(Lexeme::Name { name, word: None })
    } else {
        None
    }
}

fn parameter(name: Text) -> Option<Lexeme>
    ensures { result ≡ values.parameter name }
{
    if is_name(name.as_str()) {
        Some(Lexeme::Parameter(name))
    } else {
        None
    }
}

fn quoted_name_piece(alloc: Global, text: &str) -> Result<Option<Lexeme>, AllocError>
    requires { Marked text.now 1 1 }
    ensures { IfOk result (λ l. l ≡ option_and_then values.quoted_name (values.unescape Content.Text (values.inside 1 1 text.now))) }
{
    match unescaped(alloc, inside(text, 1, 1))? {
        Some(name) => Ok(quoted_name(name)),
        None => Ok(None),
    }
}

fn quoted_parameter_piece(alloc: Global, text: &str) -> Result<Option<Lexeme>, AllocError>
    requires { Marked text.now 2 1 }
    ensures { IfOk result (λ l. l ≡ option_and_then values.parameter (values.unescape Content.Text (values.inside 2 1 text.now))) }
{
    match unescaped(alloc, inside(text, 2, 1))? {
        Some(name) => Ok(parameter(name)),
        None => Ok(None),
    }
}

fn parameter_piece(alloc: Global, text: &str) -> Result<Option<Lexeme>, AllocError>
    requires { IsCharBoundary text.now 1 }
    ensures { IfOk result (λ l. l ≡ values.parameter (drop 1 text.now)) }
{
    Ok(parameter(Text::copy_of(alloc, &text[1..])?))
}

fn integer_piece(text: &str) -> Option<Lexeme>
    ensures { result ≡ option_map Lexeme.Integer (values.integer text.now) }
{
    match integer(text.as_bytes()) {
        Some(number) => Some(Lexeme::Integer(number)),
        None => None,
    }
}

fn sign_piece(text: &str) -> Option<Lexeme>
    ensures { result ≡ option_map Lexeme.Sign (words.sign_of text.now) }
{
    match sign_of(text.as_bytes()) {
        Some(sign) => Some(Lexeme::Sign(sign)),
        None => None,
    }
}

fn token(lexeme: Option<Lexeme>) -> Option<Piece>
    ensures { result ≡ option_map Piece.Token lexeme }
{
    match lexeme {
        Some(lexeme) => Some(Piece::Token(lexeme)),
        None => None,
    }
}

/// What a piece of this shape says, in UTF-8.
#[tactic(auto, unfolding(sql_ast::specs::Values::meaning))]
fn meaning(alloc: Global, dot: bool, shape: Shape, text: &str) -> Result<Option<Piece>, AllocError>
    requires { Form shape (map class text.now) }
    ensures { IfOk result (λ p. p ≡ values.meaning dot shape text.now) }
{
    Ok(match shape {
        Shape::Gap => Some(Piece::Gap),
        Shape::Word => token(word(alloc, dot, text)?),
        Shape::QuotedName => token(quoted_name_piece(alloc, text)?),
        Shape::Integer => token(integer_piece(text)),
        Shape::Literal(prefix, quotes) => token(literal(alloc, prefix, quotes, text)?),
        Shape::Parameter => token(parameter_piece(alloc, text)?),
        Shape::QuotedParameter => token(quoted_parameter_piece(alloc, text)?),
        Shape::Sign => token(sign_piece(text)),
    })
}

/// What a piece of this shape says, where the token before it is a `.` or not. None where it says nothing: a byte isn't
/// UTF-8, a name has no byte or more than 128, a number is no number or above 18446744073709551615, or a backslash begins
/// no escape.
#[tactic(auto, unfolding(sql_ast::specs::Values::read))]
pub fn read(
    alloc: Global,
    dot: bool,
    shape: Shape,
    bytes: &[u8],
) -> Result<Option<Piece>, AllocError>
    requires { Form shape (map class bytes.now) }
    ensures { IfOk result (λ p. p ≡ values.read dot shape bytes.now) }
{
    match std::str::from_utf8(bytes) {
        Ok(text) => meaning(alloc, dot, shape, text),
        Err(_) => Ok(None),
    }
}

/// Whether the token is a `.`.
pub fn is_dot(lexeme: &Lexeme) -> bool
    ensures { result ≡ values.is_dot lexeme.now }
{
    match lexeme {
        Lexeme::Sign(Sign::Dot) => true,
        _ => false,
    }
}
