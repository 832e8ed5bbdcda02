//! What a type begins with.
ghost use Rattle.std.specs.Prelude.{◌≡◌};
ghost use Rattle.fronts.specs.Readers.{comes, next};
ghost use Rattle.sql_grammar.specs.Classes as classes;
ghost use Rattle.sql_grammar.specs.Words.{starts_type};
ghost use Rattle.parse_words.specs.Reads.{from};
ghost use Rattle.parse_words.specs.TypeStarts.{type_class};

use crate::cursor::token_at;
use crate::takes::is_name;
use sql_ast::{Lexeme, Reserved};
use sql_lexer::Tokens;

/// What a type begins with.
#[derive(Clone, Copy, Debug, PartialEq, Eq)]
pub enum TypeStart {
    /// A name.
    Name,
    /// The word ARRAY.
    Array,
    /// The word STRUCT.
    Struct,
    /// Nothing that begins a type.
    Other,
}

fn type_lexeme(lexeme: &Lexeme) -> TypeStart
    ensures { type_class result ≡ classes.type_lexeme lexeme.now }
{
    match lexeme {
        Lexeme::Name { .. } => TypeStart::Name,
        Lexeme::Reserved(Reserved::Array) => TypeStart::Array,
        Lexeme::Reserved(Reserved::Struct) => TypeStart::Struct,
        _ => TypeStart::Other,
    }
}

/// What the type at a place begins with.
pub fn type_start(tokens: &Tokens, at: usize) -> TypeStart
    ensures { type_class result ≡ classes.class_of classes.no_type classes.type_lexeme (next (from tokens.now at)) }
{
    match token_at(tokens, at) {
        Some(token) => type_lexeme(&token.lexeme),
        None => TypeStart::Other,
    }
}

/// Whether a type with so many levels below its first begins at a place: with no levels below it is a name.
pub fn begins_type(tokens: &Tokens, at: usize, levels: u8) -> bool
    ensures { result ≡ comes (starts_type levels) (from tokens.now at) }
{
    match token_at(tokens, at) {
        Some(token) => {
            if levels == 0 {
                is_name(token)
            } else {
                !matches!(type_lexeme(&token.lexeme), TypeStart::Other)
            }
        }
        None => false,
    }
}
