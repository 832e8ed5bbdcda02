//! What the next token begins, where there are more than two ways to go on.
ghost use Rattle.std.specs.Prelude.{◌≡◌};
ghost use Rattle.fronts.specs.Readers.{next};
ghost use Rattle.sql_ast.specs.declared.token.Lexeme.TheVariants as lexeme;
ghost use Rattle.sql_grammar.specs.Classes as classes;
ghost use Rattle.parse_from.specs.Beginnings.{join_class, primary_class};
ghost use Rattle.parse_words.specs.Reads.{from};

use parse_words::cursor::token_at;
use sql_ast::{Lexeme, Reserved, Sign};
use sql_lexer::Tokens;

/// What an item of FROM begins with.
#[derive(Clone, Copy, Debug, PartialEq, Eq)]
pub enum PrimaryStart {
    Name,
    /// `(`.
    Bracket,
    Unnest,
    /// Nothing that begins one.
    Other,
}

fn primary_lexeme(lexeme: &Lexeme) -> PrimaryStart
    ensures { primary_class result ≡ classes.primary_class lexeme.now }
{
    match lexeme {
        Lexeme::Name { .. } => PrimaryStart::Name,
        Lexeme::Sign(sign) => primary_sign(*sign),
        Lexeme::Reserved(Reserved::Unnest) => PrimaryStart::Unnest,
        _ => PrimaryStart::Other,
    }
}

fn primary_sign(sign: Sign) -> PrimaryStart
    ensures { primary_class result ≡ classes.primary_class (lexeme.Sign sign) }
{
    match sign {
        Sign::OpenRound => PrimaryStart::Bracket,
        _ => PrimaryStart::Other,
    }
}

/// What the item of FROM at a place begins with.
pub fn primary_start(tokens: &Tokens, at: usize) -> PrimaryStart
    ensures { primary_class result ≡ classes.class_of classes.no_primary classes.primary_class (next (from tokens.now at)) }
{
    match token_at(tokens, at) {
        Some(token) => primary_lexeme(&token.lexeme),
        None => PrimaryStart::Other,
    }
}

/// What a join begins with.
#[derive(Clone, Copy, Debug, PartialEq, Eq)]
pub enum JoinStart {
    Cross,
    Inner,
    Join,
    Left,
    Right,
    Full,
    /// Nothing that begins one.
    Other,
}

fn join_lexeme(lexeme: &Lexeme) -> JoinStart
    ensures { join_class result ≡ classes.join_class lexeme.now }
{
    match lexeme {
        Lexeme::Reserved(Reserved::Cross) => JoinStart::Cross,
        Lexeme::Reserved(Reserved::Inner) => JoinStart::Inner,
        Lexeme::Reserved(Reserved::Join) => JoinStart::Join,
        Lexeme::Reserved(Reserved::Left) => JoinStart::Left,
        Lexeme::Reserved(Reserved::Right) => JoinStart::Right,
        Lexeme::Reserved(Reserved::Full) => JoinStart::Full,
        _ => JoinStart::Other,
    }
}

/// What the join at a place begins with.
pub fn join_start(tokens: &Tokens, at: usize) -> JoinStart
    ensures { join_class result ≡ classes.class_of classes.no_join classes.join_class (next (from tokens.now at)) }
{
    match token_at(tokens, at) {
        Some(token) => join_lexeme(&token.lexeme),
        None => JoinStart::Other,
    }
}
