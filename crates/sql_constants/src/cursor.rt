//! The token at a place.
ghost use Rattle.std.specs.Prelude.{◌≡◌, ◌+◌, ◌^◌, ◌<◌, true, IfOk, OnSome};
ghost use Rattle.fronts.specs.Readers.{comes, token};
ghost use Rattle.sql_ast.specs.Marks as spec;
ghost use Rattle.sql_constants.specs.Reads.{from, marked, Stands, Takes};

use sql_ast::{Lexeme, Reserved, Sign, Token, Word};
use std::alloc::AllocError;

/// Why no constant was read.
#[derive(Clone, Copy, Debug, PartialEq, Eq)]
pub(crate) enum Miss {
    /// A token fits nothing, or the tokens end too soon, or their number or date is none of the type.
    NoConstant,
    OutOfMemory,
}

impl From<AllocError> for Miss {
    ghost use Rattle.std.specs.Prelude.{◌≡◌};
    ghost use Rattle.sql_constants.specs.declared.cursor.Miss.TheVariants.{OutOfMemory};

    ghost from_gives = { λ _ e. e ≡ OutOfMemory };

    fn from(_: AllocError) -> Miss {
        Miss::OutOfMemory
    }
}

/// What was read, and the place of the next token, counted in tokens from 0.
pub(crate) type Read<T> = Result<(T, usize), Miss>;

/// A class of tokens.
#[derive(Clone, Copy, Debug)]
pub(crate) enum Mark {
    /// A reserved word.
    Reserved(Reserved),
    /// An operator or a mark.
    Sign(Sign),
    /// A name that spells a word of the grammar, outside of backquotes.
    Word(Word),
    /// An integer.
    Integer,
    /// A STRING literal.
    Text,
    /// A BYTES literal.
    Bytes,
}

/// The token at a place, if one stands there.
fn token_at(tokens: &[Token], at: usize) -> Option<&Token>
    ensures stands { Stands tokens.now at result }
    ensures room { OnSome result (at + 1 < 2 ^ 64) }
{
    if at < tokens.len() {
        Some(&tokens[at])
    } else {
        None
    }
}

#[tactic(auto, unfolding(sql_ast::specs::Marks::same_reserved))]
fn is_reserved(token: &Token, word: Reserved) -> bool
    ensures { result ≡ spec.reserved word token.now }
{
    match &token.lexeme {
        Lexeme::Reserved(other) => word == *other,
        _ => false,
    }
}

#[tactic(auto, unfolding(sql_ast::specs::Marks::same_sign))]
fn is_sign(token: &Token, sign: Sign) -> bool
    ensures { result ≡ spec.sign sign token.now }
{
    match &token.lexeme {
        Lexeme::Sign(other) => sign == *other,
        _ => false,
    }
}

#[tactic(auto, unfolding(sql_ast::specs::Marks::same_word))]
fn is_word(token: &Token, word: Word) -> bool
    ensures { result ≡ spec.word word token.now }
{
    match &token.lexeme {
        Lexeme::Name {
            word: Some(other),
            ..
        } => word == *other,
        _ => false,
    }
}

/// Whether a mark stands for a token.
fn takes(mark: Mark, token: &Token) -> bool
    ensures { result ≡ marked mark token.now }
{
    match mark {
        Mark::Reserved(word) => is_reserved(token, word),
        Mark::Sign(sign) => is_sign(token, sign),
        Mark::Word(word) => is_word(token, word),
        Mark::Integer => matches!(token.lexeme, Lexeme::Integer(_)),
        Mark::Text => matches!(token.lexeme, Lexeme::Text(_)),
        Mark::Bytes => matches!(token.lexeme, Lexeme::Bytes(_)),
    }
}

/// Whether a token that a mark stands for is at a place.
pub(crate) fn sees(tokens: &[Token], at: usize, mark: Mark) -> bool
    ensures { result ≡ comes (marked mark) (from tokens.now at) }
{
    match token_at(tokens, at) {
        Some(token) => takes(mark, token),
        None => false,
    }
}

/// The token at a place, which has to be one that the mark stands for.
#[tactic(auto, unfolding(fronts::specs::Readers::token))]
pub(crate) fn expect<'a>(
    tokens: &'a [Token],
    at: usize,
    mark: Mark,
) -> Result<(&'a Token, usize), Miss>
    ensures reads { Takes tokens.now (token (marked mark) (from tokens.now at)) result }
    ensures moves { IfOk result (λ p. at < p.1) }
    ensures fits { IfOk result (λ p. marked mark p.0.now ≡ true) }
{
    match token_at(tokens, at) {
        Some(token) => {
            if takes(mark, token) {
                Ok((token, at + 1))
            } else {
                Err(Miss::NoConstant)
            }
        }
        None => Err(Miss::NoConstant),
    }
}
