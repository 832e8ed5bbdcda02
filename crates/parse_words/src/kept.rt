//! A token that was read before it was known what it belongs to.
ghost use Rattle.std.specs.Prelude.{◌≡◌, ◌<◌, IfOk};
ghost use Rattle.fronts.specs.Readers.{token};
ghost use Rattle.sql_ast.specs.Marks as spec;
ghost use Rattle.sql_grammar.specs.Exprs.{starred, tells};
ghost use Rattle.sql_grammar.specs.Classes.{set_word_of};
ghost use Rattle.parse_words.specs.KeptTokens.{lexeme_of};
ghost use Rattle.parse_words.specs.Reads.{from, Reads};

use crate::cursor::{Read, refusal_at, token_at};
use sql_ast::{Lexeme, Reserved, Sign};
use sql_lexer::Tokens;
use std::marker::Model;

/// What such a token says.
#[derive(Clone, Copy, Debug)]
pub enum KeptLexeme {
    Sign(Sign),
    Word(Reserved),
}

/// A sign or a reserved word, from its first byte to past its last. Contracts see it as the token that it is.
#[derive(Drop)]
pub struct Kept {
    lexeme: KeptLexeme,
    start: u64,
    end: u64,
}

impl Model for Kept {
    ghost use Rattle.sql_ast.specs.declared.token.Token.{Token};
    ghost use Rattle.parse_words.specs.KeptTokens.{kept_token};

    ghost Value = { Token };

    ghost view = { λ k. kept_token k.lexeme k.start k.end };
}

impl Kept {
    /// Where it begins, in bytes.
    pub fn start(&self) -> u64
        ensures { result ≡ self.now.start }
    {
        self.start
    }

    /// Where the next byte behind it stands.
    pub fn end(&self) -> u64
        ensures { result ≡ self.now.end }
    {
        self.end
    }

    /// What it says.
    pub fn lexeme(&self) -> KeptLexeme
        ensures { lexeme_of result ≡ self.now.lexeme }
    {
        self.lexeme
    }

    /// Whether it is this reserved word.
    #[tactic(auto, unfolding(sql_ast::specs::Marks::same_reserved))]
    pub fn is_word(&self, word: Reserved) -> bool
        ensures { result ≡ spec.reserved word self.now }
    {
        match self.lexeme {
            KeptLexeme::Word(found) => word == found,
            KeptLexeme::Sign(_) => false,
        }
    }
}

/// The token at a place, which has to be this operator or mark.
#[tactic(auto, unfolding(fronts::specs::Readers::token, sql_ast::specs::Marks::same_sign))]
pub fn expect_sign(tokens: &Tokens, at: usize, sign: Sign) -> Read<Kept>
    ensures reads { Reads tokens.now (token (spec.sign sign) (from tokens.now at)) result }
    ensures moves { IfOk result (λ p. at < p.1) }
{
    match token_at(tokens, at) {
        Some(token) => match &token.lexeme {
            Lexeme::Sign(found) => {
                if sign == *found {
                    let lexeme = KeptLexeme::Sign(*found);
                    let start = token.start;
                    let end = token.end;
                    Ok((Kept { lexeme, start, end }, at + 1))
                } else {
                    Err(refusal_at(tokens, at))
                }
            }
            _ => Err(refusal_at(tokens, at)),
        },
        None => Err(refusal_at(tokens, at)),
    }
}

/// The same of `*`, where one is permitted.
#[tactic(auto, unfolding(fronts::specs::Readers::token, sql_ast::specs::Marks::same_sign))]
pub fn expect_star(tokens: &Tokens, at: usize, permitted: bool) -> Read<Kept>
    ensures reads { Reads tokens.now (token (starred permitted) (from tokens.now at)) result }
    ensures moves { IfOk result (λ p. at < p.1) }
{
    if permitted {
        expect_sign(tokens, at, Sign::Star)
    } else {
        Err(refusal_at(tokens, at))
    }
}

/// The same of a reserved word.
#[tactic(auto, unfolding(fronts::specs::Readers::token, sql_ast::specs::Marks::same_reserved))]
pub fn expect_word(tokens: &Tokens, at: usize, word: Reserved) -> Read<Kept>
    ensures reads { Reads tokens.now (token (spec.reserved word) (from tokens.now at)) result }
    ensures moves { IfOk result (λ p. at < p.1) }
{
    match token_at(tokens, at) {
        Some(token) => match &token.lexeme {
            Lexeme::Reserved(found) => {
                if word == *found {
                    let lexeme = KeptLexeme::Word(*found);
                    let start = token.start;
                    let end = token.end;
                    Ok((Kept { lexeme, start, end }, at + 1))
                } else {
                    Err(refusal_at(tokens, at))
                }
            }
            _ => Err(refusal_at(tokens, at)),
        },
        None => Err(refusal_at(tokens, at)),
    }
}

/// The same of a word that begins a set operation: UNION, INTERSECT or EXCEPT.
#[tactic(auto, unfolding(fronts::specs::Readers::token))]
pub fn expect_set_word(tokens: &Tokens, at: usize) -> Read<Kept>
    ensures reads { Reads tokens.now (token (tells set_word_of) (from tokens.now at)) result }
    ensures moves { IfOk result (λ p. at < p.1) }
{
    match token_at(tokens, at) {
        Some(token) => match &token.lexeme {
            Lexeme::Reserved(found) => {
                if matches!(
                    found,
                    Reserved::Union | Reserved::Intersect | Reserved::Except
                ) {
                    let lexeme = KeptLexeme::Word(*found);
                    let start = token.start;
                    let end = token.end;
                    Ok((Kept { lexeme, start, end }, at + 1))
                } else {
                    Err(refusal_at(tokens, at))
                }
            }
            _ => Err(refusal_at(tokens, at)),
        },
        None => Err(refusal_at(tokens, at)),
    }
}
