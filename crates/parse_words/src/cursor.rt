//! The token at a place of a text, and the refusal there.
ghost use Rattle.std.specs.Prelude.{◌≡◌, ◌+◌, ◌^◌, ◌<◌, true, IfOk, OnSome};
ghost use Rattle.fronts.specs.Readers.{comes, next, refuse, token};
ghost use Rattle.sql_grammar.specs.Ways.{place_of};
ghost use Rattle.parse_words.specs.Marked.{marked};
ghost use Rattle.parse_words.specs.Reads.{from, fault_place, Reads, Refuses, Stands, Takes};

use crate::marks::Mark;
use crate::takes::takes;
use sql_ast::{Refusal, Token};
use sql_lexer::Tokens;

/// What was read, and the place of the next token, counted in tokens from 0. The refusal is of rule 1, at the first token that
/// fits nothing, or at the end of the text.
pub type Read<T> = Result<(T, usize), Refusal>;

/// The token at a place, if one stands there.
pub fn token_at<'a>(tokens: &'a Tokens, at: usize) -> Option<&'a Token>
    ensures stands { Stands tokens.now at result }
    ensures room { OnSome result (at + 1 < 2 ^ 64) }
{
    if at < tokens.len() {
        Some(tokens.at(at))
    } else {
        None
    }
}

/// Whether a token that a mark stands for is at a place.
pub fn sees(tokens: &Tokens, at: usize, mark: Mark) -> bool
    ensures { result ≡ comes (marked mark) (from tokens.now at) }
{
    match token_at(tokens, at) {
        Some(token) => takes(mark, token),
        None => false,
    }
}

/// Where the token at a place begins, in bytes; 0 where none stands there.
pub fn start_at(tokens: &Tokens, at: usize) -> u64
    ensures { result ≡ place_of (next (from tokens.now at)) }
{
    match token_at(tokens, at) {
        Some(token) => token.start,
        None => 0,
    }
}

/// Where a token that fits nothing begins: the token at a place, or the end of the text.
fn fault_at(tokens: &Tokens, at: usize) -> u64
    ensures { result ≡ fault_place tokens.now.end (from tokens.now at) }
{
    match token_at(tokens, at) {
        Some(token) => token.start,
        None => tokens.end(),
    }
}

/// The refusal of what stands at a place.
pub fn refusal_at(tokens: &Tokens, at: usize) -> Refusal
    ensures { Refuses tokens.now (refuse {A = Unit {0}} (from tokens.now at)) result }
{
    Refusal::Rule {
        rule: 1,
        place: fault_at(tokens, at),
    }
}

/// The token at a place, which has to be one that the mark stands for.
pub fn expect<'a>(tokens: &'a Tokens, at: usize, mark: Mark) -> Result<(&'a Token, usize), Refusal>
    ensures reads { Takes tokens.now (token (marked mark) (from tokens.now at)) result }
    ensures moves { IfOk result (λ p. at < p.1) }
{
    expect_marked(tokens, at, mark)
}

/// The same, where it counts that the mark stands for the token.
#[tactic(auto, unfolding(fronts::specs::Readers::token))]
pub fn expect_marked<'a>(
    tokens: &'a Tokens,
    at: usize,
    mark: Mark,
) -> Result<(&'a Token, usize), Refusal>
    ensures reads { Takes tokens.now (token (marked mark) (from tokens.now at)) result }
    ensures moves { IfOk result (λ p. at < p.1) }
    ensures fits { IfOk result (λ p. marked mark p.0.now ≡ true) }
{
    match token_at(tokens, at) {
        Some(token) => {
            if takes(mark, token) {
                Ok((token, at + 1))
            } else {
                Err(refusal_at(tokens, at))
            }
        }
        None => Err(refusal_at(tokens, at)),
    }
}
