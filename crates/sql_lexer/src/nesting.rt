//! How deep the brackets of a text nest.
ghost use Rattle.std.specs.Prelude.{◌≡◌, ◌+◌, ◌^◌, ◌<◌, ◌≤◌};
ghost use Rattle.sql_ast.specs.Nest as nest;

use crate::tokens::Tokens;
use sql_ast::{Lexeme, Reserved, Sign};

fn open_after_sign(sign: Sign, before: u64) -> u64
    requires { before + 1 < 2 ^ 64 }
    ensures { result ≡ nest.open_after_sign sign before }
{
    match sign {
        Sign::OpenRound | Sign::OpenSquare => before + 1,
        Sign::CloseRound | Sign::CloseSquare => before.saturating_sub(1),
        _ => before,
    }
}

fn open_after_word(word: Reserved, before: u64) -> u64
    requires { before + 1 < 2 ^ 64 }
    ensures { result ≡ nest.open_after_word word before }
{
    match word {
        Reserved::Case => before + 1,
        Reserved::End => before.saturating_sub(1),
        _ => before,
    }
}

/// How many brackets are open behind a token, where so many are open before it.
fn open_after(lexeme: &Lexeme, before: u64) -> u64
    requires { before + 1 < 2 ^ 64 }
    ensures { result ≡ nest.open_after lexeme.now before }
{
    match lexeme {
        Lexeme::Sign(sign) => open_after_sign(*sign, before),
        Lexeme::Reserved(word) => open_after_word(*word, before),
        _ => before,
    }
}

/// The greatest number of `(`, `[` and CASE that are open at one token, where `)`, `]` and END close one if one is open.
/// It takes no memory.
#[tactic(auto, unfolding(sql_ast::specs::Nest::nest))]
pub fn nest(tokens: &Tokens) -> u64
    ensures { result ≡ nest.nest tokens.now.list }
{
    let mut depth = 0;
    let mut deepest: u64 = 0;
    let mut at = 0;
    'tokens: while at < tokens.len() {
        depth = open_after(&tokens.at(at).lexeme, depth);
        deepest = deepest.max(depth);
        at += 1;
    }
    deepest
}
