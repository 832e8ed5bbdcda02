//! Texts of queries and of expressions.
ghost use Rattle.std.specs.Prelude.{◌≤◌, IfOk};
ghost use Rattle.sql_grammar.specs.Knot as knot;
ghost use Rattle.parse_query.specs.QueryTexts.{BodyText, ExprTokens, QueryText, QueryTokens};
ghost use Rattle.parse_words.specs.Reads.{from, turns, Reads};

use crate::descent::{expr_at, query_at};
use parse_expr::{Opening, Start};
use parse_words::cursor::{Read, expect, refusal_at, sees};
use parse_words::marks::Mark;
use sql_ast::{Expr, Query, Refusal, Sign};
use sql_lexer::{LexFault, Tokens, lex};
use sql_types::Boxed;
use std::alloc::Global;

/// A query from the first token on, and a semicolon behind it, if one stands there.
#[tactic(auto, unfolding(sql_grammar::specs::Knot::text_at))]
fn query_text(alloc: Global, tokens: &Tokens) -> Read<Boxed<Query>>
    ensures reads { Reads tokens.now (knot.text_at (turns tokens.now) (from tokens.now 0)) result }
    ensures moves { IfOk result (λ p. 0 ≤ p.1) }
{
    let (query, at) = query_at(alloc, tokens, 0, Opening::Fresh)?;
    if !sees(tokens, at, Mark::Sign(Sign::Semicolon)) {
        return Ok((query, at));
    }
    let (_, at) = expect(tokens, at, Mark::Sign(Sign::Semicolon))?;
    Ok((query, at))
}

/// The query that all these tokens spell, which is the only one. Rule 1 is broken at the first token that no query can have
/// there, or at the text's end. Linear in the tokens, where brackets nest within a limit.
pub fn parse_tokens(alloc: Global, tokens: &Tokens) -> Result<Boxed<Query>, Refusal>
    ensures { QueryTokens tokens.now.end tokens.now.list result }
{
    let (query, at) = query_text(alloc, tokens)?;
    if at < tokens.len() {
        return Err(refusal_at(tokens, at));
    }
    Ok(query)
}

/// The expression that all these tokens spell. Rule 1 is broken as for a query.
pub fn parse_expr_tokens(alloc: Global, tokens: &Tokens) -> Result<Boxed<Expr>, Refusal>
    ensures { ExprTokens tokens.now.end tokens.now.list result }
{
    let (expr, at) = expr_at(alloc, tokens, 0, Start::Fresh)?;
    if at < tokens.len() {
        return Err(refusal_at(tokens, at));
    }
    Ok(expr)
}

/// The query that a text spells. Rule 1 is broken at the first byte of a token or comment that can't be read, and where all
/// can be read, at the first token that no query can have there, or at the text's end.
pub fn parse(alloc: Global, text: &[u8]) -> Result<Boxed<Query>, Refusal>
    ensures { QueryText text.now result }
{
    match lex(alloc, text) {
        Ok(tokens) => parse_tokens(alloc, &tokens),
        Err(LexFault::At { place }) => Err(Refusal::Rule { rule: 1, place }),
        Err(LexFault::OutOfMemory) => Err(Refusal::OutOfMemory),
    }
}

/// The expression that a text spells, as that of a function's body. Rule 1 is broken as for a query.
pub fn parse_body(alloc: Global, text: &[u8]) -> Result<Boxed<Expr>, Refusal>
    ensures { BodyText text.now result }
{
    match lex(alloc, text) {
        Ok(tokens) => parse_expr_tokens(alloc, &tokens),
        Err(LexFault::At { place }) => Err(Refusal::Rule { rule: 1, place }),
        Err(LexFault::OutOfMemory) => Err(Refusal::OutOfMemory),
    }
}
