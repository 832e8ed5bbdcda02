//! The descent: expressions and queries read each other behind each token.
ghost use Rattle.std.specs.Prelude.{◌<◌, ◌≤◌, IfOk};
ghost use Rattle.parse_expr.specs.Nests.{HasOpened, HasStarted, opened, started};
ghost use Rattle.parse_words.specs.Reads.{from, nested, Reads};

use crate::whole_queries::query_more;
use parse_expr::{Opening, Reader, Start};
use parse_words::cursor::Read;
use sql_ast::{Expr, Query};
use sql_lexer::Tokens;
use sql_types::Boxed;
use std::alloc::Global;

/// An expression from a place on, from its first token or behind what was read of it.
#[cycle(descent)]
#[tactic(auto, using(crate::proofs::Depths::expr_read))]
pub fn expr_at(alloc: Global, tokens: &Tokens, at: usize, start: Start) -> Read<Boxed<Expr>>
    requires begun { HasStarted start }
    ensures reads { Reads tokens.now (started (nested tokens.now) start (from tokens.now at)) result }
    ensures moves { IfOk result (λ p. at ≤ p.1) }
{
    let inner = |place: usize, start: Start| -> Read<Boxed<Expr>>
        requires below { at < place }
        requires begun { HasStarted start }
        ensures reads { Reads tokens.entry.now (started (nested tokens.entry.now) start (from tokens.entry.now place)) result }
        ensures moves { IfOk result (λ p. place ≤ p.1) }
    {
        let _from = at;
        expr_at(alloc, tokens, place, start)
    };
    let query = |place: usize, opening: Opening| -> Read<Boxed<Query>>
        requires below { at < place }
        requires begun { HasOpened opening }
        ensures reads { Reads tokens.entry.now (opened (nested tokens.entry.now) opening (from tokens.entry.now place)) result }
        ensures moves { IfOk result (λ p. place ≤ p.1) }
    {
        let _from = at;
        query_at(alloc, tokens, place, opening)
    };
    let reader = Reader {
        alloc,
        tokens,
        from: at,
        inner,
        query,
    };
    match start {
        Start::Fresh => reader.disjunction(at),
        Start::Behind { place, basic } => reader.expr_after(at, place, basic),
    }
}

/// A query from a place on, from its first token or behind what was read of it.
#[cycle(descent)]
#[tactic(auto, using(crate::proofs::Depths::query_read))]
pub fn query_at(alloc: Global, tokens: &Tokens, at: usize, opening: Opening) -> Read<Boxed<Query>>
    requires begun { HasOpened opening }
    ensures reads { Reads tokens.now (opened (nested tokens.now) opening (from tokens.now at)) result }
    ensures moves { IfOk result (λ p. at ≤ p.1) }
{
    let inner = |place: usize, start: Start| -> Read<Boxed<Expr>>
        requires below { at < place }
        requires begun { HasStarted start }
        ensures reads { Reads tokens.entry.now (started (nested tokens.entry.now) start (from tokens.entry.now place)) result }
        ensures moves { IfOk result (λ p. place ≤ p.1) }
    {
        let _from = at;
        expr_at(alloc, tokens, place, start)
    };
    let query = |place: usize, opening: Opening| -> Read<Boxed<Query>>
        requires below { at < place }
        requires begun { HasOpened opening }
        ensures reads { Reads tokens.entry.now (opened (nested tokens.entry.now) opening (from tokens.entry.now place)) result }
        ensures moves { IfOk result (λ p. place ≤ p.1) }
    {
        let _from = at;
        query_at(alloc, tokens, place, opening)
    };
    let reader = Reader {
        alloc,
        tokens,
        from: at,
        inner,
        query,
    };
    query_more(&reader, at, opening)
}
