//! Reads expressions. What stands deeper in the text is read by two functions that the reader is given.
ghost use Rattle.std.specs.Prelude.{◌<◌, ◌≤◌, IfOk};
ghost use Rattle.parse_expr.specs.Nests.{HasBegun, HasOpened, Nests, opened};
ghost use Rattle.parse_words.specs.Reads.{from, nested, Reads};

use crate::starts::{Opening, Start};
use parse_words::cursor::Read;
use sql_ast::{Expr, Query};
use sql_lexer::Tokens;
use sql_types::Boxed;
use std::alloc::Global;

/// Reads the expressions of a text. Its methods read from a place on, at `from` or behind it; what stands behind a token that
/// was read, in brackets or behind a word, is deeper, and read by the two functions.
#[derive(Drop)]
pub struct Reader<'a, E, Q> {
    pub alloc: Global,
    pub tokens: &'a Tokens,
    /// The token where the reader began.
    pub from: usize,
    /// Reads an expression at a token behind `from`.
    pub inner: E,
    /// Reads a query at a token behind `from`.
    pub query: Q,
}

impl<
    'a,
    E: Fn(usize, Start) -> Read<Boxed<Expr>>,
    Q: Fn(usize, Opening) -> Read<Boxed<Query>>,
> Reader<'a, E, Q> {
    /// An expression, from its first token on.
    pub fn deeper(&self, at: usize) -> Read<Boxed<Expr>>
        requires below { Nests self.now.tokens.now self.now.from (E.pre self.now.inner) (E.post self.now.inner) (Q.pre self.now.query) (Q.post self.now.query) }
        requires after { self.now.from < at }
        ensures reads { Reads self.now.tokens.now ((nested self.now.tokens.now).inner (from self.now.tokens.now at)) result }
        ensures moves { IfOk result (λ p. at ≤ p.1) }
    {
        (self.inner)(at, Start::Fresh)
    }

    /// An expression that goes on behind a basic expression, which begins at the byte `place`.
    pub fn deeper_behind(&self, at: usize, place: u64, basic: Boxed<Expr>) -> Read<Boxed<Expr>>
        requires below { Nests self.now.tokens.now self.now.from (E.pre self.now.inner) (E.post self.now.inner) (Q.pre self.now.query) (Q.post self.now.query) }
        requires after { self.now.from < at }
        requires begun { HasBegun place basic }
        ensures reads { Reads self.now.tokens.now ((nested self.now.tokens.now).rest place basic (from self.now.tokens.now at)) result }
        ensures moves { IfOk result (λ p. at ≤ p.1) }
    {
        (self.inner)(at, Start::Behind { place, basic })
    }

    /// A query, from its first token on.
    pub fn deeper_query(&self, at: usize) -> Read<Boxed<Query>>
        requires below { Nests self.now.tokens.now self.now.from (E.pre self.now.inner) (E.post self.now.inner) (Q.pre self.now.query) (Q.post self.now.query) }
        requires after { self.now.from < at }
        ensures reads { Reads self.now.tokens.now ((nested self.now.tokens.now).query (from self.now.tokens.now at)) result }
        ensures moves { IfOk result (λ p. at ≤ p.1) }
    {
        (self.query)(at, Opening::Fresh)
    }

    /// A query behind what was read of it.
    pub fn deeper_more(&self, at: usize, opening: Opening) -> Read<Boxed<Query>>
        requires below { Nests self.now.tokens.now self.now.from (E.pre self.now.inner) (E.post self.now.inner) (Q.pre self.now.query) (Q.post self.now.query) }
        requires after { self.now.from < at }
        requires begun { HasOpened opening }
        ensures reads { Reads self.now.tokens.now (opened (nested self.now.tokens.now) opening (from self.now.tokens.now at)) result }
        ensures moves { IfOk result (λ p. at ≤ p.1) }
    {
        (self.query)(at, opening)
    }
}
