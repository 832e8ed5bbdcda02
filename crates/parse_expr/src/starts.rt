//! What was read of an expression, a query or the content of parentheses before it was known which it is.
use parse_words::kept::Kept;
use sql_ast::{Expr, Query, Term};
use sql_types::{Boxed, Items};

/// Where an expression that stands deeper begins.
#[derive(Drop)]
pub enum Start {
    /// At its first token.
    Fresh,
    /// Behind a basic expression that was read and that begins at this byte.
    Behind { place: u64, basic: Boxed<Expr> },
}

/// Where a query begins.
#[derive(Drop)]
pub enum Opening {
    /// At its first token.
    Fresh,
    /// Behind its word WITH.
    With { word: Kept },
    /// Behind its first term, a query in brackets, which begins at this byte.
    Term { term: Boxed<Term>, place: u64 },
}

/// What parentheses hold: a query, or expressions.
#[derive(Drop)]
pub enum Held {
    Query { query: Boxed<Query> },
    Exprs { exprs: Items<Expr> },
}
