//! Whole queries.
ghost use Rattle.std.specs.Prelude.{◌<◌, ◌≤◌, IfOk};
ghost use Rattle.fronts.specs.Readers.{many};
ghost use Rattle.sql_ast.specs.declared.words.Sign.TheVariants as sign;
ghost use Rattle.sql_ast.specs.Marks as spec;
ghost use Rattle.sql_grammar.specs.Queries as queries;
ghost use Rattle.parse_expr.specs.Nests.{Nests};
ghost use Rattle.parse_query.specs.Asked.{asked};
ghost use Rattle.parse_words.specs.Reads.{from, nested, reading, turns, Reads};

use crate::set_operations::{sets_from, term_or_except};
use parse_expr::{Opening, Reader, Start};
use parse_words::cursor::{Read, expect, sees, start_at};
use parse_words::kept::{Kept, expect_word};
use parse_words::marks::Mark;
use parse_words::options::limit;
use parse_words::repeat::many_boxed;
use parse_words::saying::name_of;
use sql_ast::{Cte, Expr, Query, Reserved, Sign, Term};
use sql_nodes::boxes::one_of;
use sql_nodes::query_nodes;
use sql_types::{Boxed, Items};

/// The rest of a query behind the first term of its body, which begins at the byte `begun`.
#[tactic(auto, unfolding(sql_grammar::specs::Queries::query_end))]
pub fn query_end<
    E: Fn(usize, Start) -> Read<Boxed<Expr>>,
    Q: Fn(usize, Opening) -> Read<Boxed<Query>>,
>(
    reader: &Reader<'_, E, Q>,
    at: usize,
    place: u64,
    ctes: Items<Cte<Query>>,
    begun: u64,
    first: Boxed<Term>,
    read: Option<Kept>,
) -> Read<Boxed<Query>>
    requires below { Nests reader.now.tokens.now reader.now.from (E.pre reader.now.inner) (E.post reader.now.inner) (Q.pre reader.now.query) (Q.post reader.now.query) }
    requires after { reader.now.from ≤ at }
    ensures reads { Reads reader.now.tokens.now (reading reader.now.tokens.now queries.query_end place ctes begun first read (from reader.now.tokens.now at)) result }
    ensures moves { IfOk result (λ p. at ≤ p.1) }
{
    let (rest, at) = sets_from(reader, at, read)?;
    let (order, at) = reader.order(at)?;
    let (limit, at) = limit(reader.alloc, reader.tokens, at)?;
    let body = query_nodes::body(reader.alloc, first, rest, begun)?;
    Ok((
        query_nodes::query(reader.alloc, ctes, body, order, limit, place)?,
        at,
    ))
}

/// `name AS "(" query ")"`
#[tactic(auto, unfolding(sql_grammar::specs::Queries::cte))]
pub fn cte<E: Fn(usize, Start) -> Read<Boxed<Expr>>, Q: Fn(usize, Opening) -> Read<Boxed<Query>>>(
    reader: &Reader<'_, E, Q>,
    at: usize,
) -> Read<Boxed<Cte<Query>>>
    requires below { Nests reader.now.tokens.now reader.now.from (E.pre reader.now.inner) (E.post reader.now.inner) (Q.pre reader.now.query) (Q.post reader.now.query) }
    requires after { reader.now.from ≤ at }
    ensures reads { Reads reader.now.tokens.now (reading reader.now.tokens.now queries.cte (from reader.now.tokens.now at)) result }
    ensures moves { IfOk result (λ p. at < p.1) }
{
    let (token, at) = expect(reader.tokens, at, Mark::Name)?;
    let (_, at) = expect(reader.tokens, at, Mark::Reserved(Reserved::As))?;
    let (_, at) = expect(reader.tokens, at, Mark::Sign(Sign::OpenRound))?;
    let (query, at) = reader.deeper_query(at)?;
    let (_, at) = expect(reader.tokens, at, Mark::Sign(Sign::CloseRound))?;
    let name = name_of(reader.alloc, token)?;
    Ok((query_nodes::cte(reader.alloc, name, query)?, at))
}

/// `"," name AS "(" query ")"`
#[tactic(auto, unfolding(sql_grammar::specs::Queries::comma_cte))]
pub fn comma_cte<
    E: Fn(usize, Start) -> Read<Boxed<Expr>>,
    Q: Fn(usize, Opening) -> Read<Boxed<Query>>,
>(reader: &Reader<'_, E, Q>, at: usize) -> Read<Boxed<Cte<Query>>>
    requires below { Nests reader.now.tokens.now reader.now.from (E.pre reader.now.inner) (E.post reader.now.inner) (Q.pre reader.now.query) (Q.post reader.now.query) }
    requires after { reader.now.from ≤ at }
    ensures reads { Reads reader.now.tokens.now (reading reader.now.tokens.now queries.comma_cte (from reader.now.tokens.now at)) result }
    ensures moves { IfOk result (λ p. at < p.1) }
{
    let (_, at) = expect(reader.tokens, at, Mark::Sign(Sign::Comma))?;
    cte(reader, at)
}

/// The CTEs behind those that were found.
pub fn comma_ctes<
    E: Fn(usize, Start) -> Read<Boxed<Expr>>,
    Q: Fn(usize, Opening) -> Read<Boxed<Query>>,
>(reader: &Reader<'_, E, Q>, at: usize, found: Items<Cte<Query>>) -> Read<Items<Cte<Query>>>
    requires below { Nests reader.now.tokens.now reader.now.from (E.pre reader.now.inner) (E.post reader.now.inner) (Q.pre reader.now.query) (Q.post reader.now.query) }
    requires after { reader.now.from ≤ at }
    ensures reads { Reads reader.now.tokens.now (many (spec.sign sign.Comma) (reading reader.now.tokens.now queries.comma_cte) (turns reader.now.tokens.now) found (from reader.now.tokens.now at)) result }
    ensures moves { IfOk result (λ p. at ≤ p.1) }
{
    many_boxed(
        reader.tokens,
        at,
        Mark::Sign(Sign::Comma),
        found,
        |place| comma_cte(reader, place),
    )
}

/// A query's body and what follows it.
#[tactic(auto, unfolding(sql_grammar::specs::Queries::query_body))]
pub fn query_body<
    E: Fn(usize, Start) -> Read<Boxed<Expr>>,
    Q: Fn(usize, Opening) -> Read<Boxed<Query>>,
>(reader: &Reader<'_, E, Q>, at: usize, place: u64, ctes: Items<Cte<Query>>) -> Read<Boxed<Query>>
    requires below { Nests reader.now.tokens.now reader.now.from (E.pre reader.now.inner) (E.post reader.now.inner) (Q.pre reader.now.query) (Q.post reader.now.query) }
    requires after { reader.now.from ≤ at }
    ensures reads { Reads reader.now.tokens.now (reading reader.now.tokens.now queries.query_body place ctes (from reader.now.tokens.now at)) result }
    ensures moves { IfOk result (λ p. at < p.1) }
{
    let begun = start_at(reader.tokens, at);
    let ((first, read), at) = term_or_except(reader, at)?;
    query_end(reader, at, place, ctes, begun, first, read)
}

/// A query behind its word WITH.
#[tactic(auto, unfolding(sql_grammar::specs::Queries::query_with))]
pub fn query_with<
    E: Fn(usize, Start) -> Read<Boxed<Expr>>,
    Q: Fn(usize, Opening) -> Read<Boxed<Query>>,
>(reader: &Reader<'_, E, Q>, at: usize, word: Kept) -> Read<Boxed<Query>>
    requires below { Nests reader.now.tokens.now reader.now.from (E.pre reader.now.inner) (E.post reader.now.inner) (Q.pre reader.now.query) (Q.post reader.now.query) }
    requires after { reader.now.from ≤ at }
    ensures reads { Reads reader.now.tokens.now (reading reader.now.tokens.now queries.query_with word (from reader.now.tokens.now at)) result }
    ensures moves { IfOk result (λ p. at < p.1) }
{
    let (first, at) = cte(reader, at)?;
    let (ctes, at) = comma_ctes(reader, at, one_of(reader.alloc, first)?)?;
    query_body(reader, at, word.start(), ctes)
}

/// A query.
#[tactic(auto, unfolding(sql_grammar::specs::Queries::query_whole))]
pub fn query_whole<
    E: Fn(usize, Start) -> Read<Boxed<Expr>>,
    Q: Fn(usize, Opening) -> Read<Boxed<Query>>,
>(reader: &Reader<'_, E, Q>, at: usize) -> Read<Boxed<Query>>
    requires below { Nests reader.now.tokens.now reader.now.from (E.pre reader.now.inner) (E.post reader.now.inner) (Q.pre reader.now.query) (Q.post reader.now.query) }
    requires after { reader.now.from ≤ at }
    ensures reads { Reads reader.now.tokens.now (reading reader.now.tokens.now queries.query_whole (from reader.now.tokens.now at)) result }
    ensures moves { IfOk result (λ p. at < p.1) }
{
    if sees(reader.tokens, at, Mark::Reserved(Reserved::With)) {
        let (word, at) = expect_word(reader.tokens, at, Reserved::With)?;
        return query_with(reader, at, word);
    }
    let place = start_at(reader.tokens, at);
    query_body(reader, at, place, Items::new(reader.alloc))
}

/// A query behind what was read of it.
pub fn query_more<
    E: Fn(usize, Start) -> Read<Boxed<Expr>>,
    Q: Fn(usize, Opening) -> Read<Boxed<Query>>,
>(reader: &Reader<'_, E, Q>, at: usize, opening: Opening) -> Read<Boxed<Query>>
    requires below { Nests reader.now.tokens.now reader.now.from (E.pre reader.now.inner) (E.post reader.now.inner) (Q.pre reader.now.query) (Q.post reader.now.query) }
    requires after { reader.now.from ≤ at }
    ensures reads { Reads reader.now.tokens.now (asked (turns reader.now.tokens.now) (nested reader.now.tokens.now) opening (from reader.now.tokens.now at)) result }
    ensures moves { IfOk result (λ p. at ≤ p.1) }
{
    match opening {
        Opening::Fresh => query_whole(reader, at),
        Opening::With { word } => query_with(reader, at, word),
        Opening::Term { term, place } => query_end(
            reader,
            at,
            place,
            Items::new(reader.alloc),
            place,
            term,
            None,
        ),
    }
}
