//! The items of FROM.
ghost use Rattle.std.specs.Prelude.{◌<◌, ◌≤◌, IfOk, [], ◌∷◌};
ghost use Rattle.fronts.specs.Readers.{pure, token};
ghost use Rattle.sql_ast.specs.declared.words.Sign.TheVariants as sign;
ghost use Rattle.sql_ast.specs.declared.query.Primary.TheVariants as primary;
ghost use Rattle.sql_ast.specs.Marks as spec;
ghost use Rattle.sql_ast.specs.Trees as trees;
ghost use Rattle.sql_grammar.specs.Queries as queries;
ghost use Rattle.sql_grammar.specs.Words as words;
ghost use Rattle.parse_expr.specs.Steps.{followed};
ghost use Rattle.parse_expr.specs.Nests.{Nests};
ghost use Rattle.parse_words.specs.Reads.{from, reading, turns, Reads};

use crate::beginnings::{PrimaryStart, primary_start};
use crate::turns::turned;
use parse_expr::{Opening, Reader, Start};
use parse_words::cursor::{Read, expect, refusal_at, sees};
use parse_words::marks::Mark;
use parse_words::names::{alias_in_from, dotted, name, offset_column};
use parse_words::repeat::one;
use parse_words::saying::name_of;
use sql_ast::{Expr, Primary, Query, Reserved, Sign, Token};
use sql_nodes::query_nodes;
use sql_types::Boxed;

/// A path behind its first name.
pub fn path<E: Fn(usize, Start) -> Read<Boxed<Expr>>, Q: Fn(usize, Opening) -> Read<Boxed<Query>>>(
    reader: &Reader<'_, E, Q>,
    at: usize,
    first: &Token,
) -> Read<Boxed<Primary>>
    requires below { Nests reader.now.tokens.now reader.now.from (E.pre reader.now.inner) (E.post reader.now.inner) (Q.pre reader.now.query) (Q.post reader.now.query) }
    requires after { reader.now.from ≤ at }
    ensures reads { Reads reader.now.tokens.now (followed (token (spec.sign sign.Dot)) (λ o. followed (words.name) (λ m. followed (words.dotted (turns reader.now.tokens.now) (trees.name_at first.now ∷ m ∷ [])) (λ ns. followed (words.alias_in_from) (λ a. followed (words.offset_column) (λ d. pure (primary.Path ns a d first.now.start)))))) (from reader.now.tokens.now at)) result }
    ensures moves { IfOk result (λ p. at < p.1) }
{
    let (_, at) = expect(reader.tokens, at, Mark::Sign(Sign::Dot))?;
    let (after, at) = name(reader.alloc, reader.tokens, at)?;
    let mut found = one(reader.alloc, name_of(reader.alloc, first)?)?;
    found.push(after)?;
    let (path, at) = dotted(reader.alloc, reader.tokens, at, found)?;
    let (alias, at) = alias_in_from(reader.alloc, reader.tokens, at)?;
    let (offset, at) = offset_column(reader.alloc, reader.tokens, at)?;
    let place = first.start;
    Ok((
        query_nodes::primary_path(reader.alloc, path, alias, offset, place)?,
        at,
    ))
}

/// A table behind its name.
pub fn table<E: Fn(usize, Start) -> Read<Boxed<Expr>>, Q: Fn(usize, Opening) -> Read<Boxed<Query>>>(
    reader: &Reader<'_, E, Q>,
    at: usize,
    first: &Token,
) -> Read<Boxed<Primary>>
    requires below { Nests reader.now.tokens.now reader.now.from (E.pre reader.now.inner) (E.post reader.now.inner) (Q.pre reader.now.query) (Q.post reader.now.query) }
    requires after { reader.now.from ≤ at }
    ensures reads { Reads reader.now.tokens.now (followed (words.alias_in_from) (λ a. followed (reading reader.now.tokens.now queries.turned) (λ x. pure (primary.Table (trees.name_at first.now) a x first.now.start))) (from reader.now.tokens.now at)) result }
    ensures moves { IfOk result (λ p. at ≤ p.1) }
{
    let (alias, at) = alias_in_from(reader.alloc, reader.tokens, at)?;
    let (turned, at) = turned(reader, at)?;
    let name = name_of(reader.alloc, first)?;
    let place = first.start;
    Ok((
        query_nodes::primary_table(reader.alloc, name, alias, turned, place)?,
        at,
    ))
}

/// A table, or a path, behind the first name.
#[tactic(auto, unfolding(sql_grammar::specs::Queries::table_or_path))]
pub fn table_or_path<
    E: Fn(usize, Start) -> Read<Boxed<Expr>>,
    Q: Fn(usize, Opening) -> Read<Boxed<Query>>,
>(reader: &Reader<'_, E, Q>, at: usize, first: &Token) -> Read<Boxed<Primary>>
    requires below { Nests reader.now.tokens.now reader.now.from (E.pre reader.now.inner) (E.post reader.now.inner) (Q.pre reader.now.query) (Q.post reader.now.query) }
    requires after { reader.now.from ≤ at }
    ensures reads { Reads reader.now.tokens.now (reading reader.now.tokens.now queries.table_or_path first.now (from reader.now.tokens.now at)) result }
    ensures moves { IfOk result (λ p. at ≤ p.1) }
{
    if sees(reader.tokens, at, Mark::Sign(Sign::Dot)) {
        return path(reader, at, first);
    }
    table(reader, at, first)
}

/// A table or a path.
pub fn primary_name<
    E: Fn(usize, Start) -> Read<Boxed<Expr>>,
    Q: Fn(usize, Opening) -> Read<Boxed<Query>>,
>(reader: &Reader<'_, E, Q>, at: usize) -> Read<Boxed<Primary>>
    requires below { Nests reader.now.tokens.now reader.now.from (E.pre reader.now.inner) (E.post reader.now.inner) (Q.pre reader.now.query) (Q.post reader.now.query) }
    requires after { reader.now.from ≤ at }
    ensures reads { Reads reader.now.tokens.now (followed (token spec.named) (reading reader.now.tokens.now queries.table_or_path) (from reader.now.tokens.now at)) result }
    ensures moves { IfOk result (λ p. at < p.1) }
{
    let (token, at) = expect(reader.tokens, at, Mark::Name)?;
    table_or_path(reader, at, token)
}

/// A query in brackets.
#[tactic(auto, unfolding(sql_grammar::specs::Queries::primary_query))]
pub fn primary_query<
    E: Fn(usize, Start) -> Read<Boxed<Expr>>,
    Q: Fn(usize, Opening) -> Read<Boxed<Query>>,
>(reader: &Reader<'_, E, Q>, at: usize) -> Read<Boxed<Primary>>
    requires below { Nests reader.now.tokens.now reader.now.from (E.pre reader.now.inner) (E.post reader.now.inner) (Q.pre reader.now.query) (Q.post reader.now.query) }
    requires after { reader.now.from ≤ at }
    ensures reads { Reads reader.now.tokens.now (reading reader.now.tokens.now queries.primary_query (from reader.now.tokens.now at)) result }
    ensures moves { IfOk result (λ p. at < p.1) }
{
    let (open, at) = expect(reader.tokens, at, Mark::Sign(Sign::OpenRound))?;
    let (query, at) = reader.deeper_query(at)?;
    let (_, at) = expect(reader.tokens, at, Mark::Sign(Sign::CloseRound))?;
    let (alias, at) = alias_in_from(reader.alloc, reader.tokens, at)?;
    let (turned, at) = turned(reader, at)?;
    let place = open.start;
    Ok((
        query_nodes::primary_query(reader.alloc, query, alias, turned, place)?,
        at,
    ))
}

/// UNNEST.
#[tactic(auto, unfolding(sql_grammar::specs::Queries::primary_unnest))]
pub fn primary_unnest<
    E: Fn(usize, Start) -> Read<Boxed<Expr>>,
    Q: Fn(usize, Opening) -> Read<Boxed<Query>>,
>(reader: &Reader<'_, E, Q>, at: usize) -> Read<Boxed<Primary>>
    requires below { Nests reader.now.tokens.now reader.now.from (E.pre reader.now.inner) (E.post reader.now.inner) (Q.pre reader.now.query) (Q.post reader.now.query) }
    requires after { reader.now.from ≤ at }
    ensures reads { Reads reader.now.tokens.now (reading reader.now.tokens.now queries.primary_unnest (from reader.now.tokens.now at)) result }
    ensures moves { IfOk result (λ p. at < p.1) }
{
    let (word, at) = expect(reader.tokens, at, Mark::Reserved(Reserved::Unnest))?;
    let (array, at) = reader.bracketed(at)?;
    let (alias, at) = alias_in_from(reader.alloc, reader.tokens, at)?;
    let (offset, at) = offset_column(reader.alloc, reader.tokens, at)?;
    let place = word.start;
    Ok((
        query_nodes::primary_unnest(reader.alloc, array, alias, offset, place)?,
        at,
    ))
}

/// An item of FROM.
#[tactic(auto, unfolding(sql_grammar::specs::Queries::primary_item))]
pub fn primary_item<
    E: Fn(usize, Start) -> Read<Boxed<Expr>>,
    Q: Fn(usize, Opening) -> Read<Boxed<Query>>,
>(reader: &Reader<'_, E, Q>, at: usize) -> Read<Boxed<Primary>>
    requires below { Nests reader.now.tokens.now reader.now.from (E.pre reader.now.inner) (E.post reader.now.inner) (Q.pre reader.now.query) (Q.post reader.now.query) }
    requires after { reader.now.from ≤ at }
    ensures reads { Reads reader.now.tokens.now (reading reader.now.tokens.now queries.primary_item (from reader.now.tokens.now at)) result }
    ensures moves { IfOk result (λ p. at < p.1) }
{
    match primary_start(reader.tokens, at) {
        PrimaryStart::Name => primary_name(reader, at),
        PrimaryStart::Bracket => primary_query(reader, at),
        PrimaryStart::Unnest => primary_unnest(reader, at),
        PrimaryStart::Other => Err(refusal_at(reader.tokens, at)),
    }
}
