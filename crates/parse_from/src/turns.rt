//! PIVOT and UNPIVOT.
ghost use Rattle.std.specs.Prelude.{◌<◌, ◌≤◌, IfOk};
ghost use Rattle.fronts.specs.Readers.{many};
ghost use Rattle.sql_ast.specs.declared.words.Sign.TheVariants as sign;
ghost use Rattle.sql_ast.specs.Marks as spec;
ghost use Rattle.sql_grammar.specs.Queries as queries;
ghost use Rattle.sql_grammar.specs.Words as words;
ghost use Rattle.parse_expr.specs.Nests.{Nests};
ghost use Rattle.parse_words.specs.Reads.{from, nested, reading, turns, Reads};

use parse_expr::{Opening, Reader, Start};
use parse_words::cursor::{Read, expect, sees};
use parse_words::marks::Mark;
use parse_words::names::{alias, alias_in_from, comma_column, dotted, name, unpivot_column};
use parse_words::options::include;
use parse_words::repeat::{many, many_boxed, one};
use sql_ast::{
    Aliased, Expr, PivotCall, Query, Reserved, Sign, Token, Turn, Turned, UnpivotColumn, Word,
};
use sql_lexer::Tokens;
use sql_nodes::boxes::one_of;
use sql_nodes::part_nodes;
use sql_types::{Boxed, Items};
use std::alloc::Global;

/// `call [alias]`
#[tactic(auto, unfolding(sql_grammar::specs::Queries::pivot_call))]
pub fn pivot_call<
    E: Fn(usize, Start) -> Read<Boxed<Expr>>,
    Q: Fn(usize, Opening) -> Read<Boxed<Query>>,
>(reader: &Reader<'_, E, Q>, at: usize) -> Read<Boxed<PivotCall<Expr>>>
    requires below { Nests reader.now.tokens.now reader.now.from (E.pre reader.now.inner) (E.post reader.now.inner) (Q.pre reader.now.query) (Q.post reader.now.query) }
    requires after { reader.now.from ≤ at }
    ensures reads { Reads reader.now.tokens.now (reading reader.now.tokens.now queries.pivot_call (from reader.now.tokens.now at)) result }
    ensures moves { IfOk result (λ p. at < p.1) }
{
    let (call, at) = reader.call(at)?;
    let (alias, at) = alias(reader.alloc, reader.tokens, at)?;
    Ok((part_nodes::pivot_call(reader.alloc, call, alias)?, at))
}

/// `"," call [alias]`
#[tactic(auto, unfolding(sql_grammar::specs::Queries::comma_pivot_call))]
pub fn comma_pivot_call<
    E: Fn(usize, Start) -> Read<Boxed<Expr>>,
    Q: Fn(usize, Opening) -> Read<Boxed<Query>>,
>(reader: &Reader<'_, E, Q>, at: usize) -> Read<Boxed<PivotCall<Expr>>>
    requires below { Nests reader.now.tokens.now reader.now.from (E.pre reader.now.inner) (E.post reader.now.inner) (Q.pre reader.now.query) (Q.post reader.now.query) }
    requires after { reader.now.from ≤ at }
    ensures reads { Reads reader.now.tokens.now (reading reader.now.tokens.now queries.comma_pivot_call (from reader.now.tokens.now at)) result }
    ensures moves { IfOk result (λ p. at < p.1) }
{
    let (_, at) = expect(reader.tokens, at, Mark::Sign(Sign::Comma))?;
    pivot_call(reader, at)
}

/// `{"," call [alias]}` behind those that were found.
pub fn comma_pivot_calls<
    E: Fn(usize, Start) -> Read<Boxed<Expr>>,
    Q: Fn(usize, Opening) -> Read<Boxed<Query>>,
>(
    reader: &Reader<'_, E, Q>,
    at: usize,
    found: Items<PivotCall<Expr>>,
) -> Read<Items<PivotCall<Expr>>>
    requires below { Nests reader.now.tokens.now reader.now.from (E.pre reader.now.inner) (E.post reader.now.inner) (Q.pre reader.now.query) (Q.post reader.now.query) }
    requires after { reader.now.from ≤ at }
    ensures reads { Reads reader.now.tokens.now (many (spec.sign sign.Comma) (reading reader.now.tokens.now queries.comma_pivot_call) (turns reader.now.tokens.now) found (from reader.now.tokens.now at)) result }
    ensures moves { IfOk result (λ p. at ≤ p.1) }
{
    many_boxed(
        reader.tokens,
        at,
        Mark::Sign(Sign::Comma),
        found,
        |place| comma_pivot_call(reader, place),
    )
}

/// `expr [alias]`, behind a token.
#[tactic(auto, unfolding(sql_grammar::specs::Queries::pivot_value))]
pub fn pivot_value<
    E: Fn(usize, Start) -> Read<Boxed<Expr>>,
    Q: Fn(usize, Opening) -> Read<Boxed<Query>>,
>(reader: &Reader<'_, E, Q>, at: usize) -> Read<Boxed<Aliased<Expr>>>
    requires below { Nests reader.now.tokens.now reader.now.from (E.pre reader.now.inner) (E.post reader.now.inner) (Q.pre reader.now.query) (Q.post reader.now.query) }
    requires after { reader.now.from < at }
    ensures reads { Reads reader.now.tokens.now (reading reader.now.tokens.now queries.pivot_value (from reader.now.tokens.now at)) result }
    ensures moves { IfOk result (λ p. at ≤ p.1) }
{
    let (expr, at) = reader.deeper(at)?;
    let (alias, at) = alias(reader.alloc, reader.tokens, at)?;
    Ok((part_nodes::aliased(reader.alloc, expr, alias)?, at))
}

/// `"," expr [alias]`
#[tactic(auto, unfolding(sql_grammar::specs::Queries::comma_pivot_value))]
pub fn comma_pivot_value<
    E: Fn(usize, Start) -> Read<Boxed<Expr>>,
    Q: Fn(usize, Opening) -> Read<Boxed<Query>>,
>(reader: &Reader<'_, E, Q>, at: usize) -> Read<Boxed<Aliased<Expr>>>
    requires below { Nests reader.now.tokens.now reader.now.from (E.pre reader.now.inner) (E.post reader.now.inner) (Q.pre reader.now.query) (Q.post reader.now.query) }
    requires after { reader.now.from ≤ at }
    ensures reads { Reads reader.now.tokens.now (reading reader.now.tokens.now queries.comma_pivot_value (from reader.now.tokens.now at)) result }
    ensures moves { IfOk result (λ p. at < p.1) }
{
    let (_, at) = expect(reader.tokens, at, Mark::Sign(Sign::Comma))?;
    pivot_value(reader, at)
}

/// `{"," expr [alias]}` behind those that were found.
pub fn comma_pivot_values<
    E: Fn(usize, Start) -> Read<Boxed<Expr>>,
    Q: Fn(usize, Opening) -> Read<Boxed<Query>>,
>(reader: &Reader<'_, E, Q>, at: usize, found: Items<Aliased<Expr>>) -> Read<Items<Aliased<Expr>>>
    requires below { Nests reader.now.tokens.now reader.now.from (E.pre reader.now.inner) (E.post reader.now.inner) (Q.pre reader.now.query) (Q.post reader.now.query) }
    requires after { reader.now.from ≤ at }
    ensures reads { Reads reader.now.tokens.now (many (spec.sign sign.Comma) (reading reader.now.tokens.now queries.comma_pivot_value) (turns reader.now.tokens.now) found (from reader.now.tokens.now at)) result }
    ensures moves { IfOk result (λ p. at ≤ p.1) }
{
    many_boxed(
        reader.tokens,
        at,
        Mark::Sign(Sign::Comma),
        found,
        |place| comma_pivot_value(reader, place),
    )
}

/// PIVOT behind its word.
#[tactic(auto, unfolding(sql_grammar::specs::Queries::pivot_behind))]
pub fn pivot_behind<
    E: Fn(usize, Start) -> Read<Boxed<Expr>>,
    Q: Fn(usize, Opening) -> Read<Boxed<Query>>,
>(reader: &Reader<'_, E, Q>, at: usize, word: &Token) -> Read<Boxed<Turn<Expr>>>
    requires below { Nests reader.now.tokens.now reader.now.from (E.pre reader.now.inner) (E.post reader.now.inner) (Q.pre reader.now.query) (Q.post reader.now.query) }
    requires after { reader.now.from ≤ at }
    ensures reads { Reads reader.now.tokens.now (reading reader.now.tokens.now queries.pivot_behind word.now (from reader.now.tokens.now at)) result }
    ensures moves { IfOk result (λ p. at < p.1) }
{
    let (_, at) = expect(reader.tokens, at, Mark::Sign(Sign::OpenRound))?;
    let (first, at) = pivot_call(reader, at)?;
    let (aggregates, at) = comma_pivot_calls(reader, at, one_of(reader.alloc, first)?)?;
    let (_, at) = expect(reader.tokens, at, Mark::Reserved(Reserved::For))?;
    let (name, at) = name(reader.alloc, reader.tokens, at)?;
    let (input, at) = dotted(reader.alloc, reader.tokens, at, one(reader.alloc, name)?)?;
    let (_, at) = expect(reader.tokens, at, Mark::Reserved(Reserved::In))?;
    let (_, at) = expect(reader.tokens, at, Mark::Sign(Sign::OpenRound))?;
    let (first, at) = pivot_value(reader, at)?;
    let (values, at) = comma_pivot_values(reader, at, one_of(reader.alloc, first)?)?;
    let (_, at) = expect(reader.tokens, at, Mark::Sign(Sign::CloseRound))?;
    let (_, at) = expect(reader.tokens, at, Mark::Sign(Sign::CloseRound))?;
    let place = word.start;
    Ok((
        part_nodes::turn_pivot(reader.alloc, aggregates, input, values, place)?,
        at,
    ))
}

/// PIVOT.
#[tactic(auto, unfolding(sql_grammar::specs::Queries::pivot))]
pub fn pivot<E: Fn(usize, Start) -> Read<Boxed<Expr>>, Q: Fn(usize, Opening) -> Read<Boxed<Query>>>(
    reader: &Reader<'_, E, Q>,
    at: usize,
) -> Read<Boxed<Turn<Expr>>>
    requires below { Nests reader.now.tokens.now reader.now.from (E.pre reader.now.inner) (E.post reader.now.inner) (Q.pre reader.now.query) (Q.post reader.now.query) }
    requires after { reader.now.from ≤ at }
    ensures reads { Reads reader.now.tokens.now (reading reader.now.tokens.now queries.pivot (from reader.now.tokens.now at)) result }
    ensures moves { IfOk result (λ p. at < p.1) }
{
    let (word, at) = expect(reader.tokens, at, Mark::Word(Word::Pivot))?;
    pivot_behind(reader, at, word)
}

/// `{"," column}` of UNPIVOT behind those that were found.
fn comma_columns(
    alloc: Global,
    tokens: &Tokens,
    at: usize,
    found: Items<UnpivotColumn>,
) -> Read<Items<UnpivotColumn>>
    ensures reads { Reads tokens.now (many (spec.sign sign.Comma) words.comma_column (turns tokens.now) found (from tokens.now at)) result }
    ensures moves { IfOk result (λ p. at ≤ p.1) }
{
    many(
        tokens,
        at,
        Mark::Sign(Sign::Comma),
        found,
        |place| comma_column(alloc, tokens, place),
    )
}

/// UNPIVOT behind its word, which begins at this byte.
#[tactic(auto, unfolding(sql_grammar::specs::Queries::unpivot_behind))]
fn unpivot_behind(
    alloc: Global,
    tokens: &Tokens,
    at: usize,
    word: &Token,
) -> Read<Boxed<Turn<Expr>>>
    ensures reads { Reads tokens.now (reading tokens.now queries.unpivot_behind word.now (from tokens.now at)) result }
    ensures moves { IfOk result (λ p. at < p.1) }
{
    let (include_nulls, at) = include(tokens, at)?;
    let (_, at) = expect(tokens, at, Mark::Sign(Sign::OpenRound))?;
    let (value, at) = name(alloc, tokens, at)?;
    let (_, at) = expect(tokens, at, Mark::Reserved(Reserved::For))?;
    let (label, at) = name(alloc, tokens, at)?;
    let (_, at) = expect(tokens, at, Mark::Reserved(Reserved::In))?;
    let (_, at) = expect(tokens, at, Mark::Sign(Sign::OpenRound))?;
    let (first, at) = unpivot_column(alloc, tokens, at)?;
    let (columns, at) = comma_columns(alloc, tokens, at, one(alloc, first)?)?;
    let (_, at) = expect(tokens, at, Mark::Sign(Sign::CloseRound))?;
    let (_, at) = expect(tokens, at, Mark::Sign(Sign::CloseRound))?;
    let turn = part_nodes::turn_unpivot(alloc, include_nulls, value, label, columns, word.start)?;
    Ok((turn, at))
}

/// UNPIVOT.
#[tactic(auto, unfolding(sql_grammar::specs::Queries::unpivot))]
pub fn unpivot(alloc: Global, tokens: &Tokens, at: usize) -> Read<Boxed<Turn<Expr>>>
    ensures reads { Reads tokens.now (reading tokens.now queries.unpivot (from tokens.now at)) result }
    ensures moves { IfOk result (λ p. at < p.1) }
{
    let (word, at) = expect(tokens, at, Mark::Word(Word::Unpivot))?;
    unpivot_behind(alloc, tokens, at, word)
}

/// PIVOT with its alias.
#[tactic(auto, unfolding(sql_grammar::specs::Queries::turned_by))]
pub fn pivoted<
    E: Fn(usize, Start) -> Read<Boxed<Expr>>,
    Q: Fn(usize, Opening) -> Read<Boxed<Query>>,
>(reader: &Reader<'_, E, Q>, at: usize) -> Read<Option<Boxed<Turned<Expr>>>>
    requires below { Nests reader.now.tokens.now reader.now.from (E.pre reader.now.inner) (E.post reader.now.inner) (Q.pre reader.now.query) (Q.post reader.now.query) }
    requires after { reader.now.from ≤ at }
    ensures reads { Reads reader.now.tokens.now (queries.turned_by (turns reader.now.tokens.now) (nested reader.now.tokens.now) (reading reader.now.tokens.now queries.pivot) (from reader.now.tokens.now at)) result }
    ensures moves { IfOk result (λ p. at < p.1) }
{
    let (turn, at) = pivot(reader, at)?;
    let (alias, at) = alias_in_from(reader.alloc, reader.tokens, at)?;
    Ok((Some(part_nodes::turned(reader.alloc, turn, alias)?), at))
}

/// UNPIVOT with its alias.
#[tactic(auto, unfolding(sql_grammar::specs::Queries::turned_by))]
pub fn unpivoted<
    E: Fn(usize, Start) -> Read<Boxed<Expr>>,
    Q: Fn(usize, Opening) -> Read<Boxed<Query>>,
>(reader: &Reader<'_, E, Q>, at: usize) -> Read<Option<Boxed<Turned<Expr>>>>
    requires below { Nests reader.now.tokens.now reader.now.from (E.pre reader.now.inner) (E.post reader.now.inner) (Q.pre reader.now.query) (Q.post reader.now.query) }
    requires after { reader.now.from ≤ at }
    ensures reads { Reads reader.now.tokens.now (queries.turned_by (turns reader.now.tokens.now) (nested reader.now.tokens.now) (reading reader.now.tokens.now queries.unpivot) (from reader.now.tokens.now at)) result }
    ensures moves { IfOk result (λ p. at < p.1) }
{
    let (turn, at) = unpivot(reader.alloc, reader.tokens, at)?;
    let (alias, at) = alias_in_from(reader.alloc, reader.tokens, at)?;
    Ok((Some(part_nodes::turned(reader.alloc, turn, alias)?), at))
}

/// `[turn [alias]]`
#[tactic(auto, unfolding(sql_grammar::specs::Queries::turned))]
pub fn turned<
    E: Fn(usize, Start) -> Read<Boxed<Expr>>,
    Q: Fn(usize, Opening) -> Read<Boxed<Query>>,
>(reader: &Reader<'_, E, Q>, at: usize) -> Read<Option<Boxed<Turned<Expr>>>>
    requires below { Nests reader.now.tokens.now reader.now.from (E.pre reader.now.inner) (E.post reader.now.inner) (Q.pre reader.now.query) (Q.post reader.now.query) }
    requires after { reader.now.from ≤ at }
    ensures reads { Reads reader.now.tokens.now (reading reader.now.tokens.now queries.turned (from reader.now.tokens.now at)) result }
    ensures moves { IfOk result (λ p. at ≤ p.1) }
{
    if sees(reader.tokens, at, Mark::Word(Word::Pivot)) {
        return pivoted(reader, at);
    }
    if sees(reader.tokens, at, Mark::Word(Word::Unpivot)) {
        return unpivoted(reader, at);
    }
    Ok((None, at))
}
