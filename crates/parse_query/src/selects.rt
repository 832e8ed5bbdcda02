//! SELECT.
ghost use Rattle.std.specs.Prelude.{◌≡◌, ◌<◌, ◌≤◌, IfOk, None};
ghost use Rattle.sql_grammar.specs.Queries as queries;
ghost use Rattle.parse_expr.specs.Nests.{Nests};
ghost use Rattle.parse_words.specs.Reads.{from, reading, Reads};

use crate::ends::{ItemsEnd, except_of};
use crate::items::items;
use parse_expr::{Opening, Reader, Start};
use parse_from::joins::from_part;
use parse_groups::groupings::group_by;
use parse_words::cursor::{Read, expect, sees};
use parse_words::kept::Kept;
use parse_words::marks::Mark;
use parse_words::options::{as_struct, select_distinct};
use sql_ast::{Expr, FilterPart, Item, Query, Reserved, Select, Token};
use sql_nodes::{part_nodes, query_nodes};
use sql_types::{Boxed, Items, OutOfMemory};
use std::alloc::Global;

/// `[WHERE expr]`
#[tactic(auto, unfolding(sql_grammar::specs::Queries::where_part))]
pub fn where_part<
    E: Fn(usize, Start) -> Read<Boxed<Expr>>,
    Q: Fn(usize, Opening) -> Read<Boxed<Query>>,
>(reader: &Reader<'_, E, Q>, at: usize) -> Read<Option<Boxed<Expr>>>
    requires below { Nests reader.now.tokens.now reader.now.from (E.pre reader.now.inner) (E.post reader.now.inner) (Q.pre reader.now.query) (Q.post reader.now.query) }
    requires after { reader.now.from ≤ at }
    ensures reads { Reads reader.now.tokens.now (reading reader.now.tokens.now queries.where_part (from reader.now.tokens.now at)) result }
    ensures moves { IfOk result (λ p. at ≤ p.1) }
{
    if !sees(reader.tokens, at, Mark::Reserved(Reserved::Where)) {
        return Ok((None, at));
    }
    let (test, at) = reader.after(at, Mark::Reserved(Reserved::Where))?;
    Ok((Some(test), at))
}

/// `[HAVING expr]`
#[tactic(auto, unfolding(sql_grammar::specs::Queries::having_part))]
pub fn having_part<
    E: Fn(usize, Start) -> Read<Boxed<Expr>>,
    Q: Fn(usize, Opening) -> Read<Boxed<Query>>,
>(reader: &Reader<'_, E, Q>, at: usize) -> Read<Option<Boxed<FilterPart<Expr>>>>
    requires below { Nests reader.now.tokens.now reader.now.from (E.pre reader.now.inner) (E.post reader.now.inner) (Q.pre reader.now.query) (Q.post reader.now.query) }
    requires after { reader.now.from ≤ at }
    ensures reads { Reads reader.now.tokens.now (reading reader.now.tokens.now queries.having_part (from reader.now.tokens.now at)) result }
    ensures moves { IfOk result (λ p. at ≤ p.1) }
{
    if !sees(reader.tokens, at, Mark::Reserved(Reserved::Having)) {
        return Ok((None, at));
    }
    let (word, at) = expect(reader.tokens, at, Mark::Reserved(Reserved::Having))?;
    let (test, at) = reader.deeper(at)?;
    let place = word.start;
    Ok((
        Some(part_nodes::filter_part(reader.alloc, test, place)?),
        at,
    ))
}

/// The clauses of a SELECT behind its items.
#[tactic(auto, unfolding(sql_grammar::specs::Queries::clauses))]
pub fn clauses<
    E: Fn(usize, Start) -> Read<Boxed<Expr>>,
    Q: Fn(usize, Opening) -> Read<Boxed<Query>>,
>(
    reader: &Reader<'_, E, Q>,
    at: usize,
    word: &Token,
    distinct: bool,
    as_struct: bool,
    items: Items<Item<Expr>>,
) -> Read<(Boxed<Select>, Option<Kept>)>
    requires below { Nests reader.now.tokens.now reader.now.from (E.pre reader.now.inner) (E.post reader.now.inner) (Q.pre reader.now.query) (Q.post reader.now.query) }
    requires after { reader.now.from ≤ at }
    ensures reads { Reads reader.now.tokens.now (reading reader.now.tokens.now queries.clauses word.now distinct as_struct items (from reader.now.tokens.now at)) result }
    ensures moves { IfOk result (λ p. at ≤ p.1) }
{
    let (from, at) = from_part(reader, at)?;
    let (filter, at) = where_part(reader, at)?;
    let (grouping, at) = group_by(reader, at)?;
    let (having, at) = having_part(reader, at)?;
    let place = word.start;
    let select = query_nodes::select(
        reader.alloc,
        distinct,
        as_struct,
        items,
        from,
        filter,
        grouping,
        having,
        place,
    )?;
    Ok(((select, None), at))
}

/// The same, unless the word EXCEPT behind the last item ends the SELECT.
pub fn select_end<
    E: Fn(usize, Start) -> Read<Boxed<Expr>>,
    Q: Fn(usize, Opening) -> Read<Boxed<Query>>,
>(
    reader: &Reader<'_, E, Q>,
    at: usize,
    word: &Token,
    distinct: bool,
    as_struct: bool,
    items: Items<Item<Expr>>,
    end: Option<ItemsEnd>,
) -> Read<(Boxed<Select>, Option<Kept>)>
    requires below { Nests reader.now.tokens.now reader.now.from (E.pre reader.now.inner) (E.post reader.now.inner) (Q.pre reader.now.query) (Q.post reader.now.query) }
    requires after { reader.now.from ≤ at }
    ensures reads { Reads reader.now.tokens.now (reading reader.now.tokens.now queries.select_end word.now distinct as_struct items end (from reader.now.tokens.now at)) result }
    ensures moves { IfOk result (λ p. at ≤ p.1) }
{
    match except_of(end) {
        Some(except) => Ok((
            (
                bare_select(reader.alloc, word, distinct, as_struct, items)?,
                Some(except),
            ),
            at,
        )),
        None => clauses(reader, at, word, distinct, as_struct, items),
    }
}

/// A SELECT of items alone.
fn bare_select(
    alloc: Global,
    word: &Token,
    distinct: bool,
    as_struct: bool,
    items: Items<Item<Expr>>,
) -> Result<Boxed<Select>, OutOfMemory>
    ensures { IfOk result (λ s. s ≡ queries.select_of word.now distinct as_struct items None None None None) }
{
    query_nodes::select(
        alloc, distinct, as_struct, items, None, None, None, None, word.start,
    )
}

/// A SELECT, and the word EXCEPT behind it, if it was read.
#[tactic(auto, unfolding(sql_grammar::specs::Queries::select_or_except))]
pub fn select_or_except<
    E: Fn(usize, Start) -> Read<Boxed<Expr>>,
    Q: Fn(usize, Opening) -> Read<Boxed<Query>>,
>(reader: &Reader<'_, E, Q>, at: usize) -> Read<(Boxed<Select>, Option<Kept>)>
    requires below { Nests reader.now.tokens.now reader.now.from (E.pre reader.now.inner) (E.post reader.now.inner) (Q.pre reader.now.query) (Q.post reader.now.query) }
    requires after { reader.now.from ≤ at }
    ensures reads { Reads reader.now.tokens.now (reading reader.now.tokens.now queries.select_or_except (from reader.now.tokens.now at)) result }
    ensures moves { IfOk result (λ p. at < p.1) }
{
    let (word, at) = expect(reader.tokens, at, Mark::Reserved(Reserved::Select))?;
    let (distinct, at) = select_distinct(reader.tokens, at)?;
    let (as_struct, at) = as_struct(reader.tokens, at)?;
    let ((items, end), at) = items(reader, at)?;
    select_end(reader, at, word, distinct, as_struct, items, end)
}
