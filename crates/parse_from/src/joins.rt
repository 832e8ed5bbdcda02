//! Joins.
ghost use Rattle.std.specs.Prelude.{◌≡◌, ◌<◌, ◌≤◌, IfOk};
ghost use Rattle.fronts.specs.Readers.{comes, many};
ghost use Rattle.sql_ast.specs.declared.query.Primary.TheVariants as primary;
ghost use Rattle.sql_ast.specs.Trees as trees;
ghost use Rattle.sql_grammar.specs.Classes as classes;
ghost use Rattle.sql_grammar.specs.Queries as queries;
ghost use Rattle.parse_expr.specs.Nests.{Nests};
ghost use Rattle.parse_from.specs.Beginnings.{join_class};
ghost use Rattle.parse_words.specs.Reads.{from, reading, turns, Reads};

use crate::beginnings::{JoinStart, join_start};
use crate::primaries::primary_item;
use parse_expr::{Opening, Reader, Start};
use parse_words::cursor::{Read, expect, refusal_at, sees, start_at, token_at};
use parse_words::marks::Mark;
use parse_words::names::names;
use parse_words::options::optional;
use parse_words::repeat::many_boxed;
use parse_words::takes::is_reserved;
use sql_ast::{Expr, FromItem, JoinWord, Joined, On, Primary, Query, Reserved, Sign};
use sql_lexer::Tokens;
use sql_nodes::{part_nodes, query_nodes};
use sql_types::{Boxed, Items, OutOfMemory};
use std::alloc::Global;

/// `ON expr`
#[tactic(auto, unfolding(sql_grammar::specs::Queries::on_expr))]
pub fn on_expr<
    E: Fn(usize, Start) -> Read<Boxed<Expr>>,
    Q: Fn(usize, Opening) -> Read<Boxed<Query>>,
>(reader: &Reader<'_, E, Q>, at: usize) -> Read<Boxed<On<Expr>>>
    requires below { Nests reader.now.tokens.now reader.now.from (E.pre reader.now.inner) (E.post reader.now.inner) (Q.pre reader.now.query) (Q.post reader.now.query) }
    requires after { reader.now.from ≤ at }
    ensures reads { Reads reader.now.tokens.now (reading reader.now.tokens.now queries.on_expr (from reader.now.tokens.now at)) result }
    ensures moves { IfOk result (λ p. at < p.1) }
{
    let (word, at) = expect(reader.tokens, at, Mark::Reserved(Reserved::On))?;
    let (condition, at) = reader.deeper(at)?;
    let place = word.start;
    Ok((part_nodes::on_on(reader.alloc, condition, place)?, at))
}

/// `USING names`
#[tactic(auto, unfolding(sql_grammar::specs::Queries::on_using))]
pub fn on_using<
    E: Fn(usize, Start) -> Read<Boxed<Expr>>,
    Q: Fn(usize, Opening) -> Read<Boxed<Query>>,
>(reader: &Reader<'_, E, Q>, at: usize) -> Read<Boxed<On<Expr>>>
    requires below { Nests reader.now.tokens.now reader.now.from (E.pre reader.now.inner) (E.post reader.now.inner) (Q.pre reader.now.query) (Q.post reader.now.query) }
    requires after { reader.now.from ≤ at }
    ensures reads { Reads reader.now.tokens.now (reading reader.now.tokens.now queries.on_using (from reader.now.tokens.now at)) result }
    ensures moves { IfOk result (λ p. at < p.1) }
{
    let (word, at) = expect(reader.tokens, at, Mark::Reserved(Reserved::Using))?;
    let (columns, at) = names(reader.alloc, reader.tokens, at)?;
    let place = word.start;
    Ok((part_nodes::on_using(reader.alloc, columns, place)?, at))
}

/// The condition of a join.
#[tactic(auto, unfolding(sql_grammar::specs::Queries::condition))]
pub fn condition<
    E: Fn(usize, Start) -> Read<Boxed<Expr>>,
    Q: Fn(usize, Opening) -> Read<Boxed<Query>>,
>(reader: &Reader<'_, E, Q>, at: usize) -> Read<Boxed<On<Expr>>>
    requires below { Nests reader.now.tokens.now reader.now.from (E.pre reader.now.inner) (E.post reader.now.inner) (Q.pre reader.now.query) (Q.post reader.now.query) }
    requires after { reader.now.from ≤ at }
    ensures reads { Reads reader.now.tokens.now (reading reader.now.tokens.now queries.condition (from reader.now.tokens.now at)) result }
    ensures moves { IfOk result (λ p. at < p.1) }
{
    if sees(reader.tokens, at, Mark::Reserved(Reserved::Using)) {
        return on_using(reader, at);
    }
    on_expr(reader, at)
}

/// Whether an item of FROM may be joined without a condition: a path or UNNEST.
#[tactic(auto, unfolding(sql_ast::specs::Trees::joins_freely))]
pub fn joins_freely(primary: &Primary) -> bool
    ensures { result ≡ trees.joins_freely primary.now }
{
    match primary {
        Primary::Path { .. } | Primary::Unnest { .. } => true,
        Primary::Table { .. } | Primary::Query { .. } => false,
    }
}

/// Whether ON or USING comes next.
pub fn sees_condition(tokens: &Tokens, at: usize) -> bool
    ensures { result ≡ comes queries.on_next (from tokens.now at) }
{
    match token_at(tokens, at) {
        Some(token) => is_reserved(token, Reserved::On) || is_reserved(token, Reserved::Using),
        None => false,
    }
}

/// A join with the place of its word.
pub fn joined(
    alloc: Global,
    word: JoinWord,
    place: u64,
    primary: Boxed<Primary>,
    on: Option<Boxed<On<Expr>>>,
) -> Result<Boxed<Joined>, OutOfMemory>
    ensures { IfOk result (λ j. j ≡ queries.joined_of word place primary on) }
{
    query_nodes::joined(alloc, word, primary, on, place)
}

/// `[on]`, which may be missing only behind a path or UNNEST.
#[tactic(auto, unfolding(sql_grammar::specs::Queries::on_part))]
pub fn on_part<
    E: Fn(usize, Start) -> Read<Boxed<Expr>>,
    Q: Fn(usize, Opening) -> Read<Boxed<Query>>,
>(reader: &Reader<'_, E, Q>, at: usize, primary: &Primary) -> Read<Option<Boxed<On<Expr>>>>
    requires below { Nests reader.now.tokens.now reader.now.from (E.pre reader.now.inner) (E.post reader.now.inner) (Q.pre reader.now.query) (Q.post reader.now.query) }
    requires after { reader.now.from ≤ at }
    ensures reads { Reads reader.now.tokens.now (reading reader.now.tokens.now queries.on_part primary.now (from reader.now.tokens.now at)) result }
    ensures moves { IfOk result (λ p. at ≤ p.1) }
{
    if sees_condition(reader.tokens, at) {
        let (on, at) = condition(reader, at)?;
        return Ok((Some(on), at));
    }
    if joins_freely(primary) {
        Ok((None, at))
    } else {
        Err(refusal_at(reader.tokens, at))
    }
}

/// `primary [on]` behind JOIN.
#[tactic(auto, unfolding(sql_grammar::specs::Queries::joined_freely))]
pub fn joined_freely<
    E: Fn(usize, Start) -> Read<Boxed<Expr>>,
    Q: Fn(usize, Opening) -> Read<Boxed<Query>>,
>(reader: &Reader<'_, E, Q>, at: usize, word: JoinWord, place: u64) -> Read<Boxed<Joined>>
    requires below { Nests reader.now.tokens.now reader.now.from (E.pre reader.now.inner) (E.post reader.now.inner) (Q.pre reader.now.query) (Q.post reader.now.query) }
    requires after { reader.now.from ≤ at }
    ensures reads { Reads reader.now.tokens.now (reading reader.now.tokens.now queries.joined_freely word place (from reader.now.tokens.now at)) result }
    ensures moves { IfOk result (λ p. at < p.1) }
{
    let (primary, at) = primary_item(reader, at)?;
    let (on, at) = on_part(reader, at, primary.get())?;
    Ok((joined(reader.alloc, word, place, primary, on)?, at))
}

/// `JOIN primary [on]`
#[tactic(auto, unfolding(sql_grammar::specs::Queries::join_freely))]
pub fn join_freely<
    E: Fn(usize, Start) -> Read<Boxed<Expr>>,
    Q: Fn(usize, Opening) -> Read<Boxed<Query>>,
>(reader: &Reader<'_, E, Q>, at: usize, word: JoinWord, place: u64) -> Read<Boxed<Joined>>
    requires below { Nests reader.now.tokens.now reader.now.from (E.pre reader.now.inner) (E.post reader.now.inner) (Q.pre reader.now.query) (Q.post reader.now.query) }
    requires after { reader.now.from ≤ at }
    ensures reads { Reads reader.now.tokens.now (reading reader.now.tokens.now queries.join_freely word place (from reader.now.tokens.now at)) result }
    ensures moves { IfOk result (λ p. at < p.1) }
{
    let (_, at) = expect(reader.tokens, at, Mark::Reserved(Reserved::Join))?;
    joined_freely(reader, at, word, place)
}

/// `JOIN primary on`
#[tactic(auto, unfolding(sql_grammar::specs::Queries::join_on))]
pub fn join_on<
    E: Fn(usize, Start) -> Read<Boxed<Expr>>,
    Q: Fn(usize, Opening) -> Read<Boxed<Query>>,
>(reader: &Reader<'_, E, Q>, at: usize, word: JoinWord, place: u64) -> Read<Boxed<Joined>>
    requires below { Nests reader.now.tokens.now reader.now.from (E.pre reader.now.inner) (E.post reader.now.inner) (Q.pre reader.now.query) (Q.post reader.now.query) }
    requires after { reader.now.from ≤ at }
    ensures reads { Reads reader.now.tokens.now (reading reader.now.tokens.now queries.join_on word place (from reader.now.tokens.now at)) result }
    ensures moves { IfOk result (λ p. at < p.1) }
{
    let (_, at) = expect(reader.tokens, at, Mark::Reserved(Reserved::Join))?;
    let (primary, at) = primary_item(reader, at)?;
    let (on, at) = condition(reader, at)?;
    Ok((joined(reader.alloc, word, place, primary, Some(on))?, at))
}

/// `[OUTER] JOIN primary [on]`
#[tactic(auto, unfolding(sql_grammar::specs::Queries::outer_freely))]
pub fn outer_freely<
    E: Fn(usize, Start) -> Read<Boxed<Expr>>,
    Q: Fn(usize, Opening) -> Read<Boxed<Query>>,
>(reader: &Reader<'_, E, Q>, at: usize, word: JoinWord, place: u64) -> Read<Boxed<Joined>>
    requires below { Nests reader.now.tokens.now reader.now.from (E.pre reader.now.inner) (E.post reader.now.inner) (Q.pre reader.now.query) (Q.post reader.now.query) }
    requires after { reader.now.from ≤ at }
    ensures reads { Reads reader.now.tokens.now (reading reader.now.tokens.now queries.outer_freely word place (from reader.now.tokens.now at)) result }
    ensures moves { IfOk result (λ p. at < p.1) }
{
    let (_, at) = optional(reader.tokens, at, Reserved::Outer)?;
    join_freely(reader, at, word, place)
}

/// `[OUTER] JOIN primary on`
#[tactic(auto, unfolding(sql_grammar::specs::Queries::outer_on))]
pub fn outer_on<
    E: Fn(usize, Start) -> Read<Boxed<Expr>>,
    Q: Fn(usize, Opening) -> Read<Boxed<Query>>,
>(reader: &Reader<'_, E, Q>, at: usize, word: JoinWord, place: u64) -> Read<Boxed<Joined>>
    requires below { Nests reader.now.tokens.now reader.now.from (E.pre reader.now.inner) (E.post reader.now.inner) (Q.pre reader.now.query) (Q.post reader.now.query) }
    requires after { reader.now.from ≤ at }
    ensures reads { Reads reader.now.tokens.now (reading reader.now.tokens.now queries.outer_on word place (from reader.now.tokens.now at)) result }
    ensures moves { IfOk result (λ p. at < p.1) }
{
    let (_, at) = optional(reader.tokens, at, Reserved::Outer)?;
    join_on(reader, at, word, place)
}

/// `JOIN primary` behind CROSS.
#[tactic(auto, unfolding(sql_grammar::specs::Queries::cross_behind))]
pub fn cross_behind<
    E: Fn(usize, Start) -> Read<Boxed<Expr>>,
    Q: Fn(usize, Opening) -> Read<Boxed<Query>>,
>(reader: &Reader<'_, E, Q>, at: usize, place: u64) -> Read<Boxed<Joined>>
    requires below { Nests reader.now.tokens.now reader.now.from (E.pre reader.now.inner) (E.post reader.now.inner) (Q.pre reader.now.query) (Q.post reader.now.query) }
    requires after { reader.now.from ≤ at }
    ensures reads { Reads reader.now.tokens.now (reading reader.now.tokens.now queries.cross_behind place (from reader.now.tokens.now at)) result }
    ensures moves { IfOk result (λ p. at < p.1) }
{
    let (_, at) = expect(reader.tokens, at, Mark::Reserved(Reserved::Join))?;
    let (primary, at) = primary_item(reader, at)?;
    Ok((
        joined(reader.alloc, JoinWord::Cross, place, primary, None)?,
        at,
    ))
}

/// A join that begins so.
pub fn join_by<
    E: Fn(usize, Start) -> Read<Boxed<Expr>>,
    Q: Fn(usize, Opening) -> Read<Boxed<Query>>,
>(reader: &Reader<'_, E, Q>, at: usize, start: JoinStart) -> Read<Boxed<Joined>>
    requires below { Nests reader.now.tokens.now reader.now.from (E.pre reader.now.inner) (E.post reader.now.inner) (Q.pre reader.now.query) (Q.post reader.now.query) }
    requires after { reader.now.from ≤ at }
    ensures reads { Reads reader.now.tokens.now (reading reader.now.tokens.now queries.join_by (join_class start) (from reader.now.tokens.now at)) result }
    ensures moves { IfOk result (λ p. at < p.1) }
{
    match start {
        JoinStart::Cross => {
            let (word, at) = expect(reader.tokens, at, Mark::Reserved(Reserved::Cross))?;
            cross_behind(reader, at, word.start)
        }
        JoinStart::Inner => {
            let (word, at) = expect(reader.tokens, at, Mark::Reserved(Reserved::Inner))?;
            join_freely(reader, at, JoinWord::Inner, word.start)
        }
        JoinStart::Join => {
            let (word, at) = expect(reader.tokens, at, Mark::Reserved(Reserved::Join))?;
            joined_freely(reader, at, JoinWord::Inner, word.start)
        }
        JoinStart::Left => {
            let (word, at) = expect(reader.tokens, at, Mark::Reserved(Reserved::Left))?;
            outer_freely(reader, at, JoinWord::Left, word.start)
        }
        JoinStart::Right => {
            let (word, at) = expect(reader.tokens, at, Mark::Reserved(Reserved::Right))?;
            outer_on(reader, at, JoinWord::Right, word.start)
        }
        JoinStart::Full => {
            let (word, at) = expect(reader.tokens, at, Mark::Reserved(Reserved::Full))?;
            outer_on(reader, at, JoinWord::Full, word.start)
        }
        JoinStart::Other => Err(refusal_at(reader.tokens, at)),
    }
}

/// The same behind a comma: RIGHT and FULL may not stand there.
pub fn later_by<
    E: Fn(usize, Start) -> Read<Boxed<Expr>>,
    Q: Fn(usize, Opening) -> Read<Boxed<Query>>,
>(reader: &Reader<'_, E, Q>, at: usize, start: JoinStart) -> Read<Boxed<Joined>>
    requires below { Nests reader.now.tokens.now reader.now.from (E.pre reader.now.inner) (E.post reader.now.inner) (Q.pre reader.now.query) (Q.post reader.now.query) }
    requires after { reader.now.from ≤ at }
    ensures reads { Reads reader.now.tokens.now (reading reader.now.tokens.now queries.later_by (join_class start) (from reader.now.tokens.now at)) result }
    ensures moves { IfOk result (λ p. at < p.1) }
{
    match start {
        JoinStart::Right | JoinStart::Full => Err(refusal_at(reader.tokens, at)),
        start => join_by(reader, at, start),
    }
}

/// A join.
#[tactic(auto, unfolding(sql_grammar::specs::Queries::join_item))]
pub fn join_item<
    E: Fn(usize, Start) -> Read<Boxed<Expr>>,
    Q: Fn(usize, Opening) -> Read<Boxed<Query>>,
>(reader: &Reader<'_, E, Q>, at: usize) -> Read<Boxed<Joined>>
    requires below { Nests reader.now.tokens.now reader.now.from (E.pre reader.now.inner) (E.post reader.now.inner) (Q.pre reader.now.query) (Q.post reader.now.query) }
    requires after { reader.now.from ≤ at }
    ensures reads { Reads reader.now.tokens.now (reading reader.now.tokens.now queries.join_item (from reader.now.tokens.now at)) result }
    ensures moves { IfOk result (λ p. at < p.1) }
{
    let start = join_start(reader.tokens, at);
    join_by(reader, at, start)
}

/// An item of FROM behind a comma.
#[tactic(auto, unfolding(sql_grammar::specs::Queries::comma_behind))]
pub fn comma_behind<
    E: Fn(usize, Start) -> Read<Boxed<Expr>>,
    Q: Fn(usize, Opening) -> Read<Boxed<Query>>,
>(reader: &Reader<'_, E, Q>, at: usize, place: u64) -> Read<Boxed<Joined>>
    requires below { Nests reader.now.tokens.now reader.now.from (E.pre reader.now.inner) (E.post reader.now.inner) (Q.pre reader.now.query) (Q.post reader.now.query) }
    requires after { reader.now.from ≤ at }
    ensures reads { Reads reader.now.tokens.now (reading reader.now.tokens.now queries.comma_behind place (from reader.now.tokens.now at)) result }
    ensures moves { IfOk result (λ p. at < p.1) }
{
    let (primary, at) = primary_item(reader, at)?;
    Ok((
        joined(reader.alloc, JoinWord::Comma, place, primary, None)?,
        at,
    ))
}

/// `"," primary`
#[tactic(auto, unfolding(sql_grammar::specs::Queries::comma_join))]
pub fn comma_join<
    E: Fn(usize, Start) -> Read<Boxed<Expr>>,
    Q: Fn(usize, Opening) -> Read<Boxed<Query>>,
>(reader: &Reader<'_, E, Q>, at: usize) -> Read<Boxed<Joined>>
    requires below { Nests reader.now.tokens.now reader.now.from (E.pre reader.now.inner) (E.post reader.now.inner) (Q.pre reader.now.query) (Q.post reader.now.query) }
    requires after { reader.now.from ≤ at }
    ensures reads { Reads reader.now.tokens.now (reading reader.now.tokens.now queries.comma_join (from reader.now.tokens.now at)) result }
    ensures moves { IfOk result (λ p. at < p.1) }
{
    let (token, at) = expect(reader.tokens, at, Mark::Sign(Sign::Comma))?;
    let place = token.start;
    comma_behind(reader, at, place)
}

/// A comma, or a join once a comma stands.
#[tactic(auto, unfolding(sql_grammar::specs::Queries::later_join))]
pub fn later_join<
    E: Fn(usize, Start) -> Read<Boxed<Expr>>,
    Q: Fn(usize, Opening) -> Read<Boxed<Query>>,
>(reader: &Reader<'_, E, Q>, at: usize) -> Read<Boxed<Joined>>
    requires below { Nests reader.now.tokens.now reader.now.from (E.pre reader.now.inner) (E.post reader.now.inner) (Q.pre reader.now.query) (Q.post reader.now.query) }
    requires after { reader.now.from ≤ at }
    ensures reads { Reads reader.now.tokens.now (reading reader.now.tokens.now queries.later_join (from reader.now.tokens.now at)) result }
    ensures moves { IfOk result (λ p. at < p.1) }
{
    if sees(reader.tokens, at, Mark::Sign(Sign::Comma)) {
        return comma_join(reader, at);
    }
    let start = join_start(reader.tokens, at);
    later_by(reader, at, start)
}

/// The joins behind those that were found.
pub fn join_items<
    E: Fn(usize, Start) -> Read<Boxed<Expr>>,
    Q: Fn(usize, Opening) -> Read<Boxed<Query>>,
>(reader: &Reader<'_, E, Q>, at: usize, found: Items<Joined>) -> Read<Items<Joined>>
    requires below { Nests reader.now.tokens.now reader.now.from (E.pre reader.now.inner) (E.post reader.now.inner) (Q.pre reader.now.query) (Q.post reader.now.query) }
    requires after { reader.now.from ≤ at }
    ensures reads { Reads reader.now.tokens.now (many (classes.joins) (reading reader.now.tokens.now queries.join_item) (turns reader.now.tokens.now) found (from reader.now.tokens.now at)) result }
    ensures moves { IfOk result (λ p. at ≤ p.1) }
{
    many_boxed(
        reader.tokens,
        at,
        Mark::Join,
        found,
        |place| join_item(reader, place),
    )
}

/// The commas and joins behind those that were found.
pub fn later_joins<
    E: Fn(usize, Start) -> Read<Boxed<Expr>>,
    Q: Fn(usize, Opening) -> Read<Boxed<Query>>,
>(reader: &Reader<'_, E, Q>, at: usize, found: Items<Joined>) -> Read<Items<Joined>>
    requires below { Nests reader.now.tokens.now reader.now.from (E.pre reader.now.inner) (E.post reader.now.inner) (Q.pre reader.now.query) (Q.post reader.now.query) }
    requires after { reader.now.from ≤ at }
    ensures reads { Reads reader.now.tokens.now (many (classes.comma_or_join) (reading reader.now.tokens.now queries.later_join) (turns reader.now.tokens.now) found (from reader.now.tokens.now at)) result }
    ensures moves { IfOk result (λ p. at ≤ p.1) }
{
    many_boxed(
        reader.tokens,
        at,
        Mark::CommaOrJoin,
        found,
        |place| later_join(reader, place),
    )
}

/// All of FROM behind its word.
#[tactic(auto, unfolding(sql_grammar::specs::Queries::from_item))]
pub fn from_item<
    E: Fn(usize, Start) -> Read<Boxed<Expr>>,
    Q: Fn(usize, Opening) -> Read<Boxed<Query>>,
>(reader: &Reader<'_, E, Q>, at: usize) -> Read<Boxed<FromItem>>
    requires below { Nests reader.now.tokens.now reader.now.from (E.pre reader.now.inner) (E.post reader.now.inner) (Q.pre reader.now.query) (Q.post reader.now.query) }
    requires after { reader.now.from ≤ at }
    ensures reads { Reads reader.now.tokens.now (reading reader.now.tokens.now queries.from_item (from reader.now.tokens.now at)) result }
    ensures moves { IfOk result (λ p. at < p.1) }
{
    let place = start_at(reader.tokens, at);
    let (first, at) = primary_item(reader, at)?;
    let (rest, at) = join_items(reader, at, Items::new(reader.alloc))?;
    let (rest, at) = later_joins(reader, at, rest)?;
    Ok((
        query_nodes::from_item(reader.alloc, first, rest, place)?,
        at,
    ))
}

/// `[FROM ..]`
#[tactic(auto, unfolding(sql_grammar::specs::Queries::from_part))]
pub fn from_part<
    E: Fn(usize, Start) -> Read<Boxed<Expr>>,
    Q: Fn(usize, Opening) -> Read<Boxed<Query>>,
>(reader: &Reader<'_, E, Q>, at: usize) -> Read<Option<Boxed<FromItem>>>
    requires below { Nests reader.now.tokens.now reader.now.from (E.pre reader.now.inner) (E.post reader.now.inner) (Q.pre reader.now.query) (Q.post reader.now.query) }
    requires after { reader.now.from ≤ at }
    ensures reads { Reads reader.now.tokens.now (reading reader.now.tokens.now queries.from_part (from reader.now.tokens.now at)) result }
    ensures moves { IfOk result (λ p. at ≤ p.1) }
{
    if !sees(reader.tokens, at, Mark::Reserved(Reserved::From)) {
        return Ok((None, at));
    }
    let (_, at) = expect(reader.tokens, at, Mark::Reserved(Reserved::From))?;
    let (from, at) = from_item(reader, at)?;
    Ok((Some(from), at))
}
