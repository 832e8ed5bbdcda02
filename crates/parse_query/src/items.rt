//! The items of a select list.
ghost use Rattle.std.specs.Prelude.{◌<◌, ◌≤◌, IfOk, true};
ghost use Rattle.fronts.specs.Readers.{many, token};
ghost use Rattle.sql_ast.specs.declared.words.Sign.TheVariants as sign;
ghost use Rattle.sql_ast.specs.declared.clauses.Item.TheVariants as item;
ghost use Rattle.sql_ast.specs.Marks as spec;
ghost use Rattle.sql_grammar.specs.Exprs as exprs;
ghost use Rattle.sql_grammar.specs.Queries as queries;
ghost use Rattle.sql_grammar.specs.Ways.{until};
ghost use Rattle.parse_expr.specs.Steps.{followed};
ghost use Rattle.parse_expr.specs.Nests.{Nests};
ghost use Rattle.parse_query.specs.Ends.{edited_item};
ghost use Rattle.parse_words.specs.Reads.{from, nested, reading, turns, Reads};

use crate::beginnings::{ItemStart, item_start};
use crate::ends::{ItemsEnd, Starred, edited_item, except_end};
use parse_expr::{Opening, Reader, Start};
use parse_words::cursor::{Read, expect, refusal_at, sees, start_at};
use parse_words::kept::{Kept, expect_word};
use parse_words::marks::Mark;
use parse_words::names::{alias, names};
use parse_words::repeat::{Ended, many_boxed, until};
use parse_words::saying::name_of;
use sql_ast::{Expr, Item, Query, Replacement, Reserved, Sign, Word};
use sql_nodes::boxes::one_of;
use sql_nodes::part_nodes;
use sql_types::{Boxed, Items};

/// `expr AS name`, behind a token.
#[tactic(auto, unfolding(sql_grammar::specs::Queries::replacement))]
pub fn replacement<
    E: Fn(usize, Start) -> Read<Boxed<Expr>>,
    Q: Fn(usize, Opening) -> Read<Boxed<Query>>,
>(reader: &Reader<'_, E, Q>, at: usize) -> Read<Boxed<Replacement<Expr>>>
    requires below { Nests reader.now.tokens.now reader.now.from (E.pre reader.now.inner) (E.post reader.now.inner) (Q.pre reader.now.query) (Q.post reader.now.query) }
    requires after { reader.now.from < at }
    ensures reads { Reads reader.now.tokens.now (reading reader.now.tokens.now queries.replacement (from reader.now.tokens.now at)) result }
    ensures moves { IfOk result (λ p. at ≤ p.1) }
{
    let (expr, at) = reader.deeper(at)?;
    let (_, at) = expect(reader.tokens, at, Mark::Reserved(Reserved::As))?;
    let (token, at) = expect(reader.tokens, at, Mark::Name)?;
    let name = name_of(reader.alloc, token)?;
    Ok((part_nodes::replacement(reader.alloc, expr, name)?, at))
}

/// `"," expr AS name`
#[tactic(auto, unfolding(sql_grammar::specs::Queries::comma_replacement))]
pub fn comma_replacement<
    E: Fn(usize, Start) -> Read<Boxed<Expr>>,
    Q: Fn(usize, Opening) -> Read<Boxed<Query>>,
>(reader: &Reader<'_, E, Q>, at: usize) -> Read<Boxed<Replacement<Expr>>>
    requires below { Nests reader.now.tokens.now reader.now.from (E.pre reader.now.inner) (E.post reader.now.inner) (Q.pre reader.now.query) (Q.post reader.now.query) }
    requires after { reader.now.from ≤ at }
    ensures reads { Reads reader.now.tokens.now (reading reader.now.tokens.now queries.comma_replacement (from reader.now.tokens.now at)) result }
    ensures moves { IfOk result (λ p. at < p.1) }
{
    let (_, at) = expect(reader.tokens, at, Mark::Sign(Sign::Comma))?;
    replacement(reader, at)
}

/// `{"," expr AS name}` behind those that were found.
pub fn comma_replacements<
    E: Fn(usize, Start) -> Read<Boxed<Expr>>,
    Q: Fn(usize, Opening) -> Read<Boxed<Query>>,
>(
    reader: &Reader<'_, E, Q>,
    at: usize,
    found: Items<Replacement<Expr>>,
) -> Read<Items<Replacement<Expr>>>
    requires below { Nests reader.now.tokens.now reader.now.from (E.pre reader.now.inner) (E.post reader.now.inner) (Q.pre reader.now.query) (Q.post reader.now.query) }
    requires after { reader.now.from ≤ at }
    ensures reads { Reads reader.now.tokens.now (many (spec.sign sign.Comma) (reading reader.now.tokens.now queries.comma_replacement) (turns reader.now.tokens.now) found (from reader.now.tokens.now at)) result }
    ensures moves { IfOk result (λ p. at ≤ p.1) }
{
    many_boxed(
        reader.tokens,
        at,
        Mark::Sign(Sign::Comma),
        found,
        |place| comma_replacement(reader, place),
    )
}

/// `[REPLACE "(" expr AS name {"," expr AS name} ")"]`
#[tactic(auto, unfolding(sql_grammar::specs::Queries::replaces))]
pub fn replaces<
    E: Fn(usize, Start) -> Read<Boxed<Expr>>,
    Q: Fn(usize, Opening) -> Read<Boxed<Query>>,
>(reader: &Reader<'_, E, Q>, at: usize) -> Read<Items<Replacement<Expr>>>
    requires below { Nests reader.now.tokens.now reader.now.from (E.pre reader.now.inner) (E.post reader.now.inner) (Q.pre reader.now.query) (Q.post reader.now.query) }
    requires after { reader.now.from ≤ at }
    ensures reads { Reads reader.now.tokens.now (reading reader.now.tokens.now queries.replaces (from reader.now.tokens.now at)) result }
    ensures moves { IfOk result (λ p. at ≤ p.1) }
{
    if !sees(reader.tokens, at, Mark::Word(Word::Replace)) {
        return Ok((Items::new(reader.alloc), at));
    }
    let (_, at) = expect(reader.tokens, at, Mark::Word(Word::Replace))?;
    let (_, at) = expect(reader.tokens, at, Mark::Sign(Sign::OpenRound))?;
    let (first, at) = replacement(reader, at)?;
    let (replacements, at) = comma_replacements(reader, at, one_of(reader.alloc, first)?)?;
    let (_, at) = expect(reader.tokens, at, Mark::Sign(Sign::CloseRound))?;
    Ok((replacements, at))
}

/// Behind the word EXCEPT: before a bracket it begins the names that `*` leaves out, else it is the word of a set operation.
#[tactic(auto, unfolding(sql_grammar::specs::Queries::except_or_end))]
pub fn except_or_end<
    E: Fn(usize, Start) -> Read<Boxed<Expr>>,
    Q: Fn(usize, Opening) -> Read<Boxed<Query>>,
>(
    reader: &Reader<'_, E, Q>,
    at: usize,
    starred: Starred,
    word: Kept,
) -> Read<(Boxed<Item<Expr>>, Option<Kept>)>
    requires below { Nests reader.now.tokens.now reader.now.from (E.pre reader.now.inner) (E.post reader.now.inner) (Q.pre reader.now.query) (Q.post reader.now.query) }
    requires after { reader.now.from ≤ at }
    ensures reads { Reads reader.now.tokens.now (reading reader.now.tokens.now queries.except_or_end (edited_item starred) word (from reader.now.tokens.now at)) result }
    ensures moves { IfOk result (λ p. at ≤ p.1) }
{
    if !sees(reader.tokens, at, Mark::Sign(Sign::OpenRound)) {
        let edit = part_nodes::edit(
            reader.alloc,
            Items::new(reader.alloc),
            Items::new(reader.alloc),
        )?;
        return Ok(((edited_item(reader.alloc, starred, edit)?, Some(word)), at));
    }
    let (except, at) = names(reader.alloc, reader.tokens, at)?;
    let (replace, at) = replaces(reader, at)?;
    Ok((
        (
            edited_item(
                reader.alloc,
                starred,
                part_nodes::edit(reader.alloc, except, replace)?,
            )?,
            None,
        ),
        at,
    ))
}

/// `[EXCEPT names] [REPLACE ..]` behind a `*`, and the word EXCEPT, if it was read and belongs to what follows.
#[tactic(auto, unfolding(sql_grammar::specs::Queries::edited))]
pub fn edited<
    E: Fn(usize, Start) -> Read<Boxed<Expr>>,
    Q: Fn(usize, Opening) -> Read<Boxed<Query>>,
>(reader: &Reader<'_, E, Q>, at: usize, starred: Starred) -> Read<(Boxed<Item<Expr>>, Option<Kept>)>
    requires below { Nests reader.now.tokens.now reader.now.from (E.pre reader.now.inner) (E.post reader.now.inner) (Q.pre reader.now.query) (Q.post reader.now.query) }
    requires after { reader.now.from ≤ at }
    ensures reads { Reads reader.now.tokens.now (reading reader.now.tokens.now queries.edited (edited_item starred) (from reader.now.tokens.now at)) result }
    ensures moves { IfOk result (λ p. at ≤ p.1) }
{
    if sees(reader.tokens, at, Mark::Reserved(Reserved::Except)) {
        let (word, at) = expect_word(reader.tokens, at, Reserved::Except)?;
        return except_or_end(reader, at, starred, word);
    }
    let (replace, at) = replaces(reader, at)?;
    let edit = part_nodes::edit(reader.alloc, Items::new(reader.alloc), replace)?;
    Ok(((edited_item(reader.alloc, starred, edit)?, None), at))
}

/// `[alias]` behind the expression of an item that begins at this byte.
#[tactic(auto, unfolding(sql_grammar::specs::Queries::aliased))]
pub fn aliased<
    E: Fn(usize, Start) -> Read<Boxed<Expr>>,
    Q: Fn(usize, Opening) -> Read<Boxed<Query>>,
>(
    reader: &Reader<'_, E, Q>,
    at: usize,
    place: u64,
    expr: Boxed<Expr>,
) -> Read<(Boxed<Item<Expr>>, Option<Kept>)>
    requires below { Nests reader.now.tokens.now reader.now.from (E.pre reader.now.inner) (E.post reader.now.inner) (Q.pre reader.now.query) (Q.post reader.now.query) }
    requires after { reader.now.from ≤ at }
    ensures reads { Reads reader.now.tokens.now (reading reader.now.tokens.now queries.aliased place expr (from reader.now.tokens.now at)) result }
    ensures moves { IfOk result (λ p. at ≤ p.1) }
{
    let (alias, at) = alias(reader.alloc, reader.tokens, at)?;
    Ok((
        (
            part_nodes::item_expr(reader.alloc, expr, alias, place)?,
            None,
        ),
        at,
    ))
}

/// The rest of an item behind a postfix that isn't all of it.
pub fn expr_item<
    E: Fn(usize, Start) -> Read<Boxed<Expr>>,
    Q: Fn(usize, Opening) -> Read<Boxed<Query>>,
>(
    reader: &Reader<'_, E, Q>,
    at: usize,
    place: u64,
    first: Boxed<Expr>,
) -> Read<(Boxed<Item<Expr>>, Option<Kept>)>
    requires below { Nests reader.now.tokens.now reader.now.from (E.pre reader.now.inner) (E.post reader.now.inner) (Q.pre reader.now.query) (Q.post reader.now.query) }
    requires after { reader.now.from ≤ at }
    ensures reads { Reads reader.now.tokens.now (followed (exprs.expr_from (turns reader.now.tokens.now) (nested reader.now.tokens.now) place first) (reading reader.now.tokens.now queries.aliased place) (from reader.now.tokens.now at)) result }
    ensures moves { IfOk result (λ p. at ≤ p.1) }
{
    let (expr, at) = reader.expr_from(at, place, first)?;
    aliased(reader, at, place, expr)
}

/// The rest of an item behind a postfix with which it begins, or behind `postfix.*`.
pub fn item_after<
    E: Fn(usize, Start) -> Read<Boxed<Expr>>,
    Q: Fn(usize, Opening) -> Read<Boxed<Query>>,
>(
    reader: &Reader<'_, E, Q>,
    at: usize,
    place: u64,
    first: Boxed<Expr>,
    end: Option<Kept>,
) -> Read<(Boxed<Item<Expr>>, Option<Kept>)>
    requires below { Nests reader.now.tokens.now reader.now.from (E.pre reader.now.inner) (E.post reader.now.inner) (Q.pre reader.now.query) (Q.post reader.now.query) }
    requires after { reader.now.from ≤ at }
    ensures reads { Reads reader.now.tokens.now (reading reader.now.tokens.now queries.item_after place first end (from reader.now.tokens.now at)) result }
    ensures moves { IfOk result (λ p. at ≤ p.1) }
{
    match end {
        None => expr_item(reader, at, place, first),
        Some(_) => edited(
            reader,
            at,
            Starred::Qualified {
                qualifier: first,
                place,
            },
        ),
    }
}

/// `*` with its edit.
pub fn star_item<
    E: Fn(usize, Start) -> Read<Boxed<Expr>>,
    Q: Fn(usize, Opening) -> Read<Boxed<Query>>,
>(reader: &Reader<'_, E, Q>, at: usize) -> Read<(Boxed<Item<Expr>>, Option<Kept>)>
    requires below { Nests reader.now.tokens.now reader.now.from (E.pre reader.now.inner) (E.post reader.now.inner) (Q.pre reader.now.query) (Q.post reader.now.query) }
    requires after { reader.now.from ≤ at }
    ensures reads { Reads reader.now.tokens.now (followed (token (spec.sign sign.Star)) (λ t. reading reader.now.tokens.now queries.edited (λ d. item.Star d t.start)) (from reader.now.tokens.now at)) result }
    ensures moves { IfOk result (λ p. at < p.1) }
{
    let (token, at) = expect(reader.tokens, at, Mark::Sign(Sign::Star))?;
    let place = token.start;
    edited(reader, at, Starred::All { place })
}

/// An item that a prefix begins.
pub fn prefix_item<
    E: Fn(usize, Start) -> Read<Boxed<Expr>>,
    Q: Fn(usize, Opening) -> Read<Boxed<Query>>,
>(reader: &Reader<'_, E, Q>, at: usize, place: u64) -> Read<(Boxed<Item<Expr>>, Option<Kept>)>
    requires below { Nests reader.now.tokens.now reader.now.from (E.pre reader.now.inner) (E.post reader.now.inner) (Q.pre reader.now.query) (Q.post reader.now.query) }
    requires after { reader.now.from < at }
    ensures reads { Reads reader.now.tokens.now (followed ((nested reader.now.tokens.now).inner) (reading reader.now.tokens.now queries.aliased place) (from reader.now.tokens.now at)) result }
    ensures moves { IfOk result (λ p. at ≤ p.1) }
{
    let (expr, at) = reader.deeper(at)?;
    aliased(reader, at, place, expr)
}

/// An item that a postfix begins.
pub fn basic_item<
    E: Fn(usize, Start) -> Read<Boxed<Expr>>,
    Q: Fn(usize, Opening) -> Read<Boxed<Query>>,
>(reader: &Reader<'_, E, Q>, at: usize, place: u64) -> Read<(Boxed<Item<Expr>>, Option<Kept>)>
    requires below { Nests reader.now.tokens.now reader.now.from (E.pre reader.now.inner) (E.post reader.now.inner) (Q.pre reader.now.query) (Q.post reader.now.query) }
    requires after { reader.now.from ≤ at }
    ensures reads { Reads reader.now.tokens.now (followed (exprs.postfix_or_star (turns reader.now.tokens.now) (nested reader.now.tokens.now) true) (λ x. reading reader.now.tokens.now queries.item_after place x.0 x.1) (from reader.now.tokens.now at)) result }
    ensures moves { IfOk result (λ p. at < p.1) }
{
    let ((first, end), at) = reader.postfix_or_star(at, true)?;
    item_after(reader, at, place, first, end)
}

/// An item, behind a token, and the word EXCEPT behind it, if it was read.
#[tactic(auto, unfolding(sql_grammar::specs::Queries::item_or_except))]
pub fn item_or_except<
    E: Fn(usize, Start) -> Read<Boxed<Expr>>,
    Q: Fn(usize, Opening) -> Read<Boxed<Query>>,
>(reader: &Reader<'_, E, Q>, at: usize) -> Read<(Boxed<Item<Expr>>, Option<Kept>)>
    requires below { Nests reader.now.tokens.now reader.now.from (E.pre reader.now.inner) (E.post reader.now.inner) (Q.pre reader.now.query) (Q.post reader.now.query) }
    requires after { reader.now.from < at }
    ensures reads { Reads reader.now.tokens.now (reading reader.now.tokens.now queries.item_or_except (from reader.now.tokens.now at)) result }
    ensures moves { IfOk result (λ p. at ≤ p.1) }
{
    let place = start_at(reader.tokens, at);
    match item_start(reader.tokens, at) {
        ItemStart::Star => star_item(reader, at),
        ItemStart::Prefix => prefix_item(reader, at, place),
        ItemStart::Basic => basic_item(reader, at, place),
        ItemStart::Other => Err(refusal_at(reader.tokens, at)),
    }
}

/// `"," item`, or a comma behind the last item.
#[tactic(auto, unfolding(sql_grammar::specs::Queries::items_after))]
pub fn items_after<
    E: Fn(usize, Start) -> Read<Boxed<Expr>>,
    Q: Fn(usize, Opening) -> Read<Boxed<Query>>,
>(reader: &Reader<'_, E, Q>, at: usize) -> Read<Ended<Item<Expr>, ItemsEnd>>
    requires below { Nests reader.now.tokens.now reader.now.from (E.pre reader.now.inner) (E.post reader.now.inner) (Q.pre reader.now.query) (Q.post reader.now.query) }
    requires after { reader.now.from ≤ at }
    ensures reads { Reads reader.now.tokens.now (reading reader.now.tokens.now queries.items_after (from reader.now.tokens.now at)) result }
    ensures moves { IfOk result (λ p. at < p.1) }
{
    let (_, at) = expect(reader.tokens, at, Mark::Sign(Sign::Comma))?;
    if !sees(reader.tokens, at, Mark::ItemStart) {
        return Ok(((Items::new(reader.alloc), Some(ItemsEnd::comma())), at));
    }
    let ((item, word), at) = item_or_except(reader, at)?;
    Ok(((one_of(reader.alloc, item)?, except_end(word)), at))
}

/// `{"," item} [","]` behind the items that were found.
pub fn more_items<
    E: Fn(usize, Start) -> Read<Boxed<Expr>>,
    Q: Fn(usize, Opening) -> Read<Boxed<Query>>,
>(
    reader: &Reader<'_, E, Q>,
    at: usize,
    found: Items<Item<Expr>>,
) -> Read<Ended<Item<Expr>, ItemsEnd>>
    requires below { Nests reader.now.tokens.now reader.now.from (E.pre reader.now.inner) (E.post reader.now.inner) (Q.pre reader.now.query) (Q.post reader.now.query) }
    requires after { reader.now.from ≤ at }
    ensures reads { Reads reader.now.tokens.now (until (spec.sign sign.Comma) (reading reader.now.tokens.now queries.items_after) (turns reader.now.tokens.now) found (from reader.now.tokens.now at)) result }
    ensures moves { IfOk result (λ p. at ≤ p.1) }
{
    until(
        reader.tokens,
        at,
        Mark::Sign(Sign::Comma),
        found,
        |place| items_after(reader, place),
    )
}

/// The same behind the first item.
pub fn items_from<
    E: Fn(usize, Start) -> Read<Boxed<Expr>>,
    Q: Fn(usize, Opening) -> Read<Boxed<Query>>,
>(
    reader: &Reader<'_, E, Q>,
    at: usize,
    item: Boxed<Item<Expr>>,
    word: Option<Kept>,
) -> Read<Ended<Item<Expr>, ItemsEnd>>
    requires below { Nests reader.now.tokens.now reader.now.from (E.pre reader.now.inner) (E.post reader.now.inner) (Q.pre reader.now.query) (Q.post reader.now.query) }
    requires after { reader.now.from ≤ at }
    ensures reads { Reads reader.now.tokens.now (reading reader.now.tokens.now queries.items_from item word (from reader.now.tokens.now at)) result }
    ensures moves { IfOk result (λ p. at ≤ p.1) }
{
    match word {
        Some(word) => Ok((
            (one_of(reader.alloc, item)?, Some(ItemsEnd::except(word))),
            at,
        )),
        None => more_items(reader, at, one_of(reader.alloc, item)?),
    }
}

/// The items of a select list, behind a token.
#[tactic(auto, unfolding(sql_grammar::specs::Queries::items))]
pub fn items<E: Fn(usize, Start) -> Read<Boxed<Expr>>, Q: Fn(usize, Opening) -> Read<Boxed<Query>>>(
    reader: &Reader<'_, E, Q>,
    at: usize,
) -> Read<Ended<Item<Expr>, ItemsEnd>>
    requires below { Nests reader.now.tokens.now reader.now.from (E.pre reader.now.inner) (E.post reader.now.inner) (Q.pre reader.now.query) (Q.post reader.now.query) }
    requires after { reader.now.from < at }
    ensures reads { Reads reader.now.tokens.now (reading reader.now.tokens.now queries.items (from reader.now.tokens.now at)) result }
    ensures moves { IfOk result (λ p. at ≤ p.1) }
{
    let ((item, word), at) = item_or_except(reader, at)?;
    items_from(reader, at, item, word)
}
