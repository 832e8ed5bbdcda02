//! GROUP BY.
ghost use Rattle.std.specs.Prelude.{◌≡◌, ℕ, ◌==◌, ◌<◌, ◌≤◌, IfOk, List, [], length};
ghost use Rattle.fronts.specs.Readers.{if_comes, many, pure, token};
ghost use Rattle.sql_names.specs.declared.words.Reserved.TheVariants as r;
ghost use Rattle.sql_ast.specs.declared.words.Sign.TheVariants as sign;
ghost use Rattle.sql_ast.specs.declared.words.Word.TheVariants as w;
ghost use Rattle.sql_ast.specs.declared.expr.Expr.TheVariants as e;
ghost use Rattle.sql_ast.specs.declared.grouping.CubeKind.TheVariants as cube_kind;
ghost use Rattle.sql_ast.specs.declared.grouping.GroupItem.TheVariants as group_item;
ghost use Rattle.sql_ast.specs.declared.grouping.Groups.TheVariants as groups;
ghost use Rattle.sql_ast.specs.Marks as spec;
ghost use Rattle.sql_ast.specs.Trees as trees;
ghost use Rattle.sql_grammar.specs.Exprs.{told};
ghost use Rattle.sql_grammar.specs.Exprs as exprs;
ghost use Rattle.sql_grammar.specs.Queries as queries;
ghost use Rattle.parse_expr.specs.Steps.{followed};
ghost use Rattle.parse_expr.specs.Nests.{Nests, content};
ghost use Rattle.parse_words.specs.Reads.{from, nested, reading, turns, Reads};

use crate::beginnings::{GroupsStart, groups_start};
use parse_expr::held::grouped;
use parse_expr::{Held, Opening, Reader, Start};
use parse_words::cursor::{Read, expect, sees, start_at};
use parse_words::marks::Mark;
use parse_words::repeat::{many_boxed, one};
use parse_words::telling::cube_of;
use sql_ast::{
    Cube, CubeKind, Expr, GroupItem, GroupSet, Groups, Query, Reserved, Sign, Token, Word,
};
use sql_nodes::boxes::one_of;
use sql_nodes::{expr_nodes, part_nodes};
use sql_types::{Boxed, Items, OutOfMemory};
use std::alloc::Global;

/// A grouping item that begins with a query in brackets.
pub fn query_item<
    E: Fn(usize, Start) -> Read<Boxed<Expr>>,
    Q: Fn(usize, Opening) -> Read<Boxed<Query>>,
>(
    reader: &Reader<'_, E, Q>,
    at: usize,
    place: u64,
    query: Boxed<Query>,
) -> Read<Boxed<GroupItem<Expr>>>
    requires below { Nests reader.now.tokens.now reader.now.from (E.pre reader.now.inner) (E.post reader.now.inner) (Q.pre reader.now.query) (Q.post reader.now.query) }
    requires after { reader.now.from ≤ at }
    ensures reads { Reads reader.now.tokens.now (followed (exprs.expr_after (turns reader.now.tokens.now) (nested reader.now.tokens.now) place (e.Scalar query place)) (λ a. pure (group_item.Expr a)) (from reader.now.tokens.now at)) result }
    ensures moves { IfOk result (λ p. at ≤ p.1) }
{
    let (expr, at) = reader.expr_after(at, place, expr_nodes::scalar(reader.alloc, query, place)?)?;
    Ok((part_nodes::group_item_expr(reader.alloc, expr)?, at))
}

/// A grouping item that begins with a list: the list alone, or a longer expression.
pub fn list_item<
    E: Fn(usize, Start) -> Read<Boxed<Expr>>,
    Q: Fn(usize, Opening) -> Read<Boxed<Query>>,
>(
    reader: &Reader<'_, E, Q>,
    at: usize,
    place: u64,
    list: Items<Expr>,
) -> Read<Boxed<GroupItem<Expr>>>
    requires below { Nests reader.now.tokens.now reader.now.from (E.pre reader.now.inner) (E.post reader.now.inner) (Q.pre reader.now.query) (Q.post reader.now.query) }
    requires after { reader.now.from ≤ at }
    ensures reads { Reads reader.now.tokens.now (reading reader.now.tokens.now queries.gitem_after place (exprs.held_exprs list) (from reader.now.tokens.now at)) result }
    ensures moves { IfOk result (λ p. at ≤ p.1) }
{
    if at >= reader.tokens.len() {
        let item = part_nodes::group_item_list(reader.alloc, list, place)?;
        return Ok((item, at));
    }
    let single = list.len() == 1;
    let first = grouped(reader.alloc, place, Held::Exprs { exprs: list })?;
    let (expr, end) = reader.expr_after(at, place, first)?;
    if at < end {
        let item = part_nodes::group_item_expr(reader.alloc, expr)?;
        return Ok((item, end));
    }
    let exprs = ungrouped(reader.alloc, single, expr)?;
    let item = part_nodes::group_item_list(reader.alloc, exprs, place)?;
    Ok((item, end))
}

/// ROLLUP or CUBE.
fn told_cube(token: &Token) -> CubeKind
    ensures { result ≡ told cube_kind.Rollup trees.cube_of token.now }
{
    match cube_of(token) {
        Some(kind) => kind,
        None => CubeKind::Rollup,
    }
}

/// The expressions of brackets, from the expression that they are; `single` says that there is one.
fn ungrouped(alloc: Global, single: bool, expr: Boxed<Expr>) -> Result<Items<Expr>, OutOfMemory>
    ensures { (list : List Expr) (place : ℕ) → single ≡ (length list == 1) → expr ≡ exprs.grouped_exprs place list → IfOk result (λ found. found ≡ list) }
{
    if single {
        return one_of(alloc, expr);
    }
    match expr.into_inner() {
        Expr::Tuple { parts, .. } => Ok(parts),
        other => one(alloc, other),
    }
}

/// A grouping item, behind a token.
#[tactic(auto, unfolding(sql_grammar::specs::Queries::gitem))]
pub fn gitem<E: Fn(usize, Start) -> Read<Boxed<Expr>>, Q: Fn(usize, Opening) -> Read<Boxed<Query>>>(
    reader: &Reader<'_, E, Q>,
    at: usize,
) -> Read<Boxed<GroupItem<Expr>>>
    requires below { Nests reader.now.tokens.now reader.now.from (E.pre reader.now.inner) (E.post reader.now.inner) (Q.pre reader.now.query) (Q.post reader.now.query) }
    requires after { reader.now.from < at }
    ensures reads { Reads reader.now.tokens.now (reading reader.now.tokens.now queries.gitem (from reader.now.tokens.now at)) result }
    ensures moves { IfOk result (λ p. at ≤ p.1) }
{
    if !sees(reader.tokens, at, Mark::Sign(Sign::OpenRound)) {
        let (expr, at) = reader.deeper(at)?;
        return Ok((part_nodes::group_item_expr(reader.alloc, expr)?, at));
    }
    let (open, at) = expect(reader.tokens, at, Mark::Sign(Sign::OpenRound))?;
    let place = open.start;
    if sees(reader.tokens, at, Mark::Sign(Sign::CloseRound)) {
        return empty_item(reader, at, place);
    }
    let (held, at) = reader.enclosed(at)?;
    match held {
        Held::Query { query } => query_item(reader, at, place, query),
        Held::Exprs { exprs } => list_item(reader, at, place, exprs),
    }
}

/// `")"` of an empty list that begins at this byte.
pub fn empty_item<
    E: Fn(usize, Start) -> Read<Boxed<Expr>>,
    Q: Fn(usize, Opening) -> Read<Boxed<Query>>,
>(reader: &Reader<'_, E, Q>, at: usize, place: u64) -> Read<Boxed<GroupItem<Expr>>>
    requires below { Nests reader.now.tokens.now reader.now.from (E.pre reader.now.inner) (E.post reader.now.inner) (Q.pre reader.now.query) (Q.post reader.now.query) }
    requires after { reader.now.from ≤ at }
    ensures reads { Reads reader.now.tokens.now (followed (token (spec.sign sign.CloseRound)) (λ c. pure (group_item.List [] place)) (from reader.now.tokens.now at)) result }
    ensures moves { IfOk result (λ p. at < p.1) }
{
    let (_, at) = expect(reader.tokens, at, Mark::Sign(Sign::CloseRound))?;
    Ok((
        part_nodes::group_item_list(reader.alloc, Items::new(reader.alloc), place)?,
        at,
    ))
}

/// `"," gitem`
#[tactic(auto, unfolding(sql_grammar::specs::Queries::comma_gitem))]
pub fn comma_gitem<
    E: Fn(usize, Start) -> Read<Boxed<Expr>>,
    Q: Fn(usize, Opening) -> Read<Boxed<Query>>,
>(reader: &Reader<'_, E, Q>, at: usize) -> Read<Boxed<GroupItem<Expr>>>
    requires below { Nests reader.now.tokens.now reader.now.from (E.pre reader.now.inner) (E.post reader.now.inner) (Q.pre reader.now.query) (Q.post reader.now.query) }
    requires after { reader.now.from ≤ at }
    ensures reads { Reads reader.now.tokens.now (reading reader.now.tokens.now queries.comma_gitem (from reader.now.tokens.now at)) result }
    ensures moves { IfOk result (λ p. at < p.1) }
{
    let (_, at) = expect(reader.tokens, at, Mark::Sign(Sign::Comma))?;
    gitem(reader, at)
}

/// `{"," gitem}` behind the items that were found.
pub fn comma_gitems<
    E: Fn(usize, Start) -> Read<Boxed<Expr>>,
    Q: Fn(usize, Opening) -> Read<Boxed<Query>>,
>(
    reader: &Reader<'_, E, Q>,
    at: usize,
    found: Items<GroupItem<Expr>>,
) -> Read<Items<GroupItem<Expr>>>
    requires below { Nests reader.now.tokens.now reader.now.from (E.pre reader.now.inner) (E.post reader.now.inner) (Q.pre reader.now.query) (Q.post reader.now.query) }
    requires after { reader.now.from ≤ at }
    ensures reads { Reads reader.now.tokens.now (many (spec.sign sign.Comma) (reading reader.now.tokens.now queries.comma_gitem) (turns reader.now.tokens.now) found (from reader.now.tokens.now at)) result }
    ensures moves { IfOk result (λ p. at ≤ p.1) }
{
    many_boxed(
        reader.tokens,
        at,
        Mark::Sign(Sign::Comma),
        found,
        |place| comma_gitem(reader, place),
    )
}

/// ROLLUP or CUBE behind its word.
#[tactic(auto, unfolding(sql_grammar::specs::Queries::cube_behind))]
pub fn cube_behind<
    E: Fn(usize, Start) -> Read<Boxed<Expr>>,
    Q: Fn(usize, Opening) -> Read<Boxed<Query>>,
>(reader: &Reader<'_, E, Q>, at: usize, word: &Token) -> Read<Boxed<Cube<Expr>>>
    requires below { Nests reader.now.tokens.now reader.now.from (E.pre reader.now.inner) (E.post reader.now.inner) (Q.pre reader.now.query) (Q.post reader.now.query) }
    requires after { reader.now.from ≤ at }
    ensures reads { Reads reader.now.tokens.now (reading reader.now.tokens.now queries.cube_behind word.now (from reader.now.tokens.now at)) result }
    ensures moves { IfOk result (λ p. at < p.1) }
{
    let (_, at) = expect(reader.tokens, at, Mark::Sign(Sign::OpenRound))?;
    let (first, at) = gitem(reader, at)?;
    let (items, at) = comma_gitems(reader, at, one_of(reader.alloc, first)?)?;
    let (_, at) = expect(reader.tokens, at, Mark::Sign(Sign::CloseRound))?;
    let kind = told_cube(word);
    let place = word.start;
    Ok((part_nodes::cube(reader.alloc, kind, items, place)?, at))
}

/// ROLLUP or CUBE.
#[tactic(auto, unfolding(sql_grammar::specs::Queries::cube))]
pub fn cube<E: Fn(usize, Start) -> Read<Boxed<Expr>>, Q: Fn(usize, Opening) -> Read<Boxed<Query>>>(
    reader: &Reader<'_, E, Q>,
    at: usize,
) -> Read<Boxed<Cube<Expr>>>
    requires below { Nests reader.now.tokens.now reader.now.from (E.pre reader.now.inner) (E.post reader.now.inner) (Q.pre reader.now.query) (Q.post reader.now.query) }
    requires after { reader.now.from ≤ at }
    ensures reads { Reads reader.now.tokens.now (reading reader.now.tokens.now queries.cube (from reader.now.tokens.now at)) result }
    ensures moves { IfOk result (λ p. at < p.1) }
{
    let (word, at) = expect(reader.tokens, at, Mark::Cube)?;
    cube_behind(reader, at, word)
}

/// A member of GROUPING SETS, behind a token.
#[tactic(auto, unfolding(sql_grammar::specs::Queries::group_set))]
pub fn group_set<
    E: Fn(usize, Start) -> Read<Boxed<Expr>>,
    Q: Fn(usize, Opening) -> Read<Boxed<Query>>,
>(reader: &Reader<'_, E, Q>, at: usize) -> Read<Boxed<GroupSet<Expr>>>
    requires below { Nests reader.now.tokens.now reader.now.from (E.pre reader.now.inner) (E.post reader.now.inner) (Q.pre reader.now.query) (Q.post reader.now.query) }
    requires after { reader.now.from < at }
    ensures reads { Reads reader.now.tokens.now (reading reader.now.tokens.now queries.group_set (from reader.now.tokens.now at)) result }
    ensures moves { IfOk result (λ p. at ≤ p.1) }
{
    if sees(reader.tokens, at, Mark::Cube) {
        let (cube, at) = cube(reader, at)?;
        return Ok((part_nodes::group_set_cube(reader.alloc, cube)?, at));
    }
    let (item, at) = gitem(reader, at)?;
    Ok((part_nodes::group_set_item(reader.alloc, item)?, at))
}

/// `"," set`
#[tactic(auto, unfolding(sql_grammar::specs::Queries::comma_group_set))]
pub fn comma_group_set<
    E: Fn(usize, Start) -> Read<Boxed<Expr>>,
    Q: Fn(usize, Opening) -> Read<Boxed<Query>>,
>(reader: &Reader<'_, E, Q>, at: usize) -> Read<Boxed<GroupSet<Expr>>>
    requires below { Nests reader.now.tokens.now reader.now.from (E.pre reader.now.inner) (E.post reader.now.inner) (Q.pre reader.now.query) (Q.post reader.now.query) }
    requires after { reader.now.from ≤ at }
    ensures reads { Reads reader.now.tokens.now (reading reader.now.tokens.now queries.comma_group_set (from reader.now.tokens.now at)) result }
    ensures moves { IfOk result (λ p. at < p.1) }
{
    let (_, at) = expect(reader.tokens, at, Mark::Sign(Sign::Comma))?;
    group_set(reader, at)
}

/// `{"," set}` behind the sets that were found.
pub fn comma_group_sets<
    E: Fn(usize, Start) -> Read<Boxed<Expr>>,
    Q: Fn(usize, Opening) -> Read<Boxed<Query>>,
>(reader: &Reader<'_, E, Q>, at: usize, found: Items<GroupSet<Expr>>) -> Read<Items<GroupSet<Expr>>>
    requires below { Nests reader.now.tokens.now reader.now.from (E.pre reader.now.inner) (E.post reader.now.inner) (Q.pre reader.now.query) (Q.post reader.now.query) }
    requires after { reader.now.from ≤ at }
    ensures reads { Reads reader.now.tokens.now (many (spec.sign sign.Comma) (reading reader.now.tokens.now queries.comma_group_set) (turns reader.now.tokens.now) found (from reader.now.tokens.now at)) result }
    ensures moves { IfOk result (λ p. at ≤ p.1) }
{
    many_boxed(
        reader.tokens,
        at,
        Mark::Sign(Sign::Comma),
        found,
        |place| comma_group_set(reader, place),
    )
}

/// Plain keys behind the first, which begins at this byte.
#[tactic(auto, unfolding(sql_grammar::specs::Queries::keys))]
pub fn keys<E: Fn(usize, Start) -> Read<Boxed<Expr>>, Q: Fn(usize, Opening) -> Read<Boxed<Query>>>(
    reader: &Reader<'_, E, Q>,
    at: usize,
    place: u64,
    first: Boxed<Expr>,
) -> Read<Boxed<Groups<Expr>>>
    requires below { Nests reader.now.tokens.now reader.now.from (E.pre reader.now.inner) (E.post reader.now.inner) (Q.pre reader.now.query) (Q.post reader.now.query) }
    requires after { reader.now.from ≤ at }
    ensures reads { Reads reader.now.tokens.now (reading reader.now.tokens.now queries.keys place first (from reader.now.tokens.now at)) result }
    ensures moves { IfOk result (λ p. at ≤ p.1) }
{
    let (keys, at) = reader.comma_exprs(at, one_of(reader.alloc, first)?)?;
    Ok((part_nodes::groups_keys(reader.alloc, keys, place)?, at))
}

/// Keys whose first begins with brackets.
#[tactic(auto, unfolding(sql_grammar::specs::Queries::keys_after))]
pub fn keys_after<
    E: Fn(usize, Start) -> Read<Boxed<Expr>>,
    Q: Fn(usize, Opening) -> Read<Boxed<Query>>,
>(reader: &Reader<'_, E, Q>, at: usize, place: u64, held: Held) -> Read<Boxed<Groups<Expr>>>
    requires below { Nests reader.now.tokens.now reader.now.from (E.pre reader.now.inner) (E.post reader.now.inner) (Q.pre reader.now.query) (Q.post reader.now.query) }
    requires after { reader.now.from ≤ at }
    ensures reads { Reads reader.now.tokens.now (reading reader.now.tokens.now queries.keys_after place (content held) (from reader.now.tokens.now at)) result }
    ensures moves { IfOk result (λ p. at ≤ p.1) }
{
    let (first, at) = reader.expr_after(at, place, grouped(reader.alloc, place, held)?)?;
    keys(reader, at, place, first)
}

/// `SETS "(" set {"," set} ")"` behind GROUPING.
#[tactic(auto, unfolding(sql_grammar::specs::Queries::grouping_sets))]
pub fn grouping_sets<
    E: Fn(usize, Start) -> Read<Boxed<Expr>>,
    Q: Fn(usize, Opening) -> Read<Boxed<Query>>,
>(reader: &Reader<'_, E, Q>, at: usize, word: &Token) -> Read<Boxed<Groups<Expr>>>
    requires below { Nests reader.now.tokens.now reader.now.from (E.pre reader.now.inner) (E.post reader.now.inner) (Q.pre reader.now.query) (Q.post reader.now.query) }
    requires after { reader.now.from ≤ at }
    ensures reads { Reads reader.now.tokens.now (reading reader.now.tokens.now queries.grouping_sets word.now (from reader.now.tokens.now at)) result }
    ensures moves { IfOk result (λ p. at < p.1) }
{
    let (_, at) = expect(reader.tokens, at, Mark::Word(Word::Sets))?;
    let (_, at) = expect(reader.tokens, at, Mark::Sign(Sign::OpenRound))?;
    let (first, at) = group_set(reader, at)?;
    let (sets, at) = comma_group_sets(reader, at, one_of(reader.alloc, first)?)?;
    let (_, at) = expect(reader.tokens, at, Mark::Sign(Sign::CloseRound))?;
    let place = word.start;
    Ok((part_nodes::groups_sets(reader.alloc, sets, place)?, at))
}

/// Keys whose first begins with the call of GROUPING.
#[tactic(auto, unfolding(sql_grammar::specs::Queries::keys_grouping))]
pub fn keys_grouping<
    E: Fn(usize, Start) -> Read<Boxed<Expr>>,
    Q: Fn(usize, Opening) -> Read<Boxed<Query>>,
>(reader: &Reader<'_, E, Q>, at: usize, word: &Token) -> Read<Boxed<Groups<Expr>>>
    requires below { Nests reader.now.tokens.now reader.now.from (E.pre reader.now.inner) (E.post reader.now.inner) (Q.pre reader.now.query) (Q.post reader.now.query) }
    requires after { reader.now.from ≤ at }
    ensures reads { Reads reader.now.tokens.now (reading reader.now.tokens.now queries.keys_grouping word.now (from reader.now.tokens.now at)) result }
    ensures moves { IfOk result (λ p. at < p.1) }
{
    let (argument, at) = reader.bracketed(at)?;
    let place = word.start;
    let (first, at) = reader.expr_after(
        at,
        place,
        expr_nodes::grouping(reader.alloc, argument, place)?,
    )?;
    keys(reader, at, place, first)
}

/// A GROUP BY that a bracket begins: `()`, or keys.
pub fn bracket_groups<
    E: Fn(usize, Start) -> Read<Boxed<Expr>>,
    Q: Fn(usize, Opening) -> Read<Boxed<Query>>,
>(reader: &Reader<'_, E, Q>, at: usize) -> Read<Boxed<Groups<Expr>>>
    requires below { Nests reader.now.tokens.now reader.now.from (E.pre reader.now.inner) (E.post reader.now.inner) (Q.pre reader.now.query) (Q.post reader.now.query) }
    requires after { reader.now.from ≤ at }
    ensures reads { Reads reader.now.tokens.now (followed (token (spec.sign sign.OpenRound)) (λ o. if_comes (spec.sign sign.CloseRound) (followed (token (spec.sign sign.CloseRound)) (λ c. pure (groups.Empty o.start))) (followed (reading reader.now.tokens.now exprs.enclosed) (reading reader.now.tokens.now queries.keys_after o.start))) (from reader.now.tokens.now at)) result }
    ensures moves { IfOk result (λ p. at < p.1) }
{
    let (open, at) = expect(reader.tokens, at, Mark::Sign(Sign::OpenRound))?;
    let place = open.start;
    if sees(reader.tokens, at, Mark::Sign(Sign::CloseRound)) {
        let (_, at) = expect(reader.tokens, at, Mark::Sign(Sign::CloseRound))?;
        return Ok((part_nodes::groups_empty(reader.alloc, place)?, at));
    }
    let (held, at) = reader.enclosed(at)?;
    keys_after(reader, at, place, held)
}

/// A GROUP BY that GROUPING begins.
pub fn grouping_groups<
    E: Fn(usize, Start) -> Read<Boxed<Expr>>,
    Q: Fn(usize, Opening) -> Read<Boxed<Query>>,
>(reader: &Reader<'_, E, Q>, at: usize) -> Read<Boxed<Groups<Expr>>>
    requires below { Nests reader.now.tokens.now reader.now.from (E.pre reader.now.inner) (E.post reader.now.inner) (Q.pre reader.now.query) (Q.post reader.now.query) }
    requires after { reader.now.from ≤ at }
    ensures reads { Reads reader.now.tokens.now (followed (token (spec.reserved r.Grouping)) (λ t. if_comes (spec.word w.Sets) (reading reader.now.tokens.now queries.grouping_sets t) (reading reader.now.tokens.now queries.keys_grouping t)) (from reader.now.tokens.now at)) result }
    ensures moves { IfOk result (λ p. at < p.1) }
{
    let (word, at) = expect(reader.tokens, at, Mark::Reserved(Reserved::Grouping))?;
    if sees(reader.tokens, at, Mark::Word(Word::Sets)) {
        return grouping_sets(reader, at, word);
    }
    keys_grouping(reader, at, word)
}

/// A GROUP BY that is ROLLUP or CUBE.
pub fn cube_groups<
    E: Fn(usize, Start) -> Read<Boxed<Expr>>,
    Q: Fn(usize, Opening) -> Read<Boxed<Query>>,
>(reader: &Reader<'_, E, Q>, at: usize, place: u64) -> Read<Boxed<Groups<Expr>>>
    requires below { Nests reader.now.tokens.now reader.now.from (E.pre reader.now.inner) (E.post reader.now.inner) (Q.pre reader.now.query) (Q.post reader.now.query) }
    requires after { reader.now.from ≤ at }
    ensures reads { Reads reader.now.tokens.now (followed (reading reader.now.tokens.now queries.cube) (λ a. pure (groups.Cube a place)) (from reader.now.tokens.now at)) result }
    ensures moves { IfOk result (λ p. at < p.1) }
{
    let (cube, at) = cube(reader, at)?;
    Ok((part_nodes::groups_cube(reader.alloc, cube, place)?, at))
}

/// Keys.
pub fn expr_groups<
    E: Fn(usize, Start) -> Read<Boxed<Expr>>,
    Q: Fn(usize, Opening) -> Read<Boxed<Query>>,
>(reader: &Reader<'_, E, Q>, at: usize, place: u64) -> Read<Boxed<Groups<Expr>>>
    requires below { Nests reader.now.tokens.now reader.now.from (E.pre reader.now.inner) (E.post reader.now.inner) (Q.pre reader.now.query) (Q.post reader.now.query) }
    requires after { reader.now.from < at }
    ensures reads { Reads reader.now.tokens.now (followed ((nested reader.now.tokens.now).inner) (reading reader.now.tokens.now queries.keys place) (from reader.now.tokens.now at)) result }
    ensures moves { IfOk result (λ p. at ≤ p.1) }
{
    let (first, at) = reader.deeper(at)?;
    keys(reader, at, place, first)
}

/// What stands behind GROUP BY.
#[tactic(auto, unfolding(sql_grammar::specs::Queries::grouped_by))]
pub fn grouped_by<
    E: Fn(usize, Start) -> Read<Boxed<Expr>>,
    Q: Fn(usize, Opening) -> Read<Boxed<Query>>,
>(reader: &Reader<'_, E, Q>, at: usize) -> Read<Boxed<Groups<Expr>>>
    requires below { Nests reader.now.tokens.now reader.now.from (E.pre reader.now.inner) (E.post reader.now.inner) (Q.pre reader.now.query) (Q.post reader.now.query) }
    requires after { reader.now.from < at }
    ensures reads { Reads reader.now.tokens.now (reading reader.now.tokens.now queries.grouped_by (from reader.now.tokens.now at)) result }
    ensures moves { IfOk result (λ p. at ≤ p.1) }
{
    let place = start_at(reader.tokens, at);
    match groups_start(reader.tokens, at) {
        GroupsStart::Bracket => bracket_groups(reader, at),
        GroupsStart::Grouping => grouping_groups(reader, at),
        GroupsStart::Cube => cube_groups(reader, at, place),
        GroupsStart::Expr => expr_groups(reader, at, place),
    }
}

/// `[GROUP BY ..]`
#[tactic(auto, unfolding(sql_grammar::specs::Queries::group_by))]
pub fn group_by<
    E: Fn(usize, Start) -> Read<Boxed<Expr>>,
    Q: Fn(usize, Opening) -> Read<Boxed<Query>>,
>(reader: &Reader<'_, E, Q>, at: usize) -> Read<Option<Boxed<Groups<Expr>>>>
    requires below { Nests reader.now.tokens.now reader.now.from (E.pre reader.now.inner) (E.post reader.now.inner) (Q.pre reader.now.query) (Q.post reader.now.query) }
    requires after { reader.now.from ≤ at }
    ensures reads { Reads reader.now.tokens.now (reading reader.now.tokens.now queries.group_by (from reader.now.tokens.now at)) result }
    ensures moves { IfOk result (λ p. at ≤ p.1) }
{
    if !sees(reader.tokens, at, Mark::Reserved(Reserved::Group)) {
        return Ok((None, at));
    }
    let (_, at) = expect(reader.tokens, at, Mark::Reserved(Reserved::Group))?;
    let (_, at) = expect(reader.tokens, at, Mark::Reserved(Reserved::By))?;
    let (groups, at) = grouped_by(reader, at)?;
    Ok((Some(groups), at))
}
