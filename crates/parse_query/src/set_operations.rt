//! Terms and set operations.
ghost use Rattle.std.specs.Prelude.{◌≡◌, ◌<◌, ◌≤◌, IfOk, length, None};
ghost use Rattle.fronts.specs.Readers.{pure, token};
ghost use Rattle.sql_ast.specs.declared.words.Sign.TheVariants as sign;
ghost use Rattle.sql_ast.specs.declared.query.Term.TheVariants as term;
ghost use Rattle.sql_ast.specs.Marks as spec;
ghost use Rattle.sql_ast.specs.Trees as trees;
ghost use Rattle.sql_grammar.specs.Classes as classes;
ghost use Rattle.sql_grammar.specs.Exprs.{told};
ghost use Rattle.sql_grammar.specs.Queries as queries;
ghost use Rattle.sql_grammar.specs.Ways.{following};
ghost use Rattle.parse_expr.specs.Steps.{followed};
ghost use Rattle.parse_expr.specs.Nests.{Nests};
ghost use Rattle.parse_words.specs.Reads.{from, nested, reading, turns, Reads};

use crate::selects::select_or_except;
use parse_expr::{Opening, Reader, Start};
use parse_words::cursor::{Read, expect, refusal_at, sees};
use parse_words::kept::{Kept, expect_set_word, expect_word};
use parse_words::marks::Mark;
use parse_words::repeat::following;
use sql_ast::{Expr, Query, Reserved, SetTerm, Sign, Term};
use sql_lexer::Tokens;
use sql_nodes::boxes::one_of;
use sql_nodes::query_nodes;
use sql_types::{Boxed, Items, SetKind};

/// A query in brackets.
pub fn bracketed_term<
    E: Fn(usize, Start) -> Read<Boxed<Expr>>,
    Q: Fn(usize, Opening) -> Read<Boxed<Query>>,
>(reader: &Reader<'_, E, Q>, at: usize) -> Read<(Boxed<Term>, Option<Kept>)>
    requires below { Nests reader.now.tokens.now reader.now.from (E.pre reader.now.inner) (E.post reader.now.inner) (Q.pre reader.now.query) (Q.post reader.now.query) }
    requires after { reader.now.from ≤ at }
    ensures reads { Reads reader.now.tokens.now (followed (token (spec.sign sign.OpenRound)) (λ o. followed ((nested reader.now.tokens.now).query) (λ q. followed (token (spec.sign sign.CloseRound)) (λ c. pure (term.Query q o.start, None)))) (from reader.now.tokens.now at)) result }
    ensures moves { IfOk result (λ p. at < p.1) }
{
    let (open, at) = expect(reader.tokens, at, Mark::Sign(Sign::OpenRound))?;
    let (query, at) = reader.deeper_query(at)?;
    let (_, at) = expect(reader.tokens, at, Mark::Sign(Sign::CloseRound))?;
    let place = open.start;
    Ok((
        (query_nodes::term_query(reader.alloc, query, place)?, None),
        at,
    ))
}

/// A SELECT as a term.
pub fn select_term<
    E: Fn(usize, Start) -> Read<Boxed<Expr>>,
    Q: Fn(usize, Opening) -> Read<Boxed<Query>>,
>(reader: &Reader<'_, E, Q>, at: usize) -> Read<(Boxed<Term>, Option<Kept>)>
    requires below { Nests reader.now.tokens.now reader.now.from (E.pre reader.now.inner) (E.post reader.now.inner) (Q.pre reader.now.query) (Q.post reader.now.query) }
    requires after { reader.now.from ≤ at }
    ensures reads { Reads reader.now.tokens.now (followed (reading reader.now.tokens.now queries.select_or_except) (λ x. pure (term.Select x.0, x.1)) (from reader.now.tokens.now at)) result }
    ensures moves { IfOk result (λ p. at < p.1) }
{
    let ((select, word), at) = select_or_except(reader, at)?;
    Ok(((query_nodes::term_select(reader.alloc, select)?, word), at))
}

/// A term, and the word EXCEPT behind it, if it was read.
#[tactic(auto, unfolding(sql_grammar::specs::Queries::term_or_except))]
pub fn term_or_except<
    E: Fn(usize, Start) -> Read<Boxed<Expr>>,
    Q: Fn(usize, Opening) -> Read<Boxed<Query>>,
>(reader: &Reader<'_, E, Q>, at: usize) -> Read<(Boxed<Term>, Option<Kept>)>
    requires below { Nests reader.now.tokens.now reader.now.from (E.pre reader.now.inner) (E.post reader.now.inner) (Q.pre reader.now.query) (Q.post reader.now.query) }
    requires after { reader.now.from ≤ at }
    ensures reads { Reads reader.now.tokens.now (reading reader.now.tokens.now queries.term_or_except (from reader.now.tokens.now at)) result }
    ensures moves { IfOk result (λ p. at < p.1) }
{
    if sees(reader.tokens, at, Mark::Sign(Sign::OpenRound)) {
        return bracketed_term(reader, at);
    }
    select_term(reader, at)
}

/// The word of the next set operation of this kind, if it comes; EXCEPT that was read must be it.
pub fn set_next(tokens: &Tokens, at: usize, kind: SetKind, read: Option<Kept>) -> Read<Option<Kept>>
    ensures reads { Reads tokens.now (reading tokens.now queries.set_next kind read (from tokens.now at)) result }
    ensures moves { IfOk result (λ p. at ≤ p.1) }
{
    let word = set_word(kind);
    match read {
        Some(token) => {
            if token.is_word(word) {
                Ok((Some(token), at))
            } else {
                Err(refusal_at(tokens, at))
            }
        }
        None => {
            if !sees(tokens, at, Mark::Reserved(word)) {
                return Ok((None, at));
            }
            let (token, at) = expect_word(tokens, at, word)?;
            Ok((Some(token), at))
        }
    }
}

/// The first word of a set operation.
fn set_word(kind: SetKind) -> Reserved
    ensures { result ≡ trees.set_word kind }
{
    match kind {
        SetKind::UnionAll | SetKind::UnionDistinct => Reserved::Union,
        SetKind::IntersectAll | SetKind::IntersectDistinct => Reserved::Intersect,
        SetKind::ExceptAll | SetKind::ExceptDistinct => Reserved::Except,
    }
}

/// The second word of a set operation.
fn set_quantifier(kind: SetKind) -> Reserved
    ensures { result ≡ trees.set_quantifier kind }
{
    match kind {
        SetKind::UnionAll | SetKind::IntersectAll | SetKind::ExceptAll => Reserved::All,
        SetKind::UnionDistinct | SetKind::IntersectDistinct | SetKind::ExceptDistinct => {
            Reserved::Distinct
        }
    }
}

fn union(distinct: bool) -> SetKind
    ensures { result ≡ classes.set_kind_by classes.a_union distinct }
{
    if distinct {
        SetKind::UnionDistinct
    } else {
        SetKind::UnionAll
    }
}

fn intersection(distinct: bool) -> SetKind
    ensures { result ≡ classes.set_kind_by classes.an_intersect distinct }
{
    if distinct {
        SetKind::IntersectDistinct
    } else {
        SetKind::IntersectAll
    }
}

fn difference(distinct: bool) -> SetKind
    ensures { result ≡ classes.set_kind_by classes.an_except distinct }
{
    if distinct {
        SetKind::ExceptDistinct
    } else {
        SetKind::ExceptAll
    }
}

/// The kind of a set operation, by its first word and whether its second is DISTINCT.
fn set_kind(word: &Kept, distinct: bool) -> SetKind
    ensures { result ≡ classes.set_kind_by (told classes.a_union classes.set_word_of word.now) distinct }
{
    if word.is_word(Reserved::Intersect) {
        intersection(distinct)
    } else if word.is_word(Reserved::Except) {
        difference(distinct)
    } else {
        union(distinct)
    }
}

/// A term behind both words of its set operation, and the word of the next.
#[tactic(auto, unfolding(sql_grammar::specs::Queries::set_term))]
pub fn set_term<
    E: Fn(usize, Start) -> Read<Boxed<Expr>>,
    Q: Fn(usize, Opening) -> Read<Boxed<Query>>,
>(
    reader: &Reader<'_, E, Q>,
    at: usize,
    kind: SetKind,
    word: Kept,
) -> Read<(Boxed<SetTerm<Term>>, Option<Kept>)>
    requires below { Nests reader.now.tokens.now reader.now.from (E.pre reader.now.inner) (E.post reader.now.inner) (Q.pre reader.now.query) (Q.post reader.now.query) }
    requires after { reader.now.from ≤ at }
    ensures reads { Reads reader.now.tokens.now (reading reader.now.tokens.now queries.set_term kind word (from reader.now.tokens.now at)) result }
    ensures moves { IfOk result (λ p. at < p.1) }
{
    let ((term, read), at) = term_or_except(reader, at)?;
    let (next, at) = set_next(reader.tokens, at, kind, read)?;
    let place = word.start();
    Ok((
        (
            query_nodes::set_term(reader.alloc, kind, term, place)?,
            next,
        ),
        at,
    ))
}

/// The same behind the first word.
#[tactic(auto, unfolding(sql_grammar::specs::Queries::set_item))]
pub fn set_item<
    E: Fn(usize, Start) -> Read<Boxed<Expr>>,
    Q: Fn(usize, Opening) -> Read<Boxed<Query>>,
>(
    reader: &Reader<'_, E, Q>,
    at: usize,
    kind: SetKind,
    word: Kept,
) -> Read<(Boxed<SetTerm<Term>>, Option<Kept>)>
    requires below { Nests reader.now.tokens.now reader.now.from (E.pre reader.now.inner) (E.post reader.now.inner) (Q.pre reader.now.query) (Q.post reader.now.query) }
    requires after { reader.now.from ≤ at }
    ensures reads { Reads reader.now.tokens.now (reading reader.now.tokens.now queries.set_item kind word (from reader.now.tokens.now at)) result }
    ensures moves { IfOk result (λ p. at < p.1) }
    ensures within { IfOk result (λ p. at < length reader.now.tokens.now.list) }
{
    let (_, at) = expect(reader.tokens, at, Mark::Reserved(set_quantifier(kind)))?;
    set_term(reader, at, kind, word)
}

/// The set operations of a kind behind those that were found, as long as the word of the next was read.
pub fn more_terms<
    E: Fn(usize, Start) -> Read<Boxed<Expr>>,
    Q: Fn(usize, Opening) -> Read<Boxed<Query>>,
>(
    reader: &Reader<'_, E, Q>,
    at: usize,
    kind: SetKind,
    found: Items<SetTerm<Term>>,
    next: Option<Kept>,
) -> Read<Items<SetTerm<Term>>>
    requires below { Nests reader.now.tokens.now reader.now.from (E.pre reader.now.inner) (E.post reader.now.inner) (Q.pre reader.now.query) (Q.post reader.now.query) }
    requires after { reader.now.from ≤ at }
    ensures reads { Reads reader.now.tokens.now (following (reading reader.now.tokens.now queries.set_item kind) (turns reader.now.tokens.now) found next (from reader.now.tokens.now at)) result }
    ensures moves { IfOk result (λ p. at ≤ p.1) }
{
    following(
        reader.tokens,
        at,
        found,
        next,
        |place, word| set_item(reader, place, kind, word),
    )
}

/// All set operations, of this kind, behind both words of the first.
#[tactic(auto, unfolding(sql_grammar::specs::Queries::set_terms))]
pub fn set_terms<
    E: Fn(usize, Start) -> Read<Boxed<Expr>>,
    Q: Fn(usize, Opening) -> Read<Boxed<Query>>,
>(reader: &Reader<'_, E, Q>, at: usize, kind: SetKind, word: Kept) -> Read<Items<SetTerm<Term>>>
    requires below { Nests reader.now.tokens.now reader.now.from (E.pre reader.now.inner) (E.post reader.now.inner) (Q.pre reader.now.query) (Q.post reader.now.query) }
    requires after { reader.now.from ≤ at }
    ensures reads { Reads reader.now.tokens.now (reading reader.now.tokens.now queries.set_terms kind word (from reader.now.tokens.now at)) result }
    ensures moves { IfOk result (λ p. at < p.1) }
{
    let ((first, next), at) = set_term(reader, at, kind, word)?;
    more_terms(reader, at, kind, one_of(reader.alloc, first)?, next)
}

/// The same behind the first word of the first.
#[tactic(auto, unfolding(sql_grammar::specs::Queries::set_first))]
pub fn set_first<
    E: Fn(usize, Start) -> Read<Boxed<Expr>>,
    Q: Fn(usize, Opening) -> Read<Boxed<Query>>,
>(reader: &Reader<'_, E, Q>, at: usize, word: Kept) -> Read<Items<SetTerm<Term>>>
    requires below { Nests reader.now.tokens.now reader.now.from (E.pre reader.now.inner) (E.post reader.now.inner) (Q.pre reader.now.query) (Q.post reader.now.query) }
    requires after { reader.now.from ≤ at }
    ensures reads { Reads reader.now.tokens.now (reading reader.now.tokens.now queries.set_first word (from reader.now.tokens.now at)) result }
    ensures moves { IfOk result (λ p. at < p.1) }
{
    if sees(reader.tokens, at, Mark::Reserved(Reserved::All)) {
        let (_, at) = expect(reader.tokens, at, Mark::Reserved(Reserved::All))?;
        let kind = set_kind(&word, false);
        return set_terms(reader, at, kind, word);
    }
    let (_, at) = expect(reader.tokens, at, Mark::Reserved(Reserved::Distinct))?;
    let kind = set_kind(&word, true);
    set_terms(reader, at, kind, word)
}

/// The set operations behind the first term.
pub fn sets_from<
    E: Fn(usize, Start) -> Read<Boxed<Expr>>,
    Q: Fn(usize, Opening) -> Read<Boxed<Query>>,
>(reader: &Reader<'_, E, Q>, at: usize, read: Option<Kept>) -> Read<Items<SetTerm<Term>>>
    requires below { Nests reader.now.tokens.now reader.now.from (E.pre reader.now.inner) (E.post reader.now.inner) (Q.pre reader.now.query) (Q.post reader.now.query) }
    requires after { reader.now.from ≤ at }
    ensures reads { Reads reader.now.tokens.now (reading reader.now.tokens.now queries.sets_from read (from reader.now.tokens.now at)) result }
    ensures moves { IfOk result (λ p. at ≤ p.1) }
{
    if let Some(word) = read {
        return set_first(reader, at, word);
    }
    if !sees(reader.tokens, at, Mark::SetWord) {
        return Ok((Items::new(reader.alloc), at));
    }
    let (word, at) = expect_set_word(reader.tokens, at)?;
    set_first(reader, at, word)
}
