//! What parentheses hold: a query, or expressions.
ghost use Rattle.std.specs.Prelude.{◌≡◌, ◌<◌, ◌≤◌, IfOk};
ghost use Rattle.fronts.specs.Readers.{if_comes};
ghost use Rattle.sql_names.specs.declared.words.Reserved.TheVariants as r;
ghost use Rattle.sql_ast.specs.declared.words.Sign.TheVariants as sign;
ghost use Rattle.sql_ast.specs.declared.expr.Expr.TheVariants as e;
ghost use Rattle.sql_ast.specs.declared.query.Term.TheVariants as term;
ghost use Rattle.sql_ast.specs.Marks.{Is};
ghost use Rattle.parse_expr.specs.declared.starts.Opening.TheVariants as opening;
ghost use Rattle.sql_ast.specs.Marks as spec;
ghost use Rattle.sql_grammar.specs.Exprs as exprs;
ghost use Rattle.parse_expr.specs.Nests.{HasOpened, HasText, Nests, content, opened};
ghost use Rattle.parse_words.specs.Reads.{from, nested, reading, Reads, ReadsAs};

use crate::beginnings::{ContentStart, content_start};
use crate::reader::Reader;
use crate::starts::{Held, Opening, Start};
use parse_words::cursor::{Read, expect, sees};
use parse_words::kept::{Kept, expect_word};
use parse_words::marks::Mark;
use sql_ast::{Expr, Query, Reserved, Sign};
use sql_nodes::boxes::{add, one_of};
use sql_nodes::{expr_nodes, query_nodes};
use sql_types::{Boxed, Items, OutOfMemory};
use std::alloc::Global;

/// The expression of brackets that begin at this byte.
#[tactic(auto, unfolding(sql_grammar::specs::Exprs::grouped))]
pub fn grouped(alloc: Global, place: u64, held: Held) -> Result<Boxed<Expr>, OutOfMemory>
    ensures { IfOk result (λ a. a ≡ exprs.grouped place (content held)) }
{
    match held {
        Held::Query { query } => expr_nodes::scalar(alloc, query, place),
        Held::Exprs { exprs } => grouped_exprs(alloc, place, exprs),
    }
}

/// One expression in brackets is itself; any other number of them is a tuple.
fn grouped_exprs(alloc: Global, place: u64, parts: Items<Expr>) -> Result<Boxed<Expr>, OutOfMemory>
    ensures { IfOk result (λ a. a ≡ exprs.grouped_exprs place parts) }
{
    let mut parts = parts;
    if parts.len() != 1 {
        return expr_nodes::tuple(alloc, parts, place);
    }
    match parts.pop() {
        Some(expr) => Ok(Boxed::new(alloc, expr)?),
        None => expr_nodes::tuple(alloc, parts, place),
    }
}

impl<
    'a,
    E: Fn(usize, Start) -> Read<Boxed<Expr>>,
    Q: Fn(usize, Opening) -> Read<Boxed<Query>>,
> Reader<'a, E, Q> {
    /// `{"," expr} ")"` behind the expressions that were found.
    pub fn listed(&self, at: usize, found: Items<Expr>) -> Read<Held>
        requires below { Nests self.now.tokens.now self.now.from (E.pre self.now.inner) (E.post self.now.inner) (Q.pre self.now.query) (Q.post self.now.query) }
        requires after { self.now.from ≤ at }
        ensures reads { ReadsAs content self.now.tokens.now (reading self.now.tokens.now exprs.listed found (from self.now.tokens.now at)) result }
        ensures moves { IfOk result (λ p. at < p.1) }
    {
        let (exprs, at) = self.list_closed(at, Sign::CloseRound, found)?;
        Ok((Held::Exprs { exprs }, at))
    }

    /// The same behind the first, before a comma.
    #[tactic(auto, unfolding(sql_grammar::specs::Exprs::two_listed))]
    pub fn two_listed(&self, at: usize, first: Boxed<Expr>) -> Read<Held>
        requires below { Nests self.now.tokens.now self.now.from (E.pre self.now.inner) (E.post self.now.inner) (Q.pre self.now.query) (Q.post self.now.query) }
        requires after { self.now.from ≤ at }
        ensures reads { ReadsAs content self.now.tokens.now (reading self.now.tokens.now exprs.two_listed first (from self.now.tokens.now at)) result }
        ensures moves { IfOk result (λ p. at < p.1) }
    {
        let (second, at) = self.after(at, Mark::Sign(Sign::Comma))?;
        let mut found = one_of(self.alloc, first)?;
        add(&mut found, second)?;
        self.listed(at, found)
    }

    /// A query behind what was read of it, and the bracket that closes it.
    #[tactic(auto, unfolding(sql_grammar::specs::Exprs::query_closed))]
    pub fn query_closed(&self, at: usize, opening: Opening) -> Read<Held>
        requires below { Nests self.now.tokens.now self.now.from (E.pre self.now.inner) (E.post self.now.inner) (Q.pre self.now.query) (Q.post self.now.query) }
        requires after { self.now.from < at }
        requires begun { HasOpened opening }
        ensures reads { ReadsAs content self.now.tokens.now (reading self.now.tokens.now exprs.query_closed (opened (nested self.now.tokens.now) opening) (from self.now.tokens.now at)) result }
        ensures moves { IfOk result (λ p. at < p.1) }
    {
        let (query, at) = self.deeper_more(at, opening)?;
        let (_, at) = expect(self.tokens, at, Mark::Sign(Sign::CloseRound))?;
        Ok((Held::Query { query }, at))
    }

    /// Behind a query in brackets with which they begin: it is the first term of a query, if no comma follows.
    pub fn held_term(&self, at: usize, query: Boxed<Query>, place: u64) -> Read<Held>
        requires below { Nests self.now.tokens.now self.now.from (E.pre self.now.inner) (E.post self.now.inner) (Q.pre self.now.query) (Q.post self.now.query) }
        requires after { self.now.from < at }
        requires begun { HasOpened (opening.Term (term.Query query place) place) }
        ensures reads { ReadsAs content self.now.tokens.now (if_comes (spec.sign sign.Comma) (reading self.now.tokens.now exprs.two_listed (e.Scalar query place)) (reading self.now.tokens.now exprs.query_closed ((nested self.now.tokens.now).more (exprs.term_read (term.Query query place) place))) (from self.now.tokens.now at)) result }
        ensures moves { IfOk result (λ p. at < p.1) }
    {
        if sees(self.tokens, at, Mark::Sign(Sign::Comma)) {
            return self.two_listed(at, expr_nodes::scalar(self.alloc, query, place)?);
        }
        let term = query_nodes::term_query(self.alloc, query, place)?;
        self.query_closed(at, Opening::Term { term, place })
    }

    /// Behind an expression with which they begin.
    #[tactic(auto, using(crate::proofs::Begun::scalar_term), unfolding(sql_grammar::specs::Exprs::held_from, sql_grammar::specs::Exprs::opening_of))]
    pub fn held_from(&self, at: usize, expr: Boxed<Expr>) -> Read<Held>
        requires below { Nests self.now.tokens.now self.now.from (E.pre self.now.inner) (E.post self.now.inner) (Q.pre self.now.query) (Q.post self.now.query) }
        requires after { self.now.from < at }
        requires begun { HasText expr }
        ensures reads { ReadsAs content self.now.tokens.now (reading self.now.tokens.now exprs.held_from expr (from self.now.tokens.now at)) result }
        ensures moves { IfOk result (λ p. at < p.1) }
    {
        match expr.into_inner() {
            Expr::Scalar { query, place } => self.held_term(at, query, place),
            other => {
                let boxed = Boxed::new(self.alloc, other)?;
                self.listed(at, one_of(self.alloc, boxed)?)
            }
        }
    }

    /// Behind the word WITH: an expression, or a query.
    #[tactic(auto, using(crate::proofs::Begun::with_basic, crate::proofs::Begun::rest_expr), unfolding(sql_grammar::specs::Exprs::held_with))]
    pub fn held_with(&self, at: usize, word: Kept) -> Read<Held>
        requires below { Nests self.now.tokens.now self.now.from (E.pre self.now.inner) (E.post self.now.inner) (Q.pre self.now.query) (Q.post self.now.query) }
        requires after { self.now.from < at }
        requires begun { Is (spec.reserved r.With) word }
        ensures reads { ReadsAs content self.now.tokens.now (reading self.now.tokens.now exprs.held_with word (from self.now.tokens.now at)) result }
        ensures moves { IfOk result (λ p. at < p.1) }
    {
        if !sees(self.tokens, at, Mark::Sign(Sign::OpenRound)) {
            return self.query_closed(at, Opening::With { word });
        }
        let place = word.start();
        let (basic, at) = self.with_body(at, place)?;
        let (expr, at) = self.deeper_behind(at, place, basic)?;
        self.held_from(at, expr)
    }

    /// What parentheses hold, up to the bracket that closes them, behind the one that opens them.
    #[tactic(auto, using(crate::proofs::Begun::token_fits, crate::proofs::Begun::inner_expr), unfolding(sql_grammar::specs::Exprs::enclosed))]
    pub fn enclosed(&self, at: usize) -> Read<Held>
        requires below { Nests self.now.tokens.now self.now.from (E.pre self.now.inner) (E.post self.now.inner) (Q.pre self.now.query) (Q.post self.now.query) }
        requires after { self.now.from < at }
        ensures reads { ReadsAs content self.now.tokens.now (reading self.now.tokens.now exprs.enclosed (from self.now.tokens.now at)) result }
        ensures moves { IfOk result (λ p. at < p.1) }
    {
        match content_start(self.tokens, at) {
            ContentStart::Select => self.query_closed(at, Opening::Fresh),
            ContentStart::With => {
                let (word, at) = expect_word(self.tokens, at, Reserved::With)?;
                self.held_with(at, word)
            }
            ContentStart::Expr => {
                let (expr, at) = self.deeper(at)?;
                self.held_from(at, expr)
            }
        }
    }

    /// `"(" .. ")"` as an expression: a query, one expression, or a tuple.
    #[tactic(auto, unfolding(sql_grammar::specs::Exprs::group))]
    pub fn group(&self, at: usize) -> Read<Boxed<Expr>>
        requires below { Nests self.now.tokens.now self.now.from (E.pre self.now.inner) (E.post self.now.inner) (Q.pre self.now.query) (Q.post self.now.query) }
        requires after { self.now.from ≤ at }
        ensures reads { Reads self.now.tokens.now (reading self.now.tokens.now exprs.group (from self.now.tokens.now at)) result }
        ensures moves { IfOk result (λ p. at < p.1) }
    {
        let (open, at) = expect(self.tokens, at, Mark::Sign(Sign::OpenRound))?;
        let (held, at) = self.enclosed(at)?;
        Ok((grouped(self.alloc, open.start, held)?, at))
    }
}
