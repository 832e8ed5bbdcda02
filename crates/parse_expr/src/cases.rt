//! CASE.
ghost use Rattle.std.specs.Prelude.{◌≡◌, ◌<◌, ◌≤◌, IfOk};
ghost use Rattle.fronts.specs.Readers.{many};
ghost use Rattle.sql_names.specs.declared.words.Reserved.TheVariants as r;
ghost use Rattle.sql_ast.specs.Marks as spec;
ghost use Rattle.sql_grammar.specs.Exprs as exprs;
ghost use Rattle.parse_expr.specs.Nests.{Nests};
ghost use Rattle.parse_words.specs.Reads.{from, reading, turns, Reads};

use crate::reader::Reader;
use crate::starts::{Opening, Start};
use parse_words::cursor::{Read, expect, sees};
use parse_words::marks::Mark;
use parse_words::repeat::many_boxed;
use sql_ast::{Expr, Query, Reserved, When};
use sql_nodes::boxes::one_of;
use sql_nodes::{expr_nodes, part_nodes};
use sql_types::{Boxed, Items};

impl<
    'a,
    E: Fn(usize, Start) -> Read<Boxed<Expr>>,
    Q: Fn(usize, Opening) -> Read<Boxed<Query>>,
> Reader<'a, E, Q> {
    /// `WHEN expr THEN expr`
    #[tactic(auto, unfolding(sql_grammar::specs::Exprs::when))]
    pub fn when(&self, at: usize) -> Read<Boxed<When<Expr>>>
        requires below { Nests self.now.tokens.now self.now.from (E.pre self.now.inner) (E.post self.now.inner) (Q.pre self.now.query) (Q.post self.now.query) }
        requires after { self.now.from ≤ at }
        ensures reads { Reads self.now.tokens.now (reading self.now.tokens.now exprs.when (from self.now.tokens.now at)) result }
        ensures moves { IfOk result (λ p. at < p.1) }
    {
        let (test, at) = self.after(at, Mark::Reserved(Reserved::When))?;
        let (result, at) = self.after(at, Mark::Reserved(Reserved::Then))?;
        Ok((part_nodes::when(self.alloc, test, result)?, at))
    }

    /// `{WHEN expr THEN expr}` behind the branches that were found.
    pub fn whens(&self, at: usize, found: Items<When<Expr>>) -> Read<Items<When<Expr>>>
        requires below { Nests self.now.tokens.now self.now.from (E.pre self.now.inner) (E.post self.now.inner) (Q.pre self.now.query) (Q.post self.now.query) }
        requires after { self.now.from ≤ at }
        ensures reads { Reads self.now.tokens.now (many (spec.reserved r.When) (reading self.now.tokens.now exprs.when) (turns self.now.tokens.now) found (from self.now.tokens.now at)) result }
        ensures moves { IfOk result (λ p. at ≤ p.1) }
        ensures stays { IfOk result (λ p. p.1 ≡ at → p.0 ≡ found) }
    {
        many_boxed(
            self.tokens,
            at,
            Mark::Reserved(Reserved::When),
            found,
            |place| self.when(place),
        )
    }

    /// `[ELSE expr]`
    #[tactic(auto, unfolding(sql_grammar::specs::Exprs::otherwise))]
    pub fn otherwise(&self, at: usize) -> Read<Option<Boxed<Expr>>>
        requires below { Nests self.now.tokens.now self.now.from (E.pre self.now.inner) (E.post self.now.inner) (Q.pre self.now.query) (Q.post self.now.query) }
        requires after { self.now.from ≤ at }
        ensures reads { Reads self.now.tokens.now (reading self.now.tokens.now exprs.otherwise (from self.now.tokens.now at)) result }
        ensures moves { IfOk result (λ p. at ≤ p.1) }
    {
        if !sees(self.tokens, at, Mark::Reserved(Reserved::Else)) {
            return Ok((None, at));
        }
        let (expr, at) = self.after(at, Mark::Reserved(Reserved::Else))?;
        Ok((Some(expr), at))
    }

    /// `[expr]` behind CASE, unless WHEN comes.
    #[tactic(auto, unfolding(sql_grammar::specs::Exprs::subject))]
    pub fn subject(&self, at: usize) -> Read<Option<Boxed<Expr>>>
        requires below { Nests self.now.tokens.now self.now.from (E.pre self.now.inner) (E.post self.now.inner) (Q.pre self.now.query) (Q.post self.now.query) }
        requires after { self.now.from < at }
        ensures reads { Reads self.now.tokens.now (reading self.now.tokens.now exprs.subject (from self.now.tokens.now at)) result }
        ensures moves { IfOk result (λ p. at ≤ p.1) }
    {
        if sees(self.tokens, at, Mark::Reserved(Reserved::When)) {
            return Ok((None, at));
        }
        let (expr, at) = self.deeper(at)?;
        Ok((Some(expr), at))
    }

    /// `CASE [expr] WHEN expr THEN expr {WHEN expr THEN expr} [ELSE expr] END`
    #[tactic(auto, unfolding(sql_grammar::specs::Exprs::case))]
    pub fn case_whole(&self, at: usize) -> Read<Boxed<Expr>>
        requires below { Nests self.now.tokens.now self.now.from (E.pre self.now.inner) (E.post self.now.inner) (Q.pre self.now.query) (Q.post self.now.query) }
        requires after { self.now.from ≤ at }
        ensures reads { Reads self.now.tokens.now (reading self.now.tokens.now exprs.case (from self.now.tokens.now at)) result }
        ensures moves { IfOk result (λ p. at < p.1) }
    {
        let (word, at) = expect(self.tokens, at, Mark::Reserved(Reserved::Case))?;
        let (subject, at) = self.subject(at)?;
        let (first, at) = self.when(at)?;
        let (branches, at) = self.whens(at, one_of(self.alloc, first)?)?;
        let (otherwise, at) = self.otherwise(at)?;
        let (_, at) = expect(self.tokens, at, Mark::Reserved(Reserved::End))?;
        let place = word.start;
        Ok((
            expr_nodes::case(self.alloc, subject, branches, otherwise, place)?,
            at,
        ))
    }
}
