//! Expressions that a word of their own begins.
ghost use Rattle.std.specs.Prelude.{◌<◌, ◌≤◌, IfOk};
ghost use Rattle.sql_grammar.specs.Exprs as exprs;
ghost use Rattle.parse_expr.specs.Nests.{Nests};
ghost use Rattle.parse_words.specs.Reads.{from, reading, Reads};

use crate::reader::Reader;
use crate::starts::{Opening, Start};
use parse_words::cursor::{Read, expect};
use parse_words::marks::Mark;
use parse_words::saying::name_of;
use sql_ast::{Expr, Query, Reserved, Sign};
use sql_nodes::expr_nodes;
use sql_types::Boxed;

impl<
    'a,
    E: Fn(usize, Start) -> Read<Boxed<Expr>>,
    Q: Fn(usize, Opening) -> Read<Boxed<Query>>,
> Reader<'a, E, Q> {
    /// `EXTRACT "(" name FROM expr ")"`
    #[tactic(auto, unfolding(sql_grammar::specs::Exprs::extract))]
    pub fn extract(&self, at: usize) -> Read<Boxed<Expr>>
        requires below { Nests self.now.tokens.now self.now.from (E.pre self.now.inner) (E.post self.now.inner) (Q.pre self.now.query) (Q.post self.now.query) }
        requires after { self.now.from ≤ at }
        ensures reads { Reads self.now.tokens.now (reading self.now.tokens.now exprs.extract (from self.now.tokens.now at)) result }
        ensures moves { IfOk result (λ p. at < p.1) }
    {
        let (word, at) = expect(self.tokens, at, Mark::Reserved(Reserved::Extract))?;
        let (_, at) = expect(self.tokens, at, Mark::Sign(Sign::OpenRound))?;
        let (token, at) = expect(self.tokens, at, Mark::Name)?;
        let (_, at) = expect(self.tokens, at, Mark::Reserved(Reserved::From))?;
        let (expr, at) = self.deeper(at)?;
        let (_, at) = expect(self.tokens, at, Mark::Sign(Sign::CloseRound))?;
        let part = name_of(self.alloc, token)?;
        let place = word.start;
        Ok((expr_nodes::extract(self.alloc, part, expr, place)?, at))
    }

    /// `GROUPING "(" expr ")"`
    #[tactic(auto, unfolding(sql_grammar::specs::Exprs::grouping))]
    pub fn grouping(&self, at: usize) -> Read<Boxed<Expr>>
        requires below { Nests self.now.tokens.now self.now.from (E.pre self.now.inner) (E.post self.now.inner) (Q.pre self.now.query) (Q.post self.now.query) }
        requires after { self.now.from ≤ at }
        ensures reads { Reads self.now.tokens.now (reading self.now.tokens.now exprs.grouping (from self.now.tokens.now at)) result }
        ensures moves { IfOk result (λ p. at < p.1) }
    {
        let (word, at) = expect(self.tokens, at, Mark::Reserved(Reserved::Grouping))?;
        let (argument, at) = self.bracketed(at)?;
        let place = word.start;
        Ok((expr_nodes::grouping(self.alloc, argument, place)?, at))
    }

    /// `EXISTS "(" query ")"`
    #[tactic(auto, unfolding(sql_grammar::specs::Exprs::exists))]
    pub fn exists(&self, at: usize) -> Read<Boxed<Expr>>
        requires below { Nests self.now.tokens.now self.now.from (E.pre self.now.inner) (E.post self.now.inner) (Q.pre self.now.query) (Q.post self.now.query) }
        requires after { self.now.from ≤ at }
        ensures reads { Reads self.now.tokens.now (reading self.now.tokens.now exprs.exists (from self.now.tokens.now at)) result }
        ensures moves { IfOk result (λ p. at < p.1) }
    {
        let (word, at) = expect(self.tokens, at, Mark::Reserved(Reserved::Exists))?;
        let ((query, open_place), at) = self.bracketed_query(at)?;
        let place = word.start;
        Ok((expr_nodes::exists(self.alloc, query, place)?, at))
    }
}
