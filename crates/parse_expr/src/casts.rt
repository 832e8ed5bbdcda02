//! CAST, SAFE_CAST, and what is called by a name.
ghost use Rattle.std.specs.Prelude.{◌<◌, ◌≤◌, IfOk};
ghost use Rattle.sql_grammar.specs.Exprs as exprs;
ghost use Rattle.parse_expr.specs.Steps.{followed};
ghost use Rattle.parse_expr.specs.Nests.{Nests};
ghost use Rattle.parse_words.specs.Reads.{from, reading, Reads};

use crate::beginnings::{ArgumentsStart, arguments_start};
use crate::reader::Reader;
use crate::starts::{Opening, Start};
use parse_words::cursor::{Read, expect, sees};
use parse_words::marks::Mark;
use parse_words::takes::is_word;
use parse_words::types::whole_type;
use sql_ast::{Arg, Expr, Query, Reserved, Sign, Token, Word};
use sql_nodes::{expr_nodes, part_nodes};
use sql_types::Boxed;

impl<
    'a,
    E: Fn(usize, Start) -> Read<Boxed<Expr>>,
    Q: Fn(usize, Opening) -> Read<Boxed<Query>>,
> Reader<'a, E, Q> {
    /// `AS type ")"` of a cast that begins at this byte.
    #[tactic(auto, unfolding(sql_grammar::specs::Exprs::cast_end))]
    pub fn cast_end(
        &self,
        at: usize,
        safe: bool,
        place: u64,
        expr: Boxed<Expr>,
    ) -> Read<Boxed<Expr>>
        requires below { Nests self.now.tokens.now self.now.from (E.pre self.now.inner) (E.post self.now.inner) (Q.pre self.now.query) (Q.post self.now.query) }
        requires after { self.now.from ≤ at }
        ensures reads { Reads self.now.tokens.now (reading self.now.tokens.now exprs.cast_end safe place expr (from self.now.tokens.now at)) result }
        ensures moves { IfOk result (λ p. at < p.1) }
    {
        let (_, at) = expect(self.tokens, at, Mark::Reserved(Reserved::As))?;
        let (ty, at) = whole_type(self.alloc, self.tokens, at)?;
        let (_, at) = expect(self.tokens, at, Mark::Sign(Sign::CloseRound))?;
        Ok((expr_nodes::cast(self.alloc, safe, expr, ty, place)?, at))
    }

    /// `CAST "(" expr AS type ")"`
    #[tactic(auto, unfolding(sql_grammar::specs::Exprs::cast))]
    pub fn cast(&self, at: usize) -> Read<Boxed<Expr>>
        requires below { Nests self.now.tokens.now self.now.from (E.pre self.now.inner) (E.post self.now.inner) (Q.pre self.now.query) (Q.post self.now.query) }
        requires after { self.now.from ≤ at }
        ensures reads { Reads self.now.tokens.now (reading self.now.tokens.now exprs.cast (from self.now.tokens.now at)) result }
        ensures moves { IfOk result (λ p. at < p.1) }
    {
        let (word, at) = expect(self.tokens, at, Mark::Reserved(Reserved::Cast))?;
        let (_, at) = expect(self.tokens, at, Mark::Sign(Sign::OpenRound))?;
        let (expr, at) = self.deeper(at)?;
        self.cast_end(at, false, word.start, expr)
    }

    /// The rest of a call behind its first argument.
    #[tactic(auto, unfolding(sql_grammar::specs::Exprs::call_from))]
    pub fn call_from(&self, at: usize, name: &Token, first: Boxed<Arg<Expr>>) -> Read<Boxed<Expr>>
        requires below { Nests self.now.tokens.now self.now.from (E.pre self.now.inner) (E.post self.now.inner) (Q.pre self.now.query) (Q.post self.now.query) }
        requires after { self.now.from ≤ at }
        ensures reads { Reads self.now.tokens.now (reading self.now.tokens.now exprs.call_from name.now first (from self.now.tokens.now at)) result }
        ensures moves { IfOk result (λ p. at < p.1) }
    {
        let (arguments, at) = self.arguments_from(at, first)?;
        let (call, at) = self.call_tail(at, name, false, false, arguments)?;
        let place = name.start;
        Ok((expr_nodes::call(self.alloc, call, place)?, at))
    }

    /// SAFE_CAST behind its first argument: AS makes it a cast.
    pub fn cast_or_call(
        &self,
        at: usize,
        name: &Token,
        first: Boxed<Arg<Expr>>,
    ) -> Read<Boxed<Expr>>
        requires below { Nests self.now.tokens.now self.now.from (E.pre self.now.inner) (E.post self.now.inner) (Q.pre self.now.query) (Q.post self.now.query) }
        requires after { self.now.from ≤ at }
        ensures reads { Reads self.now.tokens.now (reading self.now.tokens.now exprs.cast_or_call name.now first (from self.now.tokens.now at)) result }
        ensures moves { IfOk result (λ p. at < p.1) }
    {
        match first.into_inner() {
            Arg::Expr { expr } => {
                let boxed = Boxed::new(self.alloc, expr)?;
                if sees(self.tokens, at, Mark::Reserved(Reserved::As)) {
                    self.cast_end(at, true, name.start, boxed)
                } else {
                    self.call_from(at, name, part_nodes::arg_expr(self.alloc, boxed)?)
                }
            }
            Arg::Lambda {
                variables,
                body,
                place,
            } => {
                let boxed = Boxed::new(self.alloc, body)?;
                self.call_from(
                    at,
                    name,
                    part_nodes::arg_lambda(self.alloc, variables, boxed, place)?,
                )
            }
            Arg::Interval {
                amount,
                part,
                place,
            } => {
                let boxed = Boxed::new(self.alloc, amount)?;
                self.call_from(
                    at,
                    name,
                    part_nodes::arg_interval(self.alloc, boxed, part, place)?,
                )
            }
        }
    }

    /// SAFE_CAST from its first argument on.
    pub fn safe_cast_argument(&self, at: usize, name: &Token) -> Read<Boxed<Expr>>
        requires below { Nests self.now.tokens.now self.now.from (E.pre self.now.inner) (E.post self.now.inner) (Q.pre self.now.query) (Q.post self.now.query) }
        requires after { self.now.from < at }
        ensures reads { Reads self.now.tokens.now (followed (reading self.now.tokens.now exprs.argument) (reading self.now.tokens.now exprs.cast_or_call name.now) (from self.now.tokens.now at)) result }
        ensures moves { IfOk result (λ p. at < p.1) }
    {
        let (first, at) = self.argument(at)?;
        self.cast_or_call(at, name, first)
    }

    /// SAFE_CAST behind its bracket. Without AS it is a call like any other.
    #[tactic(auto, unfolding(sql_grammar::specs::Exprs::safe_cast))]
    pub fn safe_cast(&self, at: usize, name: &Token) -> Read<Boxed<Expr>>
        requires below { Nests self.now.tokens.now self.now.from (E.pre self.now.inner) (E.post self.now.inner) (Q.pre self.now.query) (Q.post self.now.query) }
        requires after { self.now.from < at }
        ensures reads { Reads self.now.tokens.now (reading self.now.tokens.now exprs.safe_cast name.now (from self.now.tokens.now at)) result }
        ensures moves { IfOk result (λ p. at < p.1) }
    {
        if sees(self.tokens, at, Mark::Reserved(Reserved::Distinct)) {
            return self.call_whole(at, name);
        }
        match arguments_start(self.tokens, at) {
            ArgumentsStart::Star => self.call_whole(at, name),
            ArgumentsStart::Nothing => self.call_whole(at, name),
            ArgumentsStart::Argument => self.safe_cast_argument(at, name),
        }
    }

    /// A name before a bracket.
    #[tactic(auto, unfolding(sql_grammar::specs::Exprs::called))]
    pub fn called(&self, at: usize, name: &Token) -> Read<Boxed<Expr>>
        requires below { Nests self.now.tokens.now self.now.from (E.pre self.now.inner) (E.post self.now.inner) (Q.pre self.now.query) (Q.post self.now.query) }
        requires after { self.now.from ≤ at }
        ensures reads { Reads self.now.tokens.now (reading self.now.tokens.now exprs.called name.now (from self.now.tokens.now at)) result }
        ensures moves { IfOk result (λ p. at < p.1) }
    {
        let (_, at) = expect(self.tokens, at, Mark::Sign(Sign::OpenRound))?;
        if is_word(name, Word::SafeCast) {
            self.safe_cast(at, name)
        } else {
            self.call_whole(at, name)
        }
    }
}
