//! Calls of functions and aggregates.
ghost use Rattle.std.specs.Prelude.{◌<◌, ◌≤◌, IfOk};
ghost use Rattle.fronts.specs.Readers.{pure};
ghost use Rattle.sql_ast.specs.declared.expr.Expr.TheVariants as e;
ghost use Rattle.sql_grammar.specs.Exprs as exprs;
ghost use Rattle.parse_expr.specs.Steps.{followed};
ghost use Rattle.parse_expr.specs.Nests.{Nests};
ghost use Rattle.parse_words.specs.Reads.{from, reading, Reads};

use crate::reader::Reader;
use crate::starts::{Opening, Start};
use parse_words::cursor::{Read, expect};
use parse_words::marks::Mark;
use parse_words::options::{call_limit, distinct, nulls_part};
use parse_words::saying::function_of;
use sql_ast::{Arg, Call, Expr, Query, Sign, Token};
use sql_nodes::{expr_nodes, part_nodes};
use sql_types::{Boxed, Items};

impl<
    'a,
    E: Fn(usize, Start) -> Read<Boxed<Expr>>,
    Q: Fn(usize, Opening) -> Read<Boxed<Query>>,
> Reader<'a, E, Q> {
    /// The rest of a call of this function behind its arguments, and the bracket that closes it.
    #[tactic(auto, unfolding(sql_grammar::specs::Exprs::call_tail))]
    pub fn call_tail(
        &self,
        at: usize,
        name: &Token,
        distinct: bool,
        star: bool,
        arguments: Items<Arg<Expr>>,
    ) -> Read<Boxed<Call<Expr>>>
        requires below { Nests self.now.tokens.now self.now.from (E.pre self.now.inner) (E.post self.now.inner) (Q.pre self.now.query) (Q.post self.now.query) }
        requires after { self.now.from ≤ at }
        ensures reads { Reads self.now.tokens.now (reading self.now.tokens.now exprs.call_tail name.now distinct star arguments (from self.now.tokens.now at)) result }
        ensures moves { IfOk result (λ p. at < p.1) }
    {
        let (nulls, at) = nulls_part(self.tokens, at)?;
        let (order, at) = self.order(at)?;
        let (limit, at) = call_limit(self.tokens, at)?;
        let (_, at) = expect(self.tokens, at, Mark::Sign(Sign::CloseRound))?;
        let function = function_of(self.alloc, name)?;
        let place = name.start;
        let call = part_nodes::call(
            self.alloc, function, distinct, star, arguments, nulls, order, limit, place,
        )?;
        Ok((call, at))
    }

    /// The rest of a call of this function behind the bracket that opens it.
    #[tactic(auto, unfolding(sql_grammar::specs::Exprs::call_body))]
    pub fn call_body(&self, at: usize, name: &Token) -> Read<Boxed<Call<Expr>>>
        requires below { Nests self.now.tokens.now self.now.from (E.pre self.now.inner) (E.post self.now.inner) (Q.pre self.now.query) (Q.post self.now.query) }
        requires after { self.now.from < at }
        ensures reads { Reads self.now.tokens.now (reading self.now.tokens.now exprs.call_body name.now (from self.now.tokens.now at)) result }
        ensures moves { IfOk result (λ p. at < p.1) }
    {
        let (distinct, at) = distinct(self.tokens, at)?;
        let ((star, arguments), at) = self.arguments(at)?;
        self.call_tail(at, name, distinct, star, arguments)
    }

    /// The same from that bracket on.
    #[tactic(auto, unfolding(sql_grammar::specs::Exprs::call_of))]
    pub fn call_of(&self, at: usize, name: &Token) -> Read<Boxed<Call<Expr>>>
        requires below { Nests self.now.tokens.now self.now.from (E.pre self.now.inner) (E.post self.now.inner) (Q.pre self.now.query) (Q.post self.now.query) }
        requires after { self.now.from ≤ at }
        ensures reads { Reads self.now.tokens.now (reading self.now.tokens.now exprs.call_of name.now (from self.now.tokens.now at)) result }
        ensures moves { IfOk result (λ p. at < p.1) }
    {
        let (_, at) = expect(self.tokens, at, Mark::Sign(Sign::OpenRound))?;
        self.call_body(at, name)
    }

    /// A whole call.
    #[tactic(auto, unfolding(sql_grammar::specs::Exprs::call))]
    pub fn call(&self, at: usize) -> Read<Boxed<Call<Expr>>>
        requires below { Nests self.now.tokens.now self.now.from (E.pre self.now.inner) (E.post self.now.inner) (Q.pre self.now.query) (Q.post self.now.query) }
        requires after { self.now.from ≤ at }
        ensures reads { Reads self.now.tokens.now (reading self.now.tokens.now exprs.call (from self.now.tokens.now at)) result }
        ensures moves { IfOk result (λ p. at < p.1) }
    {
        let (name, at) = expect(self.tokens, at, Mark::Function)?;
        self.call_of(at, name)
    }

    /// A call behind the bracket that opens it, as an expression.
    pub fn call_whole(&self, at: usize, name: &Token) -> Read<Boxed<Expr>>
        requires below { Nests self.now.tokens.now self.now.from (E.pre self.now.inner) (E.post self.now.inner) (Q.pre self.now.query) (Q.post self.now.query) }
        requires after { self.now.from < at }
        ensures reads { Reads self.now.tokens.now (followed (reading self.now.tokens.now exprs.call_body name.now) (λ k. pure (e.Call k name.now.start)) (from self.now.tokens.now at)) result }
        ensures moves { IfOk result (λ p. at < p.1) }
    {
        let (call, at) = self.call_body(at, name)?;
        let place = name.start;
        Ok((expr_nodes::call(self.alloc, call, place)?, at))
    }
}
