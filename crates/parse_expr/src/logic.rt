//! NOT, AND and OR.
ghost use Rattle.std.specs.Prelude.{◌≡◌, ◌<◌, ◌≤◌, IfOk, []};
ghost use Rattle.fronts.specs.Readers.{many};
ghost use Rattle.sql_names.specs.declared.words.Reserved.TheVariants as r;
ghost use Rattle.sql_ast.specs.declared.expr.Operator.TheVariants as operator;
ghost use Rattle.sql_ast.specs.Marks as spec;
ghost use Rattle.sql_ast.specs.Trees as trees;
ghost use Rattle.sql_grammar.specs.Exprs as exprs;
ghost use Rattle.parse_expr.specs.Nests.{Nests};
ghost use Rattle.parse_words.specs.Reads.{from, reading, turns, Reads};

use crate::chains::{Operation, link, link_up};
use crate::reader::Reader;
use crate::starts::{Opening, Start};
use parse_words::cursor::{Read, expect, start_at};
use parse_words::marks::Mark;
use parse_words::repeat::{many, many_boxed};
use sql_ast::{Expr, Link, Operator, Query, Reserved};
use sql_lexer::Tokens;
use sql_nodes::expr_nodes;
use sql_types::{Boxed, Items, OutOfMemory};
use std::alloc::Global;

/// The place of a NOT.
#[tactic(auto, unfolding(sql_grammar::specs::Exprs::not_place))]
fn not_place(tokens: &Tokens, at: usize) -> Read<u64>
    ensures reads { Reads tokens.now (exprs.not_place (from tokens.now at)) result }
    ensures moves { IfOk result (λ p. at < p.1) }
{
    let (token, at) = expect(tokens, at, Mark::Reserved(Reserved::Not))?;
    Ok((token.start, at))
}

/// The places of the NOTs before an operand.
pub fn not_run(alloc: Global, tokens: &Tokens, at: usize) -> Read<Items<u64>>
    ensures reads { Reads tokens.now (many (spec.reserved r.Not) exprs.not_place (turns tokens.now) [] (from tokens.now at)) result }
    ensures moves { IfOk result (λ p. at ≤ p.1) }
{
    many(
        tokens,
        at,
        Mark::Reserved(Reserved::Not),
        Items::new(alloc),
        |place| not_place(tokens, place),
    )
}

/// A run of no NOT is its operand.
#[tactic(auto, unfolding(sql_ast::specs::Trees::nots))]
pub fn negated(
    alloc: Global,
    operators: Items<u64>,
    operand: Boxed<Expr>,
) -> Result<Boxed<Expr>, OutOfMemory>
    ensures { IfOk result (λ a. a ≡ trees.nots operators operand) }
{
    let Some(first) = operators.as_slice().first() else {
        return Ok(operand);
    };
    let place = *first;
    expr_nodes::not(alloc, operators, operand, place)
}

impl<
    'a,
    E: Fn(usize, Start) -> Read<Boxed<Expr>>,
    Q: Fn(usize, Opening) -> Read<Boxed<Query>>,
> Reader<'a, E, Q> {
    /// `{NOT} comp`
    #[tactic(auto, unfolding(sql_grammar::specs::Exprs::negation))]
    pub fn negation(&self, at: usize) -> Read<Boxed<Expr>>
        requires below { Nests self.now.tokens.now self.now.from (E.pre self.now.inner) (E.post self.now.inner) (Q.pre self.now.query) (Q.post self.now.query) }
        requires after { self.now.from ≤ at }
        ensures reads { Reads self.now.tokens.now (reading self.now.tokens.now exprs.negation (from self.now.tokens.now at)) result }
        ensures moves { IfOk result (λ p. at < p.1) }
    {
        let (operators, at) = not_run(self.alloc, self.tokens, at)?;
        let (operand, at) = self.comparison(at)?;
        Ok((negated(self.alloc, operators, operand)?, at))
    }

    /// An operator of a conjunction, and its operand.
    #[tactic(auto, unfolding(sql_grammar::specs::Exprs::linked))]
    pub fn conjunction_link(&self, at: usize) -> Read<Boxed<Link<Expr>>>
        requires below { Nests self.now.tokens.now self.now.from (E.pre self.now.inner) (E.post self.now.inner) (Q.pre self.now.query) (Q.post self.now.query) }
        requires after { self.now.from ≤ at }
        ensures reads { Reads self.now.tokens.now (exprs.linked (spec.reserved r.And) (λ t. operator.And) (reading self.now.tokens.now exprs.negation) (from self.now.tokens.now at)) result }
        ensures moves { IfOk result (λ p. at < p.1) }
    {
        let (token, at) = expect(self.tokens, at, Mark::Reserved(Reserved::And))?;
        let (operand, at) = self.negation(at)?;
        let operator = Operator::And;
        Ok((link(self.alloc, operator, token, operand)?, at))
    }

    /// A conjunction behind what was found of them.
    pub fn conjunction_links(&self, at: usize, found: Items<Link<Expr>>) -> Read<Items<Link<Expr>>>
        requires below { Nests self.now.tokens.now self.now.from (E.pre self.now.inner) (E.post self.now.inner) (Q.pre self.now.query) (Q.post self.now.query) }
        requires after { self.now.from ≤ at }
        ensures reads { Reads self.now.tokens.now (many (spec.reserved r.And) (exprs.linked (spec.reserved r.And) (λ t. operator.And) (reading self.now.tokens.now exprs.negation)) (turns self.now.tokens.now) found (from self.now.tokens.now at)) result }
        ensures moves { IfOk result (λ p. at ≤ p.1) }
        ensures stays { IfOk result (λ p. p.1 ≡ at → p.0 ≡ found) }
    {
        many_boxed(
            self.tokens,
            at,
            Mark::Reserved(Reserved::And),
            found,
            |place| self.conjunction_link(place),
        )
    }

    /// The rest of a conjunction whose first operand begins at this byte.
    #[tactic(auto, unfolding(sql_grammar::specs::Exprs::conjunction_from, sql_grammar::specs::Exprs::chain_from, sql_ast::specs::Trees::chain))]
    pub fn conjunction_from(&self, at: usize, place: u64, first: Boxed<Expr>) -> Read<Boxed<Expr>>
        requires below { Nests self.now.tokens.now self.now.from (E.pre self.now.inner) (E.post self.now.inner) (Q.pre self.now.query) (Q.post self.now.query) }
        requires after { self.now.from ≤ at }
        ensures reads { Reads self.now.tokens.now (reading self.now.tokens.now exprs.conjunction_from place first (from self.now.tokens.now at)) result }
        ensures moves { IfOk result (λ p. at ≤ p.1) }
        ensures stays { IfOk result (λ p. p.1 ≡ at → p.0 ≡ first) }
    {
        let (rest, at) = self.conjunction_links(at, Items::new(self.alloc))?;
        Ok((link_up(self.alloc, Operation::And, first, rest, place)?, at))
    }

    /// `neg {AND neg}`
    #[tactic(auto, unfolding(sql_grammar::specs::Exprs::conjunction))]
    pub fn conjunction(&self, at: usize) -> Read<Boxed<Expr>>
        requires below { Nests self.now.tokens.now self.now.from (E.pre self.now.inner) (E.post self.now.inner) (Q.pre self.now.query) (Q.post self.now.query) }
        requires after { self.now.from ≤ at }
        ensures reads { Reads self.now.tokens.now (reading self.now.tokens.now exprs.conjunction (from self.now.tokens.now at)) result }
        ensures moves { IfOk result (λ p. at < p.1) }
    {
        let place = start_at(self.tokens, at);
        let (first, at) = self.negation(at)?;
        self.conjunction_from(at, place, first)
    }

    /// An operator of a disjunction, and its operand.
    #[tactic(auto, unfolding(sql_grammar::specs::Exprs::linked))]
    pub fn disjunction_link(&self, at: usize) -> Read<Boxed<Link<Expr>>>
        requires below { Nests self.now.tokens.now self.now.from (E.pre self.now.inner) (E.post self.now.inner) (Q.pre self.now.query) (Q.post self.now.query) }
        requires after { self.now.from ≤ at }
        ensures reads { Reads self.now.tokens.now (exprs.linked (spec.reserved r.Or) (λ t. operator.Or) (reading self.now.tokens.now exprs.conjunction) (from self.now.tokens.now at)) result }
        ensures moves { IfOk result (λ p. at < p.1) }
    {
        let (token, at) = expect(self.tokens, at, Mark::Reserved(Reserved::Or))?;
        let (operand, at) = self.conjunction(at)?;
        let operator = Operator::Or;
        Ok((link(self.alloc, operator, token, operand)?, at))
    }

    /// A disjunction behind what was found of them.
    pub fn disjunction_links(&self, at: usize, found: Items<Link<Expr>>) -> Read<Items<Link<Expr>>>
        requires below { Nests self.now.tokens.now self.now.from (E.pre self.now.inner) (E.post self.now.inner) (Q.pre self.now.query) (Q.post self.now.query) }
        requires after { self.now.from ≤ at }
        ensures reads { Reads self.now.tokens.now (many (spec.reserved r.Or) (exprs.linked (spec.reserved r.Or) (λ t. operator.Or) (reading self.now.tokens.now exprs.conjunction)) (turns self.now.tokens.now) found (from self.now.tokens.now at)) result }
        ensures moves { IfOk result (λ p. at ≤ p.1) }
        ensures stays { IfOk result (λ p. p.1 ≡ at → p.0 ≡ found) }
    {
        many_boxed(
            self.tokens,
            at,
            Mark::Reserved(Reserved::Or),
            found,
            |place| self.disjunction_link(place),
        )
    }

    /// The rest of a disjunction whose first operand begins at this byte.
    #[tactic(auto, unfolding(sql_grammar::specs::Exprs::disjunction_from, sql_grammar::specs::Exprs::chain_from, sql_ast::specs::Trees::chain))]
    pub fn disjunction_from(&self, at: usize, place: u64, first: Boxed<Expr>) -> Read<Boxed<Expr>>
        requires below { Nests self.now.tokens.now self.now.from (E.pre self.now.inner) (E.post self.now.inner) (Q.pre self.now.query) (Q.post self.now.query) }
        requires after { self.now.from ≤ at }
        ensures reads { Reads self.now.tokens.now (reading self.now.tokens.now exprs.disjunction_from place first (from self.now.tokens.now at)) result }
        ensures moves { IfOk result (λ p. at ≤ p.1) }
        ensures stays { IfOk result (λ p. p.1 ≡ at → p.0 ≡ first) }
    {
        let (rest, at) = self.disjunction_links(at, Items::new(self.alloc))?;
        Ok((link_up(self.alloc, Operation::Or, first, rest, place)?, at))
    }

    /// `expr`: `conj {OR conj}`
    #[tactic(auto, unfolding(sql_grammar::specs::Exprs::disjunction))]
    pub fn disjunction(&self, at: usize) -> Read<Boxed<Expr>>
        requires below { Nests self.now.tokens.now self.now.from (E.pre self.now.inner) (E.post self.now.inner) (Q.pre self.now.query) (Q.post self.now.query) }
        requires after { self.now.from ≤ at }
        ensures reads { Reads self.now.tokens.now (reading self.now.tokens.now exprs.disjunction (from self.now.tokens.now at)) result }
        ensures moves { IfOk result (λ p. at < p.1) }
    {
        let place = start_at(self.tokens, at);
        let (first, at) = self.conjunction(at)?;
        self.disjunction_from(at, place, first)
    }
}
