//! Prefixes, products and sums.
ghost use Rattle.std.specs.Prelude.{◌≡◌, ◌<◌, ◌≤◌, IfOk, []};
ghost use Rattle.fronts.specs.Readers.{many};
ghost use Rattle.sql_ast.specs.declared.expr.Operator.TheVariants as operator;
ghost use Rattle.sql_ast.specs.Trees as trees;
ghost use Rattle.sql_grammar.specs.Exprs as exprs;
ghost use Rattle.parse_expr.specs.Nests.{Nests};
ghost use Rattle.parse_words.specs.Reads.{from, reading, turns, Reads};

use crate::chains::{Operation, link, link_up};
use crate::reader::Reader;
use crate::starts::{Opening, Start};
use parse_words::cursor::{Read, expect, start_at};
use parse_words::marks::Mark;
use parse_words::repeat::{many, many_boxed};
use parse_words::telling::{told_prefix, told_product, told_sum};
use sql_ast::{Expr, Link, Prefix, Query};
use sql_lexer::Tokens;
use sql_nodes::expr_nodes;
use sql_types::{Boxed, Items, OutOfMemory};
use std::alloc::Global;

/// A prefix operator.
#[tactic(auto, unfolding(sql_grammar::specs::Exprs::prefix))]
fn prefix(tokens: &Tokens, at: usize) -> Read<Prefix>
    ensures reads { Reads tokens.now (exprs.prefix (from tokens.now at)) result }
    ensures moves { IfOk result (λ p. at < p.1) }
{
    let (token, at) = expect(tokens, at, Mark::Prefix)?;
    let operator = told_prefix(token);
    let place = token.start;
    Ok((Prefix { operator, place }, at))
}

/// The prefix operators before an operand.
pub fn prefix_run(alloc: Global, tokens: &Tokens, at: usize) -> Read<Items<Prefix>>
    ensures reads { Reads tokens.now (many (exprs.tells trees.prefix_of) exprs.prefix (turns tokens.now) [] (from tokens.now at)) result }
    ensures moves { IfOk result (λ p. at ≤ p.1) }
{
    many(
        tokens,
        at,
        Mark::Prefix,
        Items::new(alloc),
        |place| prefix(tokens, place),
    )
}

/// A run of no prefix is its operand.
#[tactic(auto, unfolding(sql_ast::specs::Trees::prefixes))]
pub fn prefixed(
    alloc: Global,
    operators: Items<Prefix>,
    operand: Boxed<Expr>,
) -> Result<Boxed<Expr>, OutOfMemory>
    ensures { IfOk result (λ a. a ≡ trees.prefixes operators operand) }
{
    let Some(first) = operators.as_slice().first() else {
        return Ok(operand);
    };
    let place = first.place;
    expr_nodes::unary(alloc, operators, operand, place)
}

impl<
    'a,
    E: Fn(usize, Start) -> Read<Boxed<Expr>>,
    Q: Fn(usize, Opening) -> Read<Boxed<Query>>,
> Reader<'a, E, Q> {
    /// `{"+" | "-" | "~"} postfix`
    #[tactic(auto, unfolding(sql_grammar::specs::Exprs::unary))]
    pub fn unary(&self, at: usize) -> Read<Boxed<Expr>>
        requires below { Nests self.now.tokens.now self.now.from (E.pre self.now.inner) (E.post self.now.inner) (Q.pre self.now.query) (Q.post self.now.query) }
        requires after { self.now.from ≤ at }
        ensures reads { Reads self.now.tokens.now (reading self.now.tokens.now exprs.unary (from self.now.tokens.now at)) result }
        ensures moves { IfOk result (λ p. at < p.1) }
    {
        let (operators, at) = prefix_run(self.alloc, self.tokens, at)?;
        let (operand, at) = self.postfix(at)?;
        Ok((prefixed(self.alloc, operators, operand)?, at))
    }

    /// An operator of a product, and its operand.
    #[tactic(auto, unfolding(sql_grammar::specs::Exprs::linked))]
    pub fn product_link(&self, at: usize) -> Read<Boxed<Link<Expr>>>
        requires below { Nests self.now.tokens.now self.now.from (E.pre self.now.inner) (E.post self.now.inner) (Q.pre self.now.query) (Q.post self.now.query) }
        requires after { self.now.from ≤ at }
        ensures reads { Reads self.now.tokens.now (exprs.linked (exprs.tells trees.product_of) (exprs.told operator.Multiply trees.product_of) (reading self.now.tokens.now exprs.unary) (from self.now.tokens.now at)) result }
        ensures moves { IfOk result (λ p. at < p.1) }
    {
        let (token, at) = expect(self.tokens, at, Mark::Product)?;
        let (operand, at) = self.unary(at)?;
        let operator = told_product(token);
        Ok((link(self.alloc, operator, token, operand)?, at))
    }

    /// A product behind what was found of them.
    pub fn product_links(&self, at: usize, found: Items<Link<Expr>>) -> Read<Items<Link<Expr>>>
        requires below { Nests self.now.tokens.now self.now.from (E.pre self.now.inner) (E.post self.now.inner) (Q.pre self.now.query) (Q.post self.now.query) }
        requires after { self.now.from ≤ at }
        ensures reads { Reads self.now.tokens.now (many (exprs.tells trees.product_of) (exprs.linked (exprs.tells trees.product_of) (exprs.told operator.Multiply trees.product_of) (reading self.now.tokens.now exprs.unary)) (turns self.now.tokens.now) found (from self.now.tokens.now at)) result }
        ensures moves { IfOk result (λ p. at ≤ p.1) }
        ensures stays { IfOk result (λ p. p.1 ≡ at → p.0 ≡ found) }
    {
        many_boxed(
            self.tokens,
            at,
            Mark::Product,
            found,
            |place| self.product_link(place),
        )
    }

    /// The rest of a product whose first operand begins at this byte.
    #[tactic(auto, unfolding(sql_grammar::specs::Exprs::product_from, sql_grammar::specs::Exprs::chain_from, sql_ast::specs::Trees::chain))]
    pub fn product_from(&self, at: usize, place: u64, first: Boxed<Expr>) -> Read<Boxed<Expr>>
        requires below { Nests self.now.tokens.now self.now.from (E.pre self.now.inner) (E.post self.now.inner) (Q.pre self.now.query) (Q.post self.now.query) }
        requires after { self.now.from ≤ at }
        ensures reads { Reads self.now.tokens.now (reading self.now.tokens.now exprs.product_from place first (from self.now.tokens.now at)) result }
        ensures moves { IfOk result (λ p. at ≤ p.1) }
        ensures stays { IfOk result (λ p. p.1 ≡ at → p.0 ≡ first) }
    {
        let (rest, at) = self.product_links(at, Items::new(self.alloc))?;
        Ok((
            link_up(self.alloc, Operation::Product, first, rest, place)?,
            at,
        ))
    }

    /// `unary {("*" | "||") unary}`
    #[tactic(auto, unfolding(sql_grammar::specs::Exprs::product))]
    pub fn product(&self, at: usize) -> Read<Boxed<Expr>>
        requires below { Nests self.now.tokens.now self.now.from (E.pre self.now.inner) (E.post self.now.inner) (Q.pre self.now.query) (Q.post self.now.query) }
        requires after { self.now.from ≤ at }
        ensures reads { Reads self.now.tokens.now (reading self.now.tokens.now exprs.product (from self.now.tokens.now at)) result }
        ensures moves { IfOk result (λ p. at < p.1) }
    {
        let place = start_at(self.tokens, at);
        let (first, at) = self.unary(at)?;
        self.product_from(at, place, first)
    }

    /// An operator of a sum, and its operand.
    #[tactic(auto, unfolding(sql_grammar::specs::Exprs::linked))]
    pub fn sum_link(&self, at: usize) -> Read<Boxed<Link<Expr>>>
        requires below { Nests self.now.tokens.now self.now.from (E.pre self.now.inner) (E.post self.now.inner) (Q.pre self.now.query) (Q.post self.now.query) }
        requires after { self.now.from ≤ at }
        ensures reads { Reads self.now.tokens.now (exprs.linked (exprs.tells trees.sum_of) (exprs.told operator.Add trees.sum_of) (reading self.now.tokens.now exprs.product) (from self.now.tokens.now at)) result }
        ensures moves { IfOk result (λ p. at < p.1) }
    {
        let (token, at) = expect(self.tokens, at, Mark::Sum)?;
        let (operand, at) = self.product(at)?;
        let operator = told_sum(token);
        Ok((link(self.alloc, operator, token, operand)?, at))
    }

    /// A sum behind what was found of them.
    pub fn sum_links(&self, at: usize, found: Items<Link<Expr>>) -> Read<Items<Link<Expr>>>
        requires below { Nests self.now.tokens.now self.now.from (E.pre self.now.inner) (E.post self.now.inner) (Q.pre self.now.query) (Q.post self.now.query) }
        requires after { self.now.from ≤ at }
        ensures reads { Reads self.now.tokens.now (many (exprs.tells trees.sum_of) (exprs.linked (exprs.tells trees.sum_of) (exprs.told operator.Add trees.sum_of) (reading self.now.tokens.now exprs.product)) (turns self.now.tokens.now) found (from self.now.tokens.now at)) result }
        ensures moves { IfOk result (λ p. at ≤ p.1) }
        ensures stays { IfOk result (λ p. p.1 ≡ at → p.0 ≡ found) }
    {
        many_boxed(
            self.tokens,
            at,
            Mark::Sum,
            found,
            |place| self.sum_link(place),
        )
    }

    /// The rest of a sum whose first operand begins at this byte.
    #[tactic(auto, unfolding(sql_grammar::specs::Exprs::sum_from, sql_grammar::specs::Exprs::chain_from, sql_ast::specs::Trees::chain))]
    pub fn sum_from(&self, at: usize, place: u64, first: Boxed<Expr>) -> Read<Boxed<Expr>>
        requires below { Nests self.now.tokens.now self.now.from (E.pre self.now.inner) (E.post self.now.inner) (Q.pre self.now.query) (Q.post self.now.query) }
        requires after { self.now.from ≤ at }
        ensures reads { Reads self.now.tokens.now (reading self.now.tokens.now exprs.sum_from place first (from self.now.tokens.now at)) result }
        ensures moves { IfOk result (λ p. at ≤ p.1) }
        ensures stays { IfOk result (λ p. p.1 ≡ at → p.0 ≡ first) }
    {
        let (rest, at) = self.sum_links(at, Items::new(self.alloc))?;
        Ok((link_up(self.alloc, Operation::Sum, first, rest, place)?, at))
    }

    /// `product {("+" | "-") product}`
    #[tactic(auto, unfolding(sql_grammar::specs::Exprs::sum))]
    pub fn sum(&self, at: usize) -> Read<Boxed<Expr>>
        requires below { Nests self.now.tokens.now self.now.from (E.pre self.now.inner) (E.post self.now.inner) (Q.pre self.now.query) (Q.post self.now.query) }
        requires after { self.now.from ≤ at }
        ensures reads { Reads self.now.tokens.now (reading self.now.tokens.now exprs.sum (from self.now.tokens.now at)) result }
        ensures moves { IfOk result (λ p. at < p.1) }
    {
        let place = start_at(self.tokens, at);
        let (first, at) = self.product(at)?;
        self.sum_from(at, place, first)
    }
}
