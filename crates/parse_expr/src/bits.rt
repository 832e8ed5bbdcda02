//! Shifts and the operators on bits. A `>` that begins no `>>` ends them; it was read when this is known, and is kept.
ghost use Rattle.std.specs.Prelude.{◌≡◌, ◌<◌, ◌≤◌, IfOk, [], ◌∷◌, None};
ghost use Rattle.fronts.specs.Readers.{pure, token};
ghost use Rattle.sql_ast.specs.declared.words.Sign.TheVariants as sign;
ghost use Rattle.sql_ast.specs.declared.expr.Operator.TheVariants as operator;
ghost use Rattle.sql_ast.specs.Marks as spec;
ghost use Rattle.sql_ast.specs.Trees as trees;
ghost use Rattle.sql_grammar.specs.Exprs as exprs;
ghost use Rattle.sql_grammar.specs.Ways.{until};
ghost use Rattle.parse_expr.specs.Steps.{followed};
ghost use Rattle.parse_expr.specs.Nests.{Nests};
ghost use Rattle.parse_words.specs.Reads.{from, reading, turns, Reads};

use crate::chains::{Operation, kept_link, link, link_up};
use crate::reader::Reader;
use crate::starts::{Opening, Start};
use parse_words::cursor::{Read, expect, refusal_at, sees, start_at};
use parse_words::kept::{Kept, expect_sign};
use parse_words::marks::Mark;
use parse_words::repeat::{Ended, until};
use sql_ast::{Expr, Link, Operator, Query, Sign};
use sql_nodes::boxes::one_of;
use sql_types::{Boxed, Items};

/// An expression, and a `>` behind it that begins no `>>`, if it was read.
pub type Pending = (Boxed<Expr>, Option<Kept>);

impl<
    'a,
    E: Fn(usize, Start) -> Read<Boxed<Expr>>,
    Q: Fn(usize, Opening) -> Read<Boxed<Query>>,
> Reader<'a, E, Q> {
    /// Behind a `>`: a second one directly behind it makes a shift, else the first is kept.
    #[tactic(auto, unfolding(sql_grammar::specs::Exprs::greater_or_shift))]
    pub fn shift_right(&self, at: usize, greater: Kept) -> Read<Ended<Link<Expr>, Kept>>
        requires below { Nests self.now.tokens.now self.now.from (E.pre self.now.inner) (E.post self.now.inner) (Q.pre self.now.query) (Q.post self.now.query) }
        requires after { self.now.from ≤ at }
        ensures reads { Reads self.now.tokens.now (reading self.now.tokens.now exprs.greater_or_shift greater (from self.now.tokens.now at)) result }
        ensures moves { IfOk result (λ p. at ≤ p.1) }
    {
        let end = greater.end();
        if !sees(self.tokens, at, Mark::ShiftEnd(end)) {
            return Ok(((Items::new(self.alloc), Some(greater)), at));
        }
        let (_, at) = expect(self.tokens, at, Mark::ShiftEnd(end))?;
        let (operand, at) = self.sum(at)?;
        let link = kept_link(self.alloc, Operator::ShiftRight, &greater, operand)?;
        Ok(((one_of(self.alloc, link)?, None), at))
    }

    /// `"<<" sum`
    pub fn shift_left(&self, at: usize) -> Read<Ended<Link<Expr>, Kept>>
        requires below { Nests self.now.tokens.now self.now.from (E.pre self.now.inner) (E.post self.now.inner) (Q.pre self.now.query) (Q.post self.now.query) }
        requires after { self.now.from ≤ at }
        ensures reads { Reads self.now.tokens.now (followed (token (spec.sign sign.LessLess)) (λ t. followed (reading self.now.tokens.now exprs.sum) (λ a. pure (trees.link operator.ShiftLeft t a ∷ [], None))) (from self.now.tokens.now at)) result }
        ensures moves { IfOk result (λ p. at < p.1) }
    {
        let (token, at) = expect(self.tokens, at, Mark::Sign(Sign::LessLess))?;
        let (operand, at) = self.sum(at)?;
        let link = link(self.alloc, Operator::ShiftLeft, token, operand)?;
        Ok(((one_of(self.alloc, link)?, None), at))
    }

    /// One shift, or a `>` that is none.
    #[tactic(auto, unfolding(sql_grammar::specs::Exprs::shift_item))]
    pub fn shift_item(&self, at: usize) -> Read<Ended<Link<Expr>, Kept>>
        requires below { Nests self.now.tokens.now self.now.from (E.pre self.now.inner) (E.post self.now.inner) (Q.pre self.now.query) (Q.post self.now.query) }
        requires after { self.now.from ≤ at }
        ensures reads { Reads self.now.tokens.now (reading self.now.tokens.now exprs.shift_item (from self.now.tokens.now at)) result }
        ensures moves { IfOk result (λ p. at < p.1) }
    {
        if sees(self.tokens, at, Mark::Sign(Sign::LessLess)) {
            return self.shift_left(at);
        }
        let (greater, at) = expect_sign(self.tokens, at, Sign::Greater)?;
        self.shift_right(at, greater)
    }

    /// The shifts behind those that were found.
    pub fn shift_items(&self, at: usize, found: Items<Link<Expr>>) -> Read<Ended<Link<Expr>, Kept>>
        requires below { Nests self.now.tokens.now self.now.from (E.pre self.now.inner) (E.post self.now.inner) (Q.pre self.now.query) (Q.post self.now.query) }
        requires after { self.now.from ≤ at }
        ensures reads { Reads self.now.tokens.now (until (exprs.shift_next) (reading self.now.tokens.now exprs.shift_item) (turns self.now.tokens.now) found (from self.now.tokens.now at)) result }
        ensures moves { IfOk result (λ p. at ≤ p.1) }
        ensures stays { IfOk result (λ p. p.1 ≡ at → p.0 ≡ (found, None)) }
    {
        until(
            self.tokens,
            at,
            Mark::Shift,
            found,
            |place| self.shift_item(place),
        )
    }

    /// The rest of shifts whose first operand begins at this byte.
    #[tactic(auto, unfolding(sql_grammar::specs::Exprs::shift_from, sql_ast::specs::Trees::chain))]
    pub fn shift_from(&self, at: usize, place: u64, first: Boxed<Expr>) -> Read<Pending>
        requires below { Nests self.now.tokens.now self.now.from (E.pre self.now.inner) (E.post self.now.inner) (Q.pre self.now.query) (Q.post self.now.query) }
        requires after { self.now.from ≤ at }
        ensures reads { Reads self.now.tokens.now (reading self.now.tokens.now exprs.shift_from place first (from self.now.tokens.now at)) result }
        ensures moves { IfOk result (λ p. at ≤ p.1) }
        ensures stays { IfOk result (λ p. p.1 ≡ at → p.0 ≡ (first, None)) }
    {
        let ((rest, kept), at) = self.shift_items(at, Items::new(self.alloc))?;
        Ok((
            (
                link_up(self.alloc, Operation::Shift, first, rest, place)?,
                kept,
            ),
            at,
        ))
    }

    /// `sum {("<<" | ">>") sum}`
    #[tactic(auto, unfolding(sql_grammar::specs::Exprs::shift))]
    pub fn shift(&self, at: usize) -> Read<Pending>
        requires below { Nests self.now.tokens.now self.now.from (E.pre self.now.inner) (E.post self.now.inner) (Q.pre self.now.query) (Q.post self.now.query) }
        requires after { self.now.from ≤ at }
        ensures reads { Reads self.now.tokens.now (reading self.now.tokens.now exprs.shift (from self.now.tokens.now at)) result }
        ensures moves { IfOk result (λ p. at < p.1) }
    {
        let place = start_at(self.tokens, at);
        let (first, at) = self.sum(at)?;
        self.shift_from(at, place, first)
    }

    /// An operator of a chain of `&`, and its operand.
    #[tactic(auto, unfolding(sql_grammar::specs::Exprs::linked_pending))]
    pub fn bit_and_link(&self, at: usize) -> Read<Ended<Link<Expr>, Kept>>
        requires below { Nests self.now.tokens.now self.now.from (E.pre self.now.inner) (E.post self.now.inner) (Q.pre self.now.query) (Q.post self.now.query) }
        requires after { self.now.from ≤ at }
        ensures reads { Reads self.now.tokens.now (exprs.linked_pending (spec.sign sign.Ampersand) operator.BitAnd (reading self.now.tokens.now exprs.shift) (from self.now.tokens.now at)) result }
        ensures moves { IfOk result (λ p. at < p.1) }
    {
        let (token, at) = expect(self.tokens, at, Mark::Sign(Sign::Ampersand))?;
        let ((operand, kept), at) = self.shift(at)?;
        let link = link(self.alloc, Operator::BitAnd, token, operand)?;
        Ok(((one_of(self.alloc, link)?, kept), at))
    }

    /// A chain of `&` behind what was found of it.
    pub fn bit_and_links(
        &self,
        at: usize,
        found: Items<Link<Expr>>,
    ) -> Read<Ended<Link<Expr>, Kept>>
        requires below { Nests self.now.tokens.now self.now.from (E.pre self.now.inner) (E.post self.now.inner) (Q.pre self.now.query) (Q.post self.now.query) }
        requires after { self.now.from ≤ at }
        ensures reads { Reads self.now.tokens.now (until (spec.sign sign.Ampersand) (exprs.linked_pending (spec.sign sign.Ampersand) operator.BitAnd (reading self.now.tokens.now exprs.shift)) (turns self.now.tokens.now) found (from self.now.tokens.now at)) result }
        ensures moves { IfOk result (λ p. at ≤ p.1) }
        ensures stays { IfOk result (λ p. p.1 ≡ at → p.0 ≡ (found, None)) }
    {
        until(
            self.tokens,
            at,
            Mark::Sign(Sign::Ampersand),
            found,
            |place| self.bit_and_link(place),
        )
    }

    /// The rest of a chain of `&` whose first operand begins at this byte. A `>` that was kept ends it.
    #[tactic(auto, unfolding(sql_grammar::specs::Exprs::band_from, sql_ast::specs::Trees::chain))]
    pub fn bit_and_from(&self, at: usize, place: u64, first: Pending) -> Read<Pending>
        requires below { Nests self.now.tokens.now self.now.from (E.pre self.now.inner) (E.post self.now.inner) (Q.pre self.now.query) (Q.post self.now.query) }
        requires after { self.now.from ≤ at }
        ensures reads { Reads self.now.tokens.now (reading self.now.tokens.now exprs.band_from place first (from self.now.tokens.now at)) result }
        ensures moves { IfOk result (λ p. at ≤ p.1) }
        ensures stays { IfOk result (λ p. p.1 ≡ at → p.0 ≡ first) }
    {
        let (first, kept) = first;
        if kept.is_some() {
            return Ok(((first, kept), at));
        }
        let ((rest, kept), at) = self.bit_and_links(at, Items::new(self.alloc))?;
        Ok((
            (
                link_up(self.alloc, Operation::BitAnd, first, rest, place)?,
                kept,
            ),
            at,
        ))
    }

    /// `shift {"&" shift}`
    #[tactic(auto, unfolding(sql_grammar::specs::Exprs::band))]
    pub fn bit_and(&self, at: usize) -> Read<Pending>
        requires below { Nests self.now.tokens.now self.now.from (E.pre self.now.inner) (E.post self.now.inner) (Q.pre self.now.query) (Q.post self.now.query) }
        requires after { self.now.from ≤ at }
        ensures reads { Reads self.now.tokens.now (reading self.now.tokens.now exprs.band (from self.now.tokens.now at)) result }
        ensures moves { IfOk result (λ p. at < p.1) }
    {
        let place = start_at(self.tokens, at);
        let (first, at) = self.shift(at)?;
        self.bit_and_from(at, place, first)
    }

    /// An operator of a chain of `^`, and its operand.
    #[tactic(auto, unfolding(sql_grammar::specs::Exprs::linked_pending))]
    pub fn bit_xor_link(&self, at: usize) -> Read<Ended<Link<Expr>, Kept>>
        requires below { Nests self.now.tokens.now self.now.from (E.pre self.now.inner) (E.post self.now.inner) (Q.pre self.now.query) (Q.post self.now.query) }
        requires after { self.now.from ≤ at }
        ensures reads { Reads self.now.tokens.now (exprs.linked_pending (spec.sign sign.Caret) operator.BitXor (reading self.now.tokens.now exprs.band) (from self.now.tokens.now at)) result }
        ensures moves { IfOk result (λ p. at < p.1) }
    {
        let (token, at) = expect(self.tokens, at, Mark::Sign(Sign::Caret))?;
        let ((operand, kept), at) = self.bit_and(at)?;
        let link = link(self.alloc, Operator::BitXor, token, operand)?;
        Ok(((one_of(self.alloc, link)?, kept), at))
    }

    /// A chain of `^` behind what was found of it.
    pub fn bit_xor_links(
        &self,
        at: usize,
        found: Items<Link<Expr>>,
    ) -> Read<Ended<Link<Expr>, Kept>>
        requires below { Nests self.now.tokens.now self.now.from (E.pre self.now.inner) (E.post self.now.inner) (Q.pre self.now.query) (Q.post self.now.query) }
        requires after { self.now.from ≤ at }
        ensures reads { Reads self.now.tokens.now (until (spec.sign sign.Caret) (exprs.linked_pending (spec.sign sign.Caret) operator.BitXor (reading self.now.tokens.now exprs.band)) (turns self.now.tokens.now) found (from self.now.tokens.now at)) result }
        ensures moves { IfOk result (λ p. at ≤ p.1) }
        ensures stays { IfOk result (λ p. p.1 ≡ at → p.0 ≡ (found, None)) }
    {
        until(
            self.tokens,
            at,
            Mark::Sign(Sign::Caret),
            found,
            |place| self.bit_xor_link(place),
        )
    }

    /// The rest of a chain of `^` whose first operand begins at this byte. A `>` that was kept ends it.
    #[tactic(auto, unfolding(sql_grammar::specs::Exprs::bxor_from, sql_ast::specs::Trees::chain))]
    pub fn bit_xor_from(&self, at: usize, place: u64, first: Pending) -> Read<Pending>
        requires below { Nests self.now.tokens.now self.now.from (E.pre self.now.inner) (E.post self.now.inner) (Q.pre self.now.query) (Q.post self.now.query) }
        requires after { self.now.from ≤ at }
        ensures reads { Reads self.now.tokens.now (reading self.now.tokens.now exprs.bxor_from place first (from self.now.tokens.now at)) result }
        ensures moves { IfOk result (λ p. at ≤ p.1) }
        ensures stays { IfOk result (λ p. p.1 ≡ at → p.0 ≡ first) }
    {
        let (first, kept) = first;
        if kept.is_some() {
            return Ok(((first, kept), at));
        }
        let ((rest, kept), at) = self.bit_xor_links(at, Items::new(self.alloc))?;
        Ok((
            (
                link_up(self.alloc, Operation::BitXor, first, rest, place)?,
                kept,
            ),
            at,
        ))
    }

    /// `band {"^" band}`
    #[tactic(auto, unfolding(sql_grammar::specs::Exprs::bxor))]
    pub fn bit_xor(&self, at: usize) -> Read<Pending>
        requires below { Nests self.now.tokens.now self.now.from (E.pre self.now.inner) (E.post self.now.inner) (Q.pre self.now.query) (Q.post self.now.query) }
        requires after { self.now.from ≤ at }
        ensures reads { Reads self.now.tokens.now (reading self.now.tokens.now exprs.bxor (from self.now.tokens.now at)) result }
        ensures moves { IfOk result (λ p. at < p.1) }
    {
        let place = start_at(self.tokens, at);
        let (first, at) = self.bit_and(at)?;
        self.bit_xor_from(at, place, first)
    }

    /// An operator of a chain of `|`, and its operand.
    #[tactic(auto, unfolding(sql_grammar::specs::Exprs::linked_pending))]
    pub fn bit_or_link(&self, at: usize) -> Read<Ended<Link<Expr>, Kept>>
        requires below { Nests self.now.tokens.now self.now.from (E.pre self.now.inner) (E.post self.now.inner) (Q.pre self.now.query) (Q.post self.now.query) }
        requires after { self.now.from ≤ at }
        ensures reads { Reads self.now.tokens.now (exprs.linked_pending (spec.sign sign.Bar) operator.BitOr (reading self.now.tokens.now exprs.bxor) (from self.now.tokens.now at)) result }
        ensures moves { IfOk result (λ p. at < p.1) }
    {
        let (token, at) = expect(self.tokens, at, Mark::Sign(Sign::Bar))?;
        let ((operand, kept), at) = self.bit_xor(at)?;
        let link = link(self.alloc, Operator::BitOr, token, operand)?;
        Ok(((one_of(self.alloc, link)?, kept), at))
    }

    /// A chain of `|` behind what was found of it.
    pub fn bit_or_links(&self, at: usize, found: Items<Link<Expr>>) -> Read<Ended<Link<Expr>, Kept>>
        requires below { Nests self.now.tokens.now self.now.from (E.pre self.now.inner) (E.post self.now.inner) (Q.pre self.now.query) (Q.post self.now.query) }
        requires after { self.now.from ≤ at }
        ensures reads { Reads self.now.tokens.now (until (spec.sign sign.Bar) (exprs.linked_pending (spec.sign sign.Bar) operator.BitOr (reading self.now.tokens.now exprs.bxor)) (turns self.now.tokens.now) found (from self.now.tokens.now at)) result }
        ensures moves { IfOk result (λ p. at ≤ p.1) }
        ensures stays { IfOk result (λ p. p.1 ≡ at → p.0 ≡ (found, None)) }
    {
        until(
            self.tokens,
            at,
            Mark::Sign(Sign::Bar),
            found,
            |place| self.bit_or_link(place),
        )
    }

    /// The rest of a chain of `|` whose first operand begins at this byte. A `>` that was kept ends it.
    #[tactic(auto, unfolding(sql_grammar::specs::Exprs::bor_from, sql_ast::specs::Trees::chain))]
    pub fn bit_or_from(&self, at: usize, place: u64, first: Pending) -> Read<Pending>
        requires below { Nests self.now.tokens.now self.now.from (E.pre self.now.inner) (E.post self.now.inner) (Q.pre self.now.query) (Q.post self.now.query) }
        requires after { self.now.from ≤ at }
        ensures reads { Reads self.now.tokens.now (reading self.now.tokens.now exprs.bor_from place first (from self.now.tokens.now at)) result }
        ensures moves { IfOk result (λ p. at ≤ p.1) }
        ensures stays { IfOk result (λ p. p.1 ≡ at → p.0 ≡ first) }
    {
        let (first, kept) = first;
        if kept.is_some() {
            return Ok(((first, kept), at));
        }
        let ((rest, kept), at) = self.bit_or_links(at, Items::new(self.alloc))?;
        Ok((
            (
                link_up(self.alloc, Operation::BitOr, first, rest, place)?,
                kept,
            ),
            at,
        ))
    }

    /// `bxor {"|" bxor}`
    #[tactic(auto, unfolding(sql_grammar::specs::Exprs::bor_pending))]
    pub fn bit_or(&self, at: usize) -> Read<Pending>
        requires below { Nests self.now.tokens.now self.now.from (E.pre self.now.inner) (E.post self.now.inner) (Q.pre self.now.query) (Q.post self.now.query) }
        requires after { self.now.from ≤ at }
        ensures reads { Reads self.now.tokens.now (reading self.now.tokens.now exprs.bor_pending (from self.now.tokens.now at)) result }
        ensures moves { IfOk result (λ p. at < p.1) }
    {
        let place = start_at(self.tokens, at);
        let (first, at) = self.bit_xor(at)?;
        self.bit_or_from(at, place, first)
    }

    /// `bor`, behind which no `>` stands.
    #[tactic(auto, unfolding(sql_grammar::specs::Exprs::bor))]
    pub fn settled(&self, at: usize) -> Read<Boxed<Expr>>
        requires below { Nests self.now.tokens.now self.now.from (E.pre self.now.inner) (E.post self.now.inner) (Q.pre self.now.query) (Q.post self.now.query) }
        requires after { self.now.from ≤ at }
        ensures reads { Reads self.now.tokens.now (reading self.now.tokens.now exprs.bor (from self.now.tokens.now at)) result }
        ensures moves { IfOk result (λ p. at < p.1) }
    {
        let ((expr, kept), at) = self.bit_or(at)?;
        if kept.is_some() {
            return Err(refusal_at(self.tokens, at));
        }
        Ok((expr, at))
    }
}
