//! A name, and the parts of a postfix.
ghost use Rattle.std.specs.Prelude.{◌≡◌, ◌<◌, ◌≤◌, IfOk, [], Some, None};
ghost use Rattle.fronts.specs.Readers.{if_comes, pure, token};
ghost use Rattle.sql_ast.specs.declared.expr.Expr.TheVariants as e;
ghost use Rattle.sql_ast.specs.Marks as spec;
ghost use Rattle.sql_ast.specs.Trees as trees;
ghost use Rattle.sql_grammar.specs.Classes as classes;
ghost use Rattle.sql_grammar.specs.Exprs as exprs;
ghost use Rattle.sql_grammar.specs.Ways.{until};
ghost use Rattle.parse_expr.specs.Steps.{followed};
ghost use Rattle.parse_expr.specs.Nests.{Nests};
ghost use Rattle.parse_words.specs.Reads.{from, reading, turns, Reads};

use crate::beginnings::{NameStart, name_start};
use crate::reader::Reader;
use crate::starts::{Opening, Start};
use parse_words::cursor::{Read, expect, expect_marked, sees};
use parse_words::kept::{Kept, expect_star};
use parse_words::marks::Mark;
use parse_words::repeat::{Ended, until};
use parse_words::saying::{literal_text, name_of, spelled};
use parse_words::telling::told_form;
use sql_ast::{Expr, Part, Query, Sign, Token};
use sql_nodes::boxes::one_of;
use sql_nodes::{expr_nodes, part_nodes};
use sql_types::{Boxed, Items, OutOfMemory};
use std::alloc::Global;

/// A first expression, and the parts that were read with it: a `*` behind them ends the parts.
pub type Opened = (Boxed<Expr>, Ended<Part<Expr>, Kept>);

/// A postfix without parts is its first part.
#[tactic(auto, unfolding(sql_ast::specs::Trees::path))]
pub fn path_of(
    alloc: Global,
    first: Boxed<Expr>,
    parts: Items<Part<Expr>>,
    place: u64,
) -> Result<Boxed<Expr>, OutOfMemory>
    ensures { IfOk result (λ a. a ≡ trees.path first parts place) }
{
    if parts.is_empty() {
        return Ok(first);
    }
    expr_nodes::postfix(alloc, first, parts, place)
}

impl<
    'a,
    E: Fn(usize, Start) -> Read<Boxed<Expr>>,
    Q: Fn(usize, Opening) -> Read<Boxed<Query>>,
> Reader<'a, E, Q> {
    /// A name alone.
    pub fn bare_name(&self, at: usize, name: &Token) -> Read<Opened>
        requires below { Nests self.now.tokens.now self.now.from (E.pre self.now.inner) (E.post self.now.inner) (Q.pre self.now.query) (Q.post self.now.query) }
        requires after { self.now.from ≤ at }
        ensures reads { Reads self.now.tokens.now (pure (e.Name (spec.spelled name.now) name.now.start, ([], None)) (from self.now.tokens.now at)) result }
        ensures moves { IfOk result (λ p. at ≤ p.1) }
    {
        let place = name.start;
        let name = spelled(self.alloc, name)?;
        Ok((
            (
                expr_nodes::name(self.alloc, name, place)?,
                (Items::new(self.alloc), None),
            ),
            at,
        ))
    }

    /// Behind SAFE and `.`: a `*` where one is permitted, a safe call, or a field.
    #[tactic(auto, unfolding(sql_grammar::specs::Exprs::safe_part))]
    pub fn safe_part(&self, at: usize, star: bool, name: &Token) -> Read<Opened>
        requires below { Nests self.now.tokens.now self.now.from (E.pre self.now.inner) (E.post self.now.inner) (Q.pre self.now.query) (Q.post self.now.query) }
        requires after { self.now.from ≤ at }
        ensures reads { Reads self.now.tokens.now (reading self.now.tokens.now exprs.safe_part star name.now (from self.now.tokens.now at)) result }
        ensures moves { IfOk result (λ p. at < p.1) }
    {
        if sees(self.tokens, at, Mark::StarIf(star)) {
            return self.safe_star(at, star, name);
        }
        let (token, at) = expect(self.tokens, at, Mark::Name)?;
        if sees(self.tokens, at, Mark::Sign(Sign::OpenRound)) {
            return self.safe_call(at, name, token);
        }
        let field_name = name_of(self.alloc, token)?;
        let field = part_nodes::part_field(self.alloc, field_name)?;
        let place = name.start;
        let name = spelled(self.alloc, name)?;
        Ok((
            (
                expr_nodes::name(self.alloc, name, place)?,
                (one_of(self.alloc, field)?, None),
            ),
            at,
        ))
    }

    /// `*` behind SAFE and `.`
    pub fn safe_star(&self, at: usize, star: bool, name: &Token) -> Read<Opened>
        requires below { Nests self.now.tokens.now self.now.from (E.pre self.now.inner) (E.post self.now.inner) (Q.pre self.now.query) (Q.post self.now.query) }
        requires after { self.now.from ≤ at }
        ensures reads { Reads self.now.tokens.now (followed (token (exprs.starred star)) (λ x. pure (e.Name (spec.spelled name.now) name.now.start, ([], Some x))) (from self.now.tokens.now at)) result }
        ensures moves { IfOk result (λ p. at < p.1) }
    {
        let (token, at) = expect_star(self.tokens, at, star)?;
        let place = name.start;
        let name = spelled(self.alloc, name)?;
        Ok((
            (
                expr_nodes::name(self.alloc, name, place)?,
                (Items::new(self.alloc), Some(token)),
            ),
            at,
        ))
    }

    /// The call of this function behind SAFE and `.`
    pub fn safe_call(&self, at: usize, name: &Token, token: &Token) -> Read<Opened>
        requires below { Nests self.now.tokens.now self.now.from (E.pre self.now.inner) (E.post self.now.inner) (Q.pre self.now.query) (Q.post self.now.query) }
        requires after { self.now.from ≤ at }
        ensures reads { Reads self.now.tokens.now (followed (reading self.now.tokens.now exprs.call_of token.now) (λ k. pure (e.SafeCall k name.now.start, ([], None))) (from self.now.tokens.now at)) result }
        ensures moves { IfOk result (λ p. at < p.1) }
    {
        let (call, at) = self.call_of(at, token)?;
        let place = name.start;
        Ok((
            (
                expr_nodes::safe_call(self.alloc, call, place)?,
                (Items::new(self.alloc), None),
            ),
            at,
        ))
    }

    /// Behind DATE: a string makes it a literal.
    pub fn date_literal(&self, at: usize, name: &Token) -> Read<Opened>
        requires below { Nests self.now.tokens.now self.now.from (E.pre self.now.inner) (E.post self.now.inner) (Q.pre self.now.query) (Q.post self.now.query) }
        requires after { self.now.from ≤ at }
        ensures reads { Reads self.now.tokens.now (if_comes spec.text (followed (token spec.text) (λ x. pure (e.Date (spec.content x) name.now.start, ([], None)))) (pure (e.Name (spec.spelled name.now) name.now.start, ([], None))) (from self.now.tokens.now at)) result }
        ensures moves { IfOk result (λ p. at ≤ p.1) }
    {
        if !sees(self.tokens, at, Mark::Text) {
            return self.bare_name(at, name);
        }
        let (token, at) = expect_marked(self.tokens, at, Mark::Text)?;
        let text = literal_text(self.alloc, token)?;
        let place = name.start;
        Ok((
            (
                expr_nodes::date(self.alloc, text, place)?,
                (Items::new(self.alloc), None),
            ),
            at,
        ))
    }

    /// Behind a name that no bracket follows.
    pub fn name_by(&self, at: usize, star: bool, name: &Token) -> Read<Opened>
        requires below { Nests self.now.tokens.now self.now.from (E.pre self.now.inner) (E.post self.now.inner) (Q.pre self.now.query) (Q.post self.now.query) }
        requires after { self.now.from ≤ at }
        ensures reads { Reads self.now.tokens.now (reading self.now.tokens.now exprs.name_by star name.now (classes.name_class name.now.lexeme) (from self.now.tokens.now at)) result }
        ensures moves { IfOk result (λ p. at ≤ p.1) }
    {
        match name_start(name) {
            NameStart::Date => self.date_literal(at, name),
            NameStart::Safe => {
                if !sees(self.tokens, at, Mark::Sign(Sign::Dot)) {
                    return self.bare_name(at, name);
                }
                let (_, at) = expect(self.tokens, at, Mark::Sign(Sign::Dot))?;
                self.safe_part(at, star, name)
            }
            NameStart::Plain => self.bare_name(at, name),
        }
    }

    /// What a name begins, and the parts that were read with it.
    #[tactic(auto, unfolding(sql_grammar::specs::Exprs::name_opened))]
    pub fn name_opened(&self, at: usize, star: bool) -> Read<Opened>
        requires below { Nests self.now.tokens.now self.now.from (E.pre self.now.inner) (E.post self.now.inner) (Q.pre self.now.query) (Q.post self.now.query) }
        requires after { self.now.from ≤ at }
        ensures reads { Reads self.now.tokens.now (reading self.now.tokens.now exprs.name_opened star (from self.now.tokens.now at)) result }
        ensures moves { IfOk result (λ p. at < p.1) }
    {
        let (name, at) = expect(self.tokens, at, Mark::Name)?;
        if !sees(self.tokens, at, Mark::Sign(Sign::OpenRound)) {
            return self.name_by(at, star, name);
        }
        let (expr, at) = self.called(at, name)?;
        Ok(((expr, (Items::new(self.alloc), None)), at))
    }

    /// `"[" (OFFSET | ORDINAL | ..) "(" expr ")" "]"`
    #[tactic(auto, unfolding(sql_grammar::specs::Exprs::index))]
    pub fn index(&self, at: usize) -> Read<Ended<Part<Expr>, Kept>>
        requires below { Nests self.now.tokens.now self.now.from (E.pre self.now.inner) (E.post self.now.inner) (Q.pre self.now.query) (Q.post self.now.query) }
        requires after { self.now.from ≤ at }
        ensures reads { Reads self.now.tokens.now (reading self.now.tokens.now exprs.index (from self.now.tokens.now at)) result }
        ensures moves { IfOk result (λ p. at < p.1) }
    {
        let (open, at) = expect(self.tokens, at, Mark::Sign(Sign::OpenSquare))?;
        let (word, at) = expect(self.tokens, at, Mark::Form)?;
        let (index, at) = self.bracketed(at)?;
        let (_, at) = expect(self.tokens, at, Mark::Sign(Sign::CloseSquare))?;
        let form = told_form(word);
        let place = open.start;
        let part = part_nodes::part_index(self.alloc, form, index, place)?;
        Ok(((one_of(self.alloc, part)?, None), at))
    }

    /// Behind `.`: a field, or `*` where one is permitted, which ends the parts.
    #[tactic(auto, unfolding(sql_grammar::specs::Exprs::field_or_star))]
    pub fn field_or_star(&self, at: usize, star: bool) -> Read<Ended<Part<Expr>, Kept>>
        requires below { Nests self.now.tokens.now self.now.from (E.pre self.now.inner) (E.post self.now.inner) (Q.pre self.now.query) (Q.post self.now.query) }
        requires after { self.now.from ≤ at }
        ensures reads { Reads self.now.tokens.now (reading self.now.tokens.now exprs.field_or_star star (from self.now.tokens.now at)) result }
        ensures moves { IfOk result (λ p. at < p.1) }
    {
        if sees(self.tokens, at, Mark::StarIf(star)) {
            let (token, at) = expect_star(self.tokens, at, star)?;
            return Ok(((Items::new(self.alloc), Some(token)), at));
        }
        let (token, at) = expect(self.tokens, at, Mark::Name)?;
        let field_name = name_of(self.alloc, token)?;
        let field = part_nodes::part_field(self.alloc, field_name)?;
        Ok(((one_of(self.alloc, field)?, None), at))
    }

    /// A part of a postfix.
    #[tactic(auto, unfolding(sql_grammar::specs::Exprs::part_or_star))]
    pub fn part_or_star(&self, at: usize, star: bool) -> Read<Ended<Part<Expr>, Kept>>
        requires below { Nests self.now.tokens.now self.now.from (E.pre self.now.inner) (E.post self.now.inner) (Q.pre self.now.query) (Q.post self.now.query) }
        requires after { self.now.from ≤ at }
        ensures reads { Reads self.now.tokens.now (reading self.now.tokens.now exprs.part_or_star star (from self.now.tokens.now at)) result }
        ensures moves { IfOk result (λ p. at < p.1) }
    {
        if !sees(self.tokens, at, Mark::Sign(Sign::Dot)) {
            return self.index(at);
        }
        let (_, at) = expect(self.tokens, at, Mark::Sign(Sign::Dot))?;
        self.field_or_star(at, star)
    }

    /// The parts behind those that were found.
    pub fn more_parts(
        &self,
        at: usize,
        found: Items<Part<Expr>>,
        star: bool,
    ) -> Read<Ended<Part<Expr>, Kept>>
        requires below { Nests self.now.tokens.now self.now.from (E.pre self.now.inner) (E.post self.now.inner) (Q.pre self.now.query) (Q.post self.now.query) }
        requires after { self.now.from ≤ at }
        ensures reads { Reads self.now.tokens.now (until (exprs.part_next) (reading self.now.tokens.now exprs.part_or_star star) (turns self.now.tokens.now) found (from self.now.tokens.now at)) result }
        ensures moves { IfOk result (λ p. at ≤ p.1) }
        ensures stays { IfOk result (λ p. p.1 ≡ at → p.0 ≡ (found, None)) }
    {
        until(
            self.tokens,
            at,
            Mark::Part,
            found,
            |place| self.part_or_star(place, star),
        )
    }

    /// The parts behind a first expression that begins at this byte, and those that were read with it.
    pub fn parts_from(
        &self,
        at: usize,
        star: bool,
        place: u64,
        first: Boxed<Expr>,
        parts: Items<Part<Expr>>,
        end: Option<Kept>,
    ) -> Read<(Boxed<Expr>, Option<Kept>)>
        requires below { Nests self.now.tokens.now self.now.from (E.pre self.now.inner) (E.post self.now.inner) (Q.pre self.now.query) (Q.post self.now.query) }
        requires after { self.now.from ≤ at }
        ensures reads { Reads self.now.tokens.now (reading self.now.tokens.now exprs.parts_from star place first parts end (from self.now.tokens.now at)) result }
        ensures moves { IfOk result (λ p. at ≤ p.1) }
        ensures stays { IfOk result (λ p. p.1 ≡ at → p.0 ≡ (trees.path first parts place, end)) }
    {
        if end.is_some() {
            return Ok(((path_of(self.alloc, first, parts, place)?, end), at));
        }
        let ((parts, end), at) = self.more_parts(at, parts, star)?;
        Ok(((path_of(self.alloc, first, parts, place)?, end), at))
    }

    /// The same where no `*` is permitted.
    #[tactic(auto, unfolding(sql_grammar::specs::Exprs::postfix_from, sql_ast::specs::Trees::path))]
    pub fn postfix_from(&self, at: usize, place: u64, first: Boxed<Expr>) -> Read<Boxed<Expr>>
        requires below { Nests self.now.tokens.now self.now.from (E.pre self.now.inner) (E.post self.now.inner) (Q.pre self.now.query) (Q.post self.now.query) }
        requires after { self.now.from ≤ at }
        ensures reads { Reads self.now.tokens.now (reading self.now.tokens.now exprs.postfix_from place first (from self.now.tokens.now at)) result }
        ensures moves { IfOk result (λ p. at ≤ p.1) }
        ensures stays { IfOk result (λ p. p.1 ≡ at → p.0 ≡ first) }
    {
        let ((expr, end), at) = self.parts_from(
            at,
            false,
            place,
            first,
            Items::new(self.alloc),
            None,
        )?;
        Ok((expr, at))
    }
}
