//! Basic expressions, and what stands behind them and before them.
ghost use Rattle.std.specs.Prelude.{◌<◌, ◌≤◌, IfOk, [], None, true, false};
ghost use Rattle.fronts.specs.Readers.{pure, token};
ghost use Rattle.sql_names.specs.declared.words.Reserved.TheVariants as r;
ghost use Rattle.sql_ast.specs.declared.expr.Expr.TheVariants as e;
ghost use Rattle.sql_ast.specs.Marks as spec;
ghost use Rattle.sql_grammar.specs.Exprs as exprs;
ghost use Rattle.parse_expr.specs.Beginnings.{basic_class};
ghost use Rattle.parse_expr.specs.Steps.{followed};
ghost use Rattle.parse_expr.specs.Nests.{Nests};
ghost use Rattle.parse_words.specs.Reads.{from, reading, Reads};

use crate::beginnings::{BasicStart, basic_start};
use crate::parts::Opened;
use crate::reader::Reader;
use crate::starts::{Opening, Start};
use parse_words::cursor::{Read, expect, expect_marked, refusal_at, start_at};
use parse_words::kept::Kept;
use parse_words::marks::Mark;
use parse_words::saying::{literal_bytes, literal_text, number, parameter_name};
use sql_ast::{Expr, Query, Reserved};
use sql_nodes::expr_nodes;
use sql_types::{Boxed, Items};

impl<
    'a,
    E: Fn(usize, Start) -> Read<Boxed<Expr>>,
    Q: Fn(usize, Opening) -> Read<Boxed<Query>>,
> Reader<'a, E, Q> {
    /// An integer.
    pub fn integer(&self, at: usize) -> Read<Boxed<Expr>>
        requires below { Nests self.now.tokens.now self.now.from (E.pre self.now.inner) (E.post self.now.inner) (Q.pre self.now.query) (Q.post self.now.query) }
        requires after { self.now.from ≤ at }
        ensures reads { Reads self.now.tokens.now (followed (token spec.integer) (λ t. pure (e.Integer (spec.number t) t.start)) (from self.now.tokens.now at)) result }
        ensures moves { IfOk result (λ p. at < p.1) }
    {
        let (token, at) = expect_marked(self.tokens, at, Mark::Integer)?;
        let value = number(token);
        let place = token.start;
        Ok((expr_nodes::integer(self.alloc, value, place)?, at))
    }

    /// A STRING literal.
    pub fn text_literal(&self, at: usize) -> Read<Boxed<Expr>>
        requires below { Nests self.now.tokens.now self.now.from (E.pre self.now.inner) (E.post self.now.inner) (Q.pre self.now.query) (Q.post self.now.query) }
        requires after { self.now.from ≤ at }
        ensures reads { Reads self.now.tokens.now (followed (token spec.text) (λ t. pure (e.Text (spec.content t) t.start)) (from self.now.tokens.now at)) result }
        ensures moves { IfOk result (λ p. at < p.1) }
    {
        let (token, at) = expect_marked(self.tokens, at, Mark::Text)?;
        let value = literal_text(self.alloc, token)?;
        let place = token.start;
        Ok((expr_nodes::text(self.alloc, value, place)?, at))
    }

    /// A BYTES literal.
    pub fn bytes_literal(&self, at: usize) -> Read<Boxed<Expr>>
        requires below { Nests self.now.tokens.now self.now.from (E.pre self.now.inner) (E.post self.now.inner) (Q.pre self.now.query) (Q.post self.now.query) }
        requires after { self.now.from ≤ at }
        ensures reads { Reads self.now.tokens.now (followed (token spec.bytes) (λ t. pure (e.Bytes (spec.content t) t.start)) (from self.now.tokens.now at)) result }
        ensures moves { IfOk result (λ p. at < p.1) }
    {
        let (token, at) = expect_marked(self.tokens, at, Mark::Bytes)?;
        let value = literal_bytes(self.alloc, token)?;
        let place = token.start;
        Ok((expr_nodes::bytes(self.alloc, value, place)?, at))
    }

    /// A parameter.
    pub fn parameter(&self, at: usize) -> Read<Boxed<Expr>>
        requires below { Nests self.now.tokens.now self.now.from (E.pre self.now.inner) (E.post self.now.inner) (Q.pre self.now.query) (Q.post self.now.query) }
        requires after { self.now.from ≤ at }
        ensures reads { Reads self.now.tokens.now (followed (token spec.parameter) (λ t. pure (e.Parameter (spec.content t) t.start)) (from self.now.tokens.now at)) result }
        ensures moves { IfOk result (λ p. at < p.1) }
    {
        let (token, at) = expect_marked(self.tokens, at, Mark::Parameter)?;
        let name = parameter_name(self.alloc, token)?;
        let place = token.start;
        Ok((expr_nodes::parameter(self.alloc, name, place)?, at))
    }

    /// TRUE.
    pub fn true_literal(&self, at: usize) -> Read<Boxed<Expr>>
        requires below { Nests self.now.tokens.now self.now.from (E.pre self.now.inner) (E.post self.now.inner) (Q.pre self.now.query) (Q.post self.now.query) }
        requires after { self.now.from ≤ at }
        ensures reads { Reads self.now.tokens.now (followed (token (spec.reserved r.True)) (λ t. pure (e.Bool true t.start)) (from self.now.tokens.now at)) result }
        ensures moves { IfOk result (λ p. at < p.1) }
    {
        let (token, at) = expect_marked(self.tokens, at, Mark::Reserved(Reserved::True))?;
        let value = true;
        let place = token.start;
        Ok((expr_nodes::truth(self.alloc, value, place)?, at))
    }

    /// FALSE.
    pub fn false_literal(&self, at: usize) -> Read<Boxed<Expr>>
        requires below { Nests self.now.tokens.now self.now.from (E.pre self.now.inner) (E.post self.now.inner) (Q.pre self.now.query) (Q.post self.now.query) }
        requires after { self.now.from ≤ at }
        ensures reads { Reads self.now.tokens.now (followed (token (spec.reserved r.False)) (λ t. pure (e.Bool false t.start)) (from self.now.tokens.now at)) result }
        ensures moves { IfOk result (λ p. at < p.1) }
    {
        let (token, at) = expect_marked(self.tokens, at, Mark::Reserved(Reserved::False))?;
        let value = false;
        let place = token.start;
        Ok((expr_nodes::truth(self.alloc, value, place)?, at))
    }

    /// NULL.
    pub fn null_literal(&self, at: usize) -> Read<Boxed<Expr>>
        requires below { Nests self.now.tokens.now self.now.from (E.pre self.now.inner) (E.post self.now.inner) (Q.pre self.now.query) (Q.post self.now.query) }
        requires after { self.now.from ≤ at }
        ensures reads { Reads self.now.tokens.now (followed (token (spec.reserved r.Null)) (λ t. pure (e.Null t.start)) (from self.now.tokens.now at)) result }
        ensures moves { IfOk result (λ p. at < p.1) }
    {
        let (token, at) = expect_marked(self.tokens, at, Mark::Reserved(Reserved::Null))?;
        let place = token.start;
        Ok((expr_nodes::null(self.alloc, place)?, at))
    }

    /// A call of IF.
    pub fn if_call(&self, at: usize) -> Read<Boxed<Expr>>
        requires below { Nests self.now.tokens.now self.now.from (E.pre self.now.inner) (E.post self.now.inner) (Q.pre self.now.query) (Q.post self.now.query) }
        requires after { self.now.from ≤ at }
        ensures reads { Reads self.now.tokens.now (followed (token (spec.reserved r.If)) (λ t. followed (reading self.now.tokens.now exprs.call_of t) (λ k. pure (e.Call k t.start))) (from self.now.tokens.now at)) result }
        ensures moves { IfOk result (λ p. at < p.1) }
    {
        let (word, at) = expect(self.tokens, at, Mark::Reserved(Reserved::If))?;
        let (call, at) = self.call_of(at, word)?;
        let place = word.start;
        Ok((expr_nodes::call(self.alloc, call, place)?, at))
    }

    /// A basic expression that begins so.
    pub fn basic_by(&self, at: usize, start: BasicStart) -> Read<Boxed<Expr>>
        requires below { Nests self.now.tokens.now self.now.from (E.pre self.now.inner) (E.post self.now.inner) (Q.pre self.now.query) (Q.post self.now.query) }
        requires after { self.now.from ≤ at }
        ensures reads { Reads self.now.tokens.now (reading self.now.tokens.now exprs.basic_by (basic_class start) (from self.now.tokens.now at)) result }
        ensures moves { IfOk result (λ p. at < p.1) }
    {
        match start {
            BasicStart::Integer => self.integer(at),
            BasicStart::Text => self.text_literal(at),
            BasicStart::Bytes => self.bytes_literal(at),
            BasicStart::True => self.true_literal(at),
            BasicStart::False => self.false_literal(at),
            BasicStart::Null => self.null_literal(at),
            BasicStart::Parameter => self.parameter(at),
            BasicStart::Name => Err(refusal_at(self.tokens, at)),
            BasicStart::If => self.if_call(at),
            BasicStart::Bracket => self.group(at),
            BasicStart::Case => self.case_whole(at),
            BasicStart::Cast => self.cast(at),
            BasicStart::Extract => self.extract(at),
            BasicStart::Grouping => self.grouping(at),
            BasicStart::Exists => self.exists(at),
            BasicStart::Array => self.array(at),
            BasicStart::Square => self.array_from(at, None, None),
            BasicStart::Struct => self.structure(at),
            BasicStart::With => self.with_expr(at),
            BasicStart::Other => Err(refusal_at(self.tokens, at)),
        }
    }

    /// The same without parts.
    pub fn basic_opened(&self, at: usize, start: BasicStart) -> Read<Opened>
        requires below { Nests self.now.tokens.now self.now.from (E.pre self.now.inner) (E.post self.now.inner) (Q.pre self.now.query) (Q.post self.now.query) }
        requires after { self.now.from ≤ at }
        ensures reads { Reads self.now.tokens.now (followed (reading self.now.tokens.now exprs.basic_by (basic_class start)) (λ a. pure (a, ([], None))) (from self.now.tokens.now at)) result }
        ensures moves { IfOk result (λ p. at < p.1) }
    {
        let (expr, at) = self.basic_by(at, start)?;
        Ok(((expr, (Items::new(self.alloc), None)), at))
    }

    /// A basic expression, and the parts that were read with it.
    #[tactic(auto, unfolding(sql_grammar::specs::Exprs::opened))]
    pub fn opened(&self, at: usize, star: bool) -> Read<Opened>
        requires below { Nests self.now.tokens.now self.now.from (E.pre self.now.inner) (E.post self.now.inner) (Q.pre self.now.query) (Q.post self.now.query) }
        requires after { self.now.from ≤ at }
        ensures reads { Reads self.now.tokens.now (reading self.now.tokens.now exprs.opened star (from self.now.tokens.now at)) result }
        ensures moves { IfOk result (λ p. at < p.1) }
    {
        match basic_start(self.tokens, at) {
            BasicStart::Name => self.name_opened(at, star),
            start => self.basic_opened(at, start),
        }
    }

    /// A postfix, and the `*` behind it, where one is permitted.
    #[tactic(auto, unfolding(sql_grammar::specs::Exprs::postfix_or_star))]
    pub fn postfix_or_star(&self, at: usize, star: bool) -> Read<(Boxed<Expr>, Option<Kept>)>
        requires below { Nests self.now.tokens.now self.now.from (E.pre self.now.inner) (E.post self.now.inner) (Q.pre self.now.query) (Q.post self.now.query) }
        requires after { self.now.from ≤ at }
        ensures reads { Reads self.now.tokens.now (reading self.now.tokens.now exprs.postfix_or_star star (from self.now.tokens.now at)) result }
        ensures moves { IfOk result (λ p. at < p.1) }
    {
        let place = start_at(self.tokens, at);
        let ((first, (parts, end)), at) = self.opened(at, star)?;
        self.parts_from(at, star, place, first, parts, end)
    }

    /// A postfix.
    #[tactic(auto, unfolding(sql_grammar::specs::Exprs::postfix))]
    pub fn postfix(&self, at: usize) -> Read<Boxed<Expr>>
        requires below { Nests self.now.tokens.now self.now.from (E.pre self.now.inner) (E.post self.now.inner) (Q.pre self.now.query) (Q.post self.now.query) }
        requires after { self.now.from ≤ at }
        ensures reads { Reads self.now.tokens.now (reading self.now.tokens.now exprs.postfix (from self.now.tokens.now at)) result }
        ensures moves { IfOk result (λ p. at < p.1) }
    {
        let ((expr, end), at) = self.postfix_or_star(at, false)?;
        Ok((expr, at))
    }
}
