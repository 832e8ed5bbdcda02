//! Comparisons, behind their left side, which begins at a byte that is given.
ghost use Rattle.std.specs.Prelude.{◌≡◌, ◌<◌, ◌≤◌, IfOk};
ghost use Rattle.fronts.specs.Readers.{pure, token};
ghost use Rattle.sql_names.specs.declared.words.Reserved.TheVariants as r;
ghost use Rattle.sql_ast.specs.declared.expr.Expr.TheVariants as e;
ghost use Rattle.sql_ast.specs.declared.expr.Comparison.TheVariants as comparison;
ghost use Rattle.sql_ast.specs.declared.expr.Quantifier.TheVariants as quantifier;
ghost use Rattle.sql_ast.specs.Marks as spec;
ghost use Rattle.sql_ast.specs.Trees as trees;
ghost use Rattle.sql_grammar.specs.Exprs as exprs;
ghost use Rattle.parse_expr.specs.Beginnings.{comparison_class};
ghost use Rattle.parse_expr.specs.Steps.{followed};
ghost use Rattle.parse_expr.specs.Nests.{Nests, content};
ghost use Rattle.parse_words.specs.Reads.{from, reading, Reads};

use crate::beginnings::{ComparisonStart, comparison_start};
use crate::bits::Pending;
use crate::reader::Reader;
use crate::starts::{Held, Opening, Start};
use parse_words::cursor::{Read, expect, refusal_at, sees, start_at};
use parse_words::marks::Mark;
use parse_words::telling::{told_comparison, told_quantifier, told_test};
use sql_ast::{Comparison, Expr, Query, Reserved, Sign, Token};
use sql_nodes::expr_nodes;
use sql_types::{Boxed, OutOfMemory};

impl<
    'a,
    E: Fn(usize, Start) -> Read<Boxed<Expr>>,
    Q: Fn(usize, Opening) -> Read<Boxed<Query>>,
> Reader<'a, E, Q> {
    /// A comparison sign, and the right side.
    #[tactic(auto, unfolding(sql_grammar::specs::Exprs::sign_after))]
    pub fn sign_after(&self, at: usize, place: u64, left: Boxed<Expr>) -> Read<Boxed<Expr>>
        requires below { Nests self.now.tokens.now self.now.from (E.pre self.now.inner) (E.post self.now.inner) (Q.pre self.now.query) (Q.post self.now.query) }
        requires after { self.now.from ≤ at }
        ensures reads { Reads self.now.tokens.now (reading self.now.tokens.now exprs.sign_after place left (from self.now.tokens.now at)) result }
        ensures moves { IfOk result (λ p. at < p.1) }
    {
        let (token, at) = expect(self.tokens, at, Mark::Comparison)?;
        let (right, at) = self.settled(at)?;
        let operator = told_comparison(token);
        let operator_place = token.start;
        Ok((
            expr_nodes::compare(self.alloc, left, operator, operator_place, right, place)?,
            at,
        ))
    }

    /// `UNNEST "(" expr ")"`
    #[tactic(auto, unfolding(sql_grammar::specs::Exprs::unnested))]
    pub fn unnested(&self, at: usize) -> Read<Boxed<Expr>>
        requires below { Nests self.now.tokens.now self.now.from (E.pre self.now.inner) (E.post self.now.inner) (Q.pre self.now.query) (Q.post self.now.query) }
        requires after { self.now.from ≤ at }
        ensures reads { Reads self.now.tokens.now (reading self.now.tokens.now exprs.unnested (from self.now.tokens.now at)) result }
        ensures moves { IfOk result (λ p. at < p.1) }
    {
        let (_, at) = expect(self.tokens, at, Mark::Reserved(Reserved::Unnest))?;
        self.bracketed(at)
    }

    /// A quantified LIKE over an array.
    pub fn like_unnest(
        &self,
        at: usize,
        place: u64,
        left: Boxed<Expr>,
        operator_place: u64,
        word: &Token,
    ) -> Read<Boxed<Expr>>
        requires below { Nests self.now.tokens.now self.now.from (E.pre self.now.inner) (E.post self.now.inner) (Q.pre self.now.query) (Q.post self.now.query) }
        requires after { self.now.from ≤ at }
        ensures reads { Reads self.now.tokens.now (followed (reading self.now.tokens.now exprs.unnested) (λ b. pure (e.LikeUnnest left (exprs.told quantifier.Any trees.quantifier_of word.now) operator_place b place)) (from self.now.tokens.now at)) result }
        ensures moves { IfOk result (λ p. at < p.1) }
    {
        let (array, at) = self.unnested(at)?;
        let quantifier = told_quantifier(word);
        Ok((
            expr_nodes::like_unnest(self.alloc, left, quantifier, operator_place, array, place)?,
            at,
        ))
    }

    /// A quantified LIKE over a list.
    pub fn like_list(
        &self,
        at: usize,
        place: u64,
        left: Boxed<Expr>,
        operator_place: u64,
        word: &Token,
    ) -> Read<Boxed<Expr>>
        requires below { Nests self.now.tokens.now self.now.from (E.pre self.now.inner) (E.post self.now.inner) (Q.pre self.now.query) (Q.post self.now.query) }
        requires after { self.now.from ≤ at }
        ensures reads { Reads self.now.tokens.now (followed (reading self.now.tokens.now exprs.list) (λ bs. pure (e.LikeList left (exprs.told quantifier.Any trees.quantifier_of word.now) operator_place bs place)) (from self.now.tokens.now at)) result }
        ensures moves { IfOk result (λ p. at < p.1) }
    {
        let (patterns, at) = self.list(at)?;
        let quantifier = told_quantifier(word);
        Ok((
            expr_nodes::like_list(
                self.alloc,
                left,
                quantifier,
                operator_place,
                patterns,
                place,
            )?,
            at,
        ))
    }

    /// Behind LIKE and a quantifier.
    #[tactic(auto, unfolding(sql_grammar::specs::Exprs::quantified))]
    pub fn quantified(
        &self,
        at: usize,
        place: u64,
        left: Boxed<Expr>,
        operator_place: u64,
        word: &Token,
    ) -> Read<Boxed<Expr>>
        requires below { Nests self.now.tokens.now self.now.from (E.pre self.now.inner) (E.post self.now.inner) (Q.pre self.now.query) (Q.post self.now.query) }
        requires after { self.now.from ≤ at }
        ensures reads { Reads self.now.tokens.now (reading self.now.tokens.now exprs.quantified place left operator_place word.now (from self.now.tokens.now at)) result }
        ensures moves { IfOk result (λ p. at < p.1) }
    {
        if sees(self.tokens, at, Mark::Reserved(Reserved::Unnest)) {
            return self.like_unnest(at, place, left, operator_place, word);
        }
        self.like_list(at, place, left, operator_place, word)
    }

    /// Behind LIKE without a quantifier.
    #[tactic(auto, unfolding(sql_grammar::specs::Exprs::like_bor))]
    pub fn like_pattern(
        &self,
        at: usize,
        place: u64,
        left: Boxed<Expr>,
        negated: bool,
        operator_place: u64,
    ) -> Read<Boxed<Expr>>
        requires below { Nests self.now.tokens.now self.now.from (E.pre self.now.inner) (E.post self.now.inner) (Q.pre self.now.query) (Q.post self.now.query) }
        requires after { self.now.from ≤ at }
        ensures reads { Reads self.now.tokens.now (reading self.now.tokens.now exprs.like_bor place left negated operator_place (from self.now.tokens.now at)) result }
        ensures moves { IfOk result (λ p. at < p.1) }
    {
        let (right, at) = self.settled(at)?;
        Ok((
            expr_nodes::like(self.alloc, left, negated, operator_place, right, place)?,
            at,
        ))
    }

    /// LIKE, with a quantifier or without.
    #[tactic(auto, unfolding(sql_grammar::specs::Exprs::like_after))]
    pub fn like_after(&self, at: usize, place: u64, left: Boxed<Expr>) -> Read<Boxed<Expr>>
        requires below { Nests self.now.tokens.now self.now.from (E.pre self.now.inner) (E.post self.now.inner) (Q.pre self.now.query) (Q.post self.now.query) }
        requires after { self.now.from ≤ at }
        ensures reads { Reads self.now.tokens.now (reading self.now.tokens.now exprs.like_after place left (from self.now.tokens.now at)) result }
        ensures moves { IfOk result (λ p. at < p.1) }
    {
        let (like, at) = expect(self.tokens, at, Mark::Reserved(Reserved::Like))?;
        let operator_place = like.start;
        if !sees(self.tokens, at, Mark::Quantifier) {
            return self.like_pattern(at, place, left, false, operator_place);
        }
        let (word, at) = expect(self.tokens, at, Mark::Quantifier)?;
        self.quantified(at, place, left, operator_place, word)
    }

    /// Behind BETWEEN.
    #[tactic(auto, unfolding(sql_grammar::specs::Exprs::between_after))]
    pub fn between_after(
        &self,
        at: usize,
        place: u64,
        left: Boxed<Expr>,
        negated: bool,
        operator_place: u64,
    ) -> Read<Boxed<Expr>>
        requires below { Nests self.now.tokens.now self.now.from (E.pre self.now.inner) (E.post self.now.inner) (Q.pre self.now.query) (Q.post self.now.query) }
        requires after { self.now.from ≤ at }
        ensures reads { Reads self.now.tokens.now (reading self.now.tokens.now exprs.between_after place left negated operator_place (from self.now.tokens.now at)) result }
        ensures moves { IfOk result (λ p. at < p.1) }
    {
        let (low, at) = self.settled(at)?;
        let (_, at) = expect(self.tokens, at, Mark::Reserved(Reserved::And))?;
        let (high, at) = self.settled(at)?;
        let subject = left;
        Ok((
            expr_nodes::between(
                self.alloc,
                subject,
                negated,
                operator_place,
                low,
                high,
                place,
            )?,
            at,
        ))
    }

    /// IN over what parentheses hold, which begin at `open_place`.
    pub fn in_held(
        &self,
        place: u64,
        left: Boxed<Expr>,
        negated: bool,
        operator_place: u64,
        open_place: u64,
        held: Held,
    ) -> Result<Boxed<Expr>, OutOfMemory>
        ensures { IfOk result (λ a. a ≡ reading self.now.tokens.now exprs.in_held place left negated operator_place open_place (content held)) }
    {
        match held {
            Held::Query { query } => expr_nodes::in_query(
                self.alloc,
                left,
                negated,
                operator_place,
                query,
                open_place,
                place,
            ),
            Held::Exprs { exprs } => expr_nodes::in_list(
                self.alloc,
                left,
                negated,
                operator_place,
                exprs,
                place,
            ),
        }
    }

    /// Behind IN, before UNNEST.
    pub fn in_unnest(
        &self,
        at: usize,
        place: u64,
        left: Boxed<Expr>,
        negated: bool,
        operator_place: u64,
    ) -> Read<Boxed<Expr>>
        requires below { Nests self.now.tokens.now self.now.from (E.pre self.now.inner) (E.post self.now.inner) (Q.pre self.now.query) (Q.post self.now.query) }
        requires after { self.now.from ≤ at }
        ensures reads { Reads self.now.tokens.now (followed (reading self.now.tokens.now exprs.unnested) (λ b. pure (e.InUnnest left negated operator_place b place)) (from self.now.tokens.now at)) result }
        ensures moves { IfOk result (λ p. at < p.1) }
    {
        let (array, at) = self.unnested(at)?;
        Ok((
            expr_nodes::in_unnest(self.alloc, left, negated, operator_place, array, place)?,
            at,
        ))
    }

    /// Behind IN.
    #[tactic(auto, unfolding(sql_grammar::specs::Exprs::in_after))]
    pub fn in_after(
        &self,
        at: usize,
        place: u64,
        left: Boxed<Expr>,
        negated: bool,
        operator_place: u64,
    ) -> Read<Boxed<Expr>>
        requires below { Nests self.now.tokens.now self.now.from (E.pre self.now.inner) (E.post self.now.inner) (Q.pre self.now.query) (Q.post self.now.query) }
        requires after { self.now.from ≤ at }
        ensures reads { Reads self.now.tokens.now (reading self.now.tokens.now exprs.in_after place left negated operator_place (from self.now.tokens.now at)) result }
        ensures moves { IfOk result (λ p. at < p.1) }
    {
        if sees(self.tokens, at, Mark::Reserved(Reserved::Unnest)) {
            return self.in_unnest(at, place, left, negated, operator_place);
        }
        let (open, at) = expect(self.tokens, at, Mark::Sign(Sign::OpenRound))?;
        let open_place = open.start;
        let (held, at) = self.enclosed(at)?;
        Ok((
            self.in_held(place, left, negated, operator_place, open_place, held)?,
            at,
        ))
    }

    /// `DISTINCT FROM bor` behind IS.
    pub fn distinct_from(
        &self,
        at: usize,
        place: u64,
        left: Boxed<Expr>,
        negated: bool,
        operator_place: u64,
    ) -> Read<Boxed<Expr>>
        requires below { Nests self.now.tokens.now self.now.from (E.pre self.now.inner) (E.post self.now.inner) (Q.pre self.now.query) (Q.post self.now.query) }
        requires after { self.now.from ≤ at }
        ensures reads { Reads self.now.tokens.now (followed (token (spec.reserved r.Distinct)) (λ t. followed (token (spec.reserved r.From)) (λ x. followed (reading self.now.tokens.now exprs.bor) (λ b. pure (e.Distinct left negated operator_place b place)))) (from self.now.tokens.now at)) result }
        ensures moves { IfOk result (λ p. at < p.1) }
    {
        let (_, at) = expect(self.tokens, at, Mark::Reserved(Reserved::Distinct))?;
        let (_, at) = expect(self.tokens, at, Mark::Reserved(Reserved::From))?;
        let (right, at) = self.settled(at)?;
        Ok((
            expr_nodes::distinct(self.alloc, left, negated, operator_place, right, place)?,
            at,
        ))
    }

    /// Behind IS, or IS NOT.
    #[tactic(auto, unfolding(sql_grammar::specs::Exprs::is_test))]
    pub fn is_test(
        &self,
        at: usize,
        place: u64,
        left: Boxed<Expr>,
        negated: bool,
        operator_place: u64,
    ) -> Read<Boxed<Expr>>
        requires below { Nests self.now.tokens.now self.now.from (E.pre self.now.inner) (E.post self.now.inner) (Q.pre self.now.query) (Q.post self.now.query) }
        requires after { self.now.from ≤ at }
        ensures reads { Reads self.now.tokens.now (reading self.now.tokens.now exprs.is_test place left negated operator_place (from self.now.tokens.now at)) result }
        ensures moves { IfOk result (λ p. at < p.1) }
    {
        if sees(self.tokens, at, Mark::Reserved(Reserved::Distinct)) {
            return self.distinct_from(at, place, left, negated, operator_place);
        }
        let (token, at) = expect(self.tokens, at, Mark::Test)?;
        let test = told_test(token);
        Ok((
            expr_nodes::is(self.alloc, left, negated, test, operator_place, place)?,
            at,
        ))
    }

    /// `IS [NOT] ..`
    #[tactic(auto, unfolding(sql_grammar::specs::Exprs::is_after))]
    pub fn is_after(&self, at: usize, place: u64, left: Boxed<Expr>) -> Read<Boxed<Expr>>
        requires below { Nests self.now.tokens.now self.now.from (E.pre self.now.inner) (E.post self.now.inner) (Q.pre self.now.query) (Q.post self.now.query) }
        requires after { self.now.from ≤ at }
        ensures reads { Reads self.now.tokens.now (reading self.now.tokens.now exprs.is_after place left (from self.now.tokens.now at)) result }
        ensures moves { IfOk result (λ p. at < p.1) }
    {
        let (is, at) = expect(self.tokens, at, Mark::Reserved(Reserved::Is))?;
        let operator_place = is.start;
        if !sees(self.tokens, at, Mark::Reserved(Reserved::Not)) {
            return self.is_test(at, place, left, false, operator_place);
        }
        let (_, at) = expect(self.tokens, at, Mark::Reserved(Reserved::Not))?;
        self.is_test(at, place, left, true, operator_place)
    }

    /// Behind NOT.
    pub fn negated_by(
        &self,
        at: usize,
        place: u64,
        left: Boxed<Expr>,
        operator_place: u64,
        start: ComparisonStart,
    ) -> Read<Boxed<Expr>>
        requires below { Nests self.now.tokens.now self.now.from (E.pre self.now.inner) (E.post self.now.inner) (Q.pre self.now.query) (Q.post self.now.query) }
        requires after { self.now.from ≤ at }
        ensures reads { Reads self.now.tokens.now (reading self.now.tokens.now exprs.negated_by place left operator_place (comparison_class start) (from self.now.tokens.now at)) result }
        ensures moves { IfOk result (λ p. at < p.1) }
    {
        match start {
            ComparisonStart::Like => {
                let (_, at) = expect(self.tokens, at, Mark::Reserved(Reserved::Like))?;
                self.like_pattern(at, place, left, true, operator_place)
            }
            ComparisonStart::Between => {
                let (_, at) = expect(self.tokens, at, Mark::Reserved(Reserved::Between))?;
                self.between_after(at, place, left, true, operator_place)
            }
            ComparisonStart::In => {
                let (_, at) = expect(self.tokens, at, Mark::Reserved(Reserved::In))?;
                self.in_after(at, place, left, true, operator_place)
            }
            ComparisonStart::Sign
            | ComparisonStart::Is
            | ComparisonStart::Not
            | ComparisonStart::Other => { Err(refusal_at(self.tokens, at)) }
        }
    }

    /// `NOT` with LIKE, BETWEEN or IN.
    #[tactic(auto, unfolding(sql_grammar::specs::Exprs::not_after))]
    pub fn not_after(&self, at: usize, place: u64, left: Boxed<Expr>) -> Read<Boxed<Expr>>
        requires below { Nests self.now.tokens.now self.now.from (E.pre self.now.inner) (E.post self.now.inner) (Q.pre self.now.query) (Q.post self.now.query) }
        requires after { self.now.from ≤ at }
        ensures reads { Reads self.now.tokens.now (reading self.now.tokens.now exprs.not_after place left (from self.now.tokens.now at)) result }
        ensures moves { IfOk result (λ p. at < p.1) }
    {
        let (not, at) = expect(self.tokens, at, Mark::Reserved(Reserved::Not))?;
        let operator_place = not.start;
        let start = comparison_start(self.tokens, at);
        self.negated_by(at, place, left, operator_place, start)
    }

    /// A comparison that goes on so.
    pub fn compared_by(
        &self,
        at: usize,
        place: u64,
        left: Boxed<Expr>,
        start: ComparisonStart,
    ) -> Read<Boxed<Expr>>
        requires below { Nests self.now.tokens.now self.now.from (E.pre self.now.inner) (E.post self.now.inner) (Q.pre self.now.query) (Q.post self.now.query) }
        requires after { self.now.from ≤ at }
        ensures reads { Reads self.now.tokens.now (reading self.now.tokens.now exprs.compared_by place left (comparison_class start) (from self.now.tokens.now at)) result }
        ensures moves { IfOk result (λ p. at ≤ p.1) }
        ensures stays { IfOk result (λ p. p.1 ≡ at → p.0 ≡ left) }
    {
        match start {
            ComparisonStart::Sign => self.sign_after(at, place, left),
            ComparisonStart::Like => self.like_after(at, place, left),
            ComparisonStart::Between => {
                let (token, at) = expect(self.tokens, at, Mark::Reserved(Reserved::Between))?;
                self.between_after(at, place, left, false, token.start)
            }
            ComparisonStart::In => {
                let (token, at) = expect(self.tokens, at, Mark::Reserved(Reserved::In))?;
                self.in_after(at, place, left, false, token.start)
            }
            ComparisonStart::Is => self.is_after(at, place, left),
            ComparisonStart::Not => self.not_after(at, place, left),
            ComparisonStart::Other => Ok((left, at)),
        }
    }

    /// The right side of a `>` that was kept.
    pub fn greater_than(
        &self,
        at: usize,
        place: u64,
        left: Boxed<Expr>,
        operator_place: u64,
    ) -> Read<Boxed<Expr>>
        requires below { Nests self.now.tokens.now self.now.from (E.pre self.now.inner) (E.post self.now.inner) (Q.pre self.now.query) (Q.post self.now.query) }
        requires after { self.now.from ≤ at }
        ensures reads { Reads self.now.tokens.now (followed (reading self.now.tokens.now exprs.bor) (λ b. pure (e.Compare left comparison.Greater operator_place b place)) (from self.now.tokens.now at)) result }
        ensures moves { IfOk result (λ p. at < p.1) }
    {
        let (right, at) = self.settled(at)?;
        let operator = Comparison::Greater;
        Ok((
            expr_nodes::compare(self.alloc, left, operator, operator_place, right, place)?,
            at,
        ))
    }

    /// A comparison behind its left side; a `>` that was kept is its sign.
    pub fn compared(&self, at: usize, place: u64, left: Pending) -> Read<Boxed<Expr>>
        requires below { Nests self.now.tokens.now self.now.from (E.pre self.now.inner) (E.post self.now.inner) (Q.pre self.now.query) (Q.post self.now.query) }
        requires after { self.now.from ≤ at }
        ensures reads { Reads self.now.tokens.now (reading self.now.tokens.now exprs.compared place left (from self.now.tokens.now at)) result }
        ensures moves { IfOk result (λ p. at ≤ p.1) }
        ensures stays { IfOk result (λ p. p.1 ≡ at → p.0 ≡ left.0) }
    {
        let (left, kept) = left;
        match kept {
            Some(token) => self.greater_than(at, place, left, token.start()),
            None => {
                let start = comparison_start(self.tokens, at);
                self.compared_by(at, place, left, start)
            }
        }
    }

    /// `comp`
    #[tactic(auto, unfolding(sql_grammar::specs::Exprs::comparison))]
    pub fn comparison(&self, at: usize) -> Read<Boxed<Expr>>
        requires below { Nests self.now.tokens.now self.now.from (E.pre self.now.inner) (E.post self.now.inner) (Q.pre self.now.query) (Q.post self.now.query) }
        requires after { self.now.from ≤ at }
        ensures reads { Reads self.now.tokens.now (reading self.now.tokens.now exprs.comparison (from self.now.tokens.now at)) result }
        ensures moves { IfOk result (λ p. at < p.1) }
    {
        let place = start_at(self.tokens, at);
        let (left, at) = self.bit_or(at)?;
        self.compared(at, place, left)
    }
}
