//! WITH as an expression.
ghost use Rattle.std.specs.Prelude.{◌≡◌, ◌<◌, ◌≤◌, IfOk, [], ◌∷◌, Some, None};
ghost use Rattle.fronts.specs.Readers.{if_comes, pure};
ghost use Rattle.sql_names.specs.declared.words.Reserved.TheVariants as r;
ghost use Rattle.sql_ast.specs.declared.words.Sign.TheVariants as sign;
ghost use Rattle.sql_ast.specs.Marks as spec;
ghost use Rattle.sql_grammar.specs.Exprs as exprs;
ghost use Rattle.sql_grammar.specs.Ways.{until};
ghost use Rattle.parse_expr.specs.Steps.{followed};
ghost use Rattle.parse_expr.specs.Nests.{Nests};
ghost use Rattle.parse_words.specs.Reads.{between, from, reading, turns, Reads};

use crate::reader::Reader;
use crate::starts::{Opening, Start};
use crate::variables::{part_of, single_name};
use parse_words::cursor::{Read, expect, refusal_at, sees};
use parse_words::marks::Mark;
use parse_words::repeat::{Ended, until};
use parse_words::saying::name_of;
use sql_ast::{Binding, Expr, Query, Reserved, Sign, Token};
use sql_nodes::boxes::one_of;
use sql_nodes::{expr_nodes, part_nodes};
use sql_types::{Boxed, Items};

impl<
    'a,
    E: Fn(usize, Start) -> Read<Boxed<Expr>>,
    Q: Fn(usize, Opening) -> Read<Boxed<Query>>,
> Reader<'a, E, Q> {
    /// `AS expr` behind a variable.
    #[tactic(auto, unfolding(sql_grammar::specs::Exprs::bound))]
    pub fn bound(&self, at: usize, name: &Token) -> Read<Boxed<Binding<Expr>>>
        requires below { Nests self.now.tokens.now self.now.from (E.pre self.now.inner) (E.post self.now.inner) (Q.pre self.now.query) (Q.post self.now.query) }
        requires after { self.now.from ≤ at }
        ensures reads { Reads self.now.tokens.now (reading self.now.tokens.now exprs.bound name.now (from self.now.tokens.now at)) result }
        ensures moves { IfOk result (λ p. at < p.1) }
    {
        let (_, at) = expect(self.tokens, at, Mark::Reserved(Reserved::As))?;
        let (expr, at) = self.deeper(at)?;
        let name = name_of(self.alloc, name)?;
        Ok((part_nodes::binding(self.alloc, name, expr)?, at))
    }

    /// Behind an expression that was read from the token at `first` on: at AS its token is one more variable, else it is the result, which ends the bindings.
    pub fn with_after(
        &self,
        at: usize,
        first: usize,
        expr: Boxed<Expr>,
    ) -> Read<Ended<Binding<Expr>, Boxed<Expr>>>
        requires below { Nests self.now.tokens.now self.now.from (E.pre self.now.inner) (E.post self.now.inner) (Q.pre self.now.query) (Q.post self.now.query) }
        requires after { self.now.from ≤ at }
        ensures reads { Reads self.now.tokens.now (reading self.now.tokens.now exprs.with_after (between self.now.tokens.now first at) expr (from self.now.tokens.now at)) result }
        ensures moves { IfOk result (λ p. at ≤ p.1) }
    {
        match single_name(part_of(self.tokens, first, at)) {
            None => Ok(((Items::new(self.alloc), Some(expr)), at)),
            Some(name) => self.binding_or_result(at, name, expr),
        }
    }

    /// The same where that is a name alone.
    pub fn binding_or_result(
        &self,
        at: usize,
        name: &Token,
        expr: Boxed<Expr>,
    ) -> Read<Ended<Binding<Expr>, Boxed<Expr>>>
        requires below { Nests self.now.tokens.now self.now.from (E.pre self.now.inner) (E.post self.now.inner) (Q.pre self.now.query) (Q.post self.now.query) }
        requires after { self.now.from ≤ at }
        ensures reads { Reads self.now.tokens.now (if_comes (spec.reserved r.As) (followed (reading self.now.tokens.now exprs.bound name.now) (λ b. pure (b ∷ [], None))) (pure ([], Some expr)) (from self.now.tokens.now at)) result }
        ensures moves { IfOk result (λ p. at ≤ p.1) }
    {
        if !sees(self.tokens, at, Mark::Reserved(Reserved::As)) {
            return Ok(((Items::new(self.alloc), Some(expr)), at));
        }
        let (binding, at) = self.bound(at, name)?;
        Ok(((one_of(self.alloc, binding)?, None), at))
    }

    /// `"," name AS expr`, or a comma and the result.
    #[tactic(auto, unfolding(sql_grammar::specs::Exprs::with_item))]
    pub fn with_item(&self, at: usize) -> Read<Ended<Binding<Expr>, Boxed<Expr>>>
        requires below { Nests self.now.tokens.now self.now.from (E.pre self.now.inner) (E.post self.now.inner) (Q.pre self.now.query) (Q.post self.now.query) }
        requires after { self.now.from ≤ at }
        ensures reads { Reads self.now.tokens.now (reading self.now.tokens.now exprs.with_item (from self.now.tokens.now at)) result }
        ensures moves { IfOk result (λ p. at < p.1) }
    {
        let (_, at) = expect(self.tokens, at, Mark::Sign(Sign::Comma))?;
        let (expr, behind) = self.deeper(at)?;
        self.with_after(behind, at, expr)
    }

    /// `{"," name AS expr} "," expr` behind the bindings that were found.
    pub fn with_items(
        &self,
        at: usize,
        found: Items<Binding<Expr>>,
    ) -> Read<Ended<Binding<Expr>, Boxed<Expr>>>
        requires below { Nests self.now.tokens.now self.now.from (E.pre self.now.inner) (E.post self.now.inner) (Q.pre self.now.query) (Q.post self.now.query) }
        requires after { self.now.from ≤ at }
        ensures reads { Reads self.now.tokens.now (until (spec.sign sign.Comma) (reading self.now.tokens.now exprs.with_item) (turns self.now.tokens.now) found (from self.now.tokens.now at)) result }
        ensures moves { IfOk result (λ p. at ≤ p.1) }
        ensures stays { IfOk result (λ p. p.1 ≡ at → p.0 ≡ (found, None)) }
    {
        until(
            self.tokens,
            at,
            Mark::Sign(Sign::Comma),
            found,
            |place| self.with_item(place),
        )
    }

    /// The bracket behind the result. Without a result what comes next fits nothing.
    pub fn with_end(
        &self,
        at: usize,
        place: u64,
        bindings: Items<Binding<Expr>>,
        end: Option<Boxed<Expr>>,
    ) -> Read<Boxed<Expr>>
        requires below { Nests self.now.tokens.now self.now.from (E.pre self.now.inner) (E.post self.now.inner) (Q.pre self.now.query) (Q.post self.now.query) }
        requires after { self.now.from ≤ at }
        ensures reads { Reads self.now.tokens.now (reading self.now.tokens.now exprs.with_end place bindings end (from self.now.tokens.now at)) result }
        ensures moves { IfOk result (λ p. at < p.1) }
    {
        let Some(result) = end else {
            return Err(refusal_at(self.tokens, at));
        };
        let (_, at) = expect(self.tokens, at, Mark::Sign(Sign::CloseRound))?;
        Ok((expr_nodes::with(self.alloc, bindings, result, place)?, at))
    }

    /// WITH behind its word, which begins at this byte.
    #[tactic(auto, unfolding(sql_grammar::specs::Exprs::with_body))]
    pub fn with_body(&self, at: usize, place: u64) -> Read<Boxed<Expr>>
        requires below { Nests self.now.tokens.now self.now.from (E.pre self.now.inner) (E.post self.now.inner) (Q.pre self.now.query) (Q.post self.now.query) }
        requires after { self.now.from ≤ at }
        ensures reads { Reads self.now.tokens.now (reading self.now.tokens.now exprs.with_body place (from self.now.tokens.now at)) result }
        ensures moves { IfOk result (λ p. at < p.1) }
    {
        let (_, at) = expect(self.tokens, at, Mark::Sign(Sign::OpenRound))?;
        let (name, at) = expect(self.tokens, at, Mark::Name)?;
        let (first, at) = self.bound(at, name)?;
        let ((bindings, end), at) = self.with_items(at, one_of(self.alloc, first)?)?;
        self.with_end(at, place, bindings, end)
    }

    /// `WITH "(" name AS expr "," {name AS expr ","} expr ")"`
    #[tactic(auto, unfolding(sql_grammar::specs::Exprs::with_expr))]
    pub fn with_expr(&self, at: usize) -> Read<Boxed<Expr>>
        requires below { Nests self.now.tokens.now self.now.from (E.pre self.now.inner) (E.post self.now.inner) (Q.pre self.now.query) (Q.post self.now.query) }
        requires after { self.now.from ≤ at }
        ensures reads { Reads self.now.tokens.now (reading self.now.tokens.now exprs.with_expr (from self.now.tokens.now at)) result }
        ensures moves { IfOk result (λ p. at < p.1) }
    {
        let (word, at) = expect(self.tokens, at, Mark::Reserved(Reserved::With))?;
        self.with_body(at, word.start)
    }
}
