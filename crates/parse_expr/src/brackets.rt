//! Expressions and queries behind a token, and in brackets.
ghost use Rattle.std.specs.Prelude.{◌≡◌, ◌<◌, ◌≤◌, IfOk};
ghost use Rattle.fronts.specs.Readers.{many};
ghost use Rattle.sql_ast.specs.declared.words.Sign.TheVariants as sign;
ghost use Rattle.sql_ast.specs.Marks as spec;
ghost use Rattle.sql_grammar.specs.Exprs as exprs;
ghost use Rattle.parse_expr.specs.Nests.{Nests};
ghost use Rattle.parse_words.specs.Marked.{marked};
ghost use Rattle.parse_words.specs.Reads.{from, reading, turns, Reads};

use crate::reader::Reader;
use crate::starts::{Opening, Start};
use parse_words::cursor::{Read, expect};
use parse_words::marks::Mark;
use parse_words::repeat::many_boxed;
use sql_ast::{Expr, Query, Sign};
use sql_nodes::boxes::one_of;
use sql_types::{Boxed, Items};

impl<
    'a,
    E: Fn(usize, Start) -> Read<Boxed<Expr>>,
    Q: Fn(usize, Opening) -> Read<Boxed<Query>>,
> Reader<'a, E, Q> {
    /// A token of a class, and an expression.
    #[tactic(auto, unfolding(sql_grammar::specs::Exprs::after))]
    pub fn after(&self, at: usize, mark: Mark) -> Read<Boxed<Expr>>
        requires below { Nests self.now.tokens.now self.now.from (E.pre self.now.inner) (E.post self.now.inner) (Q.pre self.now.query) (Q.post self.now.query) }
        requires after { self.now.from ≤ at }
        ensures reads { Reads self.now.tokens.now (reading self.now.tokens.now exprs.after (marked mark) (from self.now.tokens.now at)) result }
        ensures moves { IfOk result (λ p. at < p.1) }
    {
        let (_, at) = expect(self.tokens, at, mark)?;
        self.deeper(at)
    }

    /// `"(" expr ")"`
    #[tactic(auto, unfolding(sql_grammar::specs::Exprs::bracketed))]
    pub fn bracketed(&self, at: usize) -> Read<Boxed<Expr>>
        requires below { Nests self.now.tokens.now self.now.from (E.pre self.now.inner) (E.post self.now.inner) (Q.pre self.now.query) (Q.post self.now.query) }
        requires after { self.now.from ≤ at }
        ensures reads { Reads self.now.tokens.now (reading self.now.tokens.now exprs.bracketed (from self.now.tokens.now at)) result }
        ensures moves { IfOk result (λ p. at < p.1) }
    {
        let (_, at) = expect(self.tokens, at, Mark::Sign(Sign::OpenRound))?;
        let (expr, at) = self.deeper(at)?;
        let (_, at) = expect(self.tokens, at, Mark::Sign(Sign::CloseRound))?;
        Ok((expr, at))
    }

    /// `"(" query ")"`, and the place of the first bracket.
    #[tactic(auto, unfolding(sql_grammar::specs::Exprs::bracketed_query))]
    pub fn bracketed_query(&self, at: usize) -> Read<(Boxed<Query>, u64)>
        requires below { Nests self.now.tokens.now self.now.from (E.pre self.now.inner) (E.post self.now.inner) (Q.pre self.now.query) (Q.post self.now.query) }
        requires after { self.now.from ≤ at }
        ensures reads { Reads self.now.tokens.now (reading self.now.tokens.now exprs.bracketed_query (from self.now.tokens.now at)) result }
        ensures moves { IfOk result (λ p. at < p.1) }
    {
        let (open, at) = expect(self.tokens, at, Mark::Sign(Sign::OpenRound))?;
        let place = open.start;
        let (query, at) = self.deeper_query(at)?;
        let (_, at) = expect(self.tokens, at, Mark::Sign(Sign::CloseRound))?;
        Ok(((query, place), at))
    }

    /// `{"," expr}` behind the expressions that were found.
    pub fn comma_exprs(&self, at: usize, found: Items<Expr>) -> Read<Items<Expr>>
        requires below { Nests self.now.tokens.now self.now.from (E.pre self.now.inner) (E.post self.now.inner) (Q.pre self.now.query) (Q.post self.now.query) }
        requires after { self.now.from ≤ at }
        ensures reads { Reads self.now.tokens.now (many (spec.sign sign.Comma) (reading self.now.tokens.now exprs.after (spec.sign sign.Comma)) (turns self.now.tokens.now) found (from self.now.tokens.now at)) result }
        ensures moves { IfOk result (λ p. at ≤ p.1) }
        ensures stays { IfOk result (λ p. p.1 ≡ at → p.0 ≡ found) }
    {
        many_boxed(
            self.tokens,
            at,
            Mark::Sign(Sign::Comma),
            found,
            |place| self.after(place, Mark::Sign(Sign::Comma)),
        )
    }

    /// `{"," expr}` behind the expressions that were found, and the sign that closes them.
    #[tactic(auto, unfolding(sql_grammar::specs::Exprs::list_closed))]
    pub fn list_closed(&self, at: usize, close: Sign, found: Items<Expr>) -> Read<Items<Expr>>
        requires below { Nests self.now.tokens.now self.now.from (E.pre self.now.inner) (E.post self.now.inner) (Q.pre self.now.query) (Q.post self.now.query) }
        requires after { self.now.from ≤ at }
        ensures reads { Reads self.now.tokens.now (reading self.now.tokens.now exprs.list_closed close found (from self.now.tokens.now at)) result }
        ensures moves { IfOk result (λ p. at < p.1) }
    {
        let (exprs, at) = self.comma_exprs(at, found)?;
        let (_, at) = expect(self.tokens, at, Mark::Sign(close))?;
        Ok((exprs, at))
    }

    /// `"(" expr {"," expr} ")"`
    #[tactic(auto, unfolding(sql_grammar::specs::Exprs::list))]
    pub fn list(&self, at: usize) -> Read<Items<Expr>>
        requires below { Nests self.now.tokens.now self.now.from (E.pre self.now.inner) (E.post self.now.inner) (Q.pre self.now.query) (Q.post self.now.query) }
        requires after { self.now.from ≤ at }
        ensures reads { Reads self.now.tokens.now (reading self.now.tokens.now exprs.list (from self.now.tokens.now at)) result }
        ensures moves { IfOk result (λ p. at < p.1) }
    {
        let (_, at) = expect(self.tokens, at, Mark::Sign(Sign::OpenRound))?;
        let (first, at) = self.deeper(at)?;
        self.list_closed(at, Sign::CloseRound, one_of(self.alloc, first)?)
    }
}
