//! Expressions behind what was read of them.
ghost use Rattle.std.specs.Prelude.{◌≡◌, ◌≤◌, IfOk};
ghost use Rattle.sql_grammar.specs.Exprs as exprs;
ghost use Rattle.parse_expr.specs.Nests.{Nests};
ghost use Rattle.parse_words.specs.Reads.{from, reading, Reads};

use crate::reader::Reader;
use crate::starts::{Opening, Start};
use parse_words::cursor::Read;
use sql_ast::{Expr, Query};
use sql_types::Boxed;

impl<
    'a,
    E: Fn(usize, Start) -> Read<Boxed<Expr>>,
    Q: Fn(usize, Opening) -> Read<Boxed<Query>>,
> Reader<'a, E, Q> {
    /// An expression that goes on behind a postfix which begins at this byte.
    #[tactic(auto, unfolding(sql_grammar::specs::Exprs::expr_from))]
    pub fn expr_from(&self, at: usize, place: u64, first: Boxed<Expr>) -> Read<Boxed<Expr>>
        requires below { Nests self.now.tokens.now self.now.from (E.pre self.now.inner) (E.post self.now.inner) (Q.pre self.now.query) (Q.post self.now.query) }
        requires after { self.now.from ≤ at }
        ensures reads { Reads self.now.tokens.now (reading self.now.tokens.now exprs.expr_from place first (from self.now.tokens.now at)) result }
        ensures moves { IfOk result (λ p. at ≤ p.1) }
        ensures stays { IfOk result (λ p. p.1 ≡ at → p.0 ≡ first) }
    {
        let (product, at) = self.product_from(at, place, first)?;
        let (sum, at) = self.sum_from(at, place, product)?;
        let (shift, at) = self.shift_from(at, place, sum)?;
        let (bits, at) = self.bit_and_from(at, place, shift)?;
        let (bits, at) = self.bit_xor_from(at, place, bits)?;
        let (bits, at) = self.bit_or_from(at, place, bits)?;
        let (test, at) = self.compared(at, place, bits)?;
        let (test, at) = self.conjunction_from(at, place, test)?;
        self.disjunction_from(at, place, test)
    }

    /// The same behind a basic expression.
    #[tactic(auto, unfolding(sql_grammar::specs::Exprs::expr_after))]
    pub fn expr_after(&self, at: usize, place: u64, basic: Boxed<Expr>) -> Read<Boxed<Expr>>
        requires below { Nests self.now.tokens.now self.now.from (E.pre self.now.inner) (E.post self.now.inner) (Q.pre self.now.query) (Q.post self.now.query) }
        requires after { self.now.from ≤ at }
        ensures reads { Reads self.now.tokens.now (reading self.now.tokens.now exprs.expr_after place basic (from self.now.tokens.now at)) result }
        ensures moves { IfOk result (λ p. at ≤ p.1) }
        ensures stays { IfOk result (λ p. p.1 ≡ at → p.0 ≡ basic) }
    {
        let (first, at) = self.postfix_from(at, place, basic)?;
        self.expr_from(at, place, first)
    }
}
