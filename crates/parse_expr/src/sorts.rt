//! ORDER BY of a call and of a query.
ghost use Rattle.std.specs.Prelude.{◌≡◌, ◌<◌, ◌≤◌, IfOk};
ghost use Rattle.fronts.specs.Readers.{many};
ghost use Rattle.sql_ast.specs.declared.words.Sign.TheVariants as sign;
ghost use Rattle.sql_ast.specs.Marks as spec;
ghost use Rattle.sql_grammar.specs.Exprs as exprs;
ghost use Rattle.parse_expr.specs.Nests.{Nests};
ghost use Rattle.parse_words.specs.Reads.{from, reading, turns, Reads};

use crate::reader::Reader;
use crate::starts::{Opening, Start};
use parse_words::cursor::{Read, expect, sees, start_at};
use parse_words::marks::Mark;
use parse_words::options::{direction, nulls_place};
use parse_words::repeat::many_boxed;
use sql_ast::{Expr, Query, Reserved, Sign, Sort};
use sql_nodes::boxes::one_of;
use sql_nodes::part_nodes;
use sql_types::{Boxed, Items};

impl<
    'a,
    E: Fn(usize, Start) -> Read<Boxed<Expr>>,
    Q: Fn(usize, Opening) -> Read<Boxed<Query>>,
> Reader<'a, E, Q> {
    /// `expr [ASC | DESC] [NULLS (FIRST | LAST)]`, behind a token.
    #[tactic(auto, unfolding(sql_grammar::specs::Exprs::sort))]
    pub fn sort(&self, at: usize) -> Read<Boxed<Sort<Expr>>>
        requires below { Nests self.now.tokens.now self.now.from (E.pre self.now.inner) (E.post self.now.inner) (Q.pre self.now.query) (Q.post self.now.query) }
        requires after { self.now.from < at }
        ensures reads { Reads self.now.tokens.now (reading self.now.tokens.now exprs.sort (from self.now.tokens.now at)) result }
        ensures moves { IfOk result (λ p. at ≤ p.1) }
    {
        let place = start_at(self.tokens, at);
        let (expr, at) = self.deeper(at)?;
        let (descending, at) = direction(self.tokens, at)?;
        let (nulls, at) = nulls_place(self.tokens, at)?;
        Ok((
            part_nodes::sort(self.alloc, expr, descending, nulls, place)?,
            at,
        ))
    }

    /// `"," sort`
    #[tactic(auto, unfolding(sql_grammar::specs::Exprs::comma_sort))]
    pub fn comma_sort(&self, at: usize) -> Read<Boxed<Sort<Expr>>>
        requires below { Nests self.now.tokens.now self.now.from (E.pre self.now.inner) (E.post self.now.inner) (Q.pre self.now.query) (Q.post self.now.query) }
        requires after { self.now.from ≤ at }
        ensures reads { Reads self.now.tokens.now (reading self.now.tokens.now exprs.comma_sort (from self.now.tokens.now at)) result }
        ensures moves { IfOk result (λ p. at < p.1) }
    {
        let (_, at) = expect(self.tokens, at, Mark::Sign(Sign::Comma))?;
        self.sort(at)
    }

    /// `{"," sort}` behind the sorts that were found.
    pub fn comma_sorts(&self, at: usize, found: Items<Sort<Expr>>) -> Read<Items<Sort<Expr>>>
        requires below { Nests self.now.tokens.now self.now.from (E.pre self.now.inner) (E.post self.now.inner) (Q.pre self.now.query) (Q.post self.now.query) }
        requires after { self.now.from ≤ at }
        ensures reads { Reads self.now.tokens.now (many (spec.sign sign.Comma) (reading self.now.tokens.now exprs.comma_sort) (turns self.now.tokens.now) found (from self.now.tokens.now at)) result }
        ensures moves { IfOk result (λ p. at ≤ p.1) }
        ensures stays { IfOk result (λ p. p.1 ≡ at → p.0 ≡ found) }
    {
        many_boxed(
            self.tokens,
            at,
            Mark::Sign(Sign::Comma),
            found,
            |place| self.comma_sort(place),
        )
    }

    /// `[ORDER BY sort {"," sort}]`
    #[tactic(auto, unfolding(sql_grammar::specs::Exprs::order))]
    pub fn order(&self, at: usize) -> Read<Items<Sort<Expr>>>
        requires below { Nests self.now.tokens.now self.now.from (E.pre self.now.inner) (E.post self.now.inner) (Q.pre self.now.query) (Q.post self.now.query) }
        requires after { self.now.from ≤ at }
        ensures reads { Reads self.now.tokens.now (reading self.now.tokens.now exprs.order (from self.now.tokens.now at)) result }
        ensures moves { IfOk result (λ p. at ≤ p.1) }
    {
        if !sees(self.tokens, at, Mark::Reserved(Reserved::Order)) {
            return Ok((Items::new(self.alloc), at));
        }
        let (_, at) = expect(self.tokens, at, Mark::Reserved(Reserved::Order))?;
        let (_, at) = expect(self.tokens, at, Mark::Reserved(Reserved::By))?;
        let (first, at) = self.sort(at)?;
        self.comma_sorts(at, one_of(self.alloc, first)?)
    }
}
