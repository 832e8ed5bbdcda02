//! Arrays.
ghost use Rattle.std.specs.Prelude.{◌<◌, ◌≤◌, IfOk, [], ◌∷◌, Some};
ghost use Rattle.fronts.specs.Readers.{if_comes, pure, token};
ghost use Rattle.sql_ast.specs.declared.words.Sign.TheVariants as sign;
ghost use Rattle.sql_ast.specs.declared.expr.Expr.TheVariants as e;
ghost use Rattle.sql_ast.specs.Marks as spec;
ghost use Rattle.sql_grammar.specs.Exprs as exprs;
ghost use Rattle.sql_grammar.specs.Words as words;
ghost use Rattle.parse_expr.specs.Steps.{followed};
ghost use Rattle.parse_expr.specs.Nests.{Nests};
ghost use Rattle.parse_words.specs.Reads.{from, nested, reading, turns, Reads};

use crate::reader::Reader;
use crate::starts::{Opening, Start};
use parse_words::cursor::{Read, expect, sees};
use parse_words::marks::Mark;
use parse_words::types::whole_type;
use sql_ast::{Expr, Query, Reserved, Sign, TypeSpelling};
use sql_nodes::boxes::one_of;
use sql_nodes::expr_nodes;
use sql_types::{Boxed, Items};

impl<
    'a,
    E: Fn(usize, Start) -> Read<Boxed<Expr>>,
    Q: Fn(usize, Opening) -> Read<Boxed<Query>>,
> Reader<'a, E, Q> {
    /// `[expr {"," expr}] "]"`
    pub fn array_items(&self, at: usize) -> Read<Items<Expr>>
        requires below { Nests self.now.tokens.now self.now.from (E.pre self.now.inner) (E.post self.now.inner) (Q.pre self.now.query) (Q.post self.now.query) }
        requires after { self.now.from < at }
        ensures reads { Reads self.now.tokens.now (if_comes (spec.sign sign.CloseSquare) (followed (token (spec.sign sign.CloseSquare)) (λ t. pure [])) (followed ((nested self.now.tokens.now).inner) (λ a. reading self.now.tokens.now exprs.list_closed sign.CloseSquare (a ∷ []))) (from self.now.tokens.now at)) result }
        ensures moves { IfOk result (λ p. at < p.1) }
    {
        if sees(self.tokens, at, Mark::Sign(Sign::CloseSquare)) {
            let (_, at) = expect(self.tokens, at, Mark::Sign(Sign::CloseSquare))?;
            return Ok((Items::new(self.alloc), at));
        }
        let (first, at) = self.deeper(at)?;
        self.list_closed(at, Sign::CloseSquare, one_of(self.alloc, first)?)
    }

    /// `"[" [expr {"," expr}] "]"` of an array that begins at this byte, if not here, and whose element type was read, if one was written.
    #[tactic(auto, unfolding(sql_grammar::specs::Exprs::array_from))]
    pub fn array_from(
        &self,
        at: usize,
        element: Option<TypeSpelling>,
        begun: Option<u64>,
    ) -> Read<Boxed<Expr>>
        requires below { Nests self.now.tokens.now self.now.from (E.pre self.now.inner) (E.post self.now.inner) (Q.pre self.now.query) (Q.post self.now.query) }
        requires after { self.now.from ≤ at }
        ensures reads { Reads self.now.tokens.now (reading self.now.tokens.now exprs.array_from element begun (from self.now.tokens.now at)) result }
        ensures moves { IfOk result (λ p. at < p.1) }
    {
        let (open, at) = expect(self.tokens, at, Mark::Sign(Sign::OpenSquare))?;
        let (items, at) = self.array_items(at)?;
        let open_place = open.start;
        let place = begun.unwrap_or(open_place);
        Ok((
            expr_nodes::array(self.alloc, element, items, open_place, place)?,
            at,
        ))
    }

    /// `"(" query ")"` behind ARRAY, which begins at this byte.
    pub fn array_query(&self, at: usize, place: u64) -> Read<Boxed<Expr>>
        requires below { Nests self.now.tokens.now self.now.from (E.pre self.now.inner) (E.post self.now.inner) (Q.pre self.now.query) (Q.post self.now.query) }
        requires after { self.now.from ≤ at }
        ensures reads { Reads self.now.tokens.now (followed (reading self.now.tokens.now exprs.bracketed_query) (λ q. pure (e.ArrayQuery q.0 q.1 place)) (from self.now.tokens.now at)) result }
        ensures moves { IfOk result (λ p. at < p.1) }
    {
        let ((query, open_place), at) = self.bracketed_query(at)?;
        Ok((
            expr_nodes::array_query(self.alloc, query, open_place, place)?,
            at,
        ))
    }

    /// `"<" type ">" "[" .. "]"` behind ARRAY, which begins at this byte.
    pub fn typed_array(&self, at: usize, place: u64) -> Read<Boxed<Expr>>
        requires below { Nests self.now.tokens.now self.now.from (E.pre self.now.inner) (E.post self.now.inner) (Q.pre self.now.query) (Q.post self.now.query) }
        requires after { self.now.from ≤ at }
        ensures reads { Reads self.now.tokens.now (followed (token (spec.sign sign.Less)) (λ t. followed (words.whole_type (turns self.now.tokens.now)) (λ y. followed (token (spec.sign sign.Greater)) (λ x. reading self.now.tokens.now exprs.array_from (Some y) (Some place)))) (from self.now.tokens.now at)) result }
        ensures moves { IfOk result (λ p. at < p.1) }
    {
        let (_, at) = expect(self.tokens, at, Mark::Sign(Sign::Less))?;
        let (element, at) = whole_type(self.alloc, self.tokens, at)?;
        let (_, at) = expect(self.tokens, at, Mark::Sign(Sign::Greater))?;
        self.array_from(at, Some(element), Some(place))
    }

    /// `ARRAY "(" query ")"`, or an array behind the word ARRAY.
    #[tactic(auto, unfolding(sql_grammar::specs::Exprs::array))]
    pub fn array(&self, at: usize) -> Read<Boxed<Expr>>
        requires below { Nests self.now.tokens.now self.now.from (E.pre self.now.inner) (E.post self.now.inner) (Q.pre self.now.query) (Q.post self.now.query) }
        requires after { self.now.from ≤ at }
        ensures reads { Reads self.now.tokens.now (reading self.now.tokens.now exprs.array (from self.now.tokens.now at)) result }
        ensures moves { IfOk result (λ p. at < p.1) }
    {
        let (word, at) = expect(self.tokens, at, Mark::Reserved(Reserved::Array))?;
        let place = word.start;
        if sees(self.tokens, at, Mark::Sign(Sign::OpenRound)) {
            return self.array_query(at, place);
        }
        if sees(self.tokens, at, Mark::Sign(Sign::Less)) {
            return self.typed_array(at, place);
        }
        self.array_from(at, None, Some(place))
    }
}
