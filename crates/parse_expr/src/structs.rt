//! STRUCT.
ghost use Rattle.std.specs.Prelude.{◌≡◌, ◌<◌, ◌≤◌, IfOk, [], ◌∷◌};
ghost use Rattle.fronts.specs.Readers.{many, pure, token};
ghost use Rattle.sql_ast.specs.declared.words.Sign.TheVariants as sign;
ghost use Rattle.sql_ast.specs.declared.expr.Expr.TheVariants as e;
ghost use Rattle.sql_ast.specs.Marks as spec;
ghost use Rattle.sql_grammar.specs.Exprs as exprs;
ghost use Rattle.sql_grammar.specs.Words as words;
ghost use Rattle.parse_expr.specs.Steps.{followed};
ghost use Rattle.parse_expr.specs.Nests.{Nests};
ghost use Rattle.parse_words.specs.Reads.{from, nested, reading, turns, Reads};

use crate::reader::Reader;
use crate::starts::{Opening, Start};
use parse_words::cursor::{Read, expect, sees};
use parse_words::marks::Mark;
use parse_words::repeat::many_boxed;
use parse_words::saying::name_of;
use parse_words::types::{LEVELS_BELOW, fields_closed};
use sql_ast::{Aliased, Expr, Query, Reserved, Sign};
use sql_nodes::boxes::one_of;
use sql_nodes::{expr_nodes, part_nodes};
use sql_types::{Boxed, Items};

impl<
    'a,
    E: Fn(usize, Start) -> Read<Boxed<Expr>>,
    Q: Fn(usize, Opening) -> Read<Boxed<Query>>,
> Reader<'a, E, Q> {
    /// `expr [AS name]`, behind a token.
    #[tactic(auto, unfolding(sql_grammar::specs::Exprs::member))]
    pub fn member(&self, at: usize) -> Read<Boxed<Aliased<Expr>>>
        requires below { Nests self.now.tokens.now self.now.from (E.pre self.now.inner) (E.post self.now.inner) (Q.pre self.now.query) (Q.post self.now.query) }
        requires after { self.now.from < at }
        ensures reads { Reads self.now.tokens.now (reading self.now.tokens.now exprs.member (from self.now.tokens.now at)) result }
        ensures moves { IfOk result (λ p. at ≤ p.1) }
    {
        let (expr, at) = self.deeper(at)?;
        if !sees(self.tokens, at, Mark::Reserved(Reserved::As)) {
            return Ok((part_nodes::aliased(self.alloc, expr, None)?, at));
        }
        let (_, at) = expect(self.tokens, at, Mark::Reserved(Reserved::As))?;
        let (token, at) = expect(self.tokens, at, Mark::Name)?;
        let alias = Some(name_of(self.alloc, token)?);
        Ok((part_nodes::aliased(self.alloc, expr, alias)?, at))
    }

    /// `"," expr [AS name]`
    #[tactic(auto, unfolding(sql_grammar::specs::Exprs::comma_member))]
    pub fn comma_member(&self, at: usize) -> Read<Boxed<Aliased<Expr>>>
        requires below { Nests self.now.tokens.now self.now.from (E.pre self.now.inner) (E.post self.now.inner) (Q.pre self.now.query) (Q.post self.now.query) }
        requires after { self.now.from ≤ at }
        ensures reads { Reads self.now.tokens.now (reading self.now.tokens.now exprs.comma_member (from self.now.tokens.now at)) result }
        ensures moves { IfOk result (λ p. at < p.1) }
    {
        let (_, at) = expect(self.tokens, at, Mark::Sign(Sign::Comma))?;
        self.member(at)
    }

    /// `{"," expr [AS name]}` behind the members that were found.
    pub fn comma_members(
        &self,
        at: usize,
        found: Items<Aliased<Expr>>,
    ) -> Read<Items<Aliased<Expr>>>
        requires below { Nests self.now.tokens.now self.now.from (E.pre self.now.inner) (E.post self.now.inner) (Q.pre self.now.query) (Q.post self.now.query) }
        requires after { self.now.from ≤ at }
        ensures reads { Reads self.now.tokens.now (many (spec.sign sign.Comma) (reading self.now.tokens.now exprs.comma_member) (turns self.now.tokens.now) found (from self.now.tokens.now at)) result }
        ensures moves { IfOk result (λ p. at ≤ p.1) }
        ensures stays { IfOk result (λ p. p.1 ≡ at → p.0 ≡ found) }
    {
        many_boxed(
            self.tokens,
            at,
            Mark::Sign(Sign::Comma),
            found,
            |place| self.comma_member(place),
        )
    }

    /// `"(" expr [AS name] {..} ")"` behind STRUCT, which begins at this byte.
    pub fn plain_struct(&self, at: usize, place: u64) -> Read<Boxed<Expr>>
        requires below { Nests self.now.tokens.now self.now.from (E.pre self.now.inner) (E.post self.now.inner) (Q.pre self.now.query) (Q.post self.now.query) }
        requires after { self.now.from ≤ at }
        ensures reads { Reads self.now.tokens.now (followed (token (spec.sign sign.OpenRound)) (λ o. followed (reading self.now.tokens.now exprs.member) (λ a. followed (many (spec.sign sign.Comma) (reading self.now.tokens.now exprs.comma_member) (turns self.now.tokens.now) (a ∷ [])) (λ xs. followed (token (spec.sign sign.CloseRound)) (λ c. pure (e.Struct xs place))))) (from self.now.tokens.now at)) result }
        ensures moves { IfOk result (λ p. at < p.1) }
    {
        let (_, at) = expect(self.tokens, at, Mark::Sign(Sign::OpenRound))?;
        let (first, at) = self.member(at)?;
        let (parts, at) = self.comma_members(at, one_of(self.alloc, first)?)?;
        let (_, at) = expect(self.tokens, at, Mark::Sign(Sign::CloseRound))?;
        Ok((expr_nodes::structure(self.alloc, parts, place)?, at))
    }

    /// `"<" fields ">" "(" expr {"," expr} ")"` behind STRUCT, which begins at this byte.
    pub fn typed_struct(&self, at: usize, place: u64) -> Read<Boxed<Expr>>
        requires below { Nests self.now.tokens.now self.now.from (E.pre self.now.inner) (E.post self.now.inner) (Q.pre self.now.query) (Q.post self.now.query) }
        requires after { self.now.from ≤ at }
        ensures reads { Reads self.now.tokens.now (followed (token (spec.sign sign.Less)) (λ t. followed (words.fields_closed (turns self.now.tokens.now) (words.starts_type words.levels_below) (words.type_at (turns self.now.tokens.now) words.levels_below)) (λ fs. followed (token (spec.sign sign.OpenRound)) (λ o. followed ((nested self.now.tokens.now).inner) (λ a. followed (reading self.now.tokens.now exprs.list_closed sign.CloseRound (a ∷ [])) (λ xs. pure (e.TypedStruct fs xs o.start place)))))) (from self.now.tokens.now at)) result }
        ensures moves { IfOk result (λ p. at < p.1) }
    {
        let (_, at) = expect(self.tokens, at, Mark::Sign(Sign::Less))?;
        let (fields, at) = fields_closed(self.alloc, self.tokens, at, LEVELS_BELOW)?;
        let (open, at) = expect(self.tokens, at, Mark::Sign(Sign::OpenRound))?;
        let open_place = open.start;
        let (first, at) = self.deeper(at)?;
        let (parts, at) = self.list_closed(at, Sign::CloseRound, one_of(self.alloc, first)?)?;
        Ok((
            expr_nodes::typed_structure(self.alloc, fields, parts, open_place, place)?,
            at,
        ))
    }

    /// STRUCT, with its types or without.
    pub fn structure(&self, at: usize) -> Read<Boxed<Expr>>
        requires below { Nests self.now.tokens.now self.now.from (E.pre self.now.inner) (E.post self.now.inner) (Q.pre self.now.query) (Q.post self.now.query) }
        requires after { self.now.from ≤ at }
        ensures reads { Reads self.now.tokens.now (reading self.now.tokens.now exprs.struct (from self.now.tokens.now at)) result }
        ensures moves { IfOk result (λ p. at < p.1) }
    {
        let (word, at) = expect(self.tokens, at, Mark::Reserved(Reserved::Struct))?;
        let place = word.start;
        if sees(self.tokens, at, Mark::Sign(Sign::Less)) {
            return self.typed_struct(at, place);
        }
        self.plain_struct(at, place)
    }
}
