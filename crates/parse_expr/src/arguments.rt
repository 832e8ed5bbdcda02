//! The arguments of a call.
ghost use Rattle.std.specs.Prelude.{◌≡◌, ◌<◌, ◌≤◌, IfOk};
ghost use Rattle.fronts.specs.Readers.{if_comes, many, pure, token};
ghost use Rattle.sql_ast.specs.declared.words.Sign.TheVariants as sign;
ghost use Rattle.sql_ast.specs.declared.clauses.Arg.TheVariants as arg;
ghost use Rattle.sql_ast.specs.Marks as spec;
ghost use Rattle.sql_grammar.specs.Exprs as exprs;
ghost use Rattle.parse_expr.specs.Steps.{followed};
ghost use Rattle.parse_expr.specs.Nests.{Nests};
ghost use Rattle.parse_words.specs.Reads.{between, from, nested, reading, turns, Reads};

use crate::beginnings::{ArgumentsStart, arguments_start};
use crate::reader::Reader;
use crate::starts::{Opening, Start};
use crate::variables::{first_start, part_of, variables_of};
use parse_words::cursor::{Read, expect, sees};
use parse_words::marks::Mark;
use parse_words::repeat::many_boxed;
use parse_words::saying::name_of;
use sql_ast::{Arg, Expr, Names, Query, Reserved, Sign};
use sql_nodes::boxes::one_of;
use sql_nodes::part_nodes;
use sql_types::{Boxed, Items};

impl<
    'a,
    E: Fn(usize, Start) -> Read<Boxed<Expr>>,
    Q: Fn(usize, Opening) -> Read<Boxed<Query>>,
> Reader<'a, E, Q> {
    /// What follows an expression that was read from the token at `first` on, as an argument: at `->` its tokens are the variables of a lambda.
    #[tactic(auto, unfolding(sql_grammar::specs::Exprs::arg_after))]
    pub fn arg_after(&self, at: usize, first: usize, expr: Boxed<Expr>) -> Read<Boxed<Arg<Expr>>>
        requires below { Nests self.now.tokens.now self.now.from (E.pre self.now.inner) (E.post self.now.inner) (Q.pre self.now.query) (Q.post self.now.query) }
        requires after { self.now.from ≤ at }
        ensures reads { Reads self.now.tokens.now (reading self.now.tokens.now exprs.arg_after (between self.now.tokens.now first at) expr (from self.now.tokens.now at)) result }
        ensures moves { IfOk result (λ p. at ≤ p.1) }
    {
        let part = part_of(self.tokens, first, at);
        match variables_of(self.alloc, part)? {
            None => Ok((part_nodes::arg_expr(self.alloc, expr)?, at)),
            Some(variables) => self.lambda_or_expr(at, first_start(part), variables, expr),
        }
    }

    /// The body of a lambda of these variables, where `->` comes next; else the expression is the argument.
    pub fn lambda_or_expr(
        &self,
        at: usize,
        place: u64,
        variables: Names,
        expr: Boxed<Expr>,
    ) -> Read<Boxed<Arg<Expr>>>
        requires below { Nests self.now.tokens.now self.now.from (E.pre self.now.inner) (E.post self.now.inner) (Q.pre self.now.query) (Q.post self.now.query) }
        requires after { self.now.from ≤ at }
        ensures reads { Reads self.now.tokens.now (if_comes (spec.sign sign.Arrow) (followed (token (spec.sign sign.Arrow)) (λ t. followed ((nested self.now.tokens.now).inner) (λ b. pure (arg.Lambda variables b place)))) (pure (arg.Expr expr)) (from self.now.tokens.now at)) result }
        ensures moves { IfOk result (λ p. at ≤ p.1) }
    {
        if !sees(self.tokens, at, Mark::Sign(Sign::Arrow)) {
            return Ok((part_nodes::arg_expr(self.alloc, expr)?, at));
        }
        let (_, at) = expect(self.tokens, at, Mark::Sign(Sign::Arrow))?;
        let (body, at) = self.deeper(at)?;
        Ok((
            part_nodes::arg_lambda(self.alloc, variables, body, place)?,
            at,
        ))
    }

    /// `INTERVAL expr name`
    #[tactic(auto, unfolding(sql_grammar::specs::Exprs::interval))]
    pub fn interval(&self, at: usize) -> Read<Boxed<Arg<Expr>>>
        requires below { Nests self.now.tokens.now self.now.from (E.pre self.now.inner) (E.post self.now.inner) (Q.pre self.now.query) (Q.post self.now.query) }
        requires after { self.now.from ≤ at }
        ensures reads { Reads self.now.tokens.now (reading self.now.tokens.now exprs.interval (from self.now.tokens.now at)) result }
        ensures moves { IfOk result (λ p. at < p.1) }
    {
        let (word, at) = expect(self.tokens, at, Mark::Reserved(Reserved::Interval))?;
        let (amount, at) = self.deeper(at)?;
        let (token, at) = expect(self.tokens, at, Mark::Name)?;
        let part = name_of(self.alloc, token)?;
        let place = word.start;
        Ok((
            part_nodes::arg_interval(self.alloc, amount, part, place)?,
            at,
        ))
    }

    /// `arg`, behind a token.
    #[tactic(auto, unfolding(sql_grammar::specs::Exprs::argument))]
    pub fn argument(&self, at: usize) -> Read<Boxed<Arg<Expr>>>
        requires below { Nests self.now.tokens.now self.now.from (E.pre self.now.inner) (E.post self.now.inner) (Q.pre self.now.query) (Q.post self.now.query) }
        requires after { self.now.from < at }
        ensures reads { Reads self.now.tokens.now (reading self.now.tokens.now exprs.argument (from self.now.tokens.now at)) result }
        ensures moves { IfOk result (λ p. at ≤ p.1) }
    {
        if sees(self.tokens, at, Mark::Reserved(Reserved::Interval)) {
            return self.interval(at);
        }
        let (expr, behind) = self.deeper(at)?;
        self.arg_after(behind, at, expr)
    }

    /// `"," arg`
    #[tactic(auto, unfolding(sql_grammar::specs::Exprs::comma_argument))]
    pub fn comma_argument(&self, at: usize) -> Read<Boxed<Arg<Expr>>>
        requires below { Nests self.now.tokens.now self.now.from (E.pre self.now.inner) (E.post self.now.inner) (Q.pre self.now.query) (Q.post self.now.query) }
        requires after { self.now.from ≤ at }
        ensures reads { Reads self.now.tokens.now (reading self.now.tokens.now exprs.comma_argument (from self.now.tokens.now at)) result }
        ensures moves { IfOk result (λ p. at < p.1) }
    {
        let (_, at) = expect(self.tokens, at, Mark::Sign(Sign::Comma))?;
        self.argument(at)
    }

    /// `{"," arg}` behind the arguments that were found.
    pub fn comma_arguments(&self, at: usize, found: Items<Arg<Expr>>) -> Read<Items<Arg<Expr>>>
        requires below { Nests self.now.tokens.now self.now.from (E.pre self.now.inner) (E.post self.now.inner) (Q.pre self.now.query) (Q.post self.now.query) }
        requires after { self.now.from ≤ at }
        ensures reads { Reads self.now.tokens.now (many (spec.sign sign.Comma) (reading self.now.tokens.now exprs.comma_argument) (turns self.now.tokens.now) found (from self.now.tokens.now at)) result }
        ensures moves { IfOk result (λ p. at ≤ p.1) }
        ensures stays { IfOk result (λ p. p.1 ≡ at → p.0 ≡ found) }
    {
        many_boxed(
            self.tokens,
            at,
            Mark::Sign(Sign::Comma),
            found,
            |place| self.comma_argument(place),
        )
    }

    /// `{"," arg}` behind the first.
    #[tactic(auto, unfolding(sql_grammar::specs::Exprs::arguments_from))]
    pub fn arguments_from(&self, at: usize, first: Boxed<Arg<Expr>>) -> Read<Items<Arg<Expr>>>
        requires below { Nests self.now.tokens.now self.now.from (E.pre self.now.inner) (E.post self.now.inner) (Q.pre self.now.query) (Q.post self.now.query) }
        requires after { self.now.from ≤ at }
        ensures reads { Reads self.now.tokens.now (reading self.now.tokens.now exprs.arguments_from first (from self.now.tokens.now at)) result }
        ensures moves { IfOk result (λ p. at ≤ p.1) }
    {
        self.comma_arguments(at, one_of(self.alloc, first)?)
    }

    /// `["*" | arg {"," arg}]`, behind a token: whether it is `*`, and the arguments.
    #[tactic(auto, unfolding(sql_grammar::specs::Exprs::arguments))]
    pub fn arguments(&self, at: usize) -> Read<(bool, Items<Arg<Expr>>)>
        requires below { Nests self.now.tokens.now self.now.from (E.pre self.now.inner) (E.post self.now.inner) (Q.pre self.now.query) (Q.post self.now.query) }
        requires after { self.now.from < at }
        ensures reads { Reads self.now.tokens.now (reading self.now.tokens.now exprs.arguments (from self.now.tokens.now at)) result }
        ensures moves { IfOk result (λ p. at ≤ p.1) }
    {
        match arguments_start(self.tokens, at) {
            ArgumentsStart::Star => {
                let (_, at) = expect(self.tokens, at, Mark::Sign(Sign::Star))?;
                Ok(((true, Items::new(self.alloc)), at))
            }
            ArgumentsStart::Nothing => Ok(((false, Items::new(self.alloc)), at)),
            ArgumentsStart::Argument => {
                let (first, at) = self.argument(at)?;
                let (arguments, at) = self.arguments_from(at, first)?;
                Ok(((false, arguments), at))
            }
        }
    }
}
