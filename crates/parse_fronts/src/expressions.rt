//! An expression from a place on, whatever stands behind it.
ghost use Rattle.std.specs.Prelude.{◌≤◌, length};
ghost use Rattle.parse_fronts.specs.ExprFronts.{ExprFront};

use crate::stars::before_star;
use parse_expr::Start;
use parse_query::descent::expr_at;
use sql_ast::{Expr, Refusal};
use sql_lexer::Tokens;
use sql_types::Boxed;
use std::alloc::Global;

/// The expression that begins at an index, counted from 0, and the index behind it. It goes as far as tokens follow with which
/// an expression begins, and where it stops before a `*` directly behind a `.`, it ends before the `.`. Rule 1 is broken at the
/// first token with which no expression begins, or at the end of the tokens. Linear in the tokens, where brackets nest within
/// a limit.
pub fn parse_expression(
    alloc: Global,
    tokens: &Tokens,
    at: usize,
) -> Result<(Boxed<Expr>, usize), Refusal>
    requires { at ≤ length tokens.now.list }
    ensures { ExprFront tokens.now at result }
{
    match expr_at(alloc, tokens, at, Start::Fresh) {
        Ok((expr, end)) => {
            if end < tokens.len() {
                return Ok((expr, end));
            }
            Ok((expr, tokens.len()))
        }
        Err(Refusal::Rule { rule, place }) => match before_star(alloc, tokens, at, place)? {
            Some(found) => Ok(found),
            None => Err(Refusal::Rule { rule, place }),
        },
        Err(Refusal::OutOfMemory) => Err(Refusal::OutOfMemory),
    }
}
