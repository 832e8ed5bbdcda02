//! The expression before a `.` that a `*` follows.
ghost use Rattle.std.specs.Prelude.{◌≡◌, ◌≤◌, length};
ghost use Rattle.parse_fronts.specs.ExprFronts as fronts;

use crate::copies::first_tokens;
use parse_expr::Start;
use parse_query::descent::expr_at;
use parse_words::cursor::{sees, start_at, token_at};
use parse_words::marks::Mark;
use sql_ast::{Expr, Refusal, Sign};
use sql_lexer::Tokens;
use sql_types::Boxed;
use std::alloc::Global;

/// Whether `.` stands at an index, and directly behind it a `*` that begins at this byte.
pub fn is_dot_star(tokens: &Tokens, at: usize, byte: u64) -> bool
    ensures { result ≡ fronts.dot_star tokens.now at byte }
{
    match token_at(tokens, at) {
        Some(_) => {
            sees(tokens, at, Mark::Sign(Sign::Dot))
                && sees(tokens, at + 1, Mark::Sign(Sign::Star))
                && start_at(tokens, at + 1) == byte
        }
        None => false,
    }
}

/// The expression that the tokens from one place to another spell, if they spell one. Linear in the tokens before the end,
/// which are copied.
pub fn part_expr(
    alloc: Global,
    tokens: &Tokens,
    at: usize,
    end: usize,
) -> Result<Option<Boxed<Expr>>, Refusal>
    requires up { at ≤ end }
    requires within { end ≤ length tokens.now.list }
    ensures { fronts.PartIs tokens.now at end result }
{
    let front = first_tokens(alloc, tokens, end)?;
    match expr_at(alloc, &front, at, Start::Fresh) {
        Ok((expr, behind)) => {
            if behind < end {
                Ok(None)
            } else {
                Ok(Some(expr))
            }
        }
        Err(Refusal::Rule { .. }) => Ok(None),
        Err(Refusal::OutOfMemory) => Err(Refusal::OutOfMemory),
    }
}

/// The first expression from a place on that ends before a `.` and a `*` which begins at this byte. In the tokens of a text one
/// token at most begins at a byte, so one part at most is read.
pub fn before_star(
    alloc: Global,
    tokens: &Tokens,
    at: usize,
    byte: u64,
) -> Result<Option<(Boxed<Expr>, usize)>, Refusal>
    ensures { fronts.Sought tokens.now at byte result }
{
    for dot in at..tokens.len() {
        if is_dot_star(tokens, dot, byte) {
            if let Some(expr) = part_expr(alloc, tokens, at, dot)? {
                return Ok(Some((expr, dot)));
            }
        }
    }
    Ok(None)
}
