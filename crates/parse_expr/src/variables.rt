//! The tokens that an expression was read from, as variables.
ghost use Rattle.std.specs.Prelude.{◌≡◌, IfOk, [], ◌∷◌};
ghost use Rattle.sql_ast.specs.Marks.{start_of};
ghost use Rattle.sql_ast.specs.Trees.{name_at};
ghost use Rattle.sql_grammar.specs.Exprs as exprs;
ghost use Rattle.parse_expr.specs.Singles.{IsSingle};
ghost use Rattle.parse_words.specs.Reads.{between};

use parse_words::repeat::one;
use parse_words::saying::name_of;
use parse_words::takes::{is_name, is_sign};
use sql_ast::{Names, Sign, Token};
use sql_lexer::Tokens;
use sql_types::OutOfMemory;
use std::alloc::Global;

/// The tokens from one place to another.
pub fn part_of<'a>(tokens: &'a Tokens, first: usize, last: usize) -> &'a [Token]
    ensures { result.now ≡ between tokens.now first last }
{
    let all = tokens.as_slice();
    let end = last.min(all.len());
    if first < end { &all[first..end] } else { &[] }
}

/// Where the first of these tokens begins, in bytes; 0 where there is none.
pub fn first_start(part: &[Token]) -> u64
    ensures { result ≡ start_of part.now }
{
    match part {
        [] => 0,
        [token, ..] => token.start,
    }
}

/// The variables of a lambda, where these tokens are such: `name`, or `"(" name "," name ")"`.
pub fn variables_of(alloc: Global, part: &[Token]) -> Result<Option<Names>, OutOfMemory>
    ensures { IfOk result (λ o. o ≡ exprs.variables_of part.now) }
{
    match part {
        [name] => one_variable(alloc, name),
        [opening, name, comma, other, closing] => {
            two_variables(alloc, opening, name, comma, other, closing)
        }
        _ => Ok(None),
    }
}

fn one_variable(alloc: Global, name: &Token) -> Result<Option<Names>, OutOfMemory>
    ensures { IfOk result (λ o. o ≡ exprs.variables_of (name.now ∷ [])) }
{
    if is_name(name) {
        Ok(Some(one(alloc, name_of(alloc, name)?)?))
    } else {
        Ok(None)
    }
}

fn two_variables(
    alloc: Global,
    opening: &Token,
    name: &Token,
    comma: &Token,
    other: &Token,
    closing: &Token,
) -> Result<Option<Names>, OutOfMemory>
    ensures { IfOk result (λ o. o ≡ exprs.variables_of (opening.now ∷ name.now ∷ comma.now ∷ other.now ∷ closing.now ∷ [])) }
{
    if is_pair(opening, name, comma, other, closing) {
        Ok(Some(two_names(alloc, name, other)?))
    } else {
        Ok(None)
    }
}

fn two_names(alloc: Global, name: &Token, other: &Token) -> Result<Names, OutOfMemory>
    ensures { IfOk result (λ names. names ≡ name_at name.now ∷ name_at other.now ∷ []) }
{
    let mut names = one(alloc, name_of(alloc, name)?)?;
    names.push(name_of(alloc, other)?)?;
    Ok(names)
}

fn is_pair(opening: &Token, name: &Token, comma: &Token, other: &Token, closing: &Token) -> bool
    ensures { result ≡ exprs.two_named opening.now name.now comma.now other.now closing.now }
{
    is_sign(opening, Sign::OpenRound)
        && is_name(name)
        && is_sign(comma, Sign::Comma)
        && is_name(other)
        && is_sign(closing, Sign::CloseRound)
}

/// The name that these tokens are alone.
pub fn single_name(part: &[Token]) -> Option<&Token>
    ensures { IsSingle (exprs.single_name part.now) result }
{
    match part {
        [name] => { if is_name(name) { Some(name) } else { None } }
        _ => None,
    }
}
