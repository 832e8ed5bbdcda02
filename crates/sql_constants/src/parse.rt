//! A constant as a text.
ghost use Rattle.std.specs.Prelude.{IfOk};
ghost use Rattle.sql_constants.specs.Constants.{ConstantText};
ghost use Rattle.sql_constants.specs.Reads.{ConstantTokens};

use crate::constants::constant;
use crate::cursor::Miss;
use sql_lexer::{LexFault, Tokens, lex, nest};
use sql_types::{OutOfMemory, SqlType, Value};
use std::alloc::{AllocError, Global};

/// How many brackets may be open at one token of a constant.
const MAX_NEST: u64 = 200;

/// The value of the type that a text is a constant of: an integer with an optional minus whose number the type has, a
/// STRING, BYTES, TRUE or FALSE, NULL, a date as a STRING with or without the word DATE, `[` constants `]`, or `STRUCT` `(`
/// a constant for each field `)`. Nothing where the text is no such constant, has no tokens, or nests more than 200 brackets.
pub fn parse_constant(
    alloc: Global,
    text: &[u8],
    ty: &SqlType,
) -> Result<Option<Value>, OutOfMemory>
    ensures { IfOk result (λ found. ConstantText ty.now text.now found) }
{
    match lex(alloc, text) {
        Ok(tokens) => value_of(alloc, &tokens, ty),
        Err(LexFault::At { .. }) => Ok(None),
        Err(LexFault::OutOfMemory) => Err(AllocError),
    }
}

/// The value that the tokens of a text are a constant of.
fn value_of(alloc: Global, tokens: &Tokens, ty: &SqlType) -> Result<Option<Value>, OutOfMemory>
    ensures { IfOk result (λ found. ConstantTokens ty.now tokens.now.list found) }
{
    if nest(tokens) > MAX_NEST {
        return Ok(None);
    }
    match constant(alloc, tokens.as_slice(), 0, ty) {
        Ok((value, end)) => {
            if end < tokens.len() {
                Ok(None)
            } else {
                Ok(Some(value))
            }
        }
        Err(Miss::NoConstant) => Ok(None),
        Err(Miss::OutOfMemory) => Err(AllocError),
    }
}
