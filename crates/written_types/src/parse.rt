//! Texts of types.
ghost use Rattle.written_types.specs.TypeTexts.{SpellsType, TypeText};

use crate::spellings::type_of;
use parse_words::refusal_at;
use parse_words::types::whole_type;
use sql_ast::{Refusal, TypeSpelling};
use sql_lexer::{LexFault, Tokens, lex};
use sql_types::SqlType;
use std::alloc::Global;

/// The type that all the tokens of a text spell, which is the only one. Rule 1 is broken at the first token that no type can
/// have there, or at the text's end.
fn spelling_of(alloc: Global, tokens: &Tokens) -> Result<TypeSpelling, Refusal>
    ensures { SpellsType tokens.now.end tokens.now.list result }
{
    let (spelling, at) = whole_type(alloc, tokens, 0)?;
    if at < tokens.len() {
        return Err(refusal_at(tokens, at));
    }
    Ok(spelling)
}

/// The type that a text writes. Rule 1 is broken at the first byte of a token or comment that can't be read, and where all
/// can be read, at the first token that no type can have there, or at the text's end. Where the text spells a type, the
/// first of the rules 28 (no type has the name) and 21 (an ARRAY of ARRAYs).
pub fn parse_type(alloc: Global, text: &[u8]) -> Result<SqlType, Refusal>
    ensures { TypeText text.now result }
{
    match lex(alloc, text) {
        Ok(tokens) => {
            let spelling = spelling_of(alloc, &tokens)?;
            type_of(alloc, &spelling)
        }
        Err(LexFault::At { place }) => Err(Refusal::Rule { rule: 1, place }),
        Err(LexFault::OutOfMemory) => Err(Refusal::OutOfMemory),
    }
}
