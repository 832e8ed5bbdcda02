//! Equal copies of tokens.
ghost use Rattle.std.specs.Prelude.{◌≡◌, ◌≤◌, IfOk, length, take};

use sql_ast::{Lexeme, Token};
use sql_lexer::Tokens;
use sql_types::Items;
use std::alloc::{AllocError, Global};

/// What a token says, once more.
pub fn copy_lexeme(alloc: Global, lexeme: &Lexeme) -> Result<Lexeme, AllocError>
    ensures { IfOk result (λ copy. copy ≡ lexeme.now) }
{
    match lexeme {
        Lexeme::Reserved(word) => Ok(Lexeme::Reserved(*word)),
        Lexeme::Name { name, word } => Ok(Lexeme::Name {
            name: name.copy(alloc)?,
            word: *word,
        }),
        Lexeme::Integer(number) => Ok(Lexeme::Integer(*number)),
        Lexeme::Text(text) => Ok(Lexeme::Text(text.copy(alloc)?)),
        Lexeme::Bytes(bytes) => Ok(Lexeme::Bytes(Items::from_slice(alloc, bytes.as_slice())?)),
        Lexeme::Parameter(name) => Ok(Lexeme::Parameter(name.copy(alloc)?)),
        Lexeme::Sign(sign) => Ok(Lexeme::Sign(*sign)),
    }
}

/// The token once more.
pub fn copy_token(alloc: Global, token: &Token) -> Result<Token, AllocError>
    ensures { IfOk result (λ copy. copy ≡ token.now) }
{
    Ok(Token {
        lexeme: copy_lexeme(alloc, &token.lexeme)?,
        start: token.start,
        end: token.end,
    })
}

/// The first so many of the tokens.
pub fn first_tokens(alloc: Global, tokens: &Tokens, count: usize) -> Result<Tokens, AllocError>
    requires { count ≤ length tokens.now.list }
    ensures { IfOk result (λ front. front.list ≡ take count tokens.now.list) }
{
    let mut front = Tokens::start(alloc);
    for token in &tokens.as_slice()[..count] {
        front.push(copy_token(alloc, token)?)?;
    }
    Ok(front)
}
