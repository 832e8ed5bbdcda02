//! The tokens of a text.
ghost use Rattle.std.specs.Prelude.{◌<◌, ◌≤◌, length, IfSome};
ghost use Rattle.sql_lexer.specs.Lexed.{Stood, Lexed};

use crate::machine::{scan, whole};
use crate::piece::{is_dot, read};
use crate::tokens::{LexFault, Tokens};
use sql_ast::{Piece, Shape, Token};
use sql_types::{Items, ListType};
use std::alloc::Global;

/// Where the piece at a place ends, and its shape, if it has one.
fn piece(text: &[u8], at: usize) -> (usize, Option<Shape>)
    requires { at ≤ length text.now }
    ensures front { Stood text.now at result.0 result.1 }
    ensures within { result.0 ≤ length text.now }
    ensures moved { IfSome result.1 (λ _. at < result.0) }
{
    let (end, state) = scan(text, at);
    (end, whole(state))
}

/// The tokens of a text. `At` names the first byte of the first token or comment that can't be read.
pub fn lex(alloc: Global, text: &[u8]) -> Result<Tokens, LexFault>
    ensures { Lexed text.now result }
{
    let mut list = Items::start(alloc);
    let mut dot = false;
    let mut at = 0;
    'pieces: while at < text.len() {
        let (end, shape) = piece(text, at);
        match shape {
            Some(shape) => match read(alloc, dot, shape, &text[at..end])? {
                Some(Piece::Gap) => {}
                Some(Piece::Token(lexeme)) => {
                    dot = is_dot(&lexeme);
                    list.push(Token {
                        lexeme,
                        start: at as u64,
                        end: end as u64,
                    })?;
                }
                None => return Err(LexFault::At { place: at as u64 }),
            },
            None => return Err(LexFault::At { place: at as u64 }),
        }
        at = end;
    }
    Ok(Tokens::with_end(list, text.len() as u64))
}
