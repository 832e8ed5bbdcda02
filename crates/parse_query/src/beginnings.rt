//! What the next token begins, where there are more than two ways to go on.
ghost use Rattle.std.specs.Prelude.{◌≡◌};
ghost use Rattle.fronts.specs.Readers.{next};
ghost use Rattle.sql_ast.specs.declared.token.Lexeme.TheVariants as lexeme;
ghost use Rattle.sql_grammar.specs.Classes as classes;
ghost use Rattle.parse_query.specs.Beginnings.{item_class};
ghost use Rattle.parse_words.specs.Reads.{from};

use parse_words::cursor::token_at;
use sql_ast::{Lexeme, Reserved, Sign};
use sql_lexer::Tokens;

/// What an item of a select list begins with.
#[derive(Clone, Copy, Debug, PartialEq, Eq)]
pub enum ItemStart {
    /// `*`.
    Star,
    /// NOT or a prefix operator.
    Prefix,
    /// A basic expression.
    Basic,
    /// Nothing that begins an item.
    Other,
}

fn item_lexeme(lexeme: &Lexeme) -> ItemStart
    ensures { item_class result ≡ classes.item_class lexeme.now }
{
    match lexeme {
        Lexeme::Sign(sign) => item_sign(*sign),
        Lexeme::Reserved(word) => item_reserved(*word),
        _ => ItemStart::Basic,
    }
}

fn item_sign(sign: Sign) -> ItemStart
    ensures { item_class result ≡ classes.item_sign sign }
{
    match sign {
        Sign::Star => ItemStart::Star,
        Sign::Plus | Sign::Minus | Sign::Tilde => ItemStart::Prefix,
        Sign::OpenRound | Sign::OpenSquare => ItemStart::Basic,
        _ => ItemStart::Other,
    }
}

fn item_reserved(word: Reserved) -> ItemStart
    ensures { item_class result ≡ classes.item_class (lexeme.Reserved word) }
{
    match word {
        Reserved::Not => ItemStart::Prefix,
        Reserved::True
        | Reserved::False
        | Reserved::Null
        | Reserved::If
        | Reserved::Case
        | Reserved::Cast
        | Reserved::Extract
        | Reserved::Grouping
        | Reserved::Exists
        | Reserved::Array
        | Reserved::Struct
        | Reserved::With => ItemStart::Basic,
        _ => ItemStart::Other,
    }
}

/// What the item at a place begins with.
pub fn item_start(tokens: &Tokens, at: usize) -> ItemStart
    ensures { item_class result ≡ classes.class_of classes.no_item classes.item_class (next (from tokens.now at)) }
{
    match token_at(tokens, at) {
        Some(token) => item_lexeme(&token.lexeme),
        None => ItemStart::Other,
    }
}
