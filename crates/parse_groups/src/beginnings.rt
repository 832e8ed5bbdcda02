//! What the next token begins, where there are more than two ways to go on.
ghost use Rattle.std.specs.Prelude.{◌≡◌};
ghost use Rattle.fronts.specs.Readers.{next};
ghost use Rattle.sql_ast.specs.declared.token.Lexeme.TheVariants as lexeme;
ghost use Rattle.sql_grammar.specs.Classes as classes;
ghost use Rattle.parse_groups.specs.Beginnings.{groups_class};
ghost use Rattle.parse_words.specs.Reads.{from};

use parse_words::cursor::token_at;
use sql_ast::{Lexeme, Reserved, Sign};
use sql_lexer::Tokens;

/// What stands behind GROUP BY.
#[derive(Clone, Copy, Debug, PartialEq, Eq)]
pub enum GroupsStart {
    /// `(`.
    Bracket,
    Grouping,
    /// ROLLUP or CUBE.
    Cube,
    /// Something else: an expression.
    Expr,
}

fn groups_lexeme(lexeme: &Lexeme) -> GroupsStart
    ensures { groups_class result ≡ classes.groups_class lexeme.now }
{
    match lexeme {
        Lexeme::Sign(sign) => groups_sign(*sign),
        Lexeme::Reserved(word) => groups_reserved(*word),
        _ => GroupsStart::Expr,
    }
}

fn groups_sign(sign: Sign) -> GroupsStart
    ensures { groups_class result ≡ classes.groups_class (lexeme.Sign sign) }
{
    match sign {
        Sign::OpenRound => GroupsStart::Bracket,
        _ => GroupsStart::Expr,
    }
}

fn groups_reserved(word: Reserved) -> GroupsStart
    ensures { groups_class result ≡ classes.groups_class (lexeme.Reserved word) }
{
    match word {
        Reserved::Grouping => GroupsStart::Grouping,
        Reserved::Rollup | Reserved::Cube => GroupsStart::Cube,
        _ => GroupsStart::Expr,
    }
}

/// What stands behind GROUP BY at a place.
pub fn groups_start(tokens: &Tokens, at: usize) -> GroupsStart
    ensures { groups_class result ≡ classes.class_of classes.groups_expr classes.groups_class (next (from tokens.now at)) }
{
    match token_at(tokens, at) {
        Some(token) => groups_lexeme(&token.lexeme),
        None => GroupsStart::Expr,
    }
}
