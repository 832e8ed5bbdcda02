//! Whether a mark stands for a token.
ghost use Rattle.std.specs.Prelude.{◌≡◌};
ghost use Rattle.sql_ast.specs.Marks as spec;
ghost use Rattle.sql_ast.specs.Parts as parts;
ghost use Rattle.sql_grammar.specs.Classes as classes;
ghost use Rattle.sql_ast.specs.declared.token.Lexeme.TheVariants as lexeme;
ghost use Rattle.parse_words.specs.Marked.{marked};
ghost use Rattle.parse_words.specs.declared.marks.Mark.TheVariants as mark;

use crate::marks::Mark;
use crate::telling::{
    comparison_of, cube_of, form_of, prefix_of, product_of, quantifier_of, sum_of, test_of,
};
use sql_ast::{Lexeme, Reserved, Sign, Token, Word};

/// Whether a token is this reserved word.
#[tactic(auto, unfolding(sql_ast::specs::Marks::same_reserved))]
pub fn is_reserved(token: &Token, word: Reserved) -> bool
    ensures { result ≡ spec.reserved word token.now }
{
    match &token.lexeme {
        Lexeme::Reserved(other) => word == *other,
        _ => false,
    }
}

/// Whether a token is this operator or mark.
#[tactic(auto, unfolding(sql_ast::specs::Marks::same_sign))]
pub fn is_sign(token: &Token, sign: Sign) -> bool
    ensures { result ≡ spec.sign sign token.now }
{
    match &token.lexeme {
        Lexeme::Sign(other) => sign == *other,
        _ => false,
    }
}

/// Whether a token is a name that spells this word of the grammar, outside of backquotes.
#[tactic(auto, unfolding(sql_ast::specs::Marks::same_word))]
pub fn is_word(token: &Token, word: Word) -> bool
    ensures { result ≡ spec.word word token.now }
{
    match &token.lexeme {
        Lexeme::Name {
            word: Some(other),
            ..
        } => word == *other,
        _ => false,
    }
}

/// Whether a token is a name.
pub fn is_name(token: &Token) -> bool
    ensures { result ≡ spec.named token.now }
{
    matches!(token.lexeme, Lexeme::Name { .. })
}

/// Whether a token is an integer or a parameter.
fn is_count(token: &Token) -> bool
    ensures { result ≡ parts.counts token.now }
{
    matches!(token.lexeme, Lexeme::Integer(_) | Lexeme::Parameter(_))
}

/// Whether a token may be an alias in FROM with no AS before it.
fn is_alias(token: &Token) -> bool
    ensures { result ≡ parts.from_alias token.now }
{
    if is_word(token, Word::Pivot) || is_word(token, Word::Unpivot) {
        false
    } else {
        is_name(token)
    }
}

/// Whether a token is UNION, INTERSECT or EXCEPT.
fn is_set_word(token: &Token) -> bool
    ensures { result ≡ marked mark.SetWord token.now }
{
    matches!(
        token.lexeme,
        Lexeme::Reserved(Reserved::Union | Reserved::Intersect | Reserved::Except)
    )
}

/// Whether an item of a select list may begin with a token.
fn begins_item(token: &Token) -> bool
    ensures { result ≡ classes.starts_item token.now }
{
    match &token.lexeme {
        Lexeme::Sign(sign) => matches!(
            sign,
            Sign::Star | Sign::Plus | Sign::Minus | Sign::Tilde | Sign::OpenRound | Sign::OpenSquare
        ),
        Lexeme::Reserved(word) => begins_item_reserved(*word),
        _ => true,
    }
}

fn begins_item_reserved(word: Reserved) -> bool
    ensures { result ≡ classes.is_item (classes.item_class (lexeme.Reserved word)) }
{
    matches!(
        word,
        Reserved::Not
            | Reserved::True
            | Reserved::False
            | Reserved::Null
            | Reserved::If
            | Reserved::Case
            | Reserved::Cast
            | Reserved::Extract
            | Reserved::Grouping
            | Reserved::Exists
            | Reserved::Array
            | Reserved::Struct
            | Reserved::With
    )
}

/// Whether a token begins a join.
fn begins_join(token: &Token) -> bool
    ensures { result ≡ classes.joins token.now }
{
    matches!(
        token.lexeme,
        Lexeme::Reserved(
            Reserved::Cross
                | Reserved::Inner
                | Reserved::Join
                | Reserved::Left
                | Reserved::Right
                | Reserved::Full
        )
    )
}

/// Whether a token begins a join that may stand behind a comma.
fn begins_later_join(token: &Token) -> bool
    ensures { result ≡ classes.goes_after_comma (classes.join_class token.now.lexeme) }
{
    matches!(
        token.lexeme,
        Lexeme::Reserved(Reserved::Cross | Reserved::Inner | Reserved::Join | Reserved::Left)
    )
}

/// Whether a token is a comma, or begins a join that may stand behind one.
fn begins_later(token: &Token) -> bool
    ensures { result ≡ classes.comma_or_join token.now }
{
    is_sign(token, Sign::Comma) || begins_later_join(token)
}

/// Whether a mark stands for a token.
pub fn takes(mark: Mark, token: &Token) -> bool
    ensures { result ≡ marked mark token.now }
{
    match mark {
        Mark::Reserved(word) => is_reserved(token, word),
        Mark::Sign(sign) => is_sign(token, sign),
        Mark::Word(word) => is_word(token, word),
        Mark::Name => is_name(token),
        Mark::Integer => matches!(token.lexeme, Lexeme::Integer(_)),
        Mark::Text => matches!(token.lexeme, Lexeme::Text(_)),
        Mark::Bytes => matches!(token.lexeme, Lexeme::Bytes(_)),
        Mark::Parameter => matches!(token.lexeme, Lexeme::Parameter(_)),
        Mark::Count => is_count(token),
        Mark::FromAlias => is_alias(token),
        Mark::Function => matches!(
            token.lexeme,
            Lexeme::Name { .. } | Lexeme::Reserved(Reserved::If)
        ),
        Mark::Prefix => prefix_of(token).is_some(),
        Mark::Product => product_of(token).is_some(),
        Mark::Sum => sum_of(token).is_some(),
        Mark::Comparison => comparison_of(token).is_some(),
        Mark::Quantifier => quantifier_of(token).is_some(),
        Mark::Test => test_of(token).is_some(),
        Mark::Form => form_of(token).is_some(),
        Mark::Cube => cube_of(token).is_some(),
        Mark::SetWord => is_set_word(token),
        Mark::Part => is_sign(token, Sign::Dot) || is_sign(token, Sign::OpenSquare),
        Mark::Shift => is_sign(token, Sign::LessLess) || is_sign(token, Sign::Greater),
        Mark::ShiftEnd(place) => is_sign(token, Sign::Greater) && place == token.start,
        Mark::StarIf(permitted) => permitted && is_sign(token, Sign::Star),
        Mark::ItemStart => begins_item(token),
        Mark::Join => begins_join(token),
        Mark::CommaOrJoin => begins_later(token),
    }
}
