//! What the next token begins, where there are more than two ways to go on.
ghost use Rattle.std.specs.Prelude.{◌≡◌, Some};
ghost use Rattle.fronts.specs.Readers.{next};
ghost use Rattle.sql_ast.specs.declared.token.Lexeme.TheVariants as lexeme;
ghost use Rattle.sql_grammar.specs.Classes as classes;
ghost use Rattle.parse_expr.specs.Beginnings.{arguments_class, basic_class, comparison_class, content_class, name_class};
ghost use Rattle.parse_words.specs.Reads.{from};

use parse_words::cursor::token_at;
use sql_ast::{Lexeme, Reserved, Sign, Token, Word};
use sql_lexer::Tokens;

/// What the arguments of a call begin with.
#[derive(Clone, Copy, Debug, PartialEq, Eq)]
pub enum ArgumentsStart {
    /// `*`.
    Star,
    /// What may stand behind the arguments: there are none.
    Nothing,
    Argument,
}

fn arguments_lexeme(lexeme: &Lexeme) -> ArgumentsStart
    ensures { arguments_class result ≡ classes.arguments_lexeme lexeme.now }
{
    match lexeme {
        Lexeme::Sign(sign) => arguments_sign(*sign),
        Lexeme::Reserved(word) => arguments_reserved(*word),
        _ => ArgumentsStart::Argument,
    }
}

fn arguments_sign(sign: Sign) -> ArgumentsStart
    ensures { arguments_class result ≡ classes.arguments_lexeme (lexeme.Sign sign) }
{
    match sign {
        Sign::Star => ArgumentsStart::Star,
        Sign::CloseRound => ArgumentsStart::Nothing,
        _ => ArgumentsStart::Argument,
    }
}

fn arguments_reserved(word: Reserved) -> ArgumentsStart
    ensures { arguments_class result ≡ classes.arguments_lexeme (lexeme.Reserved word) }
{
    match word {
        Reserved::Ignore | Reserved::Respect | Reserved::Order | Reserved::Limit => {
            ArgumentsStart::Nothing
        }
        _ => ArgumentsStart::Argument,
    }
}

/// What the arguments at a place begin with.
pub fn arguments_start(tokens: &Tokens, at: usize) -> ArgumentsStart
    ensures { arguments_class result ≡ classes.class_of classes.by_arg classes.arguments_lexeme (next (from tokens.now at)) }
{
    match token_at(tokens, at) {
        Some(token) => arguments_lexeme(&token.lexeme),
        None => ArgumentsStart::Argument,
    }
}

/// What a basic expression begins with.
#[derive(Clone, Copy, Debug, PartialEq, Eq)]
pub enum BasicStart {
    Integer,
    /// A STRING literal.
    Text,
    /// A BYTES literal.
    Bytes,
    True,
    False,
    Null,
    Parameter,
    Name,
    If,
    /// `(`.
    Bracket,
    Case,
    Cast,
    Extract,
    Grouping,
    Exists,
    Array,
    /// `[`.
    Square,
    Struct,
    With,
    /// Nothing that begins a basic expression.
    Other,
}

fn basic_lexeme(lexeme: &Lexeme) -> BasicStart
    ensures { basic_class result ≡ classes.basic_lexeme lexeme.now }
{
    match lexeme {
        Lexeme::Integer(_) => BasicStart::Integer,
        Lexeme::Text(_) => BasicStart::Text,
        Lexeme::Bytes(_) => BasicStart::Bytes,
        Lexeme::Parameter(_) => BasicStart::Parameter,
        Lexeme::Name { .. } => BasicStart::Name,
        Lexeme::Reserved(word) => basic_reserved(*word),
        Lexeme::Sign(sign) => basic_sign(*sign),
    }
}

fn basic_sign(sign: Sign) -> BasicStart
    ensures { basic_class result ≡ classes.basic_sign sign }
{
    match sign {
        Sign::OpenRound => BasicStart::Bracket,
        Sign::OpenSquare => BasicStart::Square,
        _ => BasicStart::Other,
    }
}

fn basic_reserved(word: Reserved) -> BasicStart
    ensures { basic_class result ≡ classes.basic_reserved word }
{
    match word {
        Reserved::True => BasicStart::True,
        Reserved::False => BasicStart::False,
        Reserved::Null => BasicStart::Null,
        Reserved::If => BasicStart::If,
        Reserved::Case => BasicStart::Case,
        Reserved::Cast => BasicStart::Cast,
        Reserved::Extract => BasicStart::Extract,
        Reserved::Grouping => BasicStart::Grouping,
        Reserved::Exists => BasicStart::Exists,
        Reserved::Array => BasicStart::Array,
        Reserved::Struct => BasicStart::Struct,
        Reserved::With => BasicStart::With,
        _ => BasicStart::Other,
    }
}

/// What the basic expression at a place begins with.
pub fn basic_start(tokens: &Tokens, at: usize) -> BasicStart
    ensures { basic_class result ≡ classes.class_of classes.no_basic classes.basic_lexeme (next (from tokens.now at)) }
{
    match token_at(tokens, at) {
        Some(token) => basic_lexeme(&token.lexeme),
        None => BasicStart::Other,
    }
}

/// What a name may begin, when no bracket follows.
#[derive(Clone, Copy, Debug, PartialEq, Eq)]
pub enum NameStart {
    /// The word DATE.
    Date,
    /// The word SAFE.
    Safe,
    Plain,
}

/// What a name may begin, when no bracket follows.
pub fn name_start(token: &Token) -> NameStart
    ensures { name_class result ≡ classes.name_class token.now.lexeme }
{
    match &token.lexeme {
        Lexeme::Name {
            word: Some(word),
            ..
        } => name_word(*word),
        _ => NameStart::Plain,
    }
}

fn name_word(word: Word) -> NameStart
    ensures { name_class result ≡ classes.name_spelled (Some word) }
{
    match word {
        Word::Date => NameStart::Date,
        Word::Safe => NameStart::Safe,
        _ => NameStart::Plain,
    }
}

/// What the content of parentheses begins with.
#[derive(Clone, Copy, Debug, PartialEq, Eq)]
pub enum ContentStart {
    Select,
    With,
    /// Something else: an expression.
    Expr,
}

fn content_lexeme(lexeme: &Lexeme) -> ContentStart
    ensures { content_class result ≡ classes.content_class lexeme.now }
{
    match lexeme {
        Lexeme::Reserved(Reserved::Select) => ContentStart::Select,
        Lexeme::Reserved(Reserved::With) => ContentStart::With,
        _ => ContentStart::Expr,
    }
}

/// What the content of parentheses begins with at a place.
pub fn content_start(tokens: &Tokens, at: usize) -> ContentStart
    ensures { content_class result ≡ classes.class_of classes.by_expr classes.content_class (next (from tokens.now at)) }
{
    match token_at(tokens, at) {
        Some(token) => content_lexeme(&token.lexeme),
        None => ContentStart::Expr,
    }
}

/// What a comparison behind its left side begins with.
#[derive(Clone, Copy, Debug, PartialEq, Eq)]
pub enum ComparisonStart {
    /// `=`, `!=`, `<>`, `<`, `<=`, `>` or `>=`.
    Sign,
    Like,
    Between,
    In,
    Is,
    Not,
    /// Nothing that begins one.
    Other,
}

fn comparison_lexeme(lexeme: &Lexeme) -> ComparisonStart
    ensures { comparison_class result ≡ classes.comparison_class lexeme.now }
{
    match lexeme {
        Lexeme::Sign(sign) => comparison_sign(*sign),
        Lexeme::Reserved(word) => comparison_reserved(*word),
        _ => ComparisonStart::Other,
    }
}

fn comparison_sign(sign: Sign) -> ComparisonStart
    ensures { comparison_class result ≡ classes.comparison_class_sign sign }
{
    match sign {
        Sign::Equal
        | Sign::BangEqual
        | Sign::LessGreater
        | Sign::Less
        | Sign::LessEqual
        | Sign::Greater
        | Sign::GreaterEqual => ComparisonStart::Sign,
        _ => ComparisonStart::Other,
    }
}

fn comparison_reserved(word: Reserved) -> ComparisonStart
    ensures { comparison_class result ≡ classes.comparison_class (lexeme.Reserved word) }
{
    match word {
        Reserved::Like => ComparisonStart::Like,
        Reserved::Between => ComparisonStart::Between,
        Reserved::In => ComparisonStart::In,
        Reserved::Is => ComparisonStart::Is,
        Reserved::Not => ComparisonStart::Not,
        _ => ComparisonStart::Other,
    }
}

/// What a comparison at a place begins with.
pub fn comparison_start(tokens: &Tokens, at: usize) -> ComparisonStart
    ensures { comparison_class result ≡ classes.class_of classes.no_comparison classes.comparison_class (next (from tokens.now at)) }
{
    match token_at(tokens, at) {
        Some(token) => comparison_lexeme(&token.lexeme),
        None => ComparisonStart::Other,
    }
}
