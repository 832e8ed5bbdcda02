//! What a token tells: an operator, a test, a name.
ghost use Rattle.std.specs.Prelude.{◌≡◌};
ghost use Rattle.sql_ast.specs.Trees as trees;
ghost use Rattle.sql_ast.specs.declared.expr.Comparison.TheVariants as comparison;
ghost use Rattle.sql_ast.specs.declared.expr.IndexForm.TheVariants as form;
ghost use Rattle.sql_ast.specs.declared.expr.IsTest.TheVariants as test;
ghost use Rattle.sql_ast.specs.declared.expr.Operator.TheVariants as operator;
ghost use Rattle.sql_ast.specs.declared.expr.Quantifier.TheVariants as quantifier;
ghost use Rattle.sql_ast.specs.declared.expr.Signed.TheVariants as signed;
ghost use Rattle.sql_grammar.specs.Exprs.{told};

use sql_ast::{
    Comparison, CubeKind, IndexForm, IsTest, Lexeme, Operator, Quantifier, Reserved, Sign, Signed,
    Token, Word,
};

/// The prefix operator that a token is.
pub fn prefix_of(token: &Token) -> Option<Signed>
    ensures { result ≡ trees.prefix_of token.now }
{
    match &token.lexeme {
        Lexeme::Sign(Sign::Plus) => Some(Signed::Plus),
        Lexeme::Sign(Sign::Minus) => Some(Signed::Minus),
        Lexeme::Sign(Sign::Tilde) => Some(Signed::Flip),
        _ => None,
    }
}

/// The operator of a product that a token is.
pub fn product_of(token: &Token) -> Option<Operator>
    ensures { result ≡ trees.product_of token.now }
{
    match &token.lexeme {
        Lexeme::Sign(Sign::Star) => Some(Operator::Multiply),
        Lexeme::Sign(Sign::BarBar) => Some(Operator::Concat),
        _ => None,
    }
}

/// The operator of a sum that a token is.
pub fn sum_of(token: &Token) -> Option<Operator>
    ensures { result ≡ trees.sum_of token.now }
{
    match &token.lexeme {
        Lexeme::Sign(Sign::Plus) => Some(Operator::Add),
        Lexeme::Sign(Sign::Minus) => Some(Operator::Subtract),
        _ => None,
    }
}

/// The comparison that a token is.
pub fn comparison_of(token: &Token) -> Option<Comparison>
    ensures { result ≡ trees.comparison_of token.now }
{
    match &token.lexeme {
        Lexeme::Sign(Sign::Equal) => Some(Comparison::Equal),
        Lexeme::Sign(Sign::BangEqual) => Some(Comparison::NotEqual),
        Lexeme::Sign(Sign::LessGreater) => Some(Comparison::NotEqual),
        Lexeme::Sign(Sign::Less) => Some(Comparison::Less),
        Lexeme::Sign(Sign::LessEqual) => Some(Comparison::LessEqual),
        Lexeme::Sign(Sign::Greater) => Some(Comparison::Greater),
        Lexeme::Sign(Sign::GreaterEqual) => Some(Comparison::GreaterEqual),
        _ => None,
    }
}

/// The quantifier of LIKE that a token is.
pub fn quantifier_of(token: &Token) -> Option<Quantifier>
    ensures { result ≡ trees.quantifier_of token.now }
{
    match &token.lexeme {
        Lexeme::Reserved(Reserved::Any) => Some(Quantifier::Any),
        Lexeme::Reserved(Reserved::Some) => Some(Quantifier::Some),
        Lexeme::Reserved(Reserved::All) => Some(Quantifier::All),
        _ => None,
    }
}

/// What a token behind IS tests for.
pub fn test_of(token: &Token) -> Option<IsTest>
    ensures { result ≡ trees.test_of token.now }
{
    match &token.lexeme {
        Lexeme::Reserved(Reserved::Null) => Some(IsTest::Null),
        Lexeme::Reserved(Reserved::True) => Some(IsTest::True),
        Lexeme::Reserved(Reserved::False) => Some(IsTest::False),
        _ => None,
    }
}

/// The form of a subscript that a token is.
pub fn form_of(token: &Token) -> Option<IndexForm>
    ensures { result ≡ trees.form_of token.now }
{
    match &token.lexeme {
        Lexeme::Name {
            word: Some(word),
            ..
        } => form_word(*word),
        _ => None,
    }
}

fn form_word(word: Word) -> Option<IndexForm>
    ensures { result ≡ trees.form_word word }
{
    match word {
        Word::Offset => Some(IndexForm::Offset),
        Word::Ordinal => Some(IndexForm::Ordinal),
        Word::SafeOffset => Some(IndexForm::SafeOffset),
        Word::SafeOrdinal => Some(IndexForm::SafeOrdinal),
        _ => None,
    }
}

/// ROLLUP or CUBE, where a token is one.
pub fn cube_of(token: &Token) -> Option<CubeKind>
    ensures { result ≡ trees.cube_of token.now }
{
    match &token.lexeme {
        Lexeme::Reserved(Reserved::Rollup) => Some(CubeKind::Rollup),
        Lexeme::Reserved(Reserved::Cube) => Some(CubeKind::Cube),
        _ => None,
    }
}

/// The same, and Plus where the token is none.
pub fn told_prefix(token: &Token) -> Signed
    ensures { result ≡ told signed.Plus trees.prefix_of token.now }
{
    match prefix_of(token) {
        Some(prefix) => prefix,
        None => Signed::Plus,
    }
}

/// The same, and Multiply where the token is none.
pub fn told_product(token: &Token) -> Operator
    ensures { result ≡ told operator.Multiply trees.product_of token.now }
{
    match product_of(token) {
        Some(product) => product,
        None => Operator::Multiply,
    }
}

/// The same, and Add where the token is none.
pub fn told_sum(token: &Token) -> Operator
    ensures { result ≡ told operator.Add trees.sum_of token.now }
{
    match sum_of(token) {
        Some(sum) => sum,
        None => Operator::Add,
    }
}

/// The same, and Equal where the token is none.
pub fn told_comparison(token: &Token) -> Comparison
    ensures { result ≡ told comparison.Equal trees.comparison_of token.now }
{
    match comparison_of(token) {
        Some(comparison) => comparison,
        None => Comparison::Equal,
    }
}

/// The same, and Any where the token is none.
pub fn told_quantifier(token: &Token) -> Quantifier
    ensures { result ≡ told quantifier.Any trees.quantifier_of token.now }
{
    match quantifier_of(token) {
        Some(quantifier) => quantifier,
        None => Quantifier::Any,
    }
}

/// The same, and Null where the token is none.
pub fn told_test(token: &Token) -> IsTest
    ensures { result ≡ told test.Null trees.test_of token.now }
{
    match test_of(token) {
        Some(test) => test,
        None => IsTest::Null,
    }
}

/// The same, and Offset where the token is none.
pub fn told_form(token: &Token) -> IndexForm
    ensures { result ≡ told form.Offset trees.form_of token.now }
{
    match form_of(token) {
        Some(form) => form,
        None => IndexForm::Offset,
    }
}
