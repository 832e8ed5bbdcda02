//! What a token says: a name, a number, a literal.
ghost use Rattle.std.specs.Prelude.{◌≡◌, true, IfOk};
ghost use Rattle.sql_ast.specs.Marks as spec;
ghost use Rattle.sql_ast.specs.Parts as parts;
ghost use Rattle.sql_ast.specs.Trees as trees;
ghost use Rattle.sql_ast.specs.declared.clauses.Function.TheVariants as function;
ghost use Rattle.sql_grammar.specs.Exprs.{told};

use sql_ast::{Expr, Function, Lexeme, Name, Token};
use sql_types::{Bytes, Items, ListType, OutOfMemory, Text};
use std::alloc::Global;

/// The name that a token is, or the empty text where it is none.
pub fn spelled(alloc: Global, token: &Token) -> Result<Text, OutOfMemory>
    ensures { IfOk result (λ t. t ≡ spec.spelled token.now) }
{
    match &token.lexeme {
        Lexeme::Name { name, .. } => name.copy(alloc),
        _ => Text::copy_of(alloc, ""),
    }
}

/// The same with the token's place.
#[tactic(auto, unfolding(sql_ast::specs::Trees::name_at))]
pub fn name_of(alloc: Global, token: &Token) -> Result<Name, OutOfMemory>
    ensures { IfOk result (λ n. n ≡ trees.name_at token.now) }
{
    Ok(Name {
        text: spelled(alloc, token)?,
        place: token.start,
    })
}

/// The integer that a token is, or 0 where it is none.
pub fn number(token: &Token) -> u64
    ensures { result ≡ spec.number token.now }
{
    match &token.lexeme {
        Lexeme::Integer(number) => *number,
        _ => 0,
    }
}

/// What a STRING literal says.
pub fn literal_text(alloc: Global, token: &Token) -> Result<Text, OutOfMemory>
    requires { spec.text token.now ≡ true }
    ensures { IfOk result (λ t. t ≡ spec.content token.now) }
{
    match &token.lexeme {
        Lexeme::Text(text) => text.copy(alloc),
        _ => Text::copy_of(alloc, ""),
    }
}

/// The name of a parameter.
pub fn parameter_name(alloc: Global, token: &Token) -> Result<Text, OutOfMemory>
    requires { spec.parameter token.now ≡ true }
    ensures { IfOk result (λ t. t ≡ spec.content token.now) }
{
    match &token.lexeme {
        Lexeme::Parameter(name) => name.copy(alloc),
        _ => Text::copy_of(alloc, ""),
    }
}

/// What a BYTES literal says.
pub fn literal_bytes(alloc: Global, token: &Token) -> Result<Bytes, OutOfMemory>
    requires { spec.bytes token.now ≡ true }
    ensures { IfOk result (λ b. b ≡ spec.content token.now) }
{
    match &token.lexeme {
        Lexeme::Bytes(bytes) => Items::from_slice(alloc, bytes.as_slice()),
        _ => Ok(Items::start(alloc)),
    }
}

/// What a call names: IF, or the name that the token is. It is IF where the token is neither.
pub fn function_of(alloc: Global, token: &Token) -> Result<Function, OutOfMemory>
    ensures { IfOk result (λ f. f ≡ told function.If trees.function_of token.now) }
{
    match &token.lexeme {
        Lexeme::Name { name, .. } => Ok(Function::Named {
            name: name.copy(alloc)?,
        }),
        _ => Ok(Function::If),
    }
}

/// A count of LIMIT: an integer or a parameter. It is NULL where the token is neither.
#[tactic(auto, unfolding(sql_ast::specs::Parts::count_at))]
pub fn count_of(alloc: Global, token: &Token) -> Result<Expr, OutOfMemory>
    ensures { IfOk result (λ e. e ≡ parts.count_at token.now) }
{
    match &token.lexeme {
        Lexeme::Parameter(name) => Ok(Expr::Parameter {
            name: name.copy(alloc)?,
            place: token.start,
        }),
        Lexeme::Integer(value) => Ok(Expr::Integer {
            value: *value,
            place: token.start,
        }),
        _ => Ok(Expr::Null { place: token.start }),
    }
}
