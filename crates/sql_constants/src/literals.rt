//! Constants of the types without parts.
ghost use Rattle.std.specs.Prelude.{◌≡◌, ◌<◌, true, IfOk, option_map};
ghost use Rattle.sql_types.specs.Calendar.{read_date};
ghost use Rattle.sql_types.specs.declared.value.Value.TheVariants as dates;
ghost use Rattle.sql_types.specs.declared.sql_type.SqlType.{out-SqlType};
ghost use Rattle.sql_ast.specs.Marks as spec;
ghost use Rattle.sql_coerce.specs.Casts as casts;
ghost use Rattle.sql_constants.specs.Readers as readers;
ghost use Rattle.sql_constants.specs.Reads.{from, Reads};

use crate::cursor::{Mark, Miss, Read, expect, sees};
use crate::integers::integer_value;
use sql_ast::{Lexeme, Reserved, Sign, Token, Word};
use sql_types::{Bytes, Items, ListType, OutOfMemory, SqlType, Text, Value, read_date};
use std::alloc::Global;

/// NULL.
#[tactic(auto, unfolding(crate::specs::Readers::null))]
pub(crate) fn null(tokens: &[Token], at: usize) -> Read<Value>
    ensures reads { Reads tokens.now (readers.null (from tokens.now at)) result }
    ensures moves { IfOk result (λ p. at < p.1) }
{
    let (_, at) = expect(tokens, at, Mark::Reserved(Reserved::Null))?;
    Ok((Value::Null, at))
}

/// TRUE or FALSE.
#[tactic(auto, unfolding(crate::specs::Readers::truth))]
pub(crate) fn truth(tokens: &[Token], at: usize) -> Read<Value>
    ensures reads { Reads tokens.now (readers.truth (from tokens.now at)) result }
    ensures moves { IfOk result (λ p. at < p.1) }
{
    if sees(tokens, at, Mark::Reserved(Reserved::True)) {
        let (_, at) = expect(tokens, at, Mark::Reserved(Reserved::True))?;
        Ok((Value::Bool(true), at))
    } else {
        let (_, at) = expect(tokens, at, Mark::Reserved(Reserved::False))?;
        Ok((Value::Bool(false), at))
    }
}

/// An integer with an optional minus, where the type has its number.
#[tactic(auto, unfolding(crate::specs::Readers::signed))]
pub(crate) fn integer(tokens: &[Token], at: usize, ty: &SqlType) -> Read<Value>
    ensures reads { Reads tokens.now (readers.signed (casts.integer_value (out-SqlType ty.now)) (from tokens.now at)) result }
    ensures moves { IfOk result (λ p. at < p.1) }
{
    if sees(tokens, at, Mark::Sign(Sign::Minus)) {
        let (_, at) = expect(tokens, at, Mark::Sign(Sign::Minus))?;
        let (token, at) = expect(tokens, at, Mark::Integer)?;
        match integer_value(ty, -i128::from(number(token))) {
            Some(value) => Ok((value, at)),
            None => Err(Miss::NoConstant),
        }
    } else {
        let (token, at) = expect(tokens, at, Mark::Integer)?;
        match integer_value(ty, i128::from(number(token))) {
            Some(value) => Ok((value, at)),
            None => Err(Miss::NoConstant),
        }
    }
}

/// The integer that a token is, or 0 where it is none.
fn number(token: &Token) -> u64
    ensures { result ≡ spec.number token.now }
{
    match &token.lexeme {
        Lexeme::Integer(number) => *number,
        _ => 0,
    }
}

/// A STRING literal.
#[tactic(auto, unfolding(crate::specs::Readers::a_text))]
pub(crate) fn text(alloc: Global, tokens: &[Token], at: usize) -> Read<Value>
    ensures reads { Reads tokens.now (readers.a_text (from tokens.now at)) result }
    ensures moves { IfOk result (λ p. at < p.1) }
{
    let (token, at) = expect(tokens, at, Mark::Text)?;
    Ok((Value::Text(literal_text(alloc, token)?), at))
}

/// What a STRING literal says.
fn literal_text(alloc: Global, token: &Token) -> Result<Text, OutOfMemory>
    requires { spec.text token.now ≡ true }
    ensures { IfOk result (λ t. t ≡ spec.content token.now) }
{
    match &token.lexeme {
        Lexeme::Text(text) => text.copy(alloc),
        _ => Text::copy_of(alloc, ""),
    }
}

/// A BYTES literal.
#[tactic(auto, unfolding(crate::specs::Readers::some_bytes))]
pub(crate) fn bytes(alloc: Global, tokens: &[Token], at: usize) -> Read<Value>
    ensures reads { Reads tokens.now (readers.some_bytes (from tokens.now at)) result }
    ensures moves { IfOk result (λ p. at < p.1) }
{
    let (token, at) = expect(tokens, at, Mark::Bytes)?;
    Ok((Value::Bytes(literal_bytes(alloc, token)?), at))
}

/// What a BYTES literal says.
fn literal_bytes(alloc: Global, token: &Token) -> Result<Bytes, OutOfMemory>
    requires { spec.bytes token.now ≡ true }
    ensures { IfOk result (λ b. b ≡ spec.content token.now) }
{
    match &token.lexeme {
        Lexeme::Bytes(bytes) => Items::from_slice(alloc, bytes.as_slice()),
        _ => Ok(Items::start(alloc)),
    }
}

/// A date as a STRING literal, alone or behind the word DATE.
#[tactic(auto, unfolding(crate::specs::Readers::day))]
pub(crate) fn day(tokens: &[Token], at: usize) -> Read<Value>
    ensures reads { Reads tokens.now (readers.day (from tokens.now at)) result }
    ensures moves { IfOk result (λ p. at < p.1) }
{
    if sees(tokens, at, Mark::Word(Word::Date)) {
        let (_, at) = expect(tokens, at, Mark::Word(Word::Date))?;
        day_text(tokens, at)
    } else {
        day_text(tokens, at)
    }
}

#[tactic(auto, unfolding(crate::specs::Readers::day_text))]
fn day_text(tokens: &[Token], at: usize) -> Read<Value>
    ensures reads { Reads tokens.now (readers.day_text (from tokens.now at)) result }
    ensures moves { IfOk result (λ p. at < p.1) }
{
    let (token, at) = expect(tokens, at, Mark::Text)?;
    match day_of(token) {
        Some(value) => Ok((value, at)),
        None => Err(Miss::NoConstant),
    }
}

/// The day that a STRING literal says.
fn day_of(token: &Token) -> Option<Value>
    requires { spec.text token.now ≡ true }
    ensures { result ≡ option_map dates.Date (read_date (spec.content token.now)) }
{
    match &token.lexeme {
        Lexeme::Text(text) => Some(Value::Date(read_date(text.as_bytes())?)),
        _ => None,
    }
}
