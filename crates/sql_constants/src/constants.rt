//! Constants of all types.
ghost use Rattle.std.specs.Prelude.{◌≡◌, ◌<◌, ◌≤◌, IfOk, [], ◌∷◌};
ghost use Rattle.fronts.specs.Readers.{many};
ghost use Rattle.sql_ast.specs.Marks as spec;
ghost use Rattle.sql_ast.specs.declared.words.Sign.TheVariants as signs;
ghost use Rattle.sql_constants.specs.Readers as readers;
ghost use Rattle.sql_constants.specs.Reads.{from, turns, Reads, ReadsComma};

use crate::cursor::{Mark, Miss, Read, expect, sees};
use crate::literals::{bytes, day, integer, null, text, truth};
use sql_ast::{Reserved, Sign, Token};
use sql_types::{Boxed, Fields, Items, OutOfMemory, SqlType, Value, Values};
use std::alloc::Global;

/// A constant of the type, which begins at a place.
#[cycle(constants)]
pub(crate) fn constant(alloc: Global, tokens: &[Token], at: usize, ty: &SqlType) -> Read<Value>
    ensures reads { Reads tokens.now (readers.constant_at (turns tokens.now) ty.now (from tokens.now at)) result }
    ensures moves { IfOk result (λ p. at < p.1) }
{
    if sees(tokens, at, Mark::Reserved(Reserved::Null)) {
        return null(tokens, at);
    }
    match ty {
        SqlType::Bool => truth(tokens, at),
        SqlType::Text => text(alloc, tokens, at),
        SqlType::Bytes => bytes(alloc, tokens, at),
        SqlType::Date => day(tokens, at),
        SqlType::Array(element) => array(alloc, tokens, at, element),
        SqlType::Struct(fields) => structure(alloc, tokens, at, fields),
        _ => integer(tokens, at, ty),
    }
}

/// `[` constants `]`
#[cycle(constants)]
#[tactic(auto, unfolding(crate::specs::Readers::array))]
fn array(alloc: Global, tokens: &[Token], at: usize, element: &Boxed<SqlType>) -> Read<Value>
    ensures reads { Reads tokens.now (readers.array (turns tokens.now) (readers.constant_at (turns tokens.now) element.now) (from tokens.now at)) result }
    ensures moves { IfOk result (λ p. at < p.1) }
{
    let (_, at) = expect(tokens, at, Mark::Sign(Sign::OpenSquare))?;
    if sees(tokens, at, Mark::Sign(Sign::CloseSquare)) {
        let (_, at) = expect(tokens, at, Mark::Sign(Sign::CloseSquare))?;
        Ok((Value::Array(Items::new(alloc)), at))
    } else {
        let (elements, at) = elements(alloc, tokens, at, element)?;
        let (_, at) = expect(tokens, at, Mark::Sign(Sign::CloseSquare))?;
        Ok((Value::Array(elements), at))
    }
}

/// One or more constants of a type, with commas between them.
#[cycle(constants)]
#[tactic(auto, unfolding(crate::specs::Readers::elements))]
fn elements(alloc: Global, tokens: &[Token], at: usize, element: &Boxed<SqlType>) -> Read<Values>
    ensures reads { Reads tokens.now (readers.elements (turns tokens.now) (readers.constant_at (turns tokens.now) element.now) (from tokens.now at)) result }
    ensures moves { IfOk result (λ p. at < p.1) }
{
    let (first, at) = constant(alloc, tokens, at, element.get())?;
    more_elements(alloc, tokens, at, element, one(alloc, first)?)
}

/// `{"," constant}` behind the elements that were found.
#[cycle(constants)]
fn more_elements(
    alloc: Global,
    tokens: &[Token],
    at: usize,
    element: &Boxed<SqlType>,
    found: Values,
) -> Read<Values>
    ensures reads { Reads tokens.now (many (spec.sign signs.Comma) (readers.comma_element (readers.constant_at (turns tokens.now) element.now)) (turns tokens.now) found (from tokens.now at)) result }
    ensures moves { IfOk result (λ p. at ≤ p.1) }
{
    let mut found = found;
    let mut at = at;
    'elements: while sees(tokens, at, Mark::Sign(Sign::Comma)) {
        let (next, behind) = comma_element(alloc, tokens, at, element)?;
        found.push(next)?;
        at = behind;
    }
    Ok((found, at))
}

/// `"," constant`
#[cycle(constants)]
#[tactic(auto, unfolding(crate::specs::Readers::comma_element))]
fn comma_element(
    alloc: Global,
    tokens: &[Token],
    at: usize,
    element: &Boxed<SqlType>,
) -> Read<Value>
    ensures reads { Reads tokens.now (readers.comma_element (readers.constant_at (turns tokens.now) element.now) (from tokens.now at)) result }
    ensures moves { IfOk result (λ p. at < p.1) }
{
    let (_, at) = expect(tokens, at, Mark::Sign(Sign::Comma))?;
    constant(alloc, tokens, at, element.get())
}

/// A list of one value.
fn one(alloc: Global, first: Value) -> Result<Values, OutOfMemory>
    ensures { IfOk result (λ xs. xs ≡ first ∷ []) }
{
    let mut values = Items::new(alloc);
    values.push(first)?;
    Ok(values)
}

/// `STRUCT` `(` a constant for each field `)`, where there is a field.
#[cycle(constants)]
fn structure(alloc: Global, tokens: &[Token], at: usize, fields: &Fields) -> Read<Value>
    ensures reads { Reads tokens.now (readers.structure (readers.fields_at (turns tokens.now) fields.now) (from tokens.now at)) result }
    ensures moves { IfOk result (λ p. at < p.1) }
{
    if fields.len() == 0 {
        return Err(Miss::NoConstant);
    }
    in_brackets(alloc, tokens, at, fields)
}

/// `STRUCT` `(` a constant for each field `)`
#[cycle(constants)]
#[tactic(auto, unfolding(crate::specs::Readers::in_brackets))]
fn in_brackets(alloc: Global, tokens: &[Token], at: usize, fields: &Fields) -> Read<Value>
    ensures reads { Reads tokens.now (readers.in_brackets (readers.fields_at (turns tokens.now) fields.now) (from tokens.now at)) result }
    ensures moves { IfOk result (λ p. at < p.1) }
{
    let (_, at) = expect(tokens, at, Mark::Reserved(Reserved::Struct))?;
    let (_, at) = expect(tokens, at, Mark::Sign(Sign::OpenRound))?;
    let (values, at) = field_values(alloc, tokens, at, fields)?;
    let (_, at) = expect(tokens, at, Mark::Sign(Sign::CloseRound))?;
    Ok((Value::Struct(values), at))
}

/// A constant for each field, with commas between them.
#[cycle(constants)]
fn field_values(alloc: Global, tokens: &[Token], at: usize, fields: &Fields) -> Read<Values>
    ensures reads { Reads tokens.now (readers.more_fields (readers.fields_at (turns tokens.now) fields.now) [] (from tokens.now at)) result }
    ensures moves { IfOk result (λ p. at ≤ p.1) }
{
    let mut found = Items::new(alloc);
    let mut at = at;
    'fields: for field in fields.as_slice() {
        let place = behind_comma(tokens, at, &found)?;
        let (value, behind) = constant(alloc, tokens, place, &field.ty)?;
        found.push(value)?;
        at = behind;
    }
    Ok((found, at))
}

/// The place behind a comma, unless nothing was found yet.
fn behind_comma(tokens: &[Token], at: usize, found: &Values) -> Result<usize, Miss>
    ensures reads { ReadsComma tokens.now found.now at result }
    ensures moves { IfOk result (λ next. at ≤ next) }
{
    if found.len() == 0 {
        return Ok(at);
    }
    let (_, behind) = expect(tokens, at, Mark::Sign(Sign::Comma))?;
    Ok(behind)
}
