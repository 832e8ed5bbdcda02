//! Types as they are written. A type has at most 32 levels.
ghost use Rattle.std.specs.Prelude.{◌≡◌, ◌+◌, ◌<◌, ◌≤◌, IfOk};
ghost use Rattle.fronts.specs.Readers.{comes, many, next};
ghost use Rattle.sql_ast.specs.declared.words.Sign.TheVariants as sign;
ghost use Rattle.sql_grammar.specs.Classes as classes;
ghost use Rattle.sql_grammar.specs.Words as words;
ghost use Rattle.parse_words.specs.Marked.{marked};
ghost use Rattle.parse_words.specs.declared.marks.Mark.TheVariants as mark;
ghost use Rattle.parse_words.specs.Reads.{from, turns, Reads};
ghost use Rattle.parse_words.specs.TypeStarts.{type_class};

use crate::cursor::{Read, expect, refusal_at, sees, token_at};
use crate::marks::Mark;
use crate::repeat::one;
use crate::saying::name_of;
use crate::type_starts::{TypeStart, begins_type, type_start};
use sql_ast::{Reserved, Sign, TypeField, TypeSpelling};
use sql_lexer::Tokens;
use sql_types::{Boxed, Items};
use std::alloc::Global;

/// The levels of a type below its first.
pub const LEVELS_BELOW: u8 = 31;

/// A type that is a name.
#[tactic(auto, unfolding(sql_grammar::specs::Words::type_name))]
fn type_name(alloc: Global, tokens: &Tokens, at: usize) -> Read<TypeSpelling>
    ensures reads { Reads tokens.now (words.type_name (from tokens.now at)) result }
    ensures moves { IfOk result (λ p. at < p.1) }
{
    let (token, at) = expect(tokens, at, Mark::Name)?;
    let name = name_of(alloc, token)?;
    Ok((TypeSpelling::Name { name }, at))
}

/// A type of at most so many levels below its first.
#[cycle(types)]
#[tactic(auto, unfolding(sql_grammar::specs::Words::type_at))]
pub fn type_at(alloc: Global, tokens: &Tokens, at: usize, levels: u8) -> Read<TypeSpelling>
    ensures reads { Reads tokens.now (words.type_at (turns tokens.now) levels (from tokens.now at)) result }
    ensures moves { IfOk result (λ p. at < p.1) }
{
    if levels == 0 {
        return type_name(alloc, tokens, at);
    }
    match type_start(tokens, at) {
        TypeStart::Name => type_name(alloc, tokens, at),
        TypeStart::Array => array_type(alloc, tokens, at, levels - 1),
        TypeStart::Struct => struct_type(alloc, tokens, at, levels - 1),
        TypeStart::Other => Err(refusal_at(tokens, at)),
    }
}

/// `ARRAY<type>`, of so many levels below its first but one.
#[cycle(types)]
#[tactic(auto, unfolding(sql_grammar::specs::Words::array_type))]
fn array_type(alloc: Global, tokens: &Tokens, at: usize, levels: u8) -> Read<TypeSpelling>
    ensures reads { Reads tokens.now (words.array_type (turns tokens.now) (words.starts_type levels) (words.type_at (turns tokens.now) levels) (from tokens.now at)) result }
    ensures moves { IfOk result (λ p. at < p.1) }
{
    let (word, at) = expect(tokens, at, Mark::Reserved(Reserved::Array))?;
    let (_, at) = expect(tokens, at, Mark::Sign(Sign::Less))?;
    let (element, at) = type_at(alloc, tokens, at, levels)?;
    let (_, at) = expect(tokens, at, Mark::Sign(Sign::Greater))?;
    let element = Boxed::new(alloc, element)?;
    let place = word.start;
    Ok((TypeSpelling::Array { element, place }, at))
}

/// `STRUCT<fields>`, of so many levels below its first but one.
#[cycle(types)]
#[tactic(auto, unfolding(sql_grammar::specs::Words::struct_type))]
fn struct_type(alloc: Global, tokens: &Tokens, at: usize, levels: u8) -> Read<TypeSpelling>
    ensures reads { Reads tokens.now (words.struct_type (turns tokens.now) (words.starts_type levels) (words.type_at (turns tokens.now) levels) (from tokens.now at)) result }
    ensures moves { IfOk result (λ p. at < p.1) }
{
    let (word, at) = expect(tokens, at, Mark::Reserved(Reserved::Struct))?;
    let (_, at) = expect(tokens, at, Mark::Sign(Sign::Less))?;
    let (fields, at) = fields_closed(alloc, tokens, at, levels)?;
    let place = word.start;
    Ok((TypeSpelling::Struct { fields, place }, at))
}

/// `fields ">"`, of types of so many levels below their first.
#[cycle(types)]
#[tactic(auto, unfolding(sql_grammar::specs::Words::fields_closed))]
pub fn fields_closed(
    alloc: Global,
    tokens: &Tokens,
    at: usize,
    levels: u8,
) -> Read<Items<TypeField<TypeSpelling>>>
    ensures reads { Reads tokens.now (words.fields_closed (turns tokens.now) (words.starts_type levels) (words.type_at (turns tokens.now) levels) (from tokens.now at)) result }
    ensures moves { IfOk result (λ p. at < p.1) }
{
    let (first, at) = field(alloc, tokens, at, levels)?;
    let (fields, at) = comma_fields(alloc, tokens, at, levels, one(alloc, first)?)?;
    let (_, at) = expect(tokens, at, Mark::Sign(Sign::Greater))?;
    Ok((fields, at))
}

/// `{"," field}` behind the fields that were found.
#[cycle(types)]
#[tactic(auto, unfolding(fronts::specs::Readers::many))]
fn comma_fields(
    alloc: Global,
    tokens: &Tokens,
    at: usize,
    levels: u8,
    found: Items<TypeField<TypeSpelling>>,
) -> Read<Items<TypeField<TypeSpelling>>>
    ensures reads { Reads tokens.now (many (marked (mark.Sign sign.Comma)) (words.comma_field (turns tokens.now) (words.starts_type levels) (words.type_at (turns tokens.now) levels)) (turns tokens.now) found (from tokens.now at)) result }
    ensures moves { IfOk result (λ p. at ≤ p.1) }
{
    let mut found = found;
    let mut at = at;
    'fields: while sees(tokens, at, Mark::Sign(Sign::Comma)) {
        let (next, behind) = comma_field(alloc, tokens, at, levels)?;
        found.push(next)?;
        at = behind;
    }
    Ok((found, at))
}

/// `"," field`
#[cycle(types)]
#[tactic(auto, unfolding(sql_grammar::specs::Words::comma_field))]
fn comma_field(
    alloc: Global,
    tokens: &Tokens,
    at: usize,
    levels: u8,
) -> Read<TypeField<TypeSpelling>>
    ensures reads { Reads tokens.now (words.comma_field (turns tokens.now) (words.starts_type levels) (words.type_at (turns tokens.now) levels) (from tokens.now at)) result }
    ensures moves { IfOk result (λ p. at < p.1) }
{
    let (_, at) = expect(tokens, at, Mark::Sign(Sign::Comma))?;
    field(alloc, tokens, at, levels)
}

/// `[name] type`, where a name that no type follows is the type.
#[cycle(types)]
#[tactic(auto, unfolding(sql_grammar::specs::Words::field))]
fn field(alloc: Global, tokens: &Tokens, at: usize, levels: u8) -> Read<TypeField<TypeSpelling>>
    ensures reads { Reads tokens.now (words.field (turns tokens.now) (words.starts_type levels) (words.type_at (turns tokens.now) levels) (from tokens.now at)) result }
    ensures moves { IfOk result (λ p. at < p.1) }
{
    if sees(tokens, at, Mark::Name) {
        let (token, at) = expect(tokens, at, Mark::Name)?;
        let name = name_of(alloc, token)?;
        if begins_type(tokens, at, levels) {
            let (ty, at) = type_at(alloc, tokens, at, levels)?;
            let name = Some(name);
            Ok((TypeField { name, ty }, at))
        } else {
            let ty = TypeSpelling::Name { name };
            Ok((TypeField { name: None, ty }, at))
        }
    } else {
        let (ty, at) = type_at(alloc, tokens, at, levels)?;
        Ok((TypeField { name: None, ty }, at))
    }
}

/// A type of at most 32 levels.
#[tactic(auto, unfolding(sql_grammar::specs::Words::whole_type))]
pub fn whole_type(alloc: Global, tokens: &Tokens, at: usize) -> Read<TypeSpelling>
    ensures reads { Reads tokens.now (words.whole_type (turns tokens.now) (from tokens.now at)) result }
    ensures moves { IfOk result (λ p. at < p.1) }
{
    type_at(alloc, tokens, at, LEVELS_BELOW)
}
