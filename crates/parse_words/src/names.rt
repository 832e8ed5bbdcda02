//! Names, aliases and paths.
ghost use Rattle.std.specs.Prelude.{◌≡◌, ◌<◌, ◌≤◌, IfOk};
ghost use Rattle.fronts.specs.Readers.{many};
ghost use Rattle.sql_ast.specs.declared.words.Sign.TheVariants as sign;
ghost use Rattle.sql_grammar.specs.Words as words;
ghost use Rattle.parse_words.specs.Marked.{marked};
ghost use Rattle.parse_words.specs.declared.marks.Mark.TheVariants as mark;
ghost use Rattle.parse_words.specs.Reads.{from, turns, Reads};

use crate::cursor::{Read, expect, expect_marked, sees};
use crate::marks::Mark;
use crate::repeat::{many, one};
use crate::saying::{literal_text, name_of};
use sql_ast::{Name, Names, Reserved, Sign, UnpivotColumn, WithOffset, Word};
use sql_lexer::Tokens;
use std::alloc::Global;

/// A name.
#[tactic(auto, unfolding(sql_grammar::specs::Words::name))]
pub fn name(alloc: Global, tokens: &Tokens, at: usize) -> Read<Name>
    ensures reads { Reads tokens.now (words.name (from tokens.now at)) result }
    ensures moves { IfOk result (λ p. at < p.1) }
{
    let (token, at) = expect(tokens, at, Mark::Name)?;
    Ok((name_of(alloc, token)?, at))
}

/// `AS name`
#[tactic(auto, unfolding(sql_grammar::specs::Words::after_as))]
pub fn after_as(alloc: Global, tokens: &Tokens, at: usize) -> Read<Option<Name>>
    ensures reads { Reads tokens.now (words.after_as (from tokens.now at)) result }
    ensures moves { IfOk result (λ p. at < p.1) }
{
    let (_, at) = expect(tokens, at, Mark::Reserved(Reserved::As))?;
    let (token, at) = expect(tokens, at, Mark::Name)?;
    Ok((Some(name_of(alloc, token)?), at))
}

/// `[AS] name`, where the mark says which names may stand without AS.
#[tactic(auto, unfolding(sql_grammar::specs::Words::alias_of))]
pub fn alias_of(alloc: Global, tokens: &Tokens, at: usize, bare: Mark) -> Read<Option<Name>>
    ensures reads { Reads tokens.now (words.alias_of (marked bare) (from tokens.now at)) result }
    ensures moves { IfOk result (λ p. at ≤ p.1) }
{
    if sees(tokens, at, Mark::Reserved(Reserved::As)) {
        after_as(alloc, tokens, at)
    } else if sees(tokens, at, bare) {
        let (token, at) = expect(tokens, at, bare)?;
        Ok((Some(name_of(alloc, token)?), at))
    } else {
        Ok((None, at))
    }
}

/// `[[AS] name]`
pub fn alias(alloc: Global, tokens: &Tokens, at: usize) -> Read<Option<Name>>
    ensures reads { Reads tokens.now (words.alias (from tokens.now at)) result }
    ensures moves { IfOk result (λ p. at ≤ p.1) }
{
    alias_of(alloc, tokens, at, Mark::Name)
}

/// `[[AS] name]` in FROM, where PIVOT and UNPIVOT are no alias without AS.
pub fn alias_in_from(alloc: Global, tokens: &Tokens, at: usize) -> Read<Option<Name>>
    ensures reads { Reads tokens.now (words.alias_in_from (from tokens.now at)) result }
    ensures moves { IfOk result (λ p. at ≤ p.1) }
{
    alias_of(alloc, tokens, at, Mark::FromAlias)
}

/// `"," name`
#[tactic(auto, unfolding(sql_grammar::specs::Words::comma_name))]
pub fn comma_name(alloc: Global, tokens: &Tokens, at: usize) -> Read<Name>
    ensures reads { Reads tokens.now (words.comma_name (from tokens.now at)) result }
    ensures moves { IfOk result (λ p. at < p.1) }
{
    let (_, at) = expect(tokens, at, Mark::Sign(Sign::Comma))?;
    name(alloc, tokens, at)
}

/// `"." name`
#[tactic(auto, unfolding(sql_grammar::specs::Words::dot_name))]
pub fn dot_name(alloc: Global, tokens: &Tokens, at: usize) -> Read<Name>
    ensures reads { Reads tokens.now (words.dot_name (from tokens.now at)) result }
    ensures moves { IfOk result (λ p. at < p.1) }
{
    let (_, at) = expect(tokens, at, Mark::Sign(Sign::Dot))?;
    name(alloc, tokens, at)
}

/// `"(" name {"," name} ")"`
#[tactic(auto, unfolding(sql_grammar::specs::Words::names))]
pub fn names(alloc: Global, tokens: &Tokens, at: usize) -> Read<Names>
    ensures reads { Reads tokens.now (words.names (turns tokens.now) (from tokens.now at)) result }
    ensures moves { IfOk result (λ p. at < p.1) }
{
    let (_, at) = expect(tokens, at, Mark::Sign(Sign::OpenRound))?;
    let (first, at) = name(alloc, tokens, at)?;
    let (all, at) = more_names(alloc, tokens, at, one(alloc, first)?)?;
    let (_, at) = expect(tokens, at, Mark::Sign(Sign::CloseRound))?;
    Ok((all, at))
}

/// `{"," name}` behind the names that were found.
fn more_names(alloc: Global, tokens: &Tokens, at: usize, found: Names) -> Read<Names>
    ensures reads { Reads tokens.now (many (marked (mark.Sign sign.Comma)) words.comma_name (turns tokens.now) found (from tokens.now at)) result }
    ensures moves { IfOk result (λ p. at ≤ p.1) }
{
    many(tokens, at, Mark::Sign(Sign::Comma), found, |place| {
        comma_name(alloc, tokens, place)
    })
}

/// `{"." name}` behind the first names of a path.
#[tactic(auto, unfolding(sql_grammar::specs::Words::dotted))]
pub fn dotted(alloc: Global, tokens: &Tokens, at: usize, found: Names) -> Read<Names>
    ensures reads { Reads tokens.now (words.dotted (turns tokens.now) found (from tokens.now at)) result }
    ensures moves { IfOk result (λ p. at ≤ p.1) }
{
    many(tokens, at, Mark::Sign(Sign::Dot), found, |place| {
        dot_name(alloc, tokens, place)
    })
}

/// `[WITH OFFSET [alias]]`
#[tactic(auto, unfolding(sql_grammar::specs::Words::offset_column))]
pub fn offset_column(alloc: Global, tokens: &Tokens, at: usize) -> Read<Option<WithOffset>>
    ensures reads { Reads tokens.now (words.offset_column (from tokens.now at)) result }
    ensures moves { IfOk result (λ p. at ≤ p.1) }
{
    if sees(tokens, at, Mark::Reserved(Reserved::With)) {
        let (with, at) = expect(tokens, at, Mark::Reserved(Reserved::With))?;
        let (_, at) = expect(tokens, at, Mark::Word(Word::Offset))?;
        let (alias, at) = alias_in_from(alloc, tokens, at)?;
        let place = with.start;
        Ok((Some(WithOffset { alias, place }), at))
    } else {
        Ok((None, at))
    }
}

/// `name [AS string]`
#[tactic(auto, unfolding(sql_grammar::specs::Words::unpivot_column))]
pub fn unpivot_column(alloc: Global, tokens: &Tokens, at: usize) -> Read<UnpivotColumn>
    ensures reads { Reads tokens.now (words.unpivot_column (from tokens.now at)) result }
    ensures moves { IfOk result (λ p. at < p.1) }
{
    let (token, at) = expect(tokens, at, Mark::Name)?;
    let name = name_of(alloc, token)?;
    if sees(tokens, at, Mark::Reserved(Reserved::As)) {
        let (_, at) = expect(tokens, at, Mark::Reserved(Reserved::As))?;
        let (text, at) = expect_marked(tokens, at, Mark::Text)?;
        let label = Some(literal_text(alloc, text)?);
        Ok((UnpivotColumn { name, label }, at))
    } else {
        Ok((UnpivotColumn { name, label: None }, at))
    }
}

/// `"," name [AS string]`
#[tactic(auto, unfolding(sql_grammar::specs::Words::comma_column))]
pub fn comma_column(alloc: Global, tokens: &Tokens, at: usize) -> Read<UnpivotColumn>
    ensures reads { Reads tokens.now (words.comma_column (from tokens.now at)) result }
    ensures moves { IfOk result (λ p. at < p.1) }
{
    let (_, at) = expect(tokens, at, Mark::Sign(Sign::Comma))?;
    unpivot_column(alloc, tokens, at)
}
