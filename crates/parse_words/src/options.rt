//! Words that may stand, and counts.
ghost use Rattle.std.specs.Prelude.{◌≡◌, ◌≤◌, IfOk};
ghost use Rattle.sql_grammar.specs.Words as words;
ghost use Rattle.parse_words.specs.Reads.{from, Reads};

use crate::cursor::{Read, expect, sees};
use crate::marks::Mark;
use crate::saying::{count_of, number};
use sql_ast::{Expr, LimitPart, NullsPart, NullsPlace, Reserved, Word};
use sql_lexer::Tokens;
use std::alloc::Global;

/// `[(INCLUDE or EXCLUDE) NULLS]`: whether nulls are included.
#[tactic(auto, unfolding(sql_grammar::specs::Words::include))]
pub fn include(tokens: &Tokens, at: usize) -> Read<bool>
    ensures reads { Reads tokens.now (words.include (from tokens.now at)) result }
    ensures moves { IfOk result (λ p. at ≤ p.1) }
{
    if sees(tokens, at, Mark::Word(Word::Include)) {
        let (_, at) = expect(tokens, at, Mark::Word(Word::Include))?;
        let (_, at) = expect(tokens, at, Mark::Reserved(Reserved::Nulls))?;
        Ok((true, at))
    } else if sees(tokens, at, Mark::Reserved(Reserved::Exclude)) {
        let (_, at) = expect(tokens, at, Mark::Reserved(Reserved::Exclude))?;
        let (_, at) = expect(tokens, at, Mark::Reserved(Reserved::Nulls))?;
        Ok((false, at))
    } else {
        Ok((false, at))
    }
}

/// `[DISTINCT]`
#[tactic(auto, unfolding(sql_grammar::specs::Words::distinct))]
pub fn distinct(tokens: &Tokens, at: usize) -> Read<bool>
    ensures reads { Reads tokens.now (words.distinct (from tokens.now at)) result }
    ensures moves { IfOk result (λ p. at ≤ p.1) }
{
    if sees(tokens, at, Mark::Reserved(Reserved::Distinct)) {
        let (_, at) = expect(tokens, at, Mark::Reserved(Reserved::Distinct))?;
        Ok((true, at))
    } else {
        Ok((false, at))
    }
}

/// `[ALL or DISTINCT]` of a SELECT: whether it is DISTINCT.
#[tactic(auto, unfolding(sql_grammar::specs::Words::select_distinct))]
pub fn select_distinct(tokens: &Tokens, at: usize) -> Read<bool>
    ensures reads { Reads tokens.now (words.select_distinct (from tokens.now at)) result }
    ensures moves { IfOk result (λ p. at ≤ p.1) }
{
    if sees(tokens, at, Mark::Reserved(Reserved::All)) {
        let (_, at) = expect(tokens, at, Mark::Reserved(Reserved::All))?;
        Ok((false, at))
    } else {
        distinct(tokens, at)
    }
}

/// `[AS STRUCT]`
#[tactic(auto, unfolding(sql_grammar::specs::Words::as_struct))]
pub fn as_struct(tokens: &Tokens, at: usize) -> Read<bool>
    ensures reads { Reads tokens.now (words.as_struct (from tokens.now at)) result }
    ensures moves { IfOk result (λ p. at ≤ p.1) }
{
    if sees(tokens, at, Mark::Reserved(Reserved::As)) {
        let (_, at) = expect(tokens, at, Mark::Reserved(Reserved::As))?;
        let (_, at) = expect(tokens, at, Mark::Reserved(Reserved::Struct))?;
        Ok((true, at))
    } else {
        Ok((false, at))
    }
}

/// `[ASC or DESC]`: whether it is DESC.
#[tactic(auto, unfolding(sql_grammar::specs::Words::direction))]
pub fn direction(tokens: &Tokens, at: usize) -> Read<bool>
    ensures reads { Reads tokens.now (words.direction (from tokens.now at)) result }
    ensures moves { IfOk result (λ p. at ≤ p.1) }
{
    if sees(tokens, at, Mark::Reserved(Reserved::Asc)) {
        let (_, at) = expect(tokens, at, Mark::Reserved(Reserved::Asc))?;
        Ok((false, at))
    } else if sees(tokens, at, Mark::Reserved(Reserved::Desc)) {
        let (_, at) = expect(tokens, at, Mark::Reserved(Reserved::Desc))?;
        Ok((true, at))
    } else {
        Ok((false, at))
    }
}

/// `[NULLS (FIRST or LAST)]`
#[tactic(auto, unfolding(sql_grammar::specs::Words::nulls_place))]
pub fn nulls_place(tokens: &Tokens, at: usize) -> Read<Option<NullsPlace>>
    ensures reads { Reads tokens.now (words.nulls_place (from tokens.now at)) result }
    ensures moves { IfOk result (λ p. at ≤ p.1) }
{
    if sees(tokens, at, Mark::Reserved(Reserved::Nulls)) {
        let (_, at) = expect(tokens, at, Mark::Reserved(Reserved::Nulls))?;
        if sees(tokens, at, Mark::Word(Word::First)) {
            let (_, at) = expect(tokens, at, Mark::Word(Word::First))?;
            Ok((Some(NullsPlace::First), at))
        } else {
            let (_, at) = expect(tokens, at, Mark::Word(Word::Last))?;
            Ok((Some(NullsPlace::Last), at))
        }
    } else {
        Ok((None, at))
    }
}

/// `[(IGNORE or RESPECT) NULLS]`
#[tactic(auto, unfolding(sql_grammar::specs::Words::nulls_part))]
pub fn nulls_part(tokens: &Tokens, at: usize) -> Read<Option<NullsPart>>
    ensures reads { Reads tokens.now (words.nulls_part (from tokens.now at)) result }
    ensures moves { IfOk result (λ p. at ≤ p.1) }
{
    if sees(tokens, at, Mark::Reserved(Reserved::Ignore)) {
        let (_, at) = expect(tokens, at, Mark::Reserved(Reserved::Ignore))?;
        let (_, at) = expect(tokens, at, Mark::Reserved(Reserved::Nulls))?;
        Ok((Some(NullsPart::Ignore), at))
    } else if sees(tokens, at, Mark::Reserved(Reserved::Respect)) {
        let (_, at) = expect(tokens, at, Mark::Reserved(Reserved::Respect))?;
        let (_, at) = expect(tokens, at, Mark::Reserved(Reserved::Nulls))?;
        Ok((Some(NullsPart::Respect), at))
    } else {
        Ok((None, at))
    }
}

/// This word, where it stands.
#[tactic(auto, unfolding(sql_grammar::specs::Words::optional))]
pub fn optional(tokens: &Tokens, at: usize, word: Reserved) -> Read<bool>
    ensures reads { Reads tokens.now (words.optional word (from tokens.now at)) result }
    ensures moves { IfOk result (λ p. at ≤ p.1) }
{
    if sees(tokens, at, Mark::Reserved(word)) {
        let (_, at) = expect(tokens, at, Mark::Reserved(word))?;
        Ok((true, at))
    } else {
        Ok((false, at))
    }
}

/// `[OFFSET count]`
#[tactic(auto, unfolding(sql_grammar::specs::Words::offset))]
pub fn offset(alloc: Global, tokens: &Tokens, at: usize) -> Read<Option<Expr>>
    ensures reads { Reads tokens.now (words.offset (from tokens.now at)) result }
    ensures moves { IfOk result (λ p. at ≤ p.1) }
{
    if sees(tokens, at, Mark::Word(Word::Offset)) {
        let (_, at) = expect(tokens, at, Mark::Word(Word::Offset))?;
        let (count, at) = expect(tokens, at, Mark::Count)?;
        Ok((Some(count_of(alloc, count)?), at))
    } else {
        Ok((None, at))
    }
}

/// `[LIMIT count [OFFSET count]]`
#[tactic(auto, unfolding(sql_grammar::specs::Words::limit))]
pub fn limit(alloc: Global, tokens: &Tokens, at: usize) -> Read<Option<LimitPart<Expr>>>
    ensures reads { Reads tokens.now (words.limit (from tokens.now at)) result }
    ensures moves { IfOk result (λ p. at ≤ p.1) }
{
    if sees(tokens, at, Mark::Reserved(Reserved::Limit)) {
        let (word, at) = expect(tokens, at, Mark::Reserved(Reserved::Limit))?;
        let (token, at) = expect(tokens, at, Mark::Count)?;
        let (offset, at) = offset(alloc, tokens, at)?;
        let count = count_of(alloc, token)?;
        let place = word.start;
        Ok((
            Some(LimitPart {
                count,
                offset,
                place,
            }),
            at,
        ))
    } else {
        Ok((None, at))
    }
}

/// `[LIMIT integer]` of a call
#[tactic(auto, unfolding(sql_grammar::specs::Words::call_limit))]
pub fn call_limit(tokens: &Tokens, at: usize) -> Read<Option<u64>>
    ensures reads { Reads tokens.now (words.call_limit (from tokens.now at)) result }
    ensures moves { IfOk result (λ p. at ≤ p.1) }
{
    if sees(tokens, at, Mark::Reserved(Reserved::Limit)) {
        let (_, at) = expect(tokens, at, Mark::Reserved(Reserved::Limit))?;
        let (count, at) = expect(tokens, at, Mark::Integer)?;
        Ok((Some(number(count)), at))
    } else {
        Ok((None, at))
    }
}
