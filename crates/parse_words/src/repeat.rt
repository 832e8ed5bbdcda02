//! Repetitions.
ghost use Rattle.std.specs.Prelude.{◌≡◌, ℕ, ◌<◌, ◌≤◌, IfOk, [], ◌∷◌, length, Option, None};
ghost use Rattle.fronts.specs.Readers.{many};
ghost use Rattle.sql_grammar.specs.Ways.{Ended, Parser, following, until};
ghost use Rattle.parse_words.specs.Marked.{marked};
ghost use Rattle.parse_words.specs.Reads.{from, turns, Reads};

use crate::cursor::{Read, sees};
use crate::marks::Mark;
use sql_lexer::Tokens;
use sql_types::{Boxed, Items, OutOfMemory};
use std::alloc::Global;

/// The items of a repetition, and what has ended it, if not the next token.
pub type Ended<T, X> = (Items<T>, Option<X>);

/// A list of one element.
pub fn one<T: Drop>(alloc: Global, first: T) -> Result<Items<T>, OutOfMemory>
    ensures { IfOk result (λ xs. xs ≡ first ∷ []) }
{
    let mut items = Items::new(alloc);
    items.push(first)?;
    Ok(items)
}

/// Items behind those that were found, as long as a token that the mark stands for comes next. Each item takes a token.
#[tactic(auto, unfolding(fronts::specs::Readers::many))]
pub fn many<T: Drop, F: Fn(usize) -> Read<T>>(
    tokens: &Tokens,
    at: usize,
    mark: Mark,
    found: Items<T>,
    item: F,
) -> Read<Items<T>>
    requires callable { (place : ℕ) → at ≤ place → F.pre item place }
    requires moves { (place : ℕ) (r : _) → F.post item place r → IfOk r (λ p. place < p.1) }
    ensures reads { (reader : Parser T)
        → ((place : ℕ) (r : _) → F.post item place r → Reads tokens.now (reader (from tokens.now place)) r)
        → Reads tokens.now (many (marked mark) reader (turns tokens.now) found (from tokens.now at)) result }
    ensures moves { IfOk result (λ p. at ≤ p.1) }
    ensures stays { IfOk result (λ p. p.1 ≡ at → p.0 ≡ found) }
{
    let mut found = found;
    let mut at = at;
    'items: while sees(tokens, at, mark) {
        let (next, behind) = item(at)?;
        found.push(next)?;
        at = behind;
    }
    Ok((found, at))
}

/// The same, where each item comes in a box.
#[tactic(auto, unfolding(fronts::specs::Readers::many))]
pub fn many_boxed<T: Drop, F: Fn(usize) -> Read<Boxed<T>>>(
    tokens: &Tokens,
    at: usize,
    mark: Mark,
    found: Items<T>,
    item: F,
) -> Read<Items<T>>
    requires callable { (place : ℕ) → at ≤ place → F.pre item place }
    requires moves { (place : ℕ) (r : _) → F.post item place r → IfOk r (λ p. place < p.1) }
    ensures reads { (reader : Parser T)
        → ((place : ℕ) (r : _) → F.post item place r → Reads tokens.now (reader (from tokens.now place)) r)
        → Reads tokens.now (many (marked mark) reader (turns tokens.now) found (from tokens.now at)) result }
    ensures moves { IfOk result (λ p. at ≤ p.1) }
    ensures stays { IfOk result (λ p. p.1 ≡ at → p.0 ≡ found) }
{
    let mut found = found;
    let mut at = at;
    'items: while sees(tokens, at, mark) {
        let (next, behind) = item(at)?;
        found.push(next.into_inner())?;
        at = behind;
    }
    Ok((found, at))
}

/// Items behind those that were found, as long as a token that the mark stands for comes next and no item ends the
/// repetition. Each item takes a token.
#[tactic(auto, unfolding(sql_grammar::specs::Ways::until))]
pub fn until<T: Drop, X: Drop, F: Fn(usize) -> Read<Ended<T, X>>>(
    tokens: &Tokens,
    at: usize,
    mark: Mark,
    found: Items<T>,
    item: F,
) -> Read<Ended<T, X>>
    requires callable { (place : ℕ) → at ≤ place → F.pre item place }
    requires moves { (place : ℕ) (r : _) → F.post item place r → IfOk r (λ p. place < p.1) }
    ensures reads { (reader : Parser (Ended T X))
        → ((place : ℕ) (r : _) → F.post item place r → Reads tokens.now (reader (from tokens.now place)) r)
        → Reads tokens.now (until (marked mark) reader (turns tokens.now) found (from tokens.now at)) result }
    ensures moves { IfOk result (λ p. at ≤ p.1) }
    ensures stays { IfOk result (λ p. p.1 ≡ at → p.0 ≡ (found, None)) }
{
    let mut found = found;
    let mut at = at;
    'items: while sees(tokens, at, mark) {
        let ((next, end), behind) = item(at)?;
        found.append(next)?;
        match end {
            Some(end) => return Ok(((found, Some(end)), behind)),
            None => at = behind,
        }
    }
    Ok(((found, None), at))
}

/// Items behind those that were found, as long as each says what the next begins with. Each item takes a token.
#[tactic(auto, unfolding(sql_grammar::specs::Ways::following))]
pub fn following<T: Drop, X: Drop, F: Fn(usize, X) -> Read<(Boxed<T>, Option<X>)>>(
    tokens: &Tokens,
    at: usize,
    found: Items<T>,
    next: Option<X>,
    item: F,
) -> Read<Items<T>>
    requires callable { (place : ℕ) (x : X) → at ≤ place → F.pre item place x }
    requires moves { (place : ℕ) (x : X) (r : _) → F.post item place x r → IfOk r (λ p. (place < p.1) × (place < length tokens.now.list)) }
    ensures reads { (reader : X → Parser (T × Option X))
        → ((place : ℕ) (x : X) (r : _) → F.post item place x r → Reads tokens.now (reader x (from tokens.now place)) r)
        → Reads tokens.now (following reader (turns tokens.now) found next (from tokens.now at)) result }
    ensures moves { IfOk result (λ p. at ≤ p.1) }
{
    let mut found = found;
    let mut next = next;
    let mut at = at;
    'items: while let Some(begun) = next {
        let ((part, read), behind) = item(at, begun)?;
        found.push(part.into_inner())?;
        next = read;
        at = behind;
    }
    Ok((found, at))
}
