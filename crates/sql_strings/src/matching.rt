//! LIKE.
ghost use Rattle.std.specs.Prelude.{◌≡◌, ℕ, ◌<◌, ◌≤◌, true, false, List, ◌∷◌, length, MatchOption, MatchResult, IfOk, is_some};
ghost use Rattle.sql_strings.specs.Patterns as patterns;

use crate::pattern::{PatternPart, first_part, is_pattern, is_taken};
use crate::symbols::Symbols;
use sql_types::FaultKind;
use std::str;

/// LIKE of two texts, or of bytes: whether the whole text matches the pattern, in which `%` stands for any text, `_` for any
/// one symbol, and a backslash for the next symbol as it is. A symbol is a character, or a byte where `by_bytes` is true. A
/// pattern whose last backslash has nothing to escape is the fault PATTERN, whatever the text. It takes no memory, and time
/// at most the pattern's length times the text's.
pub fn like(text: &[u8], pattern: &[u8], by_bytes: bool) -> Result<bool, FaultKind>
    requires text { patterns.IsText by_bytes text.now }
    requires pattern { patterns.IsText by_bytes pattern.now }
    ensures { result ≡ patterns.like (patterns.symbols by_bytes text.now) (patterns.symbols by_bytes pattern.now) }
{
    if by_bytes {
        return like_symbols(text, pattern);
    }
    match (str::from_utf8(text), str::from_utf8(pattern)) {
        (Ok(text), Ok(pattern)) => like_symbols(text, pattern),
        // It can't be reached: both are texts.
        _ => Ok(false),
    }
}

fn like_symbols<S: Symbols>(text: S, pattern: S) -> Result<bool, FaultKind>
    ensures { result ≡ patterns.like (S.symbols text) (S.symbols pattern) }
{
    if !is_pattern(pattern) {
        return Err(FaultKind::Pattern);
    }
    match walk(text, pattern) {
        Ok(met) => Ok(some_rest(met.0, met.1)),
        Err(answer) => Ok(answer),
    }
}

/// Whether some text behind a front of this one matches. A `%` stood before the pattern, and the next one that is met takes
/// its place: what stands between the two is best found as early as it can be.
fn some_rest<S: Symbols>(text: S, pattern: S) -> bool
    requires { is_some (patterns.parts (S.symbols pattern)) ≡ true }
    ensures { result ≡ patterns.some_rest (patterns.passes (patterns.parts (S.symbols pattern))) (S.symbols text) }
{
    let mut rest = text;
    let mut parts = pattern;
    loop {
        match walk(rest, parts) {
            Ok((after, behind)) => {
                rest = after;
                parts = behind;
            }
            Err(true) => return true,
            Err(false) => match rest.first() {
                Some((_, later)) => rest = later,
                None => return false,
            },
        }
    }
}

/// Takes the parts of a pattern up to its first `%` off the text. Ok has the text that is left, and the pattern behind the
/// `%`. Err says whether the text matches, where that is known before a `%` is met.
fn walk<S: Symbols>(text: S, pattern: S) -> Result<(S, S), bool>
    requires { is_some (patterns.parts (S.symbols pattern)) ≡ true }
    ensures anchored { MatchResult result
        (λ r. patterns.passes (patterns.parts (S.symbols pattern)) (S.symbols text) ≡ patterns.some_rest (patterns.passes (patterns.parts (S.symbols r.1))) (S.symbols r.0))
        (λ answer. patterns.passes (patterns.parts (S.symbols pattern)) (S.symbols text) ≡ answer) }
    ensures anywhere { IfOk result (λ r. patterns.some_rest (patterns.passes (patterns.parts (S.symbols pattern))) (S.symbols text)
        ≡ patterns.some_rest (patterns.passes (patterns.parts (S.symbols r.1))) (S.symbols r.0)) }
    ensures pattern { IfOk result (λ r. is_some (patterns.parts (S.symbols r.1)) ≡ true) }
    ensures shorter { IfOk result (λ r. (length (S.symbols r.0) ≤ length (S.symbols text)) × (length (S.symbols r.1) < length (S.symbols pattern))) }
{
    let mut rest = text;
    let mut parts = pattern;
    loop {
        let (part, behind) = match first_part(parts) {
            Some(first) => first,
            None => return Err(rest.first().is_none()),
        };
        match part {
            PatternPart::AnyText => return Ok((rest, behind)),
            single => match take_symbol(rest, single) {
                Some(later) => rest = later,
                None => return Err(false),
            },
        }
        parts = behind;
    }
}

/// The text behind its first symbol, where a part that is no `%` takes that.
fn take_symbol<S: Symbols>(text: S, part: PatternPart) -> Option<S>
    ensures { MatchOption result
        ((x : ℕ) (xs : List ℕ) → S.symbols text ≡ x ∷ xs → patterns.takes (patterns.said part) x ≡ false)
        (λ later. (x : ℕ) × (S.symbols text ≡ x ∷ S.symbols later) × (patterns.takes (patterns.said part) x ≡ true)) }
{
    let (symbol, later) = text.first()?;
    if is_taken(symbol, part) {
        Some(later)
    } else {
        None
    }
}
