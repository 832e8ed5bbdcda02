//! The parts of a pattern of LIKE.
ghost use Rattle.std.specs.Prelude.{◌≡◌, ◌<◌, ◌&&◌, ◌==◌, not, true, [], length, MatchOption, IfSome, Some, is_some};
ghost use Rattle.sql_strings.specs.Patterns as patterns;

use crate::symbols::Symbols;

/// A part of a pattern.
#[derive(Clone, Copy, Debug, PartialEq, Eq)]
pub(crate) enum PatternPart {
    /// `%`
    AnyText,
    /// `_`
    AnySymbol,
    /// A symbol that stands for itself.
    This(u32),
}

/// Whether each backslash has a symbol to escape.
pub(crate) fn is_pattern<S: Symbols>(pattern: S) -> bool
    ensures { result ≡ is_some (patterns.parts (S.symbols pattern)) }
{
    let mut rest = pattern;
    let mut escaped = false;
    while let Some(first) = rest.first() {
        let (symbol, behind) = first;
        escaped = escapes_next(escaped, symbol);
        rest = behind;
    }
    !escaped
}

/// Whether a symbol escapes the next one. It doesn't where a backslash stands before it.
fn escapes_next(escaped: bool, symbol: u32) -> bool
    ensures { result ≡ (not escaped && symbol == 92) }
{
    !escaped && symbol == '\\' as u32
}

/// Whether a part that is no `%` takes this symbol.
pub(crate) fn is_taken(symbol: u32, part: PatternPart) -> bool
    ensures { result ≡ patterns.takes (patterns.said part) symbol }
{
    match part {
        PatternPart::AnyText | PatternPart::AnySymbol => true,
        PatternPart::This(wanted) => symbol == wanted,
    }
}

/// The first part of a pattern, and the pattern behind it.
pub(crate) fn first_part<S: Symbols>(pattern: S) -> Option<(PatternPart, S)>
    requires { is_some (patterns.parts (S.symbols pattern)) ≡ true }
    ensures parts { MatchOption result (patterns.parts (S.symbols pattern) ≡ Some [])
        (λ r. patterns.parts (S.symbols pattern) ≡ patterns.with_part (patterns.said r.0) (patterns.parts (S.symbols r.1))) }
    ensures shorter { IfSome result (λ r. length (S.symbols r.1) < length (S.symbols pattern)) }
{
    let (symbol, behind) = pattern.first()?;
    if symbol != '\\' as u32 {
        return Some((plain_part(symbol), behind));
    }
    let (escaped, after) = behind.first()?;
    Some((PatternPart::This(escaped), after))
}

/// The part that a symbol is when no backslash stands before it.
fn plain_part(symbol: u32) -> PatternPart
    ensures { patterns.said result ≡ patterns.part_of symbol }
{
    if symbol == '%' as u32 {
        PatternPart::AnyText
    } else if symbol == '_' as u32 {
        PatternPart::AnySymbol
    } else {
        PatternPart::This(symbol)
    }
}
