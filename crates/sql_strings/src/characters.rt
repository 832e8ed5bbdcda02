//! A text as its characters.
ghost use Rattle.std.specs.Prelude.{◌≡◌, ℕ, ◌+◌, ◌<◌, List, [], ◌∷◌, ◌++◌, length, take, drop, MatchOption, IfSome};
ghost use Rattle.std.specs.Char.{encode_utf8};
ghost use Rattle.std.specs.Str.{IsUtf8, chars};

/// How many characters a text has.
#[tactic(auto, using(std::proofs::lemmas::Str::chars_from_encodes))]
pub(crate) fn count_characters(text: &str) -> usize
    ensures { result ≡ length (chars text.now) }
{
    text.chars().count()
}

/// The first character of a text, and the text behind it.
pub(crate) fn first_character(text: &str) -> Option<(char, &str)>
    ensures characters { MatchOption result (chars text.now ≡ []) (λ r. chars text.now ≡ r.0 ∷ chars r.1.now) }
    ensures bytes { IfSome result (λ r. text.now ≡ encode_utf8 r.0 ++ r.1.now) }
    ensures shorter { IfSome result (λ r. length r.1.now < length text.now) }
    ensures utf8 { IfSome result (λ r. IsUtf8 r.1.now) }
{
    let mut rest = text.chars();
    let first = rest.next()?;
    Some((first, rest.as_str()))
}

/// The last character of a text, and the text before it.
pub(crate) fn last_character(text: &str) -> Option<(&str, char)>
    ensures characters { MatchOption result (chars text.now ≡ []) (λ r. chars text.now ≡ chars r.0.now ++ r.1 ∷ []) }
    ensures shorter { IfSome result (λ r. length r.0.now < length text.now) }
    ensures utf8 { IfSome result (λ r. IsUtf8 r.0.now) }
{
    let mut rest = text.chars();
    let last = rest.next_back()?;
    Some((rest.as_str(), last))
}

/// The text without its first characters, so many of them.
pub(crate) fn without_first(text: &str, count: usize) -> &str
    ensures characters { chars result.now ≡ drop count (chars text.now) }
    ensures behind { (front : List ℕ) × (text.now ≡ front ++ result.now) }
{
    let mut rest = text;
    let mut left = count;
    while left > 0 {
        match first_character(rest) {
            Some((_, behind)) => rest = behind,
            None => return rest,
        }
        left -= 1;
    }
    rest
}

/// The first characters of a text, at most so many.
pub(crate) fn first_part(text: &str, count: usize) -> &str
    ensures { chars result.now ≡ take count (chars text.now) }
{
    let rest = without_first(text, count);
    &text[..text.len() - rest.len()]
}
