//! Where a part stands in a text.
ghost use Rattle.std.specs.Prelude.{◌≡◌, [], ◌∷◌, length, ◌<◌, take, MatchOption, IfSome, Some, None};
ghost use Rattle.std.specs.Str.{IsUtf8, chars};
ghost use Rattle.sql_strings.specs.Texts as texts;

use crate::characters::count_characters;
use memchr::memmem;

pub(crate) fn text_begins(text: &str, part: &str) -> bool
    ensures { result ≡ texts.begins_with (chars part.now) (chars text.now) }
{
    text.starts_with(part)
}

pub(crate) fn text_ends(text: &str, part: &str) -> bool
    ensures { result ≡ texts.ends_with (chars part.now) (chars text.now) }
{
    text.ends_with(part)
}

pub(crate) fn bytes_begin(bytes: &[u8], part: &[u8]) -> bool
    ensures { result ≡ texts.begins_with part.now bytes.now }
{
    bytes.starts_with(part)
}

pub(crate) fn bytes_end(bytes: &[u8], part: &[u8]) -> bool
    ensures { result ≡ texts.ends_with part.now bytes.now }
{
    bytes.ends_with(part)
}

/// The first place of a part in characters, from 1, and 0 where there is none.
pub(crate) fn text_place(text: &str, part: &str) -> usize
    ensures { result ≡ texts.place_of (texts.first_place (chars part.now) (chars text.now)) }
{
    match text.find(part) {
        Some(before) => count_characters(&text[..before]) + 1,
        None => 0,
    }
}

/// The first place of a part in bytes, from 1, and 0 where there is none.
pub(crate) fn bytes_place(content: &[u8], part: &[u8]) -> usize
    ensures { result ≡ texts.place_of (texts.first_place part.now content.now) }
{
    match memmem::find(content, part) {
        Some(before) => before + 1,
        None => 0,
    }
}

/// What stands before the first place of a separator that isn't empty, and what stands behind it.
pub(crate) fn cut_text<'a>(text: &'a str, separator: &str) -> Option<(&'a str, &'a str)>
    requires { 0 < length separator.now }
    ensures pieces { MatchOption result (texts.pieces (chars separator.now) (chars text.now) ≡ chars text.now ∷ [])
        (λ cut. texts.pieces (chars separator.now) (chars text.now) ≡ chars cut.0.now ∷ texts.pieces (chars separator.now) (chars cut.1.now)) }
    ensures shorter { IfSome result (λ cut. length cut.1.now < length text.now) }
    ensures utf8 { IfSome result (λ cut. IsUtf8 cut.0.now × IsUtf8 cut.1.now) }
{
    text.split_once(separator)
}

/// The same of bytes.
pub(crate) fn cut_bytes<'a>(content: &'a [u8], separator: &[u8]) -> Option<(&'a [u8], &'a [u8])>
    requires { 0 < length separator.now }
    ensures pieces { MatchOption result (texts.pieces separator.now content.now ≡ content.now ∷ [])
        (λ cut. texts.pieces separator.now content.now ≡ cut.0.now ∷ texts.pieces separator.now cut.1.now) }
    ensures shorter { IfSome result (λ cut. length cut.1.now < length content.now) }
{
    let before = memmem::find(content, separator)?;
    Some((&content[..before], &content[before + separator.len()..]))
}
