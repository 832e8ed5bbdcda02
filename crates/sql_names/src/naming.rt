//! When names are the same, and which reserved word a name spells.
ghost use Rattle.std.specs.Prelude.{◌≡◌, map};
ghost use Rattle.sql_names.specs.Words as words;

use crate::words::{RESERVED, Reserved};
use lists::Text;

/// Whether two names are the same: equal after ASCII letters are made lower case.
pub fn same_name(left: &Text, right: &Text) -> bool
    ensures { result ≡ words.same_name left.now right.now }
{
    same_letters(left.as_bytes(), right.as_bytes())
}

/// Whether two spellings are the same but for the case of ASCII letters.
pub fn same_letters(left: &[u8], right: &[u8]) -> bool
    ensures { result ≡ words.same_name left.now right.now }
{
    left.eq_ignore_ascii_case(right)
}

/// The reserved word that these letters spell, in any case.
#[tactic(auto, unfolding(crate::specs::Words::reserved_of))]
pub fn reserved_word(letters: &[u8]) -> Option<Reserved>
    ensures { result ≡ words.reserved_of letters.now }
{
    find_reserved(&RESERVED, letters)
}

fn find_reserved(mut table: &[(&[u8], Reserved)], letters: &[u8]) -> Option<Reserved>
    ensures { result ≡ words.find_word (map (λ e. (e.0.now, e.1)) table.entry.now) letters.now }
{
    'entries: while let [entry, rest @ ..] = table {
        if same_letters(entry.0, letters) {
            return Some(entry.1);
        }
        table = rest;
    }
    None
}
