//! How words and signs are spelled.
ghost use Rattle.std.specs.Prelude.{◌≡◌, map};
ghost use Rattle.sql_ast.specs.Pieces as pieces;
ghost use Rattle.sql_ast.specs.Marks as marks;

use sql_ast::words::{SIGNS, WORDS};
use sql_ast::{Reserved, Sign, Word};
use sql_names::words::RESERVED;

/// The spelling of a reserved word.
pub fn reserved_text(word: Reserved) -> &'static [u8]
    ensures { result.now ≡ pieces.spelled_by marks.same_reserved (map (λ e. (e.0.now, e.1)) RESERVED) word }
{
    find_reserved(&RESERVED, word)
}

#[tactic(auto, unfolding(sql_ast::specs::Marks::same_reserved))]
fn find_reserved(mut table: &'static [(&'static [u8], Reserved)], word: Reserved) -> &'static [u8]
    ensures { result.now ≡ pieces.spelled_by marks.same_reserved (map (λ e. (e.0.now, e.1)) table.entry.now) word }
{
    'entries: while let [entry, rest @ ..] = table {
        if entry.1 == word {
            return entry.0;
        }
        table = rest;
    }
    b""
}

/// The spelling of a word that the grammar reads at its place.
pub fn word_text(word: Word) -> &'static [u8]
    ensures { result.now ≡ pieces.spelled_word word }
{
    find_word(&WORDS, word)
}

#[tactic(auto, unfolding(sql_ast::specs::Marks::same_word))]
fn find_word(mut table: &'static [(&'static [u8], Word)], word: Word) -> &'static [u8]
    ensures { result.now ≡ pieces.spelled_by marks.same_word (map (λ e. (e.0.now, e.1)) table.entry.now) word }
{
    'entries: while let [entry, rest @ ..] = table {
        if entry.1 == word {
            return entry.0;
        }
        table = rest;
    }
    b""
}

/// The spelling of an operator or a mark.
pub fn sign_text(sign: Sign) -> &'static [u8]
    ensures { result.now ≡ pieces.spelled_by marks.same_sign (map (λ e. (e.0.now, e.1)) SIGNS) sign }
{
    find_sign(&SIGNS, sign)
}

#[tactic(auto, unfolding(sql_ast::specs::Marks::same_sign))]
fn find_sign(mut table: &'static [(&'static [u8], Sign)], sign: Sign) -> &'static [u8]
    ensures { result.now ≡ pieces.spelled_by marks.same_sign (map (λ e. (e.0.now, e.1)) table.entry.now) sign }
{
    'entries: while let [entry, rest @ ..] = table {
        if entry.1 == sign {
            return entry.0;
        }
        table = rest;
    }
    b""
}
