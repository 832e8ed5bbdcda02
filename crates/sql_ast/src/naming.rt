//! Which word, operator or mark of the grammar bytes spell.
ghost use Rattle.std.specs.Prelude.{◌≡◌, map};
ghost use Rattle.sql_ast.specs.Words as words;
ghost use Rattle.sql_names.specs.Words as names;

use crate::words::{SIGNS, Sign, WORDS, Word};
pub use sql_names::naming::{reserved_word, same_letters, same_name};

/// The word that the grammar reads at its place and that these letters spell, in any case.
#[tactic(auto, unfolding(crate::specs::Words::word_of))]
pub fn grammar_word(letters: &[u8]) -> Option<Word>
    ensures { result ≡ words.word_of letters.now }
{
    find_grammar_word(&WORDS, letters)
}

fn find_grammar_word(mut table: &[(&[u8], Word)], letters: &[u8]) -> Option<Word>
    ensures { result ≡ names.find_word (map (λ e. (e.0.now, e.1)) table.entry.now) letters.now }
{
    'entries: while let [entry, rest @ ..] = table {
        if same_letters(entry.0, letters) {
            return Some(entry.1);
        }
        table = rest;
    }
    None
}

/// The operator or mark that these bytes are.
#[tactic(auto, unfolding(crate::specs::Words::sign_of))]
pub fn sign_of(bytes: &[u8]) -> Option<Sign>
    ensures { result ≡ words.sign_of bytes.now }
{
    find_sign(&SIGNS, bytes)
}

fn find_sign(mut table: &[(&[u8], Sign)], bytes: &[u8]) -> Option<Sign>
    ensures { result ≡ names.find_word (map (λ e. (e.0.now, e.1)) table.entry.now) bytes.now }
{
    'entries: while let [entry, rest @ ..] = table {
        if same_letters(entry.0, bytes) {
            return Some(entry.1);
        }
        table = rest;
    }
    None
}
