//! The tokens of a text.
use crate::words::{Sign, Word};
use sql_names::Reserved;
use sql_types::{Bytes, Text};

/// What a token says.
#[derive(Debug, Drop)]
pub enum Lexeme {
    /// A reserved word, in any case, outside of backquotes and not directly after `.`.
    Reserved(Reserved),
    /// An identifier after its escapes. `word` is the word of the grammar that it spells, if it spells one outside of
    /// backquotes; a name in backquotes is never a word of the grammar.
    Name { name: Text, word: Option<Word> },
    /// An integer, decimal or hexadecimal.
    Integer(u64),
    /// A STRING literal after its escapes.
    Text(Text),
    /// A BYTES literal after its escapes.
    Bytes(Bytes),
    /// The name of a parameter, without its `@`.
    Parameter(Text),
    /// An operator or a mark.
    Sign(Sign),
}

/// A token, from its first byte to past its last, counted from 0.
#[derive(Debug, Drop)]
pub struct Token {
    pub lexeme: Lexeme,
    pub start: u64,
    pub end: u64,
}
