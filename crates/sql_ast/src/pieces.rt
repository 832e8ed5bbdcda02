//! The pieces of a text: its tokens, white space and comments, and what bytes are to their shapes.
use crate::token::Lexeme;

/// A quote of a literal.
#[derive(Clone, Copy, Debug, PartialEq, Eq)]
pub enum Quote {
    /// `'`
    Single,
    /// `"`
    Double,
}

/// What encloses a literal or a name.
#[derive(Clone, Copy, Debug, PartialEq, Eq)]
pub enum Mark {
    Quote(Quote),
    Backquote,
}

/// What a byte is to the shapes of pieces.
#[derive(Clone, Copy, Debug, PartialEq, Eq)]
pub enum Class {
    /// `r` and `R`, which may stand before a literal.
    LetterR,
    /// `b` and `B`, which may stand before a literal.
    LetterB,
    /// Every other letter from A to Z and a to z, and `_`.
    Letter,
    /// `0` to `9`
    Digit,
    /// LF and CR, which end a line.
    LineBreak,
    /// The other white space.
    Space,
    Mark(Mark),
    /// `\`
    Backslash,
    /// `*`
    Star,
    /// `/`
    Slash,
    /// `#`
    Hash,
    /// `-`
    Minus,
    /// `<`
    Less,
    /// `=`
    Equal,
    /// `>`
    Greater,
    /// `|`
    Bar,
    /// `!`
    Bang,
    /// `@`
    At,
    /// A byte that is a token and begins no other.
    Sign,
    /// Every other byte. None begins a piece.
    Other,
}

/// The letters before a literal, in either order and case: `r` keeps its backslashes, `b` makes BYTES.
#[derive(Clone, Copy, Debug, PartialEq, Eq)]
pub enum LiteralPrefix {
    Plain,
    Raw,
    Bytes,
    RawBytes,
}

/// How many quotes stand at each end of a literal.
#[derive(Clone, Copy, Debug, PartialEq, Eq)]
pub enum Quotes {
    One,
    Three,
}

/// What escapes are read for: in BYTES a number is a byte, in a STRING or a name it is a code point.
#[derive(Clone, Copy, Debug, PartialEq, Eq)]
pub enum Content {
    Text,
    Bytes,
}

/// The shape of a piece.
#[derive(Clone, Copy, Debug, PartialEq, Eq)]
pub enum Shape {
    /// White space or a comment.
    Gap,
    /// A reserved word, or an identifier outside of backquotes.
    Word,
    /// An identifier in backquotes.
    QuotedName,
    Integer,
    /// A STRING or BYTES literal.
    Literal(LiteralPrefix, Quotes),
    /// `@` and an identifier.
    Parameter,
    /// `@` and an identifier in backquotes.
    QuotedParameter,
    Sign,
}

/// What a piece says.
#[derive(Debug, Drop)]
pub enum Piece {
    /// Nothing: it is white space or a comment.
    Gap,
    Token(Lexeme),
}
