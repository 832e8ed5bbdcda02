//! The words and signs of the grammar.

/// The words that the grammar reads at their place, and that are identifiers everywhere else.
#[derive(Clone, Copy, Debug, PartialEq, Eq)]
pub enum Word {
    Date,
    First,
    Include,
    Last,
    Offset,
    Ordinal,
    Pivot,
    Replace,
    Safe,
    SafeCast,
    SafeOffset,
    SafeOrdinal,
    Sets,
    Unpivot,
}

/// The operators and marks. `>>` is two tokens `>` with nothing between.
#[derive(Clone, Copy, Debug, PartialEq, Eq)]
pub enum Sign {
    /// `(`
    OpenRound,
    /// `)`
    CloseRound,
    /// `[`
    OpenSquare,
    /// `]`
    CloseSquare,
    /// `,`
    Comma,
    /// `.`
    Dot,
    /// `;`
    Semicolon,
    /// `+`
    Plus,
    /// `-`
    Minus,
    /// `*`
    Star,
    /// `~`
    Tilde,
    /// `&`
    Ampersand,
    /// `^`
    Caret,
    /// `|`
    Bar,
    /// `||`
    BarBar,
    /// `=`
    Equal,
    /// `!=`
    BangEqual,
    /// `<>`
    LessGreater,
    /// `<`
    Less,
    /// `<=`
    LessEqual,
    /// `<<`
    LessLess,
    /// `>`
    Greater,
    /// `>=`
    GreaterEqual,
    /// `->`
    Arrow,
}

/// Each word that the grammar reads at its place, with its spelling in upper case.
pub const WORDS: [(&[u8], Word); 14] = [
    (b"DATE", Word::Date),
    (b"FIRST", Word::First),
    (b"INCLUDE", Word::Include),
    (b"LAST", Word::Last),
    (b"OFFSET", Word::Offset),
    (b"ORDINAL", Word::Ordinal),
    (b"PIVOT", Word::Pivot),
    (b"REPLACE", Word::Replace),
    (b"SAFE", Word::Safe),
    (b"SAFE_CAST", Word::SafeCast),
    (b"SAFE_OFFSET", Word::SafeOffset),
    (b"SAFE_ORDINAL", Word::SafeOrdinal),
    (b"SETS", Word::Sets),
    (b"UNPIVOT", Word::Unpivot),
];

/// Each operator and mark as it is written.
pub const SIGNS: [(&[u8], Sign); 24] = [
    (b"(", Sign::OpenRound),
    (b")", Sign::CloseRound),
    (b"[", Sign::OpenSquare),
    (b"]", Sign::CloseSquare),
    (b",", Sign::Comma),
    (b".", Sign::Dot),
    (b";", Sign::Semicolon),
    (b"+", Sign::Plus),
    (b"-", Sign::Minus),
    (b"*", Sign::Star),
    (b"~", Sign::Tilde),
    (b"&", Sign::Ampersand),
    (b"^", Sign::Caret),
    (b"|", Sign::Bar),
    (b"||", Sign::BarBar),
    (b"=", Sign::Equal),
    (b"!=", Sign::BangEqual),
    (b"<>", Sign::LessGreater),
    (b"<", Sign::Less),
    (b"<=", Sign::LessEqual),
    (b"<<", Sign::LessLess),
    (b">", Sign::Greater),
    (b">=", Sign::GreaterEqual),
    (b"->", Sign::Arrow),
];
