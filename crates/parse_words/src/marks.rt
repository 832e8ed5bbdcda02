//! Which tokens a production takes.
use sql_ast::{Reserved, Sign, Word};

/// A class of tokens, one of which a production takes or tests for.
#[derive(Clone, Copy, Debug)]
pub enum Mark {
    /// A reserved word.
    Reserved(Reserved),
    /// An operator or a mark.
    Sign(Sign),
    /// A name that spells a word of the grammar, outside of backquotes.
    Word(Word),
    /// Any name.
    Name,
    /// An integer.
    Integer,
    /// A STRING literal.
    Text,
    /// A BYTES literal.
    Bytes,
    /// A parameter.
    Parameter,
    /// An integer or a parameter.
    Count,
    /// A name that may be an alias without AS in FROM: each but PIVOT and UNPIVOT.
    FromAlias,
    /// What a call names: IF, or a name.
    Function,
    /// `+`, `-` or `~`.
    Prefix,
    /// `*` or `||`.
    Product,
    /// `+` or `-`.
    Sum,
    /// `=`, `!=`, `<>`, `<`, `<=`, `>` or `>=`.
    Comparison,
    /// ANY, SOME or ALL.
    Quantifier,
    /// NULL, TRUE or FALSE.
    Test,
    /// OFFSET, ORDINAL, SAFE_OFFSET or SAFE_ORDINAL.
    Form,
    /// ROLLUP or CUBE.
    Cube,
    /// UNION, INTERSECT or EXCEPT.
    SetWord,
    /// `.` or `[`, which begin a part of a postfix.
    Part,
    /// `<<` or `>`, which may begin a shift.
    Shift,
    /// `>` directly behind this place, where a first `>` ends.
    ShiftEnd(u64),
    /// `*`, where one is permitted.
    StarIf(bool),
    /// What an item of a select list may begin with.
    ItemStart,
    /// The first word of a join.
    Join,
    /// `,`, or the first word of a join that may stand behind one.
    CommaOrJoin,
}
