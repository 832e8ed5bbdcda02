//! The names of the language's own operators, functions and aggregates.
ghost use Rattle.std.specs.Prelude.{◌≡◌, map};
ghost use Rattle.sql_catalog.specs.Names as names;

use sql_ast::naming::same_letters;
use sql_types::Text;

/// The names that no function of a catalog takes, in any case: those of the language's operators, functions and aggregates.
/// An operator of signs or of several words has them as its name.
pub const BUILT_IN_NAMES: [&[u8]; 87] = [
    // operators by signs
    b"+",
    b"*",
    b"-",
    b"~",
    b"&",
    b"^",
    b"|",
    b"<<",
    b">>",
    b"||",
    b"=",
    b"!=",
    b"<",
    b"<=",
    b">",
    b">=",
    // operators by words
    b"LIKE",
    b"NOT",
    b"AND",
    b"OR",
    b"BETWEEN",
    b"IS NULL",
    b"IS TRUE",
    b"IS FALSE",
    b"IS DISTINCT FROM",
    // functions
    b"IF",
    b"IFNULL",
    b"COALESCE",
    b"NULLIF",
    b"ERROR",
    b"IFERROR",
    b"NULLIFERROR",
    b"ISERROR",
    b"ABS",
    b"SIGN",
    b"DIV",
    b"MOD",
    b"GREATEST",
    b"LEAST",
    b"SAFE_ADD",
    b"SAFE_SUBTRACT",
    b"SAFE_MULTIPLY",
    b"LENGTH",
    b"BYTE_LENGTH",
    b"CHAR_LENGTH",
    b"CONCAT",
    b"SUBSTR",
    b"STARTS_WITH",
    b"ENDS_WITH",
    b"STRPOS",
    b"REPLACE",
    b"REPEAT",
    b"REVERSE",
    b"TRIM",
    b"LTRIM",
    b"RTRIM",
    b"SPLIT",
    b"TO_HEX",
    b"FROM_HEX",
    b"ARRAY_LENGTH",
    b"ARRAY_REVERSE",
    b"ARRAY_CONCAT",
    b"ARRAY_FIRST",
    b"ARRAY_LAST",
    b"ARRAY_TO_STRING",
    b"ARRAY_INCLUDES",
    b"ARRAY_FILTER",
    b"ARRAY_TRANSFORM",
    b"GENERATE_ARRAY",
    b"DATE",
    b"DATE_ADD",
    b"DATE_SUB",
    b"DATE_DIFF",
    b"DATE_TRUNC",
    b"EXTRACT",
    b"UNIX_DATE",
    b"DATE_FROM_UNIX_DATE",
    // aggregates
    b"COUNT",
    b"COUNTIF",
    b"SUM",
    b"MIN",
    b"MAX",
    b"LOGICAL_AND",
    b"LOGICAL_OR",
    b"STRING_AGG",
    b"ARRAY_AGG",
    b"ANY_VALUE",
];

/// Whether an operator, a function or an aggregate of the language has the name, in any case.
#[tactic(auto, unfolding(crate::specs::Names::is_built_in))]
pub fn is_built_in(name: &Text) -> bool
    ensures { result ≡ names.is_built_in name.now }
{
    has_name(&BUILT_IN_NAMES, name.as_bytes())
}

/// Whether one of the names is this one.
fn has_name(mut words: &[&[u8]], name: &[u8]) -> bool
    ensures { result ≡ names.has_name (map (λ word. word.now) words.entry.now) name.now }
{
    'words: while let [word, rest @ ..] = words {
        if same_letters(name, word) {
            return true;
        }
        words = rest;
    }
    false
}
