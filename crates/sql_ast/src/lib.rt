//! The parse tree of a query, its tokens, and the spelling of names and literals.
#![tactic(auto)]

pub mod answer_text;
pub mod clauses;
pub mod date_ranges;
pub mod expr;
pub mod grouping;
pub mod naming;
pub mod pieces;
pub mod query;
pub mod refusal;
pub mod spelling;
#[cfg(test)]
mod tests;
pub mod token;
pub mod type_spelling;
pub mod words;

pub use answer_text::rows_text;
pub use clauses::{
    Aliased, Arg, Binding, Call, Edit, FilterPart, Function, Item, LimitPart, Name, Names,
    NullsPart, NullsPlace, On, PivotCall, Replacement, Sort, Turn, Turned, UnpivotColumn, When,
    WithOffset,
};
pub use date_ranges::dates_fit;
pub use expr::{
    Comparison, Expr, IndexForm, IsTest, Link, Operator, Part, Prefix, Quantifier, Signed,
};
pub use grouping::{Cube, CubeKind, GroupItem, GroupSet, Groups};
pub use naming::{grammar_word, sign_of};
pub use pieces::{Class, Content, LiteralPrefix, Mark, Piece, Quote, Quotes, Shape};
pub use query::{Body, Cte, FromItem, JoinWord, Joined, Primary, Query, Select, SetTerm, Term};
pub use refusal::Refusal;
pub use spelling::{literal_text, write_literal};
pub use sql_names::{Reserved, quote_name, quote_text, reserved_word, same_name};
pub use token::{Lexeme, Token};
pub use type_spelling::{TypeField, TypeSpelling};
pub use words::{Sign, Word};
