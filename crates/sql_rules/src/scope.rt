//! The names of one query level.
use sql_types::{Items, SqlType, Text};

/// A name of a query level: what it denotes, and its type where it has one.
#[derive(Drop)]
pub struct Entry {
    pub name: Option<Text>,
    pub what: What,
    pub ty: Option<SqlType>,
}

/// What a name denotes.
#[derive(Drop)]
pub enum What {
    Column,
    /// A range variable with its columns in order.
    Range(Members),
    /// A variable of a lambda or a WITH expression.
    Variable,
    /// An argument of a function.
    Argument,
    /// An alias of a select item.
    Alias,
}

/// A column of a range variable: its name there, and the place of its entry in the scope.
#[derive(Drop)]
pub struct Member {
    pub name: Option<Text>,
    pub slot: usize,
}

/// The columns of a range variable in order.
pub type Members = Items<Member>;

/// The names of one query level. A column that only its range variable reaches has no name here.
pub type Scope = Items<Entry>;

/// What a path is bound to: the level, counted from the outermost, which is 0; the entry there; and how many names of
/// the path were used.
#[derive(Clone, Copy, Debug, PartialEq, Eq)]
pub struct Binding {
    pub level: usize,
    pub slot: usize,
    pub used: usize,
}

/// What a path finds.
#[derive(Clone, Copy, Debug, PartialEq, Eq)]
pub enum Found {
    Bound(Binding),
    Missing,
    Ambiguous,
}
