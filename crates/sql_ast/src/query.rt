//! Queries, SELECT and FROM.
use crate::clauses::{FilterPart, Item, LimitPart, Name, On, Sort, Turned, WithOffset};
use crate::expr::Expr;
use crate::grouping::Groups;
use sql_types::{Boxed, Items, SetKind};

/// `[WITH ctes] body [ORDER BY ..] [LIMIT ..]`
#[cycle(ast)]
#[derive(Drop)]
pub struct Query {
    pub ctes: Items<Cte<Query>>,
    pub body: Body<Term>,
    pub order: Items<Sort<Expr>>,
    pub limit: Option<LimitPart<Expr>>,
    pub place: u64,
}

/// `name AS (query)`
#[derive(Drop)]
pub struct Cte<Q> {
    pub name: Name,
    pub query: Q,
}

/// Terms joined by set operations, all of one kind.
#[derive(Drop)]
pub struct Body<T> {
    pub first: T,
    pub rest: Items<SetTerm<T>>,
    pub place: u64,
}

/// A set operation, with the place of its first word, and the term after it.
#[derive(Drop)]
pub struct SetTerm<T> {
    pub kind: SetKind,
    pub term: T,
    pub place: u64,
}

/// A SELECT, or a query in brackets.
#[cycle(ast)]
#[derive(Drop)]
pub enum Term {
    Select { select: Boxed<Select> },
    Query { query: Boxed<Query>, place: u64 },
}

/// `SELECT [ALL | DISTINCT] [AS STRUCT] items [FROM ..] [WHERE ..] [GROUP BY ..] [HAVING ..]`
#[cycle(ast)]
#[derive(Drop)]
pub struct Select {
    pub distinct: bool,
    pub as_struct: bool,
    pub items: Items<Item<Expr>>,
    pub from: Option<Boxed<FromItem>>,
    pub filter: Option<Boxed<Expr>>,
    pub grouping: Option<Groups<Expr>>,
    pub having: Option<FilterPart<Expr>>,
    pub place: u64,
}

/// What follows FROM: items joined from the left.
#[cycle(ast)]
#[derive(Drop)]
pub struct FromItem {
    pub first: Primary,
    pub rest: Items<Joined>,
    pub place: u64,
}

/// How an item is joined to those before it.
#[derive(Clone, Copy, Debug, PartialEq, Eq)]
pub enum JoinWord {
    Comma,
    Cross,
    Inner,
    Left,
    Right,
    Full,
}

/// A comma or a join, with the place of its first word, and the item after it.
#[cycle(ast)]
#[derive(Drop)]
pub struct Joined {
    pub word: JoinWord,
    pub primary: Primary,
    pub on: Option<On<Expr>>,
    pub place: u64,
}

/// One item of FROM.
#[cycle(ast)]
#[derive(Drop)]
pub enum Primary {
    /// `name [alias] [turn [alias]]`
    Table {
        name: Name,
        alias: Option<Name>,
        turned: Option<Turned<Expr>>,
        place: u64,
    },
    /// `(query) [alias] [turn [alias]]`
    Query {
        query: Boxed<Query>,
        alias: Option<Name>,
        turned: Option<Turned<Expr>>,
        place: u64,
    },
    /// `name.name.. [alias] [WITH OFFSET [alias]]`
    Path {
        path: Items<Name>,
        alias: Option<Name>,
        offset: Option<WithOffset>,
        place: u64,
    },
    /// `UNNEST(expr) [alias] [WITH OFFSET [alias]]`
    Unnest {
        array: Boxed<Expr>,
        alias: Option<Name>,
        offset: Option<WithOffset>,
        place: u64,
    },
}
