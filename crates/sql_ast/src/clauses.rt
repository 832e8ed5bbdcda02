//! The parts of clauses. Each stands over the one sort of tree that it holds: `E` is an expression.
use sql_types::{Items, Text};

/// A name that is written in the text, with the place of its first byte.
#[derive(Debug, Drop)]
pub struct Name {
    pub text: Text,
    pub place: u64,
}

/// Names in order: the names of a path, or of a list.
pub type Names = Items<Name>;

/// The condition of HAVING, with the place of that word.
#[derive(Drop)]
pub struct FilterPart<E> {
    pub test: E,
    pub place: u64,
}

/// LIMIT and OFFSET, each an integer or a parameter, with the place of the word LIMIT.
#[derive(Drop)]
pub struct LimitPart<E> {
    pub count: E,
    pub offset: Option<E>,
    pub place: u64,
}

/// NULLS FIRST or NULLS LAST.
#[derive(Clone, Copy, Debug, PartialEq, Eq)]
pub enum NullsPlace {
    First,
    Last,
}

/// `expr [ASC | DESC] [NULLS (FIRST | LAST)]`
#[derive(Drop)]
pub struct Sort<E> {
    pub expr: E,
    pub descending: bool,
    pub nulls: Option<NullsPlace>,
    pub place: u64,
}

/// An item of a select list.
#[derive(Drop)]
pub enum Item<E> {
    /// `* [edit]`
    Star {
        edit: Edit<E>,
        place: u64,
    },
    /// `postfix.* [edit]`
    QualifiedStar {
        qualifier: E,
        edit: Edit<E>,
        place: u64,
    },
    /// `expr [alias]`
    Expr {
        expr: E,
        alias: Option<Name>,
        place: u64,
    },
}

/// What EXCEPT drops from `*` and REPLACE replaces in it. Both lists are empty where neither is written.
#[derive(Drop)]
pub struct Edit<E> {
    pub except: Items<Name>,
    pub replace: Items<Replacement<E>>,
}

/// `expr AS name` in REPLACE.
#[derive(Drop)]
pub struct Replacement<E> {
    pub expr: E,
    pub name: Name,
}

/// `expr [AS name]`
#[derive(Drop)]
pub struct Aliased<E> {
    pub expr: E,
    pub alias: Option<Name>,
}

/// `name AS expr` in a WITH expression.
#[derive(Drop)]
pub struct Binding<E> {
    pub name: Name,
    pub expr: E,
}

/// `WHEN expr THEN expr`
#[derive(Drop)]
pub struct When<E> {
    pub test: E,
    pub result: E,
}

/// The condition of a join, with the place of its word.
#[derive(Drop)]
pub enum On<E> {
    On { condition: E, place: u64 },
    Using { columns: Items<Name>, place: u64 },
}

/// `WITH OFFSET [alias]`, with the place of the word WITH.
#[derive(Drop)]
pub struct WithOffset {
    pub alias: Option<Name>,
    pub place: u64,
}

/// What a call names: the word IF, or a name.
#[derive(Drop)]
pub enum Function {
    If,
    Named { name: Text },
}

/// IGNORE NULLS or RESPECT NULLS in a call.
#[derive(Clone, Copy, Debug, PartialEq, Eq)]
pub enum NullsPart {
    Ignore,
    Respect,
}

/// A call, with the place of the function's name. `star` stands for the argument `*`.
#[derive(Drop)]
pub struct Call<E> {
    pub function: Function,
    pub distinct: bool,
    pub star: bool,
    pub arguments: Items<Arg<E>>,
    pub nulls: Option<NullsPart>,
    pub order: Items<Sort<E>>,
    pub limit: Option<u64>,
    pub place: u64,
}

/// An argument of a call.
#[derive(Drop)]
pub enum Arg<E> {
    Expr {
        expr: E,
    },
    /// `name -> expr` or `(name, name) -> expr`
    Lambda {
        variables: Items<Name>,
        body: E,
        place: u64,
    },
    /// `INTERVAL expr name`
    Interval {
        amount: E,
        part: Name,
        place: u64,
    },
}

/// PIVOT or UNPIVOT after an item of FROM, and the alias behind it.
#[derive(Drop)]
pub struct Turned<E> {
    pub turn: Turn<E>,
    pub alias: Option<Name>,
}

/// PIVOT and UNPIVOT, each with the place of its word.
#[derive(Drop)]
pub enum Turn<E> {
    Pivot {
        aggregates: Items<PivotCall<E>>,
        input: Items<Name>,
        values: Items<Aliased<E>>,
        place: u64,
    },
    Unpivot {
        include_nulls: bool,
        value: Name,
        label: Name,
        columns: Items<UnpivotColumn>,
        place: u64,
    },
}

/// `call [alias]` in PIVOT.
#[derive(Drop)]
pub struct PivotCall<E> {
    pub call: Call<E>,
    pub alias: Option<Name>,
}

/// `name [AS string]` in UNPIVOT.
#[derive(Drop)]
pub struct UnpivotColumn {
    pub name: Name,
    pub label: Option<Text>,
}
