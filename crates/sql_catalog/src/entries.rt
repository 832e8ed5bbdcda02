//! The entries of a catalog.
use sql_ast::{Expr, Query};
use sql_types::{Columns, Items, SqlType, Text, Value};

/// A table: its name, the name of its file, and its columns.
#[derive(Drop)]
pub struct TableDef {
    pub name: Text,
    pub file: Text,
    pub columns: Columns,
}

/// What the text of a definition is.
#[derive(Drop)]
pub enum Written<T> {
    /// The text has this tree.
    Tree { tree: T },
    /// The text is refused by rule 1 at this place.
    NoTree { place: u64 },
    /// The text nests brackets deeper than a text may.
    Nested,
}

/// The measures of a definition, with views and functions expanded. They are 0 where there is no tree, and u64::MAX
/// stands for each greater number.
#[derive(Clone, Copy, Debug, PartialEq, Eq)]
pub struct Measures {
    pub weight: u64,
    pub depth: u64,
    pub sets: u64,
}

/// A view: a query under a name.
#[derive(Drop)]
pub struct ViewDef {
    pub name: Text,
    pub query: Written<Query>,
    pub measures: Measures,
}

/// An argument of a function. Without a type it is ANY TYPE.
#[derive(Drop)]
pub struct Argument {
    pub name: Text,
    pub ty: Option<SqlType>,
}

/// The arguments of a function in order.
pub type Arguments = Items<Argument>;

/// A function: an expression over its arguments, under a name.
#[derive(Drop)]
pub struct FunctionDef {
    pub name: Text,
    pub arguments: Arguments,
    pub body: Written<Expr>,
    pub measures: Measures,
}

/// Views and functions are counted together, from 0.
#[derive(Drop)]
pub enum Definition {
    View { view: ViewDef },
    Function { function: FunctionDef },
}

/// A parameter: its name, its type and its value.
#[derive(Drop)]
pub struct ParamDef {
    pub name: Text,
    pub ty: SqlType,
    pub value: Value,
}

/// All entries in the order of the catalog.
#[derive(Drop)]
pub struct Entries {
    pub tables: Items<TableDef>,
    pub definitions: Items<Definition>,
    pub params: Items<ParamDef>,
}

/// What stands in FROM by its name. A view has its number among the definitions.
#[derive(Clone, Copy, Debug, PartialEq, Eq)]
pub enum TableOrView {
    Table(usize),
    View(usize),
}
