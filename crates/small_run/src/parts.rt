//! What the parts of a query become.
use sql_types::{Column, Columns, Items, SqlType, Value};

/// A literal, with its type.
#[derive(Drop)]
pub struct Literal {
    pub ty: SqlType,
    pub value: Value,
}

/// The condition of WHERE: the place of a value in a row, and the literal that it is compared with.
#[derive(Drop)]
pub struct Test {
    pub place: usize,
    pub literal: Value,
}

/// A select item: its column, and the place of its value in a row.
#[derive(Drop)]
pub struct Picked {
    pub column: Column,
    pub slot: usize,
}

/// A select list: its columns, and the place of each one's value in a row.
#[derive(Drop)]
pub struct Selected {
    pub columns: Columns,
    pub slots: Items<usize>,
}
