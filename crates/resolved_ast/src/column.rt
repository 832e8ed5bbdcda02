//! Columns of the resolved tree.
use sql_types::{Items, SqlType, Text};

/// The number of a column. Each column of a tree has a number of its own, from 1 on.
#[derive(Clone, Copy, Debug, PartialEq, Eq)]
pub struct ColumnId(pub u64);

/// A column to which a node refers, with its name.
#[derive(Debug, Drop)]
pub struct ColumnRef {
    pub name: Option<Text>,
    pub id: ColumnId,
}

/// A column that a node makes.
#[derive(Debug, Drop)]
pub struct MadeColumn {
    pub name: Option<Text>,
    pub id: ColumnId,
    pub ty: SqlType,
}

/// Columns to which a node refers, in order.
pub type ColumnRefs = Items<ColumnRef>;

/// Columns that a node makes, in order.
pub type MadeColumns = Items<MadeColumn>;
