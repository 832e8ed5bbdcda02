//! Scans, which give rows, and whole trees.
use crate::column::{ColumnRef, ColumnRefs, MadeColumn, MadeColumns};
use crate::rex::{Compute, Rex};
use sql_types::{Boxed, Items, JoinKind, SqlType, Text};

/// Whether a row stays for which an array has no element.
#[derive(Clone, Copy, Debug, PartialEq, Eq)]
pub enum UnnestKind {
    Inner,
    Left,
}

/// A query of a WITH list, with its number there and the columns that it gives. `S` is a scan.
#[derive(Drop)]
pub struct Cte<S> {
    pub number: u64,
    pub columns: ColumnRefs,
    pub scan: S,
}

/// Rows.
#[cycle(tree)]
#[derive(Drop)]
pub enum Scan {
    /// One row without columns.
    Single,
    /// A table, with its number in the catalog.
    Table {
        name: Text,
        number: usize,
        columns: MadeColumns,
    },
    /// A scan that may read the queries before it.
    With {
        ctes: Items<Cte<Scan>>,
        scan: Boxed<Scan>,
    },
    /// The rows of a query of a WITH list.
    CteRef {
        number: u64,
        columns: MadeColumns,
    },
    /// Each row with each element of an array, and with its place there.
    Unnest {
        kind: UnnestKind,
        element: MadeColumn,
        offset: Option<MadeColumn>,
        scan: Boxed<Scan>,
        array: Boxed<Rex>,
        condition: Option<Boxed<Rex>>,
    },
    /// CROSS alone has no condition.
    Join {
        kind: JoinKind,
        left: Boxed<Scan>,
        right: Boxed<Scan>,
        condition: Option<Boxed<Rex>>,
    },
    /// The rows for which the condition is TRUE.
    Filter {
        scan: Boxed<Scan>,
        condition: Boxed<Rex>,
    },
    /// The columns listed, of those of the scan and those computed.
    Project {
        columns: ColumnRefs,
        scan: Boxed<Scan>,
        computed: Items<Compute<Rex>>,
    },
}

/// A column of the answer.
#[derive(Drop)]
pub struct Output {
    pub name: Option<Text>,
    pub column: ColumnRef,
    pub ty: SqlType,
}

/// The columns of the answer, in order.
pub type Outputs = Items<Output>;

/// A whole query: its rows, and the columns of its answer.
#[derive(Drop)]
pub struct Tree {
    pub scan: Scan,
    pub outputs: Outputs,
}
