//! Expressions of the resolved tree. Each has a type, and each operand is converted already.
use crate::column::{ColumnRef, ColumnRefs, MadeColumn};
use crate::scan::Scan;
use sql_ast::IndexForm;
use sql_builtins::SigId;
use sql_types::{Boxed, Items, SqlType, Text, Value};

/// A column and the expression that computes it. `R` is an expression.
#[derive(Drop)]
pub struct Compute<R> {
    pub column: MadeColumn,
    pub expr: R,
}

/// An expression.
#[cycle(tree)]
#[derive(Drop)]
pub enum Rex {
    Literal {
        value: Value,
        ty: SqlType,
    },
    Parameter {
        name: Text,
        ty: SqlType,
    },
    /// A column of the query in which the node stands.
    Column {
        column: ColumnRef,
        ty: SqlType,
    },
    /// A column of an outer query.
    Outer {
        column: ColumnRef,
        ty: SqlType,
    },
    Call {
        signature: SigId,
        ty: SqlType,
        arguments: Items<Rex>,
    },
    /// A call that is NULL where the function faults.
    SafeCall {
        signature: SigId,
        ty: SqlType,
        arguments: Items<Rex>,
    },
    Cast {
        ty: SqlType,
        expr: Boxed<Rex>,
    },
    /// A cast that is NULL where it fails.
    SafeCast {
        ty: SqlType,
        expr: Boxed<Rex>,
    },
    /// The test, and the two that it chooses from.
    If {
        ty: SqlType,
        operands: Items<Rex>,
    },
    /// A test and a result, again and again, and then what stands behind ELSE, which is NULL where there is none.
    Case {
        ty: SqlType,
        operands: Items<Rex>,
    },
    Coalesce {
        ty: SqlType,
        operands: Items<Rex>,
    },
    And {
        ty: SqlType,
        operands: Items<Rex>,
    },
    Or {
        ty: SqlType,
        operands: Items<Rex>,
    },
    /// What is tried, and what stands in for a fault of it.
    IfError {
        ty: SqlType,
        operands: Items<Rex>,
    },
    IsError {
        ty: SqlType,
        operands: Items<Rex>,
    },
    NullIfError {
        ty: SqlType,
        operands: Items<Rex>,
    },
    /// The call of ERROR. It has whatever type is needed, since it has no value.
    Raise {
        ty: SqlType,
        operands: Items<Rex>,
    },
    InList {
        search: Boxed<Rex>,
        list: Items<Rex>,
    },
    /// `IN UNNEST(array)`
    InArray {
        search: Boxed<Rex>,
        array: Boxed<Rex>,
    },
    /// Columns that are computed one after another, and an expression over them.
    Let {
        ty: SqlType,
        bindings: Items<Compute<Rex>>,
        expr: Boxed<Rex>,
    },
    MakeArray {
        ty: SqlType,
        parts: Items<Rex>,
    },
    MakeStruct {
        ty: SqlType,
        parts: Items<Rex>,
    },
    /// A field of a STRUCT, by its place from 0.
    Field {
        place: usize,
        ty: SqlType,
        expr: Boxed<Rex>,
    },
    Index {
        form: IndexForm,
        ty: SqlType,
        array: Boxed<Rex>,
        index: Boxed<Rex>,
    },
    /// A subquery as a value: the column that is taken, and the columns of outer queries that the subquery uses.
    Scalar {
        ty: SqlType,
        column: ColumnRef,
        outer: ColumnRefs,
        scan: Boxed<Scan>,
    },
    /// `ARRAY(query)`
    ArrayOf {
        ty: SqlType,
        column: ColumnRef,
        outer: ColumnRefs,
        scan: Boxed<Scan>,
    },
    Exists {
        ty: SqlType,
        outer: ColumnRefs,
        scan: Boxed<Scan>,
    },
    /// `search IN (query)`
    InQuery {
        ty: SqlType,
        column: ColumnRef,
        outer: ColumnRefs,
        search: Boxed<Rex>,
        scan: Boxed<Scan>,
    },
}
