//! Expressions. A node's place is the first byte of its production; an operator has its own place.
use crate::clauses::{Aliased, Binding, Call, Name, When};
use crate::query::Query;
use crate::type_spelling::{TypeField, TypeSpelling};
use sql_types::{Boxed, Bytes, Items, Text};

/// The operators of chains.
#[derive(Clone, Copy, Debug, PartialEq, Eq)]
pub enum Operator {
    Or,
    And,
    BitOr,
    BitXor,
    BitAnd,
    ShiftLeft,
    ShiftRight,
    Add,
    Subtract,
    Multiply,
    Concat,
}

/// An operator of a chain, its place, and the operand after it.
#[derive(Drop)]
pub struct Link<E> {
    pub operator: Operator,
    pub operand: E,
    pub place: u64,
}

/// The prefix operators `+`, `-` and `~`.
#[derive(Clone, Copy, Debug, PartialEq, Eq)]
pub enum Signed {
    Plus,
    Minus,
    Flip,
}

/// A prefix operator and its place.
#[derive(Clone, Copy, Debug, PartialEq, Eq)]
pub struct Prefix {
    pub operator: Signed,
    pub place: u64,
}

/// The comparisons. `<>` is `!=`.
#[derive(Clone, Copy, Debug, PartialEq, Eq)]
pub enum Comparison {
    Equal,
    NotEqual,
    Less,
    LessEqual,
    Greater,
    GreaterEqual,
}

/// How a quantified LIKE joins its results. SOME means ANY.
#[derive(Clone, Copy, Debug, PartialEq, Eq)]
pub enum Quantifier {
    Any,
    Some,
    All,
}

/// What IS tests for.
#[derive(Clone, Copy, Debug, PartialEq, Eq)]
pub enum IsTest {
    Null,
    True,
    False,
}

/// The forms of a subscript.
#[derive(Clone, Copy, Debug, PartialEq, Eq)]
pub enum IndexForm {
    Offset,
    Ordinal,
    SafeOffset,
    SafeOrdinal,
}

/// A part of a postfix: a field, or a subscript with the place of its `[`.
#[derive(Drop)]
pub enum Part<E> {
    Field {
        name: Name,
    },
    Index {
        form: IndexForm,
        index: E,
        place: u64,
    },
}

/// An expression.
#[cycle(ast)]
#[derive(Drop)]
pub enum Expr {
    // Chains and prefix runs
    Or {
        first: Boxed<Expr>,
        rest: Items<Link<Expr>>,
        place: u64,
    },
    And {
        first: Boxed<Expr>,
        rest: Items<Link<Expr>>,
        place: u64,
    },
    /// A run of NOT, with the place of each.
    Not {
        operators: Items<u64>,
        operand: Boxed<Expr>,
        place: u64,
    },
    BitOr {
        first: Boxed<Expr>,
        rest: Items<Link<Expr>>,
        place: u64,
    },
    BitXor {
        first: Boxed<Expr>,
        rest: Items<Link<Expr>>,
        place: u64,
    },
    BitAnd {
        first: Boxed<Expr>,
        rest: Items<Link<Expr>>,
        place: u64,
    },
    Shift {
        first: Boxed<Expr>,
        rest: Items<Link<Expr>>,
        place: u64,
    },
    Sum {
        first: Boxed<Expr>,
        rest: Items<Link<Expr>>,
        place: u64,
    },
    Product {
        first: Boxed<Expr>,
        rest: Items<Link<Expr>>,
        place: u64,
    },
    /// A run of `+`, `-` and `~`.
    Unary {
        operators: Items<Prefix>,
        operand: Boxed<Expr>,
        place: u64,
    },
    // Comparisons
    Compare {
        left: Boxed<Expr>,
        operator: Comparison,
        operator_place: u64,
        right: Boxed<Expr>,
        place: u64,
    },
    Like {
        left: Boxed<Expr>,
        negated: bool,
        operator_place: u64,
        right: Boxed<Expr>,
        place: u64,
    },
    /// `LIKE ANY (..)`
    LikeList {
        left: Boxed<Expr>,
        quantifier: Quantifier,
        operator_place: u64,
        patterns: Items<Expr>,
        place: u64,
    },
    /// `LIKE ANY UNNEST(..)`
    LikeUnnest {
        left: Boxed<Expr>,
        quantifier: Quantifier,
        operator_place: u64,
        array: Boxed<Expr>,
        place: u64,
    },
    Between {
        subject: Boxed<Expr>,
        negated: bool,
        operator_place: u64,
        low: Boxed<Expr>,
        high: Boxed<Expr>,
        place: u64,
    },
    InList {
        left: Boxed<Expr>,
        negated: bool,
        operator_place: u64,
        list: Items<Expr>,
        place: u64,
    },
    /// `IN (query)`, with the place of the bracket.
    InQuery {
        left: Boxed<Expr>,
        negated: bool,
        operator_place: u64,
        query: Boxed<Query>,
        open_place: u64,
        place: u64,
    },
    InUnnest {
        left: Boxed<Expr>,
        negated: bool,
        operator_place: u64,
        array: Boxed<Expr>,
        place: u64,
    },
    /// `IS [NOT] (NULL | TRUE | FALSE)`
    Is {
        left: Boxed<Expr>,
        negated: bool,
        test: IsTest,
        operator_place: u64,
        place: u64,
    },
    /// `IS [NOT] DISTINCT FROM`
    Distinct {
        left: Boxed<Expr>,
        negated: bool,
        operator_place: u64,
        right: Boxed<Expr>,
        place: u64,
    },
    // Postfix
    /// Fields and subscripts behind an expression.
    Postfix {
        first: Boxed<Expr>,
        parts: Items<Part<Expr>>,
        place: u64,
    },
    // Basic expressions
    Integer {
        value: u64,
        place: u64,
    },
    Text {
        value: Text,
        place: u64,
    },
    Bytes {
        value: Bytes,
        place: u64,
    },
    Bool {
        value: bool,
        place: u64,
    },
    Null {
        place: u64,
    },
    /// `DATE string`
    Date {
        text: Text,
        place: u64,
    },
    Parameter {
        name: Text,
        place: u64,
    },
    /// A name, which begins a path.
    Name {
        name: Text,
        place: u64,
    },
    Call {
        call: Call<Expr>,
        place: u64,
    },
    /// `SAFE.call`
    SafeCall {
        call: Call<Expr>,
        place: u64,
    },
    /// `(query)`
    Scalar {
        query: Boxed<Query>,
        place: u64,
    },
    /// `(expr, expr ..)`
    Tuple {
        parts: Items<Expr>,
        place: u64,
    },
    Case {
        subject: Option<Boxed<Expr>>,
        branches: Items<When<Expr>>,
        otherwise: Option<Boxed<Expr>>,
        place: u64,
    },
    /// CAST, or SAFE_CAST where `safe` holds.
    Cast {
        safe: bool,
        expr: Boxed<Expr>,
        ty: TypeSpelling,
        place: u64,
    },
    Extract {
        part: Name,
        expr: Boxed<Expr>,
        place: u64,
    },
    Grouping {
        argument: Boxed<Expr>,
        place: u64,
    },
    Exists {
        query: Boxed<Query>,
        place: u64,
    },
    /// `ARRAY (query)`, with the place of the bracket.
    ArrayQuery {
        query: Boxed<Query>,
        open_place: u64,
        place: u64,
    },
    /// `[..]`, with the element type where `ARRAY<type>` stands before it, and the place of the bracket.
    Array {
        element: Option<TypeSpelling>,
        items: Items<Expr>,
        open_place: u64,
        place: u64,
    },
    /// `STRUCT(expr [AS name], ..)`
    Struct {
        parts: Items<Aliased<Expr>>,
        place: u64,
    },
    /// `STRUCT<fields>(..)`, with the place of the round bracket.
    TypedStruct {
        fields: Items<TypeField<TypeSpelling>>,
        parts: Items<Expr>,
        open_place: u64,
        place: u64,
    },
    /// `WITH(name AS expr, .., expr)`
    With {
        bindings: Items<Binding<Expr>>,
        result: Boxed<Expr>,
        place: u64,
    },
}
