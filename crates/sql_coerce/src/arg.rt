//! What typing says of an expression.
use sql_types::{SqlType, Value};

/// The kind of an expression, which decides what it coerces to.
#[derive(Drop)]
pub enum Kind {
    /// A literal with its value.
    Literal(Value),
    Parameter,
    /// NULL, `[]` or a call of ERROR.
    Untyped,
    /// Everything else, columns among them.
    Other,
}

/// The type and kind of an expression. An untyped NULL has no type, nor has a call of ERROR; an untyped `[]` has the
/// type ARRAY<INT64>.
#[derive(Drop)]
pub struct Arg {
    pub ty: Option<SqlType>,
    pub kind: Kind,
}
