//! Literals, and the types that `=` compares.
ghost use Rattle.std.specs.Prelude.{◌≡◌, false};
ghost use Rattle.sql_types.specs.declared.sql_type.SqlType.{out-SqlType};
ghost use Rattle.sql_ast.specs.declared.expr.Expr.{out-Expr};
ghost use Rattle.sql_rules.specs.Typing as typing;
ghost use Rattle.small_run.specs.Parts.{Made, IsLiteral};

use crate::form::NoPlan;
use crate::parts::Literal;
use sql_ast::Expr;
use sql_types::{SqlType, Value};
use std::alloc::Global;

/// The literal that an expression is, with its type.
pub fn literal_of(alloc: Global, expr: &Expr) -> Result<Literal, NoPlan>
    ensures { Made (IsLiteral expr.now) (typing.is_literal (out-Expr expr.now) ≡ false) result }
{
    match expr {
        Expr::Integer { value, .. } => Ok(integer(*value)),
        Expr::Text { value, .. } => Ok(Literal {
            ty: SqlType::Text,
            value: Value::Text(value.copy(alloc)?),
        }),
        _ => Err(NoPlan::OtherForm),
    }
}

/// An integer literal is INT64 where it fits, and else UINT64.
fn integer(number: u64) -> Literal
    ensures { result ≡ record { ty = typing.integer_type number; value = typing.integer_value number } }
{
    if number < 9_223_372_036_854_775_808 {
        Literal {
            ty: SqlType::Int64,
            value: Value::Int(number as i64),
        }
    } else {
        Literal {
            ty: SqlType::Uint64,
            value: Value::Uint(number),
        }
    }
}

/// Whether `=` compares two values of these types: both are BOOL, INT64 or STRING.
pub fn comparable(left: &SqlType, right: &SqlType) -> bool
    ensures { result ≡ typing.same_scalar (out-SqlType left.now) (out-SqlType right.now) }
{
    match (left, right) {
        (SqlType::Bool, SqlType::Bool) => true,
        (SqlType::Int64, SqlType::Int64) => true,
        (SqlType::Text, SqlType::Text) => true,
        _ => false,
    }
}
