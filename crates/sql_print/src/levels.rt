//! The level of an expression: that of its operator, from 0 of OR to 12 of what holds together without brackets.
ghost use Rattle.sql_print.specs.TreePieces as trees;

use crate::operands::Leveled;
use sql_ast::Expr;

impl Leveled for Expr {
    ghost level = { trees.expr_level };

    fn level(&self) -> u8 {
        match self {
            Expr::Or { .. } => 0,
            Expr::And { .. } => 1,
            Expr::Not { .. } => 2,
            Expr::Compare { .. } => 3,
            Expr::Like { .. } => 3,
            Expr::LikeList { .. } => 3,
            Expr::LikeUnnest { .. } => 3,
            Expr::Between { .. } => 3,
            Expr::InList { .. } => 3,
            Expr::InQuery { .. } => 3,
            Expr::InUnnest { .. } => 3,
            Expr::Is { .. } => 3,
            Expr::Distinct { .. } => 3,
            Expr::BitOr { .. } => 4,
            Expr::BitXor { .. } => 5,
            Expr::BitAnd { .. } => 6,
            Expr::Shift { .. } => 7,
            Expr::Sum { .. } => 8,
            Expr::Product { .. } => 9,
            Expr::Unary { .. } => 10,
            Expr::Postfix { .. } => 11,
            Expr::Integer { .. } => 12,
            Expr::Text { .. } => 12,
            Expr::Bytes { .. } => 12,
            Expr::Bool { .. } => 12,
            Expr::Null { .. } => 12,
            Expr::Date { .. } => 12,
            Expr::Parameter { .. } => 12,
            Expr::Name { .. } => 12,
            Expr::Call { .. } => 12,
            Expr::SafeCall { .. } => 12,
            Expr::Scalar { .. } => 12,
            Expr::Tuple { .. } => 12,
            Expr::Case { .. } => 12,
            Expr::Cast { .. } => 12,
            Expr::Extract { .. } => 12,
            Expr::Grouping { .. } => 12,
            Expr::Exists { .. } => 12,
            Expr::ArrayQuery { .. } => 12,
            Expr::Array { .. } => 12,
            Expr::Struct { .. } => 12,
            Expr::TypedStruct { .. } => 12,
            Expr::With { .. } => 12,
        }
    }
}
