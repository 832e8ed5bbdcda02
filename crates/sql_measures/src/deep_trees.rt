//! The depth of each sort of tree.
ghost use Rattle.std.specs.Prelude.{◌≡◌, ◌-◌, ◌^◌, min};
ghost use Rattle.sql_ast.specs.Depths.{Depth, ExprDepth};
ghost use Rattle.sql_measures.specs.TreeDepths as trees;

use crate::capped::plus;
use crate::deep::{Deep, above, above_both};
use sql_ast::{Expr, FromItem, Joined, Primary, Query, Select, Term};

/// The depth of a query, or `u64::MAX` where it is greater. It takes no memory, and time in the size of the tree.
pub fn depth(query: &Query) -> u64
    ensures { result ≡ min (Depth query.now) (2 ^ 64 - 1) }
{
    query.depth()
}

/// The depth of an expression alone.
pub fn expr_depth(expr: &Expr) -> u64
    ensures { result ≡ min (ExprDepth expr.now) (2 ^ 64 - 1) }
{
    expr.depth()
}

impl Deep for Expr {
    ghost deep = { ExprDepth };

    #[cycle(deep)]
    fn depth(&self) -> u64 {
        match self {
            // Operators of chains, runs and postfixes add 1 each, and a chain of AND or OR 1.
            Expr::Or { first, rest, .. } => above_both(1, first, rest),
            Expr::And { first, rest, .. } => above_both(1, first, rest),
            Expr::Not {
                operators,
                operand,
                ..
            } => above(operators.len(), operand),
            Expr::BitOr { first, rest, .. } => above_both(rest.len(), first, rest),
            Expr::BitXor { first, rest, .. } => above_both(rest.len(), first, rest),
            Expr::BitAnd { first, rest, .. } => above_both(rest.len(), first, rest),
            Expr::Shift { first, rest, .. } => above_both(rest.len(), first, rest),
            Expr::Sum { first, rest, .. } => above_both(rest.len(), first, rest),
            Expr::Product { first, rest, .. } => above_both(rest.len(), first, rest),
            Expr::Unary {
                operators,
                operand,
                ..
            } => above(operators.len(), operand),
            Expr::Postfix { first, parts, .. } => above_both(parts.len(), first, parts),
            // A quantified LIKE adds 6.
            Expr::LikeList { left, patterns, .. } => above_both(6, left, patterns),
            Expr::LikeUnnest { left, array, .. } => above_both(6, left, array),
            // Every other expression adds 1.
            Expr::Compare { left, right, .. } => above_both(1, left, right),
            Expr::Like { left, right, .. } => above_both(1, left, right),
            Expr::Between {
                subject,
                low,
                high,
                ..
            } => plus(1, subject.depth().max(above_both(0, low, high))),
            Expr::InList { left, list, .. } => above_both(1, left, list),
            Expr::InQuery { left, query, .. } => above_both(1, left, query),
            Expr::InUnnest { left, array, .. } => above_both(1, left, array),
            Expr::Is { left, .. } => above(1, left),
            Expr::Distinct { left, right, .. } => above_both(1, left, right),
            Expr::Integer { .. } => 1,
            Expr::Text { .. } => 1,
            Expr::Bytes { .. } => 1,
            Expr::Bool { .. } => 1,
            Expr::Null { .. } => 1,
            Expr::Date { .. } => 1,
            Expr::Parameter { .. } => 1,
            Expr::Name { .. } => 1,
            Expr::Call { call, .. } => call.depth(),
            Expr::SafeCall { call, .. } => call.depth(),
            Expr::Scalar { query, .. } => above(1, query),
            Expr::Tuple { parts, .. } => above(1, parts),
            Expr::Case {
                subject,
                branches,
                otherwise,
                ..
            } => plus(1, subject.depth().max(above_both(0, branches, otherwise))),
            Expr::Cast { expr, .. } => above(1, expr),
            Expr::Extract { expr, .. } => above(1, expr),
            Expr::Grouping { argument, .. } => above(1, argument),
            Expr::Exists { query, .. } => above(1, query),
            Expr::ArrayQuery { query, .. } => above(1, query),
            Expr::Array { items, .. } => above(1, items),
            Expr::Struct { parts, .. } => above(1, parts),
            Expr::TypedStruct { parts, .. } => above(1, parts),
            Expr::With {
                bindings,
                result,
                ..
            } => above_both(1, bindings, result),
        }
    }
}

impl Deep for Primary {
    ghost deep = { trees.PrimaryDepth };

    #[cycle(deep)]
    fn depth(&self) -> u64 {
        match self {
            Primary::Table { turned, .. } => turned.depth(),
            Primary::Query { query, turned, .. } => query.depth().max(turned.depth()),
            // Each part of a path after the first adds 1.
            Primary::Path { path, .. } => (path.len() as u64).saturating_sub(1),
            Primary::Unnest { array, .. } => array.depth(),
        }
    }
}

impl Deep for Joined {
    ghost deep = { trees.JoinedDepth };

    #[cycle(deep)]
    fn depth(&self) -> u64 {
        above_both(0, &self.primary, &self.on)
    }
}

/// A FROM of n joins and commas adds n.
impl Deep for FromItem {
    ghost deep = { trees.FromDepth };

    #[cycle(deep)]
    fn depth(&self) -> u64 {
        above_both(self.rest.len(), &self.first, &self.rest)
    }
}

impl Deep for Term {
    ghost deep = { trees.TermDepth };

    #[cycle(deep)]
    fn depth(&self) -> u64 {
        match self {
            Term::Select { select } => select.depth(),
            Term::Query { query, .. } => query.depth(),
        }
    }
}

/// A SELECT adds 8.
impl Deep for Select {
    ghost deep = { trees.SelectDepth };

    #[cycle(deep)]
    fn depth(&self) -> u64 {
        let kept = self
            .filter
            .depth()
            .max(above_both(0, &self.grouping, &self.having));
        plus(8, self.items.depth().max(self.from.depth().max(kept)))
    }
}

/// A query adds 2.
impl Deep for Query {
    ghost deep = { Depth };

    #[cycle(deep)]
    fn depth(&self) -> u64 {
        let body = above_both(0, &self.body.first, &self.body.rest);
        let ordered = above_both(0, &self.order, &self.limit);
        plus(2, self.ctes.depth().max(body.max(ordered)))
    }
}
