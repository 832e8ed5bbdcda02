//! The weight of each sort of tree.
ghost use Rattle.std.specs.Prelude.{◌≡◌, ◌-◌, ◌^◌, min};
ghost use Rattle.sql_ast.specs.Weights.{Weight, ExprWeight};
ghost use Rattle.sql_measures.specs.TreeWeights as trees;

use crate::capped::plus;
use crate::weighed::{Weighed, clause, list_clause, with, with_both};
use crate::weighed_names::length_weight;
use crate::weighed_parts::{kept_weight, keys_weight, per_set};
use sql_ast::{Expr, FromItem, Joined, Primary, Query, Select, Term};

/// The weight of a query, or `u64::MAX` where it is greater. It takes no memory, and time in the size of the tree.
pub fn weight(query: &Query) -> u64
    ensures { result ≡ min (Weight query.now) (2 ^ 64 - 1) }
{
    query.weight()
}

/// The weight of an expression alone.
pub fn expr_weight(expr: &Expr) -> u64
    ensures { result ≡ min (ExprWeight expr.now) (2 ^ 64 - 1) }
{
    expr.weight()
}

/// Every expression counts 1.
impl Weighed for Expr {
    ghost weighs = { ExprWeight };

    #[cycle(weighs)]
    fn weight(&self) -> u64 {
        match self {
            Expr::Or { first, rest, .. } => with_both(1, first, rest),
            Expr::And { first, rest, .. } => with_both(1, first, rest),
            Expr::Not { operand, .. } => with(1, operand),
            Expr::BitOr { first, rest, .. } => with_both(1, first, rest),
            Expr::BitXor { first, rest, .. } => with_both(1, first, rest),
            Expr::BitAnd { first, rest, .. } => with_both(1, first, rest),
            Expr::Shift { first, rest, .. } => with_both(1, first, rest),
            Expr::Sum { first, rest, .. } => with_both(1, first, rest),
            Expr::Product { first, rest, .. } => with_both(1, first, rest),
            Expr::Unary { operand, .. } => with(1, operand),
            // A postfix counts the parts behind its first, which is an expression itself.
            Expr::Postfix { first, parts, .. } => with_both(0, first, parts),
            // A quantified LIKE adds 8.
            Expr::LikeList { left, patterns, .. } => with_both(9, left, patterns),
            Expr::LikeUnnest { left, array, .. } => with_both(9, left, array),
            Expr::Compare { left, right, .. } => with_both(1, left, right),
            Expr::Like { left, right, .. } => with_both(1, left, right),
            Expr::Between {
                subject,
                low,
                high,
                ..
            } => plus(1, plus(subject.weight(), with_both(0, low, high))),
            Expr::InList { left, list, .. } => with_both(1, left, list),
            Expr::InQuery { left, query, .. } => with_both(1, left, query),
            Expr::InUnnest { left, array, .. } => with_both(1, left, array),
            Expr::Is { left, .. } => with(1, left),
            Expr::Distinct { left, right, .. } => with_both(1, left, right),
            Expr::Integer { .. } => 1,
            Expr::Text { value, .. } => with(1, value),
            Expr::Bytes { value, .. } => plus(1, length_weight(value.as_slice())),
            Expr::Bool { .. } => 1,
            Expr::Null { .. } => 1,
            Expr::Date { text, .. } => with(1, text),
            Expr::Parameter { name, .. } => with(1, name),
            Expr::Name { name, .. } => with(1, name),
            Expr::Call { call, .. } => call.weight(),
            Expr::SafeCall { call, .. } => call.weight(),
            Expr::Scalar { query, .. } => with(1, query),
            Expr::Tuple { parts, .. } => with(1, parts),
            Expr::Case {
                subject,
                branches,
                otherwise,
                ..
            } => plus(1, plus(subject.weight(), with_both(0, branches, otherwise))),
            Expr::Cast { expr, ty, .. } => with_both(1, expr, ty),
            Expr::Extract { part, expr, .. } => with_both(1, part, expr),
            Expr::Grouping { argument, .. } => with(1, argument),
            Expr::Exists { query, .. } => with(1, query),
            Expr::ArrayQuery { query, .. } => with(1, query),
            Expr::Array { element, items, .. } => with_both(1, element, items),
            Expr::Struct { parts, .. } => with(1, parts),
            Expr::TypedStruct { fields, parts, .. } => with_both(1, fields, parts),
            Expr::With {
                bindings,
                result,
                ..
            } => with_both(1, bindings, result),
        }
    }
}

/// Every item counts 1. PIVOT and UNPIVOT are clauses.
impl Weighed for Primary {
    ghost weighs = { trees.PrimaryWeight };

    #[cycle(weighs)]
    fn weight(&self) -> u64 {
        match self {
            Primary::Table {
                name,
                alias,
                turned,
                ..
            } => plus(1, plus(name.weight(), plus(alias.weight(), clause(turned)))),
            Primary::Query {
                query,
                alias,
                turned,
                ..
            } => plus(
                1,
                plus(query.weight(), plus(alias.weight(), clause(turned))),
            ),
            Primary::Path {
                path,
                alias,
                offset,
                ..
            } => {
                let named = plus(path.weight(), with_both(0, alias, offset));
                plus(1, plus((path.len() as u64).saturating_sub(1), named))
            }
            Primary::Unnest {
                array,
                alias,
                offset,
                ..
            } => plus(1, plus(array.weight(), with_both(0, alias, offset))),
        }
    }
}

/// ON and USING are clauses.
impl Weighed for Joined {
    ghost weighs = { trees.JoinedWeight };

    #[cycle(weighs)]
    fn weight(&self) -> u64 {
        plus(self.primary.weight(), clause(&self.on))
    }
}

impl Weighed for FromItem {
    ghost weighs = { trees.FromWeight };

    #[cycle(weighs)]
    fn weight(&self) -> u64 {
        with_both(0, &self.first, &self.rest)
    }
}

impl Weighed for Term {
    ghost weighs = { trees.TermWeight };

    #[cycle(weighs)]
    fn weight(&self) -> u64 {
        match self {
            Term::Select { select } => select.weight(),
            Term::Query { query, .. } => query.weight(),
        }
    }
}

/// SELECT, FROM, WHERE, GROUP BY and HAVING are clauses.
impl Weighed for Select {
    ghost weighs = { trees.SelectWeight };

    #[cycle(weighs)]
    fn weight(&self) -> u64 {
        let grouped = plus(
            keys_weight(&self.grouping),
            kept_weight(&self.grouping, &self.having),
        );
        let read = plus(clause(&self.from), plus(clause(&self.filter), grouped));
        plus(1, plus(per_set(&self.grouping, &self.items), read))
    }
}

/// A WITH list, each set operator, ORDER BY and LIMIT are clauses.
impl Weighed for Query {
    ghost weighs = { Weight };

    #[cycle(weighs)]
    fn weight(&self) -> u64 {
        let ordered = plus(list_clause(&self.order), clause(&self.limit));
        let body = plus(
            self.body.first.weight(),
            plus(self.body.rest.weight(), ordered),
        );
        plus(list_clause(&self.ctes), body)
    }
}
