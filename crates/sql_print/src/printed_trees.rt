//! The print of each sort of tree. Each construct of an expression is printed by its own function over its operands.
ghost use Rattle.std.specs.Prelude.{◌≡◌, OnOk};
ghost use Rattle.sql_ast.specs.Canon as canon;
ghost use Rattle.sql_print.specs.TreePieces as trees;

use crate::exprs::{
    print_array, print_between, print_case, print_cast, print_chain, print_compare, print_date,
    print_distinct, print_extract, print_in, print_in_unnest, print_is, print_like,
    print_like_list, print_like_unnest, print_not, print_postfix, print_safe_call, print_truth,
    print_typed_struct, print_unary, print_with, print_worded,
};
use crate::from_items::{print_array_path, print_subquery, print_table, print_unnest};
use crate::parts::print_order;
use crate::printed::{InTurn, Printed, print_bracketed};
use crate::queries::{print_clause, print_ctes, print_front, print_grouping};
use crate::words::print_join;
use crate::writer::Writer;
use sql_ast::{Expr, FromItem, Joined, Primary, Query, Reserved, Select, Term};
use std::alloc::AllocError;

impl Printed for Expr {
    ghost pieces = { trees.expr_pieces };

    #[cycle(print)]
    fn print(&self, writer: &mut Writer) -> Result<(), AllocError> {
        match self {
            // Each operand of a chain needs the level above the chain's own.
            Expr::Or { first, rest, .. } => print_chain(writer, 1, first.get(), rest),
            Expr::And { first, rest, .. } => print_chain(writer, 2, first.get(), rest),
            Expr::Not {
                operators,
                operand,
                ..
            } => print_not(writer, operators, operand),
            Expr::BitOr { first, rest, .. } => print_chain(writer, 5, first.get(), rest),
            Expr::BitXor { first, rest, .. } => print_chain(writer, 6, first.get(), rest),
            Expr::BitAnd { first, rest, .. } => print_chain(writer, 7, first.get(), rest),
            Expr::Shift { first, rest, .. } => print_chain(writer, 8, first.get(), rest),
            Expr::Sum { first, rest, .. } => print_chain(writer, 9, first.get(), rest),
            Expr::Product { first, rest, .. } => print_chain(writer, 10, first.get(), rest),
            Expr::Unary {
                operators,
                operand,
                ..
            } => print_unary(writer, operators, operand),
            Expr::Postfix { first, parts, .. } => print_postfix(writer, first.get(), parts),
            // Comparisons
            Expr::Compare {
                left,
                operator,
                right,
                ..
            } => print_compare(writer, left, *operator, right),
            Expr::Like {
                left,
                negated,
                right,
                ..
            } => print_like(writer, left, *negated, right),
            Expr::LikeList {
                left,
                quantifier,
                patterns,
                ..
            } => print_like_list(writer, left, *quantifier, patterns),
            Expr::LikeUnnest {
                left,
                quantifier,
                array,
                ..
            } => print_like_unnest(writer, left, *quantifier, array),
            Expr::Between {
                subject,
                negated,
                low,
                high,
                ..
            } => print_between(writer, subject, *negated, low, high),
            Expr::InList {
                left,
                negated,
                list,
                ..
            } => print_in(writer, left, *negated, list),
            Expr::InQuery {
                left,
                negated,
                query,
                ..
            } => print_in(writer, left, *negated, query),
            Expr::InUnnest {
                left,
                negated,
                array,
                ..
            } => print_in_unnest(writer, left, *negated, array),
            Expr::Is {
                left,
                negated,
                test,
                ..
            } => print_is(writer, left, *negated, *test),
            Expr::Distinct {
                left,
                negated,
                right,
                ..
            } => print_distinct(writer, left, *negated, right),
            // Basic expressions
            Expr::Integer { value, .. } => writer.integer(*value),
            Expr::Text { value, .. } => writer.text(value),
            Expr::Bytes { value, .. } => writer.bytes(value),
            Expr::Bool { value, .. } => print_truth(writer, *value),
            Expr::Null { .. } => writer.word(Reserved::Null),
            Expr::Date { text, .. } => print_date(writer, text),
            Expr::Parameter { name, .. } => writer.parameter(name),
            Expr::Name { name, .. } => writer.name(name),
            Expr::Call { call, .. } => call.print(writer),
            Expr::SafeCall { call, .. } => print_safe_call(writer, call),
            Expr::Scalar { query, .. } => print_bracketed(writer, query),
            Expr::Tuple { parts, .. } => print_bracketed(writer, parts),
            Expr::Case {
                subject,
                branches,
                otherwise,
                ..
            } => print_case(writer, subject, branches, otherwise),
            Expr::Cast { safe, expr, ty, .. } => print_cast(writer, *safe, expr, ty),
            Expr::Extract { part, expr, .. } => print_extract(writer, part, expr),
            Expr::Grouping { argument, .. } => print_worded(writer, Reserved::Grouping, argument),
            Expr::Exists { query, .. } => print_worded(writer, Reserved::Exists, query),
            Expr::ArrayQuery { query, .. } => print_worded(writer, Reserved::Array, query),
            Expr::Array { element, items, .. } => print_array(writer, element, items),
            Expr::Struct { parts, .. } => print_worded(writer, Reserved::Struct, parts),
            Expr::TypedStruct { fields, parts, .. } => print_typed_struct(writer, fields, parts),
            Expr::With {
                bindings,
                result,
                ..
            } => print_with(writer, bindings, result),
        }
    }
}

impl Printed for Primary {
    ghost pieces = { trees.primary_pieces };

    #[cycle(print)]
    fn print(&self, writer: &mut Writer) -> Result<(), AllocError> {
        match self {
            Primary::Table {
                name,
                alias,
                turned,
                ..
            } => print_table(writer, name, alias, turned),
            Primary::Query {
                query,
                alias,
                turned,
                ..
            } => print_subquery(writer, query, alias, turned),
            Primary::Path {
                path,
                alias,
                offset,
                ..
            } => print_array_path(writer, path, alias, offset),
            Primary::Unnest {
                array,
                alias,
                offset,
                ..
            } => print_unnest(writer, array, alias, offset),
        }
    }
}

impl Printed for Joined {
    ghost pieces = { trees.joined_pieces };

    #[cycle(print)]
    #[tactic(auto, using(crate::proofs::PageLaws::written_append))]
    fn print(&self, writer: &mut Writer) -> Result<(), AllocError> {
        print_join(writer, self.word)?;
        self.primary.print(writer)?;
        self.on.print(writer)
    }
}

impl Printed for FromItem {
    ghost pieces = { trees.from_pieces };

    #[cycle(print)]
    #[tactic(auto, using(crate::proofs::PageLaws::written_append))]
    fn print(&self, writer: &mut Writer) -> Result<(), AllocError> {
        self.first.print(writer)?;
        self.rest.print_in_turn(writer)
    }
}

impl Printed for Term {
    ghost pieces = { trees.term_pieces };

    #[cycle(print)]
    fn print(&self, writer: &mut Writer) -> Result<(), AllocError> {
        match self {
            Term::Select { select } => select.print(writer),
            Term::Query { query, .. } => print_bracketed(writer, query),
        }
    }
}

/// ALL after SELECT leaves nothing.
impl Printed for Select {
    ghost pieces = { trees.select_pieces };

    #[cycle(print)]
    #[tactic(auto, using(crate::proofs::PageLaws::written_append))]
    fn print(&self, writer: &mut Writer) -> Result<(), AllocError> {
        writer.word(Reserved::Select)?;
        print_front(writer, self.distinct, self.as_struct)?;
        self.items.print(writer)?;
        print_clause(writer, Reserved::From, &self.from)?;
        print_clause(writer, Reserved::Where, &self.filter)?;
        print_grouping(writer, &self.grouping)?;
        self.having.print(writer)
    }
}

impl Printed for Query {
    ghost pieces = { canon.canon_pieces };

    #[cycle(print)]
    #[tactic(auto, using(crate::proofs::PageLaws::written_append))]
    fn print(&self, writer: &mut Writer) -> Result<(), AllocError> {
        print_ctes(writer, &self.ctes)?;
        self.body.first.print(writer)?;
        self.body.rest.print_in_turn(writer)?;
        print_order(writer, &self.order)?;
        self.limit.print(writer)
    }
}
