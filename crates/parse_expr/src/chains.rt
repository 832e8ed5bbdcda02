//! Chains of operators.
ghost use Rattle.std.specs.Prelude.{◌≡◌, IfOk};
ghost use Rattle.sql_ast.specs.Trees as trees;
ghost use Rattle.parse_expr.specs.Operations.{made};

use parse_words::kept::Kept;
use sql_ast::{Expr, Link, Operator, Token};
use sql_nodes::{expr_nodes, part_nodes};
use sql_types::{Boxed, Items, OutOfMemory};
use std::alloc::Global;

/// Which operators a chain has, by its level.
#[derive(Clone, Copy, Debug, PartialEq, Eq)]
pub enum Operation {
    Or,
    And,
    BitOr,
    BitXor,
    BitAnd,
    Shift,
    Sum,
    Product,
}

/// A chain of one operand is that operand.
#[tactic(auto, unfolding(sql_ast::specs::Trees::chain))]
pub fn link_up(
    alloc: Global,
    operation: Operation,
    first: Boxed<Expr>,
    rest: Items<Link<Expr>>,
    place: u64,
) -> Result<Boxed<Expr>, OutOfMemory>
    ensures { IfOk result (λ a. a ≡ trees.chain (made operation) first rest place) }
{
    if rest.is_empty() {
        return Ok(first);
    }
    linked(alloc, operation, first, rest, place)
}

fn linked(
    alloc: Global,
    operation: Operation,
    first: Boxed<Expr>,
    rest: Items<Link<Expr>>,
    place: u64,
) -> Result<Boxed<Expr>, OutOfMemory>
    ensures { IfOk result (λ a. a ≡ made operation first rest place) }
{
    match operation {
        Operation::Or => expr_nodes::or(alloc, first, rest, place),
        Operation::And => expr_nodes::and(alloc, first, rest, place),
        Operation::BitOr => expr_nodes::bit_or(alloc, first, rest, place),
        Operation::BitXor => expr_nodes::bit_xor(alloc, first, rest, place),
        Operation::BitAnd => expr_nodes::bit_and(alloc, first, rest, place),
        Operation::Shift => expr_nodes::shift(alloc, first, rest, place),
        Operation::Sum => expr_nodes::sum(alloc, first, rest, place),
        Operation::Product => expr_nodes::product(alloc, first, rest, place),
    }
}

/// An operand with the operator before it, whose token this is.
#[tactic(auto, unfolding(sql_ast::specs::Trees::link))]
pub fn link(
    alloc: Global,
    operator: Operator,
    token: &Token,
    operand: Boxed<Expr>,
) -> Result<Boxed<Link<Expr>>, OutOfMemory>
    ensures { IfOk result (λ l. l ≡ trees.link operator token.now operand) }
{
    part_nodes::link(alloc, operator, operand, token.start)
}

/// The same, where the token was kept.
#[tactic(auto, unfolding(sql_ast::specs::Trees::link))]
pub fn kept_link(
    alloc: Global,
    operator: Operator,
    token: &Kept,
    operand: Boxed<Expr>,
) -> Result<Boxed<Link<Expr>>, OutOfMemory>
    ensures { IfOk result (λ l. l ≡ trees.link operator token.now operand) }
{
    part_nodes::link(alloc, operator, operand, token.start())
}
