//! The condition of WHERE.
ghost use Rattle.small_run.specs.Parts.{MakesTest, MakesComparison};

use crate::columns::column_named;
use crate::form::NoPlan;
use crate::literals::{comparable, literal_of};
use crate::parts::Test;
use crate::views::name_of;
use lists::ListType;
use sql_ast::{Comparison, Expr};
use sql_catalog::TableDef;
use std::alloc::Global;

/// The condition that a name equals a literal.
pub fn condition(alloc: Global, table: &TableDef, expr: &Expr) -> Result<Test, NoPlan>
    ensures { MakesTest table.now expr.now result }
{
    match expr {
        Expr::Compare {
            left,
            operator,
            right,
            ..
        } => comparison(alloc, table, left.get(), *operator, right.get()),
        _ => Err(NoPlan::OtherForm),
    }
}

/// A comparison of two operands.
fn comparison(
    alloc: Global,
    table: &TableDef,
    left: &Expr,
    operator: Comparison,
    right: &Expr,
) -> Result<Test, NoPlan>
    ensures { MakesComparison table.now left.now operator right.now result }
{
    match operator {
        Comparison::Equal => equation(alloc, table, left, right),
        _ => Err(NoPlan::OtherForm),
    }
}

/// `left = right`, where the left is a column of the table and the right a literal of its type.
fn equation(alloc: Global, table: &TableDef, left: &Expr, right: &Expr) -> Result<Test, NoPlan>
    ensures { MakesComparison table.now left.now Comparison.Equal right.now result }
{
    let Some(name) = name_of(left) else {
        return Err(NoPlan::OtherForm);
    };
    let Some(place) = column_named(table, name) else {
        return Err(NoPlan::OtherForm);
    };
    let literal = literal_of(alloc, right)?;
    if comparable(&table.columns.at(place).ty, &literal.ty) {
        Ok(Test {
            place,
            literal: literal.value,
        })
    } else {
        Err(NoPlan::OtherForm)
    }
}
