//! The parts of expressions.
ghost use Rattle.std.specs.Prelude.{◌≡◌, ◌++◌, OnOk};
ghost use Rattle.sql_ast.specs.Canon as canon;
ghost use Rattle.sql_ast.specs.Pieces as pieces;
ghost use Rattle.sql_print.specs.Pages as pages;
ghost use Rattle.sql_print.specs.PartPieces as parts;

use crate::names::print_alias;
use crate::printed::{Printed, print_bracketed};
use crate::words::{
    print_call_limit, print_form, print_nulls_part, print_nulls_place, print_word_if,
};
use crate::writer::Writer;
use sql_ast::{Aliased, Arg, Binding, Call, Function, Name, Part, Reserved, Sign, Sort, When};
use sql_types::Items;
use std::alloc::AllocError;

impl<E: Printed> Printed for Part<E> {
    ghost pieces = { parts.part_pieces E.pieces };

    #[tactic(auto, using(crate::proofs::PageLaws::written_append))]
    fn print(&self, writer: &mut Writer) -> Result<(), AllocError> {
        match self {
            Part::Field { name } => {
                writer.sign(Sign::Dot)?;
                writer.name(&name.text)
            }
            Part::Index { form, index, .. } => {
                writer.close_sign(Sign::OpenSquare)?;
                print_form(writer, *form)?;
                print_bracketed(writer, index)?;
                writer.sign(Sign::CloseSquare)
            }
        }
    }
}

/// ASC leaves nothing.
impl<E: Printed> Printed for Sort<E> {
    ghost pieces = { parts.sort_pieces E.pieces };

    #[tactic(auto, using(crate::proofs::PageLaws::written_append))]
    fn print(&self, writer: &mut Writer) -> Result<(), AllocError> {
        self.expr.print(writer)?;
        print_word_if(writer, self.descending, Reserved::Desc)?;
        print_nulls_place(writer, self.nulls)
    }
}

/// ORDER BY, where it is written.
pub fn print_order<E: Printed>(
    writer: &mut Writer,
    order: &Items<Sort<E>>,
) -> Result<(), AllocError>
    ensures { OnOk result (writer.new ≡ pages.written writer.old (parts.order_pieces E.pieces order.now)) }
{
    if order.is_empty() {
        return Ok(());
    }
    writer.word(Reserved::Order)?;
    writer.word(Reserved::By)?;
    order.print(writer)
}

impl<E: Printed> Printed for Arg<E> {
    ghost pieces = { parts.argument_pieces E.pieces };

    #[tactic(auto, using(crate::proofs::PageLaws::written_append))]
    fn print(&self, writer: &mut Writer) -> Result<(), AllocError> {
        match self {
            Arg::Expr { expr } => expr.print(writer),
            Arg::Lambda {
                variables,
                body,
                ..
            } => {
                print_variables(writer, variables)?;
                writer.sign(Sign::Arrow)?;
                body.print(writer)
            }
            Arg::Interval { amount, part, .. } => {
                writer.word(Reserved::Interval)?;
                amount.print(writer)?;
                writer.name(&part.text)
            }
        }
    }
}

/// The variables of a lambda: one alone, or two in brackets.
fn print_variables(writer: &mut Writer, variables: &Items<Name>) -> Result<(), AllocError>
    ensures { OnOk result (writer.new ≡ pages.written writer.old (canon.variables_pieces variables.now)) }
{
    match variables.as_slice() {
        [] => Ok(()),
        [variable] => writer.name(&variable.text),
        _ => print_bracketed(writer, variables),
    }
}

impl Printed for Function {
    ghost use Rattle.std.specs.Prelude.{◌∷◌, []};

    ghost pieces = { λ function. canon.function_piece function ∷ [] };

    fn print(&self, writer: &mut Writer) -> Result<(), AllocError> {
        match self {
            Function::If => writer.word(Reserved::If),
            Function::Named { name } => writer.name(name),
        }
    }
}

impl<E: Printed> Printed for Call<E> {
    ghost pieces = { parts.call_pieces E.pieces };

    #[tactic(auto, using(crate::proofs::PageLaws::written_append))]
    fn print(&self, writer: &mut Writer) -> Result<(), AllocError> {
        self.function.print(writer)?;
        writer.close_sign(Sign::OpenRound)?;
        print_inside(writer, self)?;
        writer.sign(Sign::CloseRound)
    }
}

/// What stands between the brackets of a call.
#[tactic(auto, using(crate::proofs::PageLaws::written_append))]
fn print_inside<E: Printed>(writer: &mut Writer, call: &Call<E>) -> Result<(), AllocError>
    ensures { OnOk result (writer.new ≡ pages.written writer.old (parts.inside_pieces E.pieces call.now)) }
{
    print_word_if(writer, call.distinct, Reserved::Distinct)?;
    print_arguments(writer, call.star, &call.arguments)?;
    print_nulls_part(writer, call.nulls)?;
    print_order(writer, &call.order)?;
    print_call_limit(writer, call.limit)
}

fn print_arguments<E: Printed>(
    writer: &mut Writer,
    star: bool,
    arguments: &Items<Arg<E>>,
) -> Result<(), AllocError>
    ensures { OnOk result (writer.new ≡ pages.written writer.old (parts.star_or_arguments E.pieces star arguments.now)) }
{
    if star {
        writer.sign(Sign::Star)
    } else {
        arguments.print(writer)
    }
}

impl<E: Printed> Printed for When<E> {
    ghost pieces = { parts.when_pieces E.pieces };

    #[tactic(auto, using(crate::proofs::PageLaws::written_append))]
    fn print(&self, writer: &mut Writer) -> Result<(), AllocError> {
        writer.word(Reserved::When)?;
        self.test.print(writer)?;
        writer.word(Reserved::Then)?;
        self.result.print(writer)
    }
}

impl<E: Printed> Printed for Aliased<E> {
    ghost pieces = { parts.aliased_pieces E.pieces };

    #[tactic(auto, using(crate::proofs::PageLaws::written_append))]
    fn print(&self, writer: &mut Writer) -> Result<(), AllocError> {
        self.expr.print(writer)?;
        print_alias(writer, &self.alias)
    }
}

impl<E: Printed> Printed for Binding<E> {
    ghost pieces = { parts.binding_pieces E.pieces };

    fn print(&self, writer: &mut Writer) -> Result<(), AllocError> {
        writer.name(&self.name.text)?;
        writer.word(Reserved::As)?;
        self.expr.print(writer)
    }
}
