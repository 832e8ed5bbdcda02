//! What is printed, and lists of it.
ghost use Rattle.std.specs.Prelude.{◌≡◌, List, map, OnOk};
ghost use Rattle.sql_ast.specs.Pieces as pieces;
ghost use Rattle.sql_ast.specs.Pieces.{Piece};
ghost use Rattle.sql_print.specs.Pages as pages;
ghost use Rattle.sql_print.specs.PartPieces as parts;

use crate::writer::Writer;
use sql_ast::Sign;
use sql_types::{Boxed, Items};
use std::alloc::AllocError;

/// A part of a query that is printed as tokens.
pub trait Printed {
    // The tokens.
    ghost pieces: { Self → List Piece };

    /// Writes the tokens, in time linear in the tree.
    fn print(&self, writer: &mut Writer) -> Result<(), AllocError>
        ensures { OnOk result (writer.new ≡ pages.written writer.old (pieces self.now)) };
}

impl<P: Printed> Printed for Boxed<P> {
    ghost pieces = { λ part. P.pieces part };

    fn print(&self, writer: &mut Writer) -> Result<(), AllocError> {
        self.get().print(writer)
    }
}

impl<P: Printed> Printed for Option<P> {
    ghost pieces = { pieces.if_there P.pieces };

    fn print(&self, writer: &mut Writer) -> Result<(), AllocError> {
        match self {
            None => Ok(()),
            Some(part) => part.print(writer),
        }
    }
}

/// A list has commas between its parts.
impl<P: Printed> Printed for Items<P> {
    ghost pieces = { λ parts. pieces.with_commas (map P.pieces parts) };

    #[tactic(auto, using(crate::proofs::PageLaws::written_append))]
    fn print(&self, writer: &mut Writer) -> Result<(), AllocError> {
        match self.as_slice() {
            [] => Ok(()),
            [first, more @ ..] => {
                first.print(writer)?;
                print_after_commas(writer, more)
            }
        }
    }
}

#[tactic(auto, using(crate::proofs::PageLaws::written_append))]
fn print_after_commas<P: Printed>(writer: &mut Writer, parts: &[P]) -> Result<(), AllocError>
    ensures { OnOk result (writer.new ≡ pages.written writer.old (pieces.after_commas (map P.pieces parts.now))) }
{
    for part in parts {
        writer.sign(Sign::Comma)?;
        part.print(writer)?;
    }
    Ok(())
}

/// A part in brackets.
#[tactic(auto, using(crate::proofs::PageLaws::written_append))]
pub fn print_bracketed<P: Printed>(writer: &mut Writer, part: &P) -> Result<(), AllocError>
    ensures { OnOk result (writer.new ≡ pages.written writer.old (pieces.bracketed (P.pieces part.now))) }
{
    writer.sign(Sign::OpenRound)?;
    part.print(writer)?;
    writer.sign(Sign::CloseRound)
}

/// One part after another.
#[tactic(auto, using(crate::proofs::PageLaws::written_append))]
pub fn print_run<P: Printed>(writer: &mut Writer, list: &[P]) -> Result<(), AllocError>
    ensures { OnOk result (writer.new ≡ pages.written writer.old (parts.run P.pieces list.now)) }
{
    for part in list {
        part.print(writer)?;
    }
    Ok(())
}

/// Parts that stand one after another.
pub trait InTurn {
    // The tokens.
    ghost in_turn: { Self → List Piece };

    /// Writes the parts with nothing between.
    fn print_in_turn(&self, writer: &mut Writer) -> Result<(), AllocError>
        ensures { OnOk result (writer.new ≡ pages.written writer.old (in_turn self.now)) };
}

impl<P: Printed> InTurn for Items<P> {
    ghost in_turn = { parts.run P.pieces };

    fn print_in_turn(&self, writer: &mut Writer) -> Result<(), AllocError> {
        print_run(writer, self.as_slice())
    }
}
