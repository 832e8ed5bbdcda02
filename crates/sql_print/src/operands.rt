//! Operands: an operand stands in brackets where its level is lower than its place needs.
ghost use Rattle.std.specs.Prelude.{◌≡◌, ℕ, ◌++◌, OnOk};
ghost use Rattle.sql_print.specs.Pages as pages;
ghost use Rattle.sql_print.specs.PartPieces as parts;

use crate::printed::{Printed, print_bracketed};
use crate::words::print_operator;
use crate::writer::Writer;
use sql_ast::Link;
use sql_types::Boxed;
use std::alloc::AllocError;

/// A part that has a level: the loosest operators have the least.
pub trait Leveled {
    // The level.
    ghost level: { Self → ℕ };

    /// The level.
    fn level(&self) -> u8
        ensures { result ≡ level self.now };
}

impl<P: Leveled> Leveled for Boxed<P> {
    ghost level = { λ part. P.level part };

    fn level(&self) -> u8 {
        self.get().level()
    }
}

/// An operand at a place that needs a level.
pub fn print_operand<E: Printed + Leveled>(
    writer: &mut Writer,
    needed: u8,
    operand: &E,
) -> Result<(), AllocError>
    ensures { OnOk result (writer.new ≡ pages.written writer.old (parts.operand E.level E.pieces needed operand.now)) }
{
    if operand.level() < needed {
        print_bracketed(writer, operand)
    } else {
        operand.print(writer)
    }
}

/// The operators of a chain and the operands behind them.
#[tactic(auto, using(crate::proofs::PageLaws::written_append))]
pub fn print_links<E: Printed + Leveled>(
    writer: &mut Writer,
    needed: u8,
    links: &[Link<E>],
) -> Result<(), AllocError>
    ensures { OnOk result (writer.new ≡ pages.written writer.old (parts.run (parts.link_pieces E.level E.pieces needed) links.now)) }
{
    for link in links {
        print_operator(writer, link.operator)?;
        print_operand(writer, needed, &link.operand)?;
    }
    Ok(())
}
