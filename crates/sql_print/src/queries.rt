//! The clauses of SELECT and of queries, where they are written.
ghost use Rattle.std.specs.Prelude.{◌≡◌, OnOk};
ghost use Rattle.sql_print.specs.Pages as pages;
ghost use Rattle.sql_print.specs.PartPieces as parts;
ghost use Rattle.sql_print.specs.QueryPieces as queries;

use crate::printed::Printed;
use crate::words::print_word_if;
use crate::writer::Writer;
use sql_ast::{Cte, Groups, Reserved};
use sql_types::Items;
use std::alloc::AllocError;

/// DISTINCT and AS STRUCT.
#[tactic(auto, using(crate::proofs::PageLaws::written_append))]
pub fn print_front(writer: &mut Writer, distinct: bool, as_struct: bool) -> Result<(), AllocError>
    ensures { OnOk result (writer.new ≡ pages.written writer.old (queries.front_pieces distinct as_struct)) }
{
    print_word_if(writer, distinct, Reserved::Distinct)?;
    if as_struct {
        writer.word(Reserved::As)?;
        writer.word(Reserved::Struct)?;
    }
    Ok(())
}

/// A word and what it introduces.
pub fn print_clause<P: Printed>(
    writer: &mut Writer,
    word: Reserved,
    part: &Option<P>,
) -> Result<(), AllocError>
    ensures { OnOk result (writer.new ≡ pages.written writer.old (queries.clause_pieces P.pieces word part.now)) }
{
    match part {
        None => Ok(()),
        Some(part) => {
            writer.word(word)?;
            part.print(writer)
        }
    }
}

/// GROUP BY
pub fn print_grouping<E: Printed>(
    writer: &mut Writer,
    grouping: &Option<Groups<E>>,
) -> Result<(), AllocError>
    ensures { OnOk result (writer.new ≡ pages.written writer.old (queries.grouping_pieces E.pieces grouping.now)) }
{
    match grouping {
        None => Ok(()),
        Some(groups) => {
            writer.word(Reserved::Group)?;
            writer.word(Reserved::By)?;
            groups.print(writer)
        }
    }
}

/// WITH
pub fn print_ctes<Q: Printed>(writer: &mut Writer, ctes: &Items<Cte<Q>>) -> Result<(), AllocError>
    ensures { OnOk result (writer.new ≡ pages.written writer.old (parts.ctes_pieces Q.pieces ctes.now)) }
{
    match ctes.as_slice() {
        [] => Ok(()),
        [_, ..] => {
            writer.word(Reserved::With)?;
            ctes.print(writer)
        }
    }
}
