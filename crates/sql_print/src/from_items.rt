//! The items of FROM.
ghost use Rattle.std.specs.Prelude.{◌≡◌, OnOk};
ghost use Rattle.sql_print.specs.Pages as pages;
ghost use Rattle.sql_print.specs.PartPieces as parts;

use crate::exprs::print_worded;
use crate::names::{print_alias, print_path};
use crate::printed::{Printed, print_bracketed};
use crate::writer::Writer;
use sql_ast::{Name, Reserved, Turned, WithOffset};
use sql_types::Items;
use std::alloc::AllocError;

/// A table.
#[tactic(auto, using(crate::proofs::PageLaws::written_append))]
pub fn print_table<E: Printed>(
    writer: &mut Writer,
    name: &Name,
    alias: &Option<Name>,
    turned: &Option<Turned<E>>,
) -> Result<(), AllocError>
    ensures { OnOk result (writer.new ≡ pages.written writer.old (parts.table_pieces E.pieces name.now alias.now turned.now)) }
{
    writer.name(&name.text)?;
    print_alias(writer, alias)?;
    turned.print(writer)
}

/// A query in brackets.
#[tactic(auto, using(crate::proofs::PageLaws::written_append))]
pub fn print_subquery<Q: Printed, E: Printed>(
    writer: &mut Writer,
    query: &Q,
    alias: &Option<Name>,
    turned: &Option<Turned<E>>,
) -> Result<(), AllocError>
    ensures { OnOk result (writer.new ≡ pages.written writer.old (parts.subquery_pieces Q.pieces E.pieces query.now alias.now turned.now)) }
{
    print_bracketed(writer, query)?;
    print_alias(writer, alias)?;
    turned.print(writer)
}

/// A path.
#[tactic(auto, using(crate::proofs::PageLaws::written_append))]
pub fn print_array_path(
    writer: &mut Writer,
    path: &Items<Name>,
    alias: &Option<Name>,
    offset: &Option<WithOffset>,
) -> Result<(), AllocError>
    ensures { OnOk result (writer.new ≡ pages.written writer.old (parts.array_path_pieces path.now alias.now offset.now)) }
{
    print_path(writer, path)?;
    print_alias(writer, alias)?;
    offset.print(writer)
}

/// UNNEST
#[tactic(auto, using(crate::proofs::PageLaws::written_append))]
pub fn print_unnest<E: Printed>(
    writer: &mut Writer,
    array: &E,
    alias: &Option<Name>,
    offset: &Option<WithOffset>,
) -> Result<(), AllocError>
    ensures { OnOk result (writer.new ≡ pages.written writer.old (parts.unnest_item_pieces E.pieces array.now alias.now offset.now)) }
{
    print_worded(writer, Reserved::Unnest, array)?;
    print_alias(writer, alias)?;
    offset.print(writer)
}
