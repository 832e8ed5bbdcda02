//! The parts of clauses.
ghost use Rattle.std.specs.Prelude.{◌≡◌, OnOk};
ghost use Rattle.sql_ast.specs.Canon as canon;
ghost use Rattle.sql_ast.specs.Trees as trees;
ghost use Rattle.sql_print.specs.Pages as pages;
ghost use Rattle.sql_print.specs.PartPieces as parts;

use crate::names::{print_alias, print_path};
use crate::operands::{Leveled, print_operand};
use crate::printed::{Printed, print_bracketed};
use crate::words::{print_cube_word, print_word_if};
use crate::writer::Writer;
use sql_ast::{
    Aliased, Cte, Cube, Edit, FilterPart, GroupItem, GroupSet, Groups, Item, LimitPart, Name, On,
    PivotCall, Replacement, Reserved, SetTerm, Sign, Turn, Turned, UnpivotColumn, WithOffset, Word,
};
use sql_types::{Items, SetKind, Text};
use std::alloc::AllocError;

// ---- the select list

impl<E: Printed> Printed for Replacement<E> {
    ghost pieces = { parts.replacement_pieces E.pieces };

    #[tactic(auto, using(crate::proofs::PageLaws::written_append))]
    fn print(&self, writer: &mut Writer) -> Result<(), AllocError> {
        self.expr.print(writer)?;
        writer.word(Reserved::As)?;
        writer.name(&self.name.text)
    }
}

impl<E: Printed> Printed for Edit<E> {
    ghost pieces = { parts.edit_pieces E.pieces };

    #[tactic(auto, using(crate::proofs::PageLaws::written_append))]
    fn print(&self, writer: &mut Writer) -> Result<(), AllocError> {
        print_except(writer, &self.except)?;
        print_replace(writer, &self.replace)
    }
}

fn print_except(writer: &mut Writer, names: &Items<Name>) -> Result<(), AllocError>
    ensures { OnOk result (writer.new ≡ pages.written writer.old (canon.except_pieces names.now)) }
{
    match names.as_slice() {
        [] => Ok(()),
        [_, ..] => {
            writer.word(Reserved::Except)?;
            print_bracketed(writer, names)
        }
    }
}

fn print_replace<E: Printed>(
    writer: &mut Writer,
    replacements: &Items<Replacement<E>>,
) -> Result<(), AllocError>
    ensures { OnOk result (writer.new ≡ pages.written writer.old (parts.replace_pieces E.pieces replacements.now)) }
{
    match replacements.as_slice() {
        [] => Ok(()),
        [_, ..] => {
            writer.read_word(Word::Replace)?;
            print_bracketed(writer, replacements)
        }
    }
}

impl<E: Printed + Leveled> Printed for Item<E> {
    ghost pieces = { parts.item_pieces E.level E.pieces };

    #[tactic(auto, using(crate::proofs::PageLaws::written_append))]
    fn print(&self, writer: &mut Writer) -> Result<(), AllocError> {
        match self {
            Item::Star { edit, .. } => {
                writer.sign(Sign::Star)?;
                edit.print(writer)
            }
            Item::QualifiedStar {
                qualifier,
                edit,
                ..
            } => {
                print_operand(writer, 11, qualifier)?;
                writer.sign(Sign::Dot)?;
                writer.sign(Sign::Star)?;
                edit.print(writer)
            }
            Item::Expr { expr, alias, .. } => {
                expr.print(writer)?;
                print_alias(writer, alias)
            }
        }
    }
}

// ---- FROM

impl<E: Printed> Printed for PivotCall<E> {
    ghost pieces = { parts.pivot_call_pieces E.pieces };

    #[tactic(auto, using(crate::proofs::PageLaws::written_append))]
    fn print(&self, writer: &mut Writer) -> Result<(), AllocError> {
        self.call.print(writer)?;
        print_alias(writer, &self.alias)
    }
}

impl Printed for UnpivotColumn {
    ghost pieces = { canon.unpivot_column_pieces };

    fn print(&self, writer: &mut Writer) -> Result<(), AllocError> {
        writer.name(&self.name.text)?;
        match &self.label {
            None => Ok(()),
            Some(label) => {
                writer.word(Reserved::As)?;
                writer.text(label)
            }
        }
    }
}

/// EXCLUDE NULLS leaves nothing.
impl<E: Printed> Printed for Turn<E> {
    ghost pieces = { parts.turn_pieces E.pieces };

    #[tactic(auto, using(crate::proofs::PageLaws::written_append))]
    fn print(&self, writer: &mut Writer) -> Result<(), AllocError> {
        match self {
            Turn::Pivot {
                aggregates,
                input,
                values,
                ..
            } => {
                writer.read_word(Word::Pivot)?;
                writer.sign(Sign::OpenRound)?;
                aggregates.print(writer)?;
                print_pivoted(writer, input, values)?;
                writer.sign(Sign::CloseRound)
            }
            Turn::Unpivot {
                include_nulls,
                value,
                label,
                columns,
                ..
            } => {
                writer.read_word(Word::Unpivot)?;
                print_include_nulls(writer, *include_nulls)?;
                print_unpivoted(writer, &value.text, &label.text, columns)
            }
        }
    }
}

/// FOR, the input's name, IN, and the values in brackets.
#[tactic(auto, using(crate::proofs::PageLaws::written_append))]
fn print_pivoted<E: Printed>(
    writer: &mut Writer,
    input: &Items<Name>,
    values: &Items<Aliased<E>>,
) -> Result<(), AllocError>
    ensures { OnOk result (writer.new ≡ pages.written writer.old (parts.for_pieces E.pieces input.now values.now)) }
{
    writer.word(Reserved::For)?;
    print_path(writer, input)?;
    writer.word(Reserved::In)?;
    print_bracketed(writer, values)
}

fn print_include_nulls(writer: &mut Writer, included: bool) -> Result<(), AllocError>
    ensures { OnOk result (writer.new ≡ pages.written writer.old (parts.include_pieces included)) }
{
    if included {
        writer.read_word(Word::Include)?;
        writer.word(Reserved::Nulls)
    } else {
        Ok(())
    }
}

/// What stands in UNPIVOT's brackets, and they.
#[tactic(auto, using(crate::proofs::PageLaws::written_append))]
fn print_unpivoted(
    writer: &mut Writer,
    value: &Text,
    label: &Text,
    columns: &Items<UnpivotColumn>,
) -> Result<(), AllocError>
    ensures { OnOk result (writer.new ≡ pages.written writer.old (parts.unpivoted_pieces value.now label.now columns.now)) }
{
    writer.sign(Sign::OpenRound)?;
    writer.name(value)?;
    writer.word(Reserved::For)?;
    writer.name(label)?;
    writer.word(Reserved::In)?;
    print_bracketed(writer, columns)?;
    writer.sign(Sign::CloseRound)
}

impl<E: Printed> Printed for Turned<E> {
    ghost pieces = { parts.turned_pieces E.pieces };

    #[tactic(auto, using(crate::proofs::PageLaws::written_append))]
    fn print(&self, writer: &mut Writer) -> Result<(), AllocError> {
        self.turn.print(writer)?;
        print_alias(writer, &self.alias)
    }
}

impl Printed for WithOffset {
    ghost pieces = { canon.offset_pieces };

    fn print(&self, writer: &mut Writer) -> Result<(), AllocError> {
        writer.word(Reserved::With)?;
        writer.read_word(Word::Offset)?;
        print_alias(writer, &self.alias)
    }
}

impl<E: Printed> Printed for On<E> {
    ghost pieces = { parts.on_pieces E.pieces };

    fn print(&self, writer: &mut Writer) -> Result<(), AllocError> {
        match self {
            On::On { condition, .. } => {
                writer.word(Reserved::On)?;
                condition.print(writer)
            }
            On::Using { columns, .. } => {
                writer.word(Reserved::Using)?;
                print_bracketed(writer, columns)
            }
        }
    }
}

// ---- GROUP BY

impl<E: Printed> Printed for GroupItem<E> {
    ghost pieces = { parts.group_item_pieces E.pieces };

    fn print(&self, writer: &mut Writer) -> Result<(), AllocError> {
        match self {
            GroupItem::Expr { expr } => expr.print(writer),
            GroupItem::List { exprs, .. } => print_bracketed(writer, exprs),
        }
    }
}

impl<E: Printed> Printed for Cube<E> {
    ghost pieces = { parts.cube_pieces E.pieces };

    fn print(&self, writer: &mut Writer) -> Result<(), AllocError> {
        print_cube_word(writer, self.kind)?;
        print_bracketed(writer, &self.items)
    }
}

impl<E: Printed> Printed for GroupSet<E> {
    ghost pieces = { parts.set_pieces E.pieces };

    fn print(&self, writer: &mut Writer) -> Result<(), AllocError> {
        match self {
            GroupSet::Item { item } => item.print(writer),
            GroupSet::Cube { cube } => cube.print(writer),
        }
    }
}

impl<E: Printed> Printed for Groups<E> {
    ghost pieces = { parts.groups_pieces E.pieces };

    fn print(&self, writer: &mut Writer) -> Result<(), AllocError> {
        match self {
            Groups::Keys { keys, .. } => keys.print(writer),
            Groups::Empty { .. } => {
                writer.sign(Sign::OpenRound)?;
                writer.sign(Sign::CloseRound)
            }
            Groups::Sets { sets, .. } => {
                writer.word(Reserved::Grouping)?;
                writer.read_word(Word::Sets)?;
                print_bracketed(writer, sets)
            }
            Groups::Cube { cube, .. } => cube.print(writer),
        }
    }
}

// ---- clauses of queries

impl<E: Printed> Printed for FilterPart<E> {
    ghost pieces = { parts.having_pieces E.pieces };

    fn print(&self, writer: &mut Writer) -> Result<(), AllocError> {
        writer.word(Reserved::Having)?;
        self.test.print(writer)
    }
}

impl<E: Printed> Printed for LimitPart<E> {
    ghost pieces = { parts.limit_pieces E.pieces };

    #[tactic(auto, using(crate::proofs::PageLaws::written_append))]
    fn print(&self, writer: &mut Writer) -> Result<(), AllocError> {
        writer.word(Reserved::Limit)?;
        self.count.print(writer)?;
        match &self.offset {
            None => Ok(()),
            Some(offset) => {
                writer.read_word(Word::Offset)?;
                offset.print(writer)
            }
        }
    }
}

impl<Q: Printed> Printed for Cte<Q> {
    ghost pieces = { parts.cte_pieces Q.pieces };

    fn print(&self, writer: &mut Writer) -> Result<(), AllocError> {
        writer.name(&self.name.text)?;
        writer.word(Reserved::As)?;
        print_bracketed(writer, &self.query)
    }
}

/// A set operation and the term behind it.
impl<T: Printed> Printed for SetTerm<T> {
    ghost pieces = { parts.set_term_pieces T.pieces };

    fn print(&self, writer: &mut Writer) -> Result<(), AllocError> {
        let (operation, quantifier) = set_words(self.kind);
        writer.word(operation)?;
        writer.word(quantifier)?;
        self.term.print(writer)
    }
}

fn set_words(kind: SetKind) -> (Reserved, Reserved)
    ensures { result ≡ (trees.set_word kind, trees.set_quantifier kind) }
{
    match kind {
        SetKind::UnionAll => (Reserved::Union, Reserved::All),
        SetKind::UnionDistinct => (Reserved::Union, Reserved::Distinct),
        SetKind::IntersectAll => (Reserved::Intersect, Reserved::All),
        SetKind::IntersectDistinct => (Reserved::Intersect, Reserved::Distinct),
        SetKind::ExceptAll => (Reserved::Except, Reserved::All),
        SetKind::ExceptDistinct => (Reserved::Except, Reserved::Distinct),
    }
}
