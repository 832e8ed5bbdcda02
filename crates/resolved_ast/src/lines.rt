//! The lines of nodes, each with the fields that its node has.
ghost use Rattle.std.specs.Prelude.{◌≡◌, OnOk, List, [], ◌∷◌, codes, true};
ghost use Rattle.sql_names.specs.Spelling.{quote_name};
ghost use Rattle.sql_types.specs.Fits.{fits};
ghost use Rattle.sql_types.specs.TypeText.{type_text};
ghost use Rattle.sql_ast.specs.Literals.{LiteralText};
ghost use Rattle.resolved_ast.specs.Numeral.{numeral};
ghost use Rattle.resolved_ast.specs.Pages as pages;
ghost use Rattle.resolved_ast.specs.SignatureNames as names;
ghost use Rattle.resolved_ast.specs.TreeText as text;

use crate::column::{ColumnRef, ColumnRefs, MadeColumn, MadeColumns};
use crate::page::Page;
use crate::scan::{Outputs, UnnestKind};
use crate::signature_names::signature_name;
use sql_ast::IndexForm;
use sql_builtins::SigId;
use sql_types::{JoinKind, SqlType, Text, Value};
use std::alloc::AllocError;

/// A node without fields.
#[tactic(auto, using(crate::proofs::PageLaws::written_append, crate::proofs::PageLaws::written_field, crate::proofs::PageLaws::written_none))]
pub fn bare_line(page: &mut Page, word: &[u8]) -> Result<(), AllocError>
    ensures { OnOk result (page.new ≡ pages.written page.old (text.line word.now [] page.old.margin)) }
{
    page.open(word)?;
    page.close()
}

/// A node with its type.
#[tactic(auto, using(crate::proofs::PageLaws::written_append, crate::proofs::PageLaws::written_field, crate::proofs::PageLaws::written_none))]
pub fn typed_line(page: &mut Page, word: &[u8], ty: &SqlType) -> Result<(), AllocError>
    ensures { OnOk result (page.new ≡ pages.written page.old (text.line word.now (type_text ty.now ∷ []) page.old.margin)) }
{
    page.open(word)?;
    page.ty(ty)?;
    page.close()
}

/// A Literal: its value, which fits its type, and this.
#[tactic(auto, using(crate::proofs::PageLaws::written_append, crate::proofs::PageLaws::written_field, crate::proofs::PageLaws::written_none, sql_ast::proofs::DatesFitLaws::fits_dated))]
pub fn literal_line(page: &mut Page, value: &Value, ty: &SqlType) -> Result<(), AllocError>
    requires { fits ty.now value.now ≡ true }
    ensures { OnOk result (page.new ≡ pages.written page.old (text.line (codes "Literal") (LiteralText value.now ∷ type_text ty.now ∷ []) page.old.margin)) }
{
    page.open(b"Literal")?;
    page.value(value)?;
    page.ty(ty)?;
    page.close()
}

/// A Parameter: its name and its type.
#[tactic(auto, using(crate::proofs::PageLaws::written_append, crate::proofs::PageLaws::written_field, crate::proofs::PageLaws::written_none))]
pub fn parameter_line(page: &mut Page, name: &Text, ty: &SqlType) -> Result<(), AllocError>
    ensures { OnOk result (page.new ≡ pages.written page.old (text.line (codes "Parameter") (quote_name name.now ∷ type_text ty.now ∷ []) page.old.margin)) }
{
    page.open(b"Parameter")?;
    page.name(name)?;
    page.ty(ty)?;
    page.close()
}

/// A Column or an Outer: the column and its type.
#[tactic(auto, using(crate::proofs::PageLaws::written_append, crate::proofs::PageLaws::written_field, crate::proofs::PageLaws::written_none))]
pub fn column_line(
    page: &mut Page,
    word: &[u8],
    column: &ColumnRef,
    ty: &SqlType,
) -> Result<(), AllocError>
    ensures { OnOk result (page.new ≡ pages.written page.old (text.line word.now (text.ref_text column.now ∷ type_text ty.now ∷ []) page.old.margin)) }
{
    page.open(word)?;
    page.column(column)?;
    page.ty(ty)?;
    page.close()
}

/// A Call or a SafeCall: the signature's name and the type.
#[tactic(auto, using(crate::proofs::PageLaws::written_append, crate::proofs::PageLaws::written_field, crate::proofs::PageLaws::written_none))]
pub fn call_line(
    page: &mut Page,
    word: &[u8],
    signature: SigId,
    ty: &SqlType,
) -> Result<(), AllocError>
    ensures { OnOk result (page.new ≡ pages.written page.old (text.line word.now (names.signature_name signature ∷ type_text ty.now ∷ []) page.old.margin)) }
{
    page.open(word)?;
    page.word(signature_name(signature))?;
    page.ty(ty)?;
    page.close()
}

/// A Field: its place and its type.
#[tactic(auto, using(crate::proofs::PageLaws::written_append, crate::proofs::PageLaws::written_field, crate::proofs::PageLaws::written_none))]
pub fn field_line(page: &mut Page, place: usize, ty: &SqlType) -> Result<(), AllocError>
    ensures { OnOk result (page.new ≡ pages.written page.old (text.line (codes "Field") (numeral place ∷ type_text ty.now ∷ []) page.old.margin)) }
{
    page.open(b"Field")?;
    page.number(place as u64)?;
    page.ty(ty)?;
    page.close()
}

/// An Index: its form and its type.
#[tactic(auto, using(crate::proofs::PageLaws::written_append, crate::proofs::PageLaws::written_field, crate::proofs::PageLaws::written_none))]
pub fn index_line(page: &mut Page, form: IndexForm, ty: &SqlType) -> Result<(), AllocError>
    ensures { OnOk result (page.new ≡ pages.written page.old (text.line (codes "Index") (text.form_text form ∷ type_text ty.now ∷ []) page.old.margin)) }
{
    page.open(b"Index")?;
    page.word(form_word(form))?;
    page.ty(ty)?;
    page.close()
}

/// A subquery whose column is taken: its type, this column, and the columns of outer queries.
#[tactic(auto, using(crate::proofs::PageLaws::written_append, crate::proofs::PageLaws::written_field, crate::proofs::PageLaws::written_none))]
pub fn subquery_line(
    page: &mut Page,
    word: &[u8],
    ty: &SqlType,
    column: &ColumnRef,
    outer: &ColumnRefs,
) -> Result<(), AllocError>
    ensures { OnOk result (page.new ≡ pages.written page.old (text.line word.now (type_text ty.now ∷ text.ref_text column.now ∷ text.list_text text.ref_text outer.now ∷ []) page.old.margin)) }
{
    page.open(word)?;
    page.ty(ty)?;
    page.column(column)?;
    page.columns(outer)?;
    page.close()
}

/// An Exists: its type, and the columns of outer queries.
#[tactic(auto, using(crate::proofs::PageLaws::written_append, crate::proofs::PageLaws::written_field, crate::proofs::PageLaws::written_none))]
pub fn exists_line(page: &mut Page, ty: &SqlType, outer: &ColumnRefs) -> Result<(), AllocError>
    ensures { OnOk result (page.new ≡ pages.written page.old (text.line (codes "Exists") (type_text ty.now ∷ text.list_text text.ref_text outer.now ∷ []) page.old.margin)) }
{
    page.open(b"Exists")?;
    page.ty(ty)?;
    page.columns(outer)?;
    page.close()
}

/// A Table: its name, and the columns that it makes.
#[tactic(auto, using(crate::proofs::PageLaws::written_append, crate::proofs::PageLaws::written_field, crate::proofs::PageLaws::written_none))]
pub fn table_line(page: &mut Page, name: &Text, columns: &MadeColumns) -> Result<(), AllocError>
    ensures { OnOk result (page.new ≡ pages.written page.old (text.line (codes "Table") (quote_name name.now ∷ text.list_text text.made_text columns.now ∷ []) page.old.margin)) }
{
    page.open(b"Table")?;
    page.name(name)?;
    page.columns(columns)?;
    page.close()
}

/// A Cte: its number, and the columns that it gives.
#[tactic(auto, using(crate::proofs::PageLaws::written_append, crate::proofs::PageLaws::written_field, crate::proofs::PageLaws::written_none))]
pub fn cte_line(page: &mut Page, number: u64, columns: &ColumnRefs) -> Result<(), AllocError>
    ensures { OnOk result (page.new ≡ pages.written page.old (text.line (codes "Cte") (numeral number ∷ text.list_text text.ref_text columns.now ∷ []) page.old.margin)) }
{
    page.open(b"Cte")?;
    page.number(number)?;
    page.columns(columns)?;
    page.close()
}

/// A CteRef: the number, and the columns that it makes.
#[tactic(auto, using(crate::proofs::PageLaws::written_append, crate::proofs::PageLaws::written_field, crate::proofs::PageLaws::written_none))]
pub fn cte_ref_line(page: &mut Page, number: u64, columns: &MadeColumns) -> Result<(), AllocError>
    ensures { OnOk result (page.new ≡ pages.written page.old (text.line (codes "CteRef") (numeral number ∷ text.list_text text.made_text columns.now ∷ []) page.old.margin)) }
{
    page.open(b"CteRef")?;
    page.number(number)?;
    page.columns(columns)?;
    page.close()
}

/// An Unnest: its kind, the column of the elements, and that of their places, if there is one.
#[tactic(auto, using(crate::proofs::PageLaws::written_append, crate::proofs::PageLaws::written_field, crate::proofs::PageLaws::written_none))]
pub fn unnest_line(
    page: &mut Page,
    kind: UnnestKind,
    element: &MadeColumn,
    offset: &Option<MadeColumn>,
) -> Result<(), AllocError>
    ensures { OnOk result (page.new ≡ pages.written page.old (text.line (codes "Unnest") (text.unnest_text kind ∷ text.made_text element.now ∷ text.or_dash text.made_text offset.now ∷ []) page.old.margin)) }
{
    page.open(b"Unnest")?;
    page.word(unnest_word(kind))?;
    page.column(element)?;
    page.column(offset)?;
    page.close()
}

/// A Join: its kind.
#[tactic(auto, using(crate::proofs::PageLaws::written_append, crate::proofs::PageLaws::written_field, crate::proofs::PageLaws::written_none))]
pub fn join_line(page: &mut Page, kind: JoinKind) -> Result<(), AllocError>
    ensures { OnOk result (page.new ≡ pages.written page.old (text.line (codes "Join") (text.join_text kind ∷ []) page.old.margin)) }
{
    page.open(b"Join")?;
    page.word(join_word(kind))?;
    page.close()
}

/// A Project: the columns that it gives.
#[tactic(auto, using(crate::proofs::PageLaws::written_append, crate::proofs::PageLaws::written_field, crate::proofs::PageLaws::written_none))]
pub fn project_line(page: &mut Page, columns: &ColumnRefs) -> Result<(), AllocError>
    ensures { OnOk result (page.new ≡ pages.written page.old (text.line (codes "Project") (text.list_text text.ref_text columns.now ∷ []) page.old.margin)) }
{
    page.open(b"Project")?;
    page.columns(columns)?;
    page.close()
}

/// A Compute: the column that it makes.
#[tactic(auto, using(crate::proofs::PageLaws::written_append, crate::proofs::PageLaws::written_field, crate::proofs::PageLaws::written_none))]
pub fn compute_line(page: &mut Page, column: &MadeColumn) -> Result<(), AllocError>
    ensures { OnOk result (page.new ≡ pages.written page.old (text.line (codes "Compute") (text.made_text column.now ∷ []) page.old.margin)) }
{
    page.open(b"Compute")?;
    page.column(column)?;
    page.close()
}

/// An Output: the columns of the answer.
#[tactic(auto, using(crate::proofs::PageLaws::written_append, crate::proofs::PageLaws::written_field, crate::proofs::PageLaws::written_none))]
pub fn output_line(page: &mut Page, outputs: &Outputs) -> Result<(), AllocError>
    ensures { OnOk result (page.new ≡ pages.written page.old (text.line (codes "Output") (text.list_text text.output_text outputs.now ∷ []) page.old.margin)) }
{
    page.open(b"Output")?;
    page.columns(outputs)?;
    page.close()
}

fn join_word(kind: JoinKind) -> &'static [u8]
    ensures { result.now ≡ text.join_text kind }
{
    match kind {
        JoinKind::Cross => b"CROSS",
        JoinKind::Inner => b"INNER",
        JoinKind::Left => b"LEFT",
        JoinKind::Right => b"RIGHT",
        JoinKind::Full => b"FULL",
    }
}

fn unnest_word(kind: UnnestKind) -> &'static [u8]
    ensures { result.now ≡ text.unnest_text kind }
{
    match kind {
        UnnestKind::Inner => b"INNER",
        UnnestKind::Left => b"LEFT",
    }
}

fn form_word(form: IndexForm) -> &'static [u8]
    ensures { result.now ≡ text.form_text form }
{
    match form {
        IndexForm::Offset => b"OFFSET",
        IndexForm::Ordinal => b"ORDINAL",
        IndexForm::SafeOffset => b"SAFE_OFFSET",
        IndexForm::SafeOrdinal => b"SAFE_ORDINAL",
    }
}
