//! The lines of each sort of tree.
ghost use Rattle.std.specs.Prelude.{◌≡◌, IfOk, true};
ghost use Rattle.resolved_ast.specs.LiteralsFit.{RexFits, ScanFits};
ghost use Rattle.resolved_ast.specs.TreeText as text;

use crate::lines::{
    bare_line, call_line, column_line, cte_ref_line, exists_line, field_line, index_line,
    join_line, literal_line, output_line, parameter_line, project_line, subquery_line, table_line,
    typed_line, unnest_line,
};
use crate::page::Page;
use crate::rex::Rex;
use crate::scan::{Scan, Tree};
use crate::shown::{Shown, show_below};
use sql_types::Bytes;
use std::alloc::{AllocError, Global};

/// The text of a tree: one line a node, and below it, two spaces further in, the lines of its parts. Each Literal's value fits
/// its type. It takes time linear in the text.
pub fn tree_text(alloc: Global, tree: &Tree) -> Result<Bytes, AllocError>
    requires { ScanFits tree.now.scan ≡ true }
    ensures { IfOk result (λ bytes. bytes ≡ text.TreeText tree.now) }
{
    let mut page = Page::new(alloc);
    output_line(&mut page, &tree.outputs)?;
    show_below(&mut page, &tree.scan)?;
    Ok(page.finish())
}

impl Shown for Rex {
    ghost shown = { text.RexText };

    ghost fit = { RexFits };

    #[cycle(shown)]
    fn show(&self, page: &mut Page) -> Result<(), AllocError> {
        match self {
            Rex::Literal { value, ty } => literal_line(page, value, ty),
            Rex::Parameter { name, ty } => parameter_line(page, name, ty),
            Rex::Column { column, ty } => column_line(page, b"Column", column, ty),
            Rex::Outer { column, ty } => column_line(page, b"Outer", column, ty),
            Rex::Call {
                signature,
                ty,
                arguments,
            } => {
                call_line(page, b"Call", *signature, ty)?;
                show_below(page, arguments)
            }
            Rex::SafeCall {
                signature,
                ty,
                arguments,
            } => {
                call_line(page, b"SafeCall", *signature, ty)?;
                show_below(page, arguments)
            }
            Rex::Cast { ty, expr } => {
                typed_line(page, b"Cast", ty)?;
                show_below(page, expr)
            }
            Rex::SafeCast { ty, expr } => {
                typed_line(page, b"SafeCast", ty)?;
                show_below(page, expr)
            }
            Rex::If { ty, operands } => {
                typed_line(page, b"If", ty)?;
                show_below(page, operands)
            }
            Rex::Case { ty, operands } => {
                typed_line(page, b"Case", ty)?;
                show_below(page, operands)
            }
            Rex::Coalesce { ty, operands } => {
                typed_line(page, b"Coalesce", ty)?;
                show_below(page, operands)
            }
            Rex::And { ty, operands } => {
                typed_line(page, b"And", ty)?;
                show_below(page, operands)
            }
            Rex::Or { ty, operands } => {
                typed_line(page, b"Or", ty)?;
                show_below(page, operands)
            }
            Rex::IfError { ty, operands } => {
                typed_line(page, b"IfError", ty)?;
                show_below(page, operands)
            }
            Rex::IsError { ty, operands } => {
                typed_line(page, b"IsError", ty)?;
                show_below(page, operands)
            }
            Rex::NullIfError { ty, operands } => {
                typed_line(page, b"NullIfError", ty)?;
                show_below(page, operands)
            }
            Rex::Raise { ty, operands } => {
                typed_line(page, b"Raise", ty)?;
                show_below(page, operands)
            }
            Rex::InList { search, list } => {
                bare_line(page, b"InList")?;
                show_below(page, search)?;
                show_below(page, list)
            }
            Rex::InArray { search, array } => {
                bare_line(page, b"InArray")?;
                show_below(page, search)?;
                show_below(page, array)
            }
            Rex::Let { ty, bindings, expr } => {
                typed_line(page, b"Let", ty)?;
                show_below(page, bindings)?;
                show_below(page, expr)
            }
            Rex::MakeArray { ty, parts } => {
                typed_line(page, b"MakeArray", ty)?;
                show_below(page, parts)
            }
            Rex::MakeStruct { ty, parts } => {
                typed_line(page, b"MakeStruct", ty)?;
                show_below(page, parts)
            }
            Rex::Field { place, ty, expr } => {
                field_line(page, *place, ty)?;
                show_below(page, expr)
            }
            Rex::Index {
                form,
                ty,
                array,
                index,
            } => {
                index_line(page, *form, ty)?;
                show_below(page, array)?;
                show_below(page, index)
            }
            Rex::Scalar {
                ty,
                column,
                outer,
                scan,
            } => {
                subquery_line(page, b"Scalar", ty, column, outer)?;
                show_below(page, scan)
            }
            Rex::ArrayOf {
                ty,
                column,
                outer,
                scan,
            } => {
                subquery_line(page, b"ArrayOf", ty, column, outer)?;
                show_below(page, scan)
            }
            Rex::Exists { ty, outer, scan } => {
                exists_line(page, ty, outer)?;
                show_below(page, scan)
            }
            Rex::InQuery {
                ty,
                column,
                outer,
                search,
                scan,
            } => {
                subquery_line(page, b"InQuery", ty, column, outer)?;
                show_below(page, search)?;
                show_below(page, scan)
            }
        }
    }
}

impl Shown for Scan {
    ghost shown = { text.ScanText };

    ghost fit = { ScanFits };

    #[cycle(shown)]
    fn show(&self, page: &mut Page) -> Result<(), AllocError> {
        match self {
            Scan::Single => bare_line(page, b"Single"),
            Scan::Table { name, columns, .. } => table_line(page, name, columns),
            Scan::With { ctes, scan } => {
                bare_line(page, b"With")?;
                show_below(page, ctes)?;
                show_below(page, scan)
            }
            Scan::CteRef { number, columns } => cte_ref_line(page, *number, columns),
            Scan::Unnest {
                kind,
                element,
                offset,
                scan,
                array,
                condition,
            } => {
                unnest_line(page, *kind, element, offset)?;
                show_below(page, scan)?;
                show_below(page, array)?;
                show_below(page, condition)
            }
            Scan::Join {
                kind,
                left,
                right,
                condition,
            } => {
                join_line(page, *kind)?;
                show_below(page, left)?;
                show_below(page, right)?;
                show_below(page, condition)
            }
            Scan::Filter { scan, condition } => {
                bare_line(page, b"Filter")?;
                show_below(page, scan)?;
                show_below(page, condition)
            }
            Scan::Project {
                columns,
                scan,
                computed,
            } => {
                project_line(page, columns)?;
                show_below(page, scan)?;
                show_below(page, computed)
            }
        }
    }
}
