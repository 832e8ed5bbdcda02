//! The numbers that each sort of tree uses or makes.
ghost use Rattle.tree_check.specs.Gathered.{RexNumbers, ScanNumbers};

use crate::gathering::{
    Gather, Gathering, made_columns, made_computed, made_element, used_column, used_columns,
};
use resolved_ast::{Rex, Scan};
use std::alloc::AllocError;

impl Gather for Rex {
    ghost numbers = { RexNumbers };

    #[cycle(gathered)]
    fn gather(&self, what: Gathering, out: &mut Vec<u64>) -> Result<(), AllocError> {
        match self {
            Rex::Literal { .. } => Ok(()),
            Rex::Parameter { .. } => Ok(()),
            Rex::Column { column, .. } => used_column(column, what, out),
            Rex::Outer { column, .. } => used_column(column, what, out),
            Rex::Call { arguments, .. } => arguments.gather(what, out),
            Rex::SafeCall { arguments, .. } => arguments.gather(what, out),
            Rex::Cast { expr, .. } => expr.gather(what, out),
            Rex::SafeCast { expr, .. } => expr.gather(what, out),
            Rex::If { operands, .. } => operands.gather(what, out),
            Rex::Case { operands, .. } => operands.gather(what, out),
            Rex::Coalesce { operands, .. } => operands.gather(what, out),
            Rex::And { operands, .. } => operands.gather(what, out),
            Rex::Or { operands, .. } => operands.gather(what, out),
            Rex::IfError { operands, .. } => operands.gather(what, out),
            Rex::IsError { operands, .. } => operands.gather(what, out),
            Rex::NullIfError { operands, .. } => operands.gather(what, out),
            Rex::Raise { operands, .. } => operands.gather(what, out),
            Rex::InList { search, list } => {
                search.gather(what, out)?;
                list.gather(what, out)
            }
            Rex::InArray { search, array } => {
                search.gather(what, out)?;
                array.gather(what, out)
            }
            Rex::Let { bindings, expr, .. } => {
                made_computed(bindings, what, out)?;
                bindings.gather(what, out)?;
                expr.gather(what, out)
            }
            Rex::MakeArray { parts, .. } => parts.gather(what, out),
            Rex::MakeStruct { parts, .. } => parts.gather(what, out),
            Rex::Field { expr, .. } => expr.gather(what, out),
            Rex::Index { array, index, .. } => {
                array.gather(what, out)?;
                index.gather(what, out)
            }
            Rex::Scalar { outer, scan, .. } => {
                used_columns(outer, what, out)?;
                scan.gather(what, out)
            }
            Rex::ArrayOf { outer, scan, .. } => {
                used_columns(outer, what, out)?;
                scan.gather(what, out)
            }
            Rex::Exists { outer, scan, .. } => {
                used_columns(outer, what, out)?;
                scan.gather(what, out)
            }
            Rex::InQuery {
                outer,
                search,
                scan,
                ..
            } => {
                used_columns(outer, what, out)?;
                search.gather(what, out)?;
                scan.gather(what, out)
            }
        }
    }
}

impl Gather for Scan {
    ghost numbers = { ScanNumbers };

    #[cycle(gathered)]
    fn gather(&self, what: Gathering, out: &mut Vec<u64>) -> Result<(), AllocError> {
        match self {
            Scan::Single => Ok(()),
            Scan::Table { columns, .. } => made_columns(columns, what, out),
            Scan::With { ctes, scan } => {
                ctes.gather(what, out)?;
                scan.gather(what, out)
            }
            Scan::CteRef { columns, .. } => made_columns(columns, what, out),
            Scan::Unnest {
                element,
                offset,
                scan,
                array,
                condition,
                ..
            } => {
                made_element(element, offset, what, out)?;
                scan.gather(what, out)?;
                array.gather(what, out)?;
                condition.gather(what, out)
            }
            Scan::Join {
                left,
                right,
                condition,
                ..
            } => {
                left.gather(what, out)?;
                right.gather(what, out)?;
                condition.gather(what, out)
            }
            Scan::Filter { scan, condition } => {
                scan.gather(what, out)?;
                condition.gather(what, out)
            }
            Scan::Project { scan, computed, .. } => {
                made_computed(computed, what, out)?;
                scan.gather(what, out)?;
                computed.gather(what, out)
            }
        }
    }
}
