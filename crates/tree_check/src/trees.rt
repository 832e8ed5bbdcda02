//! The check of each sort of tree.
ghost use Rattle.resolved_ast.specs.Flaws.{RexWalk, ScanWalk};

use crate::calls::call_order;
use crate::finding::sees_typed;
use crate::nodes::{
    above, above_bindings, above_both, above_elements, above_pairs, above_query, above_rows,
    above_search, leaf,
};
use crate::order::{by_sight, by_type, by_types};
use crate::part::Part;
use crate::progress::{Made, Progress};
use crate::refusal::CheckRefusal;
use crate::sight::InSight;
use crate::subqueries::{subquery, takes_element, takes_same, takes_sought};
use crate::typing::{
    array_coerces, array_typed, can_compare, cast_typed, choice_typed, condition_shaped,
    condition_typed, count_is, field_typed, if_typed, index_typed, is_bool, is_of_type,
    list_shaped, list_typed, parts_typed, raise_typed, several, some_part, struct_shaped,
    struct_typed, truths_typed, unnest_typed,
};
use crate::with_nodes::{above_ctes, check_reference};
use resolved_ast::{Rex, Scan};
use sql_types::{SqlType, fits};
use std::alloc::Global;

impl Part for Rex {
    ghost walk = { RexWalk };

    #[cycle(trees)]
    fn check(
        &self,
        alloc: Global,
        sight: &InSight,
        progress: &mut Progress,
    ) -> Result<(), CheckRefusal> {
        match self {
            Rex::Literal { value, ty } => leaf(by_type(fits(value, ty)), progress),
            Rex::Parameter { .. } => leaf(by_type(true), progress),
            Rex::Column { column, ty } => {
                leaf(by_sight(sees_typed(column, ty, sight.inner)), progress)
            }
            Rex::Outer { column, ty } => {
                leaf(by_sight(sees_typed(column, ty, sight.outer)), progress)
            }
            Rex::Call {
                signature,
                ty,
                arguments,
            } => {
                let order = call_order(alloc, *signature, ty, arguments)?;
                above(alloc, order, arguments, sight, progress)
            }
            Rex::SafeCall {
                signature,
                ty,
                arguments,
            } => {
                let order = call_order(alloc, *signature, ty, arguments)?;
                above(alloc, order, arguments, sight, progress)
            }
            Rex::Cast { ty, expr } => {
                above(alloc, by_type(cast_typed(ty, expr)), expr, sight, progress)
            }
            Rex::SafeCast { ty, expr } => {
                above(alloc, by_type(cast_typed(ty, expr)), expr, sight, progress)
            }
            Rex::If { ty, operands } => {
                let order = by_types(if_typed(ty, operands), count_is(operands, 3));
                above(alloc, order, operands, sight, progress)
            }
            Rex::Case { ty, operands } => {
                let order = by_types(choice_typed(ty, operands), several(operands));
                above(alloc, order, operands, sight, progress)
            }
            Rex::Coalesce { ty, operands } => {
                let order = by_types(parts_typed(ty, operands), some_part(operands));
                above(alloc, order, operands, sight, progress)
            }
            Rex::And { ty, operands } => {
                let order = by_types(truths_typed(ty, operands), some_part(operands));
                above(alloc, order, operands, sight, progress)
            }
            Rex::Or { ty, operands } => {
                let order = by_types(truths_typed(ty, operands), some_part(operands));
                above(alloc, order, operands, sight, progress)
            }
            Rex::IfError { ty, operands } => {
                let order = by_types(parts_typed(ty, operands), count_is(operands, 2));
                above(alloc, order, operands, sight, progress)
            }
            Rex::IsError { ty, operands } => {
                let order = by_types(is_bool(ty), count_is(operands, 1));
                above(alloc, order, operands, sight, progress)
            }
            Rex::NullIfError { ty, operands } => {
                let order = by_types(parts_typed(ty, operands), count_is(operands, 1));
                above(alloc, order, operands, sight, progress)
            }
            Rex::Raise { operands, .. } => {
                let order = by_types(raise_typed(operands), count_is(operands, 1));
                above(alloc, order, operands, sight, progress)
            }
            Rex::InList { search, list } => {
                let order = by_types(list_typed(search, list), list_shaped(search, list));
                above_both(alloc, order, search, list, sight, progress)
            }
            Rex::InArray { search, array } => {
                let order = by_types(array_coerces(search, array), can_compare(search));
                above_both(alloc, order, search, array, sight, progress)
            }
            Rex::Let { ty, bindings, expr } => {
                let order = by_type(is_of_type(ty, expr));
                above_bindings(alloc, order, bindings, expr, sight, progress)
            }
            Rex::MakeArray { ty, parts } => {
                above(
                    alloc,
                    by_type(array_typed(ty, parts)),
                    parts,
                    sight,
                    progress,
                )
            }
            Rex::MakeStruct { ty, parts } => {
                let order = by_types(struct_typed(ty, parts), struct_shaped(ty, parts));
                above(alloc, order, parts, sight, progress)
            }
            Rex::Field { place, ty, expr } => {
                let order = by_type(field_typed(*place, ty, expr));
                above(alloc, order, expr, sight, progress)
            }
            Rex::Index {
                ty,
                array,
                index,
                ..
            } => {
                let order = by_type(index_typed(ty, array, index));
                above_both(alloc, order, array, index, sight, progress)
            }
            Rex::Scalar {
                ty,
                column,
                outer,
                scan,
            } => {
                let order = subquery(alloc, takes_same(ty, column, scan), outer, scan, sight)?;
                above_query(alloc, order, scan, sight, progress)
            }
            Rex::ArrayOf {
                ty,
                column,
                outer,
                scan,
            } => {
                let order = subquery(alloc, takes_element(ty, column, scan), outer, scan, sight)?;
                above_query(alloc, order, scan, sight, progress)
            }
            Rex::Exists { ty, outer, scan } => {
                let order = subquery(alloc, by_type(is_bool(ty)), outer, scan, sight)?;
                above_query(alloc, order, scan, sight, progress)
            }
            Rex::InQuery {
                ty,
                column,
                outer,
                search,
                scan,
            } => {
                let takes = takes_sought(ty, column, search, scan);
                let order = subquery(alloc, takes, outer, scan, sight)?;
                above_search(alloc, order, search, scan, sight, progress)
            }
        }
    }
}

impl Part for Scan {
    ghost walk = { ScanWalk };

    #[cycle(trees)]
    fn check(
        &self,
        alloc: Global,
        sight: &InSight,
        progress: &mut Progress,
    ) -> Result<(), CheckRefusal> {
        match self {
            Scan::Single => leaf(by_type(true), progress),
            Scan::Table { columns, .. } => {
                progress.pass(by_type(true), Made::Listed(columns.as_slice()))
            }
            Scan::With { ctes, scan } => {
                above_ctes(alloc, by_type(true), ctes, scan, sight, progress)
            }
            Scan::CteRef { number, columns } => {
                check_reference(alloc, *number, columns, sight, progress)
            }
            Scan::Unnest {
                element,
                offset,
                scan,
                array,
                condition,
                ..
            } => {
                let order = by_type(unnest_typed(element, offset, array, condition));
                above_elements(
                    alloc, order, element, offset, scan, array, condition, sight, progress,
                )
            }
            Scan::Join {
                kind,
                left,
                right,
                condition,
            } => {
                let typed = condition_typed(condition);
                let order = by_types(typed, condition_shaped(*kind, condition));
                above_pairs(alloc, order, left, right, condition, sight, progress)
            }
            Scan::Filter { scan, condition } => {
                let order = by_type(is_of_type(&SqlType::Bool, condition));
                above_rows(alloc, order, scan, condition, sight, progress)
            }
            Scan::Project {
                columns,
                scan,
                computed,
            } => {
                let order = by_sight(crate::finding::all_listed(columns, scan.get(), computed));
                above_rows(alloc, order, scan, computed, sight, progress)
            }
        }
    }
}
