//! References to columns, and the columns that they name.
ghost use Rattle.std.specs.Prelude.{◌≡◌, ◌&&◌, [], ◌∷◌, option_copied};
ghost use Rattle.sql_types.specs.SameType.{same_label};
ghost use Rattle.resolved_ast.specs.Columns.{computed_columns, is_named};
ghost use Rattle.resolved_ast.specs.Parts.{there};
ghost use Rattle.tree_check.specs.Named.{first_such, names, or_else, refers, where_so};
ghost use Rattle.tree_check.specs.Tests.{passes};

use crate::asked::{self, Asked};
use resolved_ast::{ColumnRef, Compute, MadeColumn, Rex};
use sql_types::Text;

/// Whether two labels are the same.
fn same_label(left: &Option<Text>, right: &Option<Text>) -> bool
    ensures { result ≡ same_label left.now right.now }
{
    match left {
        None => right.is_none(),
        Some(name) => match right {
            None => false,
            Some(other) => name.as_bytes() == other.as_bytes(),
        },
    }
}

/// Whether a column is the one that is referred to.
fn is_named(wanted: &ColumnRef, column: &MadeColumn) -> bool
    ensures { result ≡ is_named wanted.now column.now }
{
    wanted.id.0 == column.id.0 && same_label(&wanted.name, &column.name)
}

/// Whether two references are to one column.
fn refers(wanted: &ColumnRef, other: &ColumnRef) -> bool
    ensures { result ≡ refers wanted.now other.now }
{
    wanted.id.0 == other.id.0 && same_label(&wanted.name, &other.name)
}

/// Whether a list names a column.
pub fn names(wanted: &ColumnRef, list: &[ColumnRef]) -> bool
    ensures { result ≡ names wanted.now list.now }
{
    for other in list {
        if refers(wanted, other) {
            return true;
        }
    }
    false
}

/// Whether a column is the one that is referred to, of a type that is asked for.
fn is_such(wanted: &ColumnRef, asked: &Asked, column: &MadeColumn) -> bool
    ensures { result ≡ (is_named wanted.now column.now && passes asked.now column.now.ty) }
{
    is_named(wanted, column) && asked::passes(asked, &column.ty)
}

pub fn such<'a>(wanted: &ColumnRef, asked: &Asked, column: &'a MadeColumn) -> Option<&'a MadeColumn>
    ensures { option_copied result ≡ first_such wanted.now (passes asked.now) (column.now ∷ []) }
{
    if is_such(wanted, asked, column) {
        Some(column)
    } else {
        None
    }
}

pub fn such_there<'a>(
    wanted: &ColumnRef,
    asked: &Asked,
    column: &'a Option<MadeColumn>,
) -> Option<&'a MadeColumn>
    ensures { option_copied result ≡ first_such wanted.now (passes asked.now) (there column.now) }
{
    match column {
        None => None,
        Some(column) => such(wanted, asked, column),
    }
}

pub fn such_of<'a>(
    wanted: &ColumnRef,
    asked: &Asked,
    columns: &'a [MadeColumn],
) -> Option<&'a MadeColumn>
    ensures { option_copied result ≡ first_such wanted.now (passes asked.now) columns.now }
{
    for column in columns {
        if is_such(wanted, asked, column) {
            return Some(column);
        }
    }
    None
}

pub fn such_computed<'a>(
    wanted: &ColumnRef,
    asked: &Asked,
    computed: &'a [Compute<Rex>],
) -> Option<&'a MadeColumn>
    ensures { option_copied result ≡ first_such wanted.now (passes asked.now) (computed_columns computed.now) }
{
    for compute in computed {
        if is_such(wanted, asked, &compute.column) {
            return Some(&compute.column);
        }
    }
    None
}

pub fn such_made<'a>(
    wanted: &ColumnRef,
    asked: &Asked,
    element: &'a MadeColumn,
    offset: &'a Option<MadeColumn>,
) -> Option<&'a MadeColumn>
    ensures { option_copied result ≡ first_such wanted.now (passes asked.now) (element.now ∷ there offset.now) }
{
    if is_such(wanted, asked, element) {
        Some(element)
    } else {
        such_there(wanted, asked, offset)
    }
}

/// The first, or else the second.
pub fn or_else<'a>(
    first: Option<&'a MadeColumn>,
    second: Option<&'a MadeColumn>,
) -> Option<&'a MadeColumn>
    ensures { option_copied result ≡ or_else (option_copied first.entry) (option_copied second.entry) }
{
    match first {
        Some(column) => Some(column),
        None => second,
    }
}

pub fn where_so(holds: bool, found: Option<&MadeColumn>) -> Option<&MadeColumn>
    ensures { option_copied result ≡ where_so holds (option_copied found.entry) }
{
    if holds { found } else { None }
}
