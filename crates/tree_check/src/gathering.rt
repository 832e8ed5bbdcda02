//! The numbers of the columns that a part of a tree uses or makes, in the order of the tree's text.
ghost use Rattle.std.specs.Prelude.{◌≡◌, ◌++◌, [], ◌∷◌, OnOk, List, ℕ, map};
ghost use Rattle.resolved_ast.specs.Columns.{computed_columns, ids_of, numbers};
ghost use Rattle.resolved_ast.specs.Parts.{there, together};
ghost use Rattle.tree_check.specs.Gathered.{made, used};

use resolved_ast::{ColumnRef, ColumnRefs, Compute, Cte, MadeColumn, MadeColumns};
use sql_types::{Boxed, Items};
use std::alloc::AllocError;

/// Which numbers are gathered.
#[derive(Clone, Copy)]
pub enum Gathering {
    /// Those of the columns that are used.
    Uses,
    /// Those of the columns that are made.
    Makes,
}

/// A part of a tree with its columns.
pub trait Gather {
    ghost use Rattle.tree_check.specs.declared.gathering.Gathering.{Gathering};

    // The numbers.
    ghost numbers: { Gathering → Self → List ℕ };

    /// Writes the numbers down, in time linear in the part.
    fn gather(&self, what: Gathering, out: &mut Vec<u64>) -> Result<(), AllocError>
        ensures { OnOk result (out.new.items ≡ out.old.items ++ numbers what self.now) };
}

impl<P: Gather> Gather for Boxed<P> {
    ghost numbers = { λ what part. P.numbers what part };

    fn gather(&self, what: Gathering, out: &mut Vec<u64>) -> Result<(), AllocError> {
        self.get().gather(what, out)
    }
}

impl<P: Gather> Gather for Option<P> {
    ghost numbers = { λ what part. together (map (P.numbers what) (there part)) };

    fn gather(&self, what: Gathering, out: &mut Vec<u64>) -> Result<(), AllocError> {
        match self {
            None => Ok(()),
            Some(part) => part.gather(what, out),
        }
    }
}

/// One part after another.
impl<P: Gather> Gather for Items<P> {
    ghost numbers = { λ what parts. together (map (P.numbers what) parts) };

    fn gather(&self, what: Gathering, out: &mut Vec<u64>) -> Result<(), AllocError> {
        gather_all(self.as_slice(), what, out)
    }
}

fn gather_all<P: Gather>(parts: &[P], what: Gathering, out: &mut Vec<u64>) -> Result<(), AllocError>
    ensures { OnOk result (out.new.items ≡ out.old.items ++ together (map (P.numbers what) parts.now)) }
{
    for part in parts {
        part.gather(what, out)?;
    }
    Ok(())
}

impl<R: Gather> Gather for Compute<R> {
    ghost numbers = { λ what c. R.numbers what c.expr };

    fn gather(&self, what: Gathering, out: &mut Vec<u64>) -> Result<(), AllocError> {
        self.expr.gather(what, out)
    }
}

impl<S: Gather> Gather for Cte<S> {
    ghost numbers = { λ what c. S.numbers what c.scan };

    fn gather(&self, what: Gathering, out: &mut Vec<u64>) -> Result<(), AllocError> {
        self.scan.gather(what, out)
    }
}

/// A column that is used.
pub fn used_column(
    column: &ColumnRef,
    what: Gathering,
    out: &mut Vec<u64>,
) -> Result<(), AllocError>
    ensures { OnOk result (out.new.items ≡ out.old.items ++ used what (column.now.id.0 ∷ [])) }
{
    match what {
        Gathering::Uses => {
            out.push(column.id.0)?;
            Ok(())
        }
        Gathering::Makes => Ok(()),
    }
}

/// Columns that are used.
pub fn used_columns(
    columns: &ColumnRefs,
    what: Gathering,
    out: &mut Vec<u64>,
) -> Result<(), AllocError>
    ensures { OnOk result (out.new.items ≡ out.old.items ++ used what (ids_of columns.now)) }
{
    match what {
        Gathering::Uses => write_used(columns.as_slice(), out),
        Gathering::Makes => Ok(()),
    }
}

fn write_used(columns: &[ColumnRef], out: &mut Vec<u64>) -> Result<(), AllocError>
    ensures { OnOk result (out.new.items ≡ out.old.items ++ ids_of columns.now) }
{
    for column in columns {
        out.push(column.id.0)?;
    }
    Ok(())
}

/// Columns that are made.
pub fn made_columns(
    columns: &MadeColumns,
    what: Gathering,
    out: &mut Vec<u64>,
) -> Result<(), AllocError>
    ensures { OnOk result (out.new.items ≡ out.old.items ++ made what (numbers columns.now)) }
{
    match what {
        Gathering::Uses => Ok(()),
        Gathering::Makes => write_made(columns.as_slice(), out),
    }
}

fn write_made(columns: &[MadeColumn], out: &mut Vec<u64>) -> Result<(), AllocError>
    ensures { OnOk result (out.new.items ≡ out.old.items ++ numbers columns.now) }
{
    for column in columns {
        out.push(column.id.0)?;
    }
    Ok(())
}

/// The columns of an UNNEST.
pub fn made_element(
    element: &MadeColumn,
    offset: &Option<MadeColumn>,
    what: Gathering,
    out: &mut Vec<u64>,
) -> Result<(), AllocError>
    ensures { OnOk result (out.new.items ≡ out.old.items ++ made what (numbers (element.now ∷ there offset.now))) }
{
    match what {
        Gathering::Uses => Ok(()),
        Gathering::Makes => {
            out.push(element.id.0)?;
            write_offset(offset, out)
        }
    }
}

fn write_offset(offset: &Option<MadeColumn>, out: &mut Vec<u64>) -> Result<(), AllocError>
    ensures { OnOk result (out.new.items ≡ out.old.items ++ numbers (there offset.now)) }
{
    match offset {
        None => Ok(()),
        Some(offset) => {
            out.push(offset.id.0)?;
            Ok(())
        }
    }
}

/// Columns that are computed.
pub fn made_computed<R>(
    computed: &Items<Compute<R>>,
    what: Gathering,
    out: &mut Vec<u64>,
) -> Result<(), AllocError>
    ensures { OnOk result (out.new.items ≡ out.old.items ++ made what (numbers (computed_columns computed.now))) }
{
    match what {
        Gathering::Uses => Ok(()),
        Gathering::Makes => write_computed(computed.as_slice(), out),
    }
}

fn write_computed<R>(computed: &[Compute<R>], out: &mut Vec<u64>) -> Result<(), AllocError>
    ensures { OnOk result (out.new.items ≡ out.old.items ++ numbers (computed_columns computed.now)) }
{
    for compute in computed {
        out.push(compute.column.id.0)?;
    }
    Ok(())
}
