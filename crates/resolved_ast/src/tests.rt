//! The text of a whole tree.
ghost use Rattle.std.specs.Prelude.{◌≡◌, IfOk, true};
ghost use Rattle.sql_types.specs.Fits.{fits};
ghost use Rattle.resolved_ast.specs.LiteralsFit.{RexFits, ScanFits};

use crate::{
    ColumnId, ColumnRef, ColumnRefs, MadeColumn, MadeColumns, Output, Outputs, Rex, Scan, Tree,
    tree_text,
};
use sql_builtins::SigId;
use sql_types::{Boxed, Items, SqlType, Text, Value};
use std::alloc::{AllocError, Global};
use std::test::Fail;

fn named(alloc: Global, name: &str) -> Result<Option<Text>, AllocError> {
    Ok(Some(Text::copy_of(alloc, name)?))
}

/// The column a of the table t.
fn column(alloc: Global) -> Result<ColumnRef, AllocError> {
    Ok(ColumnRef {
        name: named(alloc, "a")?,
        id: ColumnId(1),
    })
}

fn made_columns(alloc: Global) -> Result<MadeColumns, AllocError> {
    let mut columns = Items::new(alloc);
    columns.push(MadeColumn {
        name: named(alloc, "a")?,
        id: ColumnId(1),
        ty: SqlType::Int64,
    })?;
    columns.push(MadeColumn {
        name: named(alloc, "b")?,
        id: ColumnId(2),
        ty: SqlType::Text,
    })?;
    Ok(columns)
}

#[tactic(auto, using(crate::proofs::TestFits::fits_column))]
fn column_node(alloc: Global) -> Result<Rex, AllocError>
    ensures { IfOk result (λ x. RexFits x ≡ true) }
{
    Ok(Rex::Column {
        column: column(alloc)?,
        ty: SqlType::Int64,
    })
}

#[tactic(auto, using(crate::proofs::TestFits::fits_literal))]
fn literal_node(value: Value, ty: SqlType) -> Rex
    requires { fits ty value ≡ true }
    ensures { RexFits result ≡ true }
{
    Rex::Literal { value, ty }
}

#[tactic(auto, using(crate::proofs::TestFits::fits_call))]
fn equal_node(alloc: Global, left: Rex, right: Rex) -> Result<Rex, AllocError>
    requires left { RexFits left ≡ true }
    requires right { RexFits right ≡ true }
    ensures { IfOk result (λ x. RexFits x ≡ true) }
{
    let mut arguments = Items::new(alloc);
    arguments.push(left)?;
    arguments.push(right)?;
    Ok(Rex::Call {
        signature: SigId::Equal,
        ty: SqlType::Bool,
        arguments,
    })
}

#[tactic(auto, using(crate::proofs::TestFits::fits_table))]
fn table_node(alloc: Global) -> Result<Scan, AllocError>
    ensures { IfOk result (λ x. ScanFits x ≡ true) }
{
    Ok(Scan::Table {
        name: Text::copy_of(alloc, "t")?,
        number: 0,
        columns: made_columns(alloc)?,
    })
}

#[tactic(auto, using(crate::proofs::TestFits::fits_filter))]
fn filter_node(alloc: Global, scan: Scan, condition: Rex) -> Result<Scan, AllocError>
    requires scan { ScanFits scan ≡ true }
    requires condition { RexFits condition ≡ true }
    ensures { IfOk result (λ x. ScanFits x ≡ true) }
{
    Ok(Scan::Filter {
        scan: Boxed::new(alloc, scan)?,
        condition: Boxed::new(alloc, condition)?,
    })
}

#[tactic(auto, using(crate::proofs::TestFits::fits_project))]
fn project_node(alloc: Global, columns: ColumnRefs, scan: Scan) -> Result<Scan, AllocError>
    requires { ScanFits scan ≡ true }
    ensures { IfOk result (λ x. ScanFits x ≡ true) }
{
    Ok(Scan::Project {
        columns,
        scan: Boxed::new(alloc, scan)?,
        computed: Items::new(alloc),
    })
}

fn outputs(alloc: Global) -> Result<Outputs, AllocError> {
    let mut outputs = Items::new(alloc);
    outputs.push(Output {
        name: named(alloc, "a")?,
        column: column(alloc)?,
        ty: SqlType::Int64,
    })?;
    Ok(outputs)
}

/// SELECT a FROM t WHERE a = 2
#[tactic(auto, using(crate::proofs::TestFits::fits_two))]
#[test]
fn the_seven_lines(rt: HostRuntime) -> Result<(), Fail> {
    let alloc = rt.alloc();
    let two = literal_node(Value::Int(2), SqlType::Int64);
    let condition = equal_node(alloc, column_node(alloc)?, two)?;
    let filter = filter_node(alloc, table_node(alloc)?, condition)?;
    let mut columns = Items::new(alloc);
    columns.push(column(alloc)?)?;
    let tree = Tree {
        scan: project_node(alloc, columns, filter)?,
        outputs: outputs(alloc)?,
    };
    let text = tree_text(alloc, &tree)?;
    assert_eq!(rt;
        text.as_slice(),
        b"Output [a=a#1 INT64]
  Project [a#1]
    Filter
      Table t [a#1 INT64, b#2 STRING]
      Call eq BOOL
        Column a#1 INT64
        Literal 2 INT64
"
            .as_slice()
    );
    Ok(())
}
