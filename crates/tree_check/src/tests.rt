//! Trees with the first flaws that the rules give them. Nodes are numbered from 0, in the order of the tree's text.
use crate::{CheckRefusal, check};
use resolved_ast::{
    ColumnId, ColumnRef, ColumnRefs, Compute, Cte, FlawKind, MadeColumn, MadeColumns, Output,
    Outputs, Rex, Scan, Tree, UnnestKind,
};
use sql_ast::IndexForm;
use sql_builtins::SigId;
use sql_types::{Boxed, Items, JoinKind, SqlType, Text, Value};
use std::alloc::{AllocError, Global};
use std::test::Fail;

type Flawed = Option<(u64, FlawKind)>;

fn named(alloc: Global, name: &str) -> Result<Option<Text>, AllocError> {
    Ok(Some(Text::copy_of(alloc, name)?))
}

fn column(alloc: Global, id: u64) -> Result<ColumnRef, AllocError> {
    Ok(ColumnRef {
        name: named(alloc, "a")?,
        id: ColumnId(id),
    })
}

fn one(alloc: Global, id: u64) -> Result<ColumnRefs, AllocError> {
    let mut columns = Items::new(alloc);
    columns.push(column(alloc, id)?)?;
    Ok(columns)
}

fn made(alloc: Global, id: u64, ty: SqlType) -> Result<MadeColumn, AllocError> {
    Ok(MadeColumn {
        name: named(alloc, "a")?,
        id: ColumnId(id),
        ty,
    })
}

fn both_made(alloc: Global, id: u64, other: u64) -> Result<MadeColumns, AllocError> {
    let mut columns = Items::new(alloc);
    columns.push(made(alloc, id, SqlType::Int64)?)?;
    columns.push(made(alloc, other, SqlType::Text)?)?;
    Ok(columns)
}

fn outputs(alloc: Global) -> Result<Outputs, AllocError> {
    let mut outputs = Items::new(alloc);
    outputs.push(Output {
        name: named(alloc, "a")?,
        column: column(alloc, 1)?,
        ty: SqlType::Int64,
    })?;
    Ok(outputs)
}

fn table(alloc: Global, id: u64, other: u64) -> Result<Scan, AllocError> {
    Ok(Scan::Table {
        name: Text::copy_of(alloc, "t")?,
        number: 0,
        columns: both_made(alloc, id, other)?,
    })
}

fn filter(alloc: Global, scan: Scan, condition: Rex) -> Result<Scan, AllocError> {
    Ok(Scan::Filter {
        scan: Boxed::new(alloc, scan)?,
        condition: Boxed::new(alloc, condition)?,
    })
}

fn project(alloc: Global, id: u64, scan: Scan) -> Result<Scan, AllocError> {
    Ok(Scan::Project {
        columns: one(alloc, id)?,
        scan: Boxed::new(alloc, scan)?,
        computed: Items::new(alloc),
    })
}

/// The first flaw of Output over a scan; None where there is none or memory ran out.
fn scan_flaw(alloc: Global, scan: Scan) -> Result<Flawed, AllocError> {
    let tree = Tree {
        scan,
        outputs: outputs(alloc)?,
    };
    Ok(match check(alloc, tree) {
        Ok(_) => None,
        Err(CheckRefusal::Flaw { place, kind }) => Some((place, kind)),
        Err(CheckRefusal::OutOfMemory) => None,
    })
}

/// That of Output, Project, Filter, the Table with the columns 1 and 2, and as node 4 the condition.
fn flaw(alloc: Global, condition: Rex) -> Result<Flawed, AllocError> {
    let filter = filter(alloc, table(alloc, 1, 2)?, condition)?;
    scan_flaw(alloc, project(alloc, 1, filter)?)
}

fn part(alloc: Global, part: Rex) -> Result<Items<Rex>, AllocError> {
    let mut parts = Items::new(alloc);
    parts.push(part)?;
    Ok(parts)
}

fn parts(alloc: Global, first: Rex, second: Rex) -> Result<Items<Rex>, AllocError> {
    let mut parts = part(alloc, first)?;
    parts.push(second)?;
    Ok(parts)
}

/// The same with an expression of any type, as node 5 below IsError.
fn flaw_below(alloc: Global, expr: Rex) -> Result<Flawed, AllocError> {
    let condition = Rex::IsError {
        ty: SqlType::Bool,
        operands: part(alloc, expr)?,
    };
    flaw(alloc, condition)
}

fn seen(alloc: Global, id: u64) -> Result<Rex, AllocError> {
    Ok(Rex::Column {
        column: column(alloc, id)?,
        ty: SqlType::Int64,
    })
}

fn two() -> Rex {
    Rex::Literal {
        value: Value::Int(2),
        ty: SqlType::Int64,
    }
}

fn truth() -> Rex {
    Rex::Literal {
        value: Value::Bool(true),
        ty: SqlType::Bool,
    }
}

fn call(signature: SigId, ty: SqlType, arguments: Items<Rex>) -> Rex {
    Rex::Call {
        signature,
        ty,
        arguments,
    }
}

#[test]
fn the_seven_lines(rt: HostRuntime) -> Result<(), Fail> {
    let alloc = rt.alloc();
    let equal = call(
        SigId::Equal,
        SqlType::Bool,
        parts(alloc, seen(alloc, 1)?, two())?,
    );
    assert_eq!(rt; flaw(alloc, equal)?, None);
    Ok(())
}

#[test]
fn columns_and_calls(rt: HostRuntime) -> Result<(), Fail> {
    let alloc = rt.alloc();
    // a column that nobody makes, and one of this query as one of an outer query
    assert_eq!(rt;
        flaw_below(alloc, seen(alloc, 9)?)?,
        Some((5, FlawKind::Unseen))
    );
    let outer = Rex::Outer {
        column: column(alloc, 1)?,
        ty: SqlType::Int64,
    };
    assert_eq!(rt; flaw_below(alloc, outer)?, Some((5, FlawKind::Unseen)));
    // a value that doesn't fit its type
    let unfit = Rex::Literal {
        value: Value::Int(2),
        ty: SqlType::Text,
    };
    assert_eq!(rt; flaw_below(alloc, unfit)?, Some((5, FlawKind::Typing)));
    // a condition that isn't BOOL is a flaw of the Filter
    assert_eq!(rt; flaw(alloc, two())?, Some((2, FlawKind::Typing)));
    // a call of other types than its row's, and one with too few arguments
    let mixed = call(
        SigId::Equal,
        SqlType::Bool,
        parts(alloc, seen(alloc, 1)?, truth())?,
    );
    assert_eq!(rt; flaw(alloc, mixed)?, Some((4, FlawKind::Typing)));
    let short = call(SigId::Equal, SqlType::Bool, part(alloc, two())?);
    assert_eq!(rt; flaw(alloc, short)?, Some((4, FlawKind::Shape)));
    let safe = Rex::SafeCall {
        signature: SigId::Abs,
        ty: SqlType::Text,
        arguments: part(alloc, two())?,
    };
    assert_eq!(rt; flaw_below(alloc, safe)?, Some((5, FlawKind::Typing)));
    Ok(())
}

#[test]
fn casts_and_choices(rt: HostRuntime) -> Result<(), Fail> {
    let alloc = rt.alloc();
    // an INT64 is no DATE
    let cast = Rex::Cast {
        ty: SqlType::Date,
        expr: Boxed::new(alloc, two())?,
    };
    assert_eq!(rt; flaw_below(alloc, cast)?, Some((5, FlawKind::Typing)));
    let safe = Rex::SafeCast {
        ty: SqlType::Date,
        expr: Boxed::new(alloc, two())?,
    };
    assert_eq!(rt; flaw_below(alloc, safe)?, Some((5, FlawKind::Typing)));
    // an IF of two operands, and a CASE of one
    let short = Rex::If {
        ty: SqlType::Int64,
        operands: parts(alloc, truth(), two())?,
    };
    assert_eq!(rt; flaw_below(alloc, short)?, Some((5, FlawKind::Shape)));
    let case = Rex::Case {
        ty: SqlType::Int64,
        operands: part(alloc, two())?,
    };
    assert_eq!(rt; flaw_below(alloc, case)?, Some((5, FlawKind::Shape)));
    // a CASE whose test is no BOOL
    let test = Rex::Case {
        ty: SqlType::Int64,
        operands: parts(alloc, two(), two())?,
    };
    assert_eq!(rt; flaw_below(alloc, test)?, Some((5, FlawKind::Typing)));
    let coalesce = Rex::Coalesce {
        ty: SqlType::Text,
        operands: part(alloc, two())?,
    };
    assert_eq!(rt; flaw_below(alloc, coalesce)?, Some((5, FlawKind::Typing)));
    Ok(())
}

#[test]
fn truth_and_faults(rt: HostRuntime) -> Result<(), Fail> {
    let alloc = rt.alloc();
    // AND and OR of nothing, and of a number
    let none = Rex::And {
        ty: SqlType::Bool,
        operands: Items::new(alloc),
    };
    assert_eq!(rt; flaw(alloc, none)?, Some((4, FlawKind::Shape)));
    let number = Rex::Or {
        ty: SqlType::Bool,
        operands: parts(alloc, truth(), two())?,
    };
    assert_eq!(rt; flaw(alloc, number)?, Some((4, FlawKind::Typing)));
    // IFERROR of one operand, NULLIFERROR of two, ISERROR that isn't BOOL, an error of a number
    let one_operand = Rex::IfError {
        ty: SqlType::Int64,
        operands: part(alloc, two())?,
    };
    assert_eq!(rt; flaw_below(alloc, one_operand)?, Some((5, FlawKind::Shape)));
    let two_operands = Rex::NullIfError {
        ty: SqlType::Int64,
        operands: parts(alloc, two(), two())?,
    };
    assert_eq!(rt;
        flaw_below(alloc, two_operands)?,
        Some((5, FlawKind::Shape))
    );
    let tried = Rex::IsError {
        ty: SqlType::Int64,
        operands: part(alloc, two())?,
    };
    assert_eq!(rt; flaw_below(alloc, tried)?, Some((5, FlawKind::Typing)));
    let raised = Rex::Raise {
        ty: SqlType::Int64,
        operands: part(alloc, two())?,
    };
    assert_eq!(rt; flaw_below(alloc, raised)?, Some((5, FlawKind::Typing)));
    Ok(())
}

#[test]
fn lists_and_parts(rt: HostRuntime) -> Result<(), Fail> {
    let alloc = rt.alloc();
    // IN over nothing, and over what is no array
    let empty = Rex::InList {
        search: Boxed::new(alloc, two())?,
        list: Items::new(alloc),
    };
    assert_eq!(rt; flaw(alloc, empty)?, Some((4, FlawKind::Shape)));
    let no_array = Rex::InArray {
        search: Boxed::new(alloc, two())?,
        array: Boxed::new(alloc, two())?,
    };
    assert_eq!(rt; flaw(alloc, no_array)?, Some((4, FlawKind::Typing)));
    // an array and a STRUCT of another type, a field and an element of a number
    let array = Rex::MakeArray {
        ty: SqlType::Int64,
        parts: part(alloc, two())?,
    };
    assert_eq!(rt; flaw_below(alloc, array)?, Some((5, FlawKind::Typing)));
    let fields = Rex::MakeStruct {
        ty: SqlType::Struct(Items::new(alloc)),
        parts: part(alloc, two())?,
    };
    assert_eq!(rt; flaw_below(alloc, fields)?, Some((5, FlawKind::Shape)));
    let field = Rex::Field {
        place: 0,
        ty: SqlType::Int64,
        expr: Boxed::new(alloc, two())?,
    };
    assert_eq!(rt; flaw_below(alloc, field)?, Some((5, FlawKind::Typing)));
    let element = Rex::Index {
        form: IndexForm::Offset,
        ty: SqlType::Int64,
        array: Boxed::new(alloc, two())?,
        index: Boxed::new(alloc, two())?,
    };
    assert_eq!(rt; flaw_below(alloc, element)?, Some((5, FlawKind::Typing)));
    Ok(())
}

/// A Let that binds column `id` of a type to 2, and gives this column.
fn bound(alloc: Global, id: u64, ty: SqlType, gives: SqlType) -> Result<Rex, AllocError> {
    let mut bindings = Items::new(alloc);
    bindings.push(Compute {
        column: made(alloc, id, ty)?,
        expr: two(),
    })?;
    Ok(Rex::Let {
        ty: gives,
        bindings,
        expr: Boxed::new(alloc, two())?,
    })
}

#[test]
fn bindings(rt: HostRuntime) -> Result<(), Fail> {
    let alloc = rt.alloc();
    let fine = bound(alloc, 3, SqlType::Int64, SqlType::Int64)?;
    assert_eq!(rt; flaw_below(alloc, fine)?, None);
    let gives = bound(alloc, 3, SqlType::Int64, SqlType::Text)?;
    assert_eq!(rt; flaw_below(alloc, gives)?, Some((5, FlawKind::Typing)));
    // at the Compute: a number that the Table made, and another type
    let twice = bound(alloc, 1, SqlType::Int64, SqlType::Int64)?;
    assert_eq!(rt; flaw_below(alloc, twice)?, Some((6, FlawKind::Id)));
    let typed = bound(alloc, 3, SqlType::Text, SqlType::Int64)?;
    assert_eq!(rt; flaw_below(alloc, typed)?, Some((6, FlawKind::Typing)));
    Ok(())
}

/// A query inside that gives the rows of column 3 of its own Table for which column 1 of the outer query is TRUE of `= 2`.
fn inside(alloc: Global) -> Result<Scan, AllocError> {
    let outer = Rex::Outer {
        column: column(alloc, 1)?,
        ty: SqlType::Int64,
    };
    let test = call(SigId::Equal, SqlType::Bool, parts(alloc, outer, two())?);
    filter(alloc, table(alloc, 3, 4)?, test)
}

#[test]
fn subqueries(rt: HostRuntime) -> Result<(), Fail> {
    let alloc = rt.alloc();
    let fine = Rex::Exists {
        ty: SqlType::Bool,
        outer: one(alloc, 1)?,
        scan: Boxed::new(alloc, inside(alloc)?)?,
    };
    assert_eq!(rt; flaw(alloc, fine)?, None);
    // without the column that it uses of the outer query, and with the type of another
    let without = Rex::Exists {
        ty: SqlType::Bool,
        outer: Items::new(alloc),
        scan: Boxed::new(alloc, inside(alloc)?)?,
    };
    assert_eq!(rt; flaw(alloc, without)?, Some((4, FlawKind::Outers)));
    let typed = Rex::Exists {
        ty: SqlType::Int64,
        outer: one(alloc, 1)?,
        scan: Boxed::new(alloc, inside(alloc)?)?,
    };
    assert_eq!(rt; flaw_below(alloc, typed)?, Some((5, FlawKind::Typing)));
    // a column that the scan doesn't have, and a type that isn't the column's
    let absent = Rex::Scalar {
        ty: SqlType::Int64,
        column: column(alloc, 9)?,
        outer: one(alloc, 1)?,
        scan: Boxed::new(alloc, inside(alloc)?)?,
    };
    assert_eq!(rt; flaw_below(alloc, absent)?, Some((5, FlawKind::Unseen)));
    let no_array = Rex::ArrayOf {
        ty: SqlType::Int64,
        column: column(alloc, 3)?,
        outer: one(alloc, 1)?,
        scan: Boxed::new(alloc, inside(alloc)?)?,
    };
    assert_eq!(rt; flaw_below(alloc, no_array)?, Some((5, FlawKind::Typing)));
    let sought = Rex::InQuery {
        ty: SqlType::Bool,
        column: column(alloc, 3)?,
        outer: one(alloc, 1)?,
        search: Boxed::new(alloc, truth())?,
        scan: Boxed::new(alloc, inside(alloc)?)?,
    };
    assert_eq!(rt; flaw(alloc, sought)?, Some((4, FlawKind::Typing)));
    Ok(())
}

#[test]
fn scans(rt: HostRuntime) -> Result<(), Fail> {
    let alloc = rt.alloc();
    // a column of the answer that the scan doesn't give
    assert_eq!(rt;
        scan_flaw(alloc, Scan::Single)?,
        Some((0, FlawKind::Unseen))
    );
    // a number made twice, and the number 0
    assert_eq!(rt;
        scan_flaw(alloc, table(alloc, 1, 1)?)?,
        Some((1, FlawKind::Id))
    );
    assert_eq!(rt;
        scan_flaw(alloc, table(alloc, 1, 0)?)?,
        Some((1, FlawKind::Id))
    );
    // CROSS with a condition, and INNER without one
    let cross = Scan::Join {
        kind: JoinKind::Cross,
        left: Boxed::new(alloc, table(alloc, 1, 2)?)?,
        right: Boxed::new(alloc, table(alloc, 3, 4)?)?,
        condition: Some(Boxed::new(alloc, truth())?),
    };
    assert_eq!(rt; scan_flaw(alloc, cross)?, Some((1, FlawKind::Shape)));
    let inner = Scan::Join {
        kind: JoinKind::Inner,
        left: Boxed::new(alloc, table(alloc, 1, 2)?)?,
        right: Boxed::new(alloc, table(alloc, 3, 4)?)?,
        condition: None,
    };
    assert_eq!(rt; scan_flaw(alloc, inner)?, Some((1, FlawKind::Shape)));
    // UNNEST of a number
    let unnest = Scan::Unnest {
        kind: UnnestKind::Inner,
        element: made(alloc, 3, SqlType::Int64)?,
        offset: None,
        scan: Boxed::new(alloc, table(alloc, 1, 2)?)?,
        array: Boxed::new(alloc, two())?,
        condition: None,
    };
    assert_eq!(rt; scan_flaw(alloc, unnest)?, Some((1, FlawKind::Typing)));
    Ok(())
}

/// WITH two queries of these numbers, the second a reference to the query of a number, over the Table with columns 1 and 2.
fn with_two(alloc: Global, first: u64, second: u64, referred: u64) -> Result<Scan, AllocError> {
    let mut ctes = Items::new(alloc);
    ctes.push(Cte {
        number: first,
        columns: one(alloc, 3)?,
        scan: table(alloc, 3, 4)?,
    })?;
    let mut columns = Items::new(alloc);
    columns.push(made(alloc, 5, SqlType::Int64)?)?;
    ctes.push(Cte {
        number: second,
        columns: one(alloc, 5)?,
        scan: Scan::CteRef {
            number: referred,
            columns,
        },
    })?;
    Ok(Scan::With {
        ctes,
        scan: Boxed::new(alloc, table(alloc, 1, 2)?)?,
    })
}

#[test]
fn with_lists(rt: HostRuntime) -> Result<(), Fail> {
    let alloc = rt.alloc();
    assert_eq!(rt; scan_flaw(alloc, with_two(alloc, 1, 2, 1)?)?, None);
    // a number twice in one list, at the second Cte, and a reference to a query that isn't in sight
    assert_eq!(rt;
        scan_flaw(alloc, with_two(alloc, 1, 1, 1)?)?,
        Some((4, FlawKind::Id))
    );
    assert_eq!(rt;
        scan_flaw(alloc, with_two(alloc, 1, 2, 2)?)?,
        Some((5, FlawKind::Unseen))
    );
    // a Project of a column that its scan doesn't give
    assert_eq!(rt;
        scan_flaw(alloc, project(alloc, 9, table(alloc, 1, 2)?)?)?,
        Some((0, FlawKind::Unseen))
    );
    Ok(())
}

#[test]
fn deep_trees(rt: HostRuntime) -> Result<(), Fail> {
    let alloc = rt.alloc();
    let mut deep = truth();
    for _ in 0..100 {
        deep = call(SigId::Not, SqlType::Bool, part(alloc, deep)?);
    }
    assert_eq!(rt; flaw(alloc, deep)?, None);
    Ok(())
}
