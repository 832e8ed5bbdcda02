//! Entries that are added and looked up.
use crate::{
    AddRefusal, Catalog, CatalogKind, CatalogRefusal, FunctionDef, Measures, ParamDef, TableDef,
    TableOrView, ViewDef, Written,
};
use sql_types::{Items, SqlType, Text, Value};
use std::alloc::{AllocError, Global};
use std::test::Fail;

#[derive(Clone, Copy)]
enum Sort {
    Table,
    View,
    Function,
    Param,
}

const ADDED: &str = "added";

const TAKEN: &str = "the name is taken";

/// A name of 139 bytes, and the same in another case.
const LONG: &str =
    "a_long_name_of_an_entry_that_goes_on_a_long_name_of_an_entry_that_goes_on_a_long_name_of_an_entry_that_goes_on_a_long_name_of_an_entry_zzzz";

const LONG_UPPER: &str =
    "A_LONG_NAME_OF_AN_ENTRY_THAT_GOES_ON_A_LONG_NAME_OF_AN_ENTRY_THAT_GOES_ON_A_LONG_NAME_OF_AN_ENTRY_THAT_GOES_ON_A_LONG_NAME_OF_AN_ENTRY_ZZZZ";

/// Additions to one catalog, one after another, with their answers.
const ADDITIONS: [(Sort, &str, &str); 36] = [
    // tables and views share names, case aside
    (Sort::Table, "t", ADDED),
    (Sort::Table, "t", TAKEN),
    (Sort::Table, "T", TAKEN),
    (Sort::View, "T", TAKEN),
    (Sort::View, "v", ADDED),
    (Sort::View, "V", TAKEN),
    (Sort::Table, "V", TAKEN),
    // only ASCII letters have a case
    (Sort::Table, "Größe", ADDED),
    (Sort::Table, "gRöße", TAKEN),
    (Sort::Table, "GRÖßE", ADDED),
    // functions and parameters have names of their own
    (Sort::Function, "t", ADDED),
    (Sort::Function, "T", TAKEN),
    (Sort::Function, "v", ADDED),
    (Sort::Param, "t", ADDED),
    (Sort::Param, "T", TAKEN),
    (Sort::Param, "v", ADDED),
    (Sort::Function, "f", ADDED),
    (Sort::View, "F", ADDED),
    (Sort::View, "f", TAKEN),
    // and functions avoid those of the language
    (Sort::Function, "div", TAKEN),
    (Sort::Function, "Count", TAKEN),
    (Sort::Function, "DATE_FROM_UNIX_DATE", TAKEN),
    (Sort::Function, "if", TAKEN),
    (Sort::Function, "not", TAKEN),
    (Sort::Function, "Is Distinct From", TAKEN),
    (Sort::Function, "||", TAKEN),
    (Sort::Function, "+", TAKEN),
    (Sort::Function, "IS  NULL", ADDED),
    (Sort::Function, "upper", ADDED),
    (Sort::Table, "DIV", ADDED),
    (Sort::View, "COUNT", ADDED),
    (Sort::Param, "SUM", ADDED),
    // a name of any length
    (Sort::Table, LONG, ADDED),
    (Sort::View, LONG_UPPER, TAKEN),
    (Sort::Table, "", ADDED),
    (Sort::Table, "", TAKEN),
];

/// Names, and the table or view, the function and the parameter that each is.
const SOUGHT: [(&str, Option<TableOrView>, Option<usize>, Option<usize>); 11] = [
    ("T", Some(TableOrView::Table(0)), Some(1), Some(0)),
    ("v", Some(TableOrView::View(0)), Some(2), Some(1)),
    ("gröSSe", None, None, None),
    ("größe", Some(TableOrView::Table(1)), None, None),
    ("grÖßE", Some(TableOrView::Table(2)), None, None),
    ("F", Some(TableOrView::View(4)), Some(3), None),
    ("count", Some(TableOrView::View(7)), None, None),
    ("div", Some(TableOrView::Table(3)), None, None),
    ("sum", None, None, Some(2)),
    (LONG_UPPER, Some(TableOrView::Table(4)), None, None),
    ("u", None, None, None),
];

#[test]
fn finds_what_was_added(rt: HostRuntime) -> Result<(), Fail> {
    let alloc = rt.alloc();
    let mut catalog = Catalog::start(alloc);
    for (sort, name, want) in ADDITIONS {
        assert_eq!(rt; add(alloc, &mut catalog, sort, name)?, want, "at {name}");
    }
    for (name, table, function, param) in SOUGHT {
        let name = Text::copy_of(alloc, name)?;
        assert_eq!(rt; catalog.find_table(&name), table);
        assert_eq!(rt; catalog.find_function(&name), function);
        assert_eq!(rt; catalog.find_param(&name), param);
    }
    Ok(())
}

#[test]
fn gives_each_entry_by_its_number(rt: HostRuntime) -> Result<(), Fail> {
    let alloc = rt.alloc();
    let mut catalog = Catalog::start(alloc);
    for (sort, name) in [
        (Sort::Function, "f"),
        (Sort::Table, "t"),
        (Sort::View, "v"),
        (Sort::Param, "p"),
    ] {
        assert_eq!(rt; add(alloc, &mut catalog, sort, name)?, ADDED);
    }
    assert_eq!(rt; catalog.tables(), 1);
    assert_eq!(rt; catalog.definitions(), 2);
    assert_eq!(rt; catalog.params(), 1);
    assert_eq!(rt; catalog.table(0).file.as_str(), "t.csv");
    assert!(rt; !catalog.is_view(0));
    assert_eq!(rt; catalog.function(0).name.as_str(), "f");
    assert!(rt; catalog.is_view(1));
    assert_eq!(rt; catalog.view(1).name.as_str(), "v");
    assert_eq!(rt; catalog.param(0).name.as_str(), "p");
    Ok(())
}

#[test]
fn tells_why_a_catalog_is_refused(rt: HostRuntime) -> Result<(), Fail> {
    let refusal = CatalogRefusal::Fault {
        entry: 5,
        kind: CatalogKind::Body { rule: 3, place: 7 },
    };
    let text = format!(in rt.alloc(); "{refusal}")?;
    assert_eq!(rt;
        text.as_str(),
        "entry 5 is at fault: Body { rule: 3, place: 7 }"
    );
    assert_eq!(rt;
        CatalogRefusal::from(AllocError),
        CatalogRefusal::OutOfMemory
    );
    Ok(())
}

/// What the catalog answers to a new entry of a name.
fn add(
    alloc: Global,
    catalog: &mut Catalog,
    sort: Sort,
    name: &str,
) -> Result<&'static str, AllocError> {
    let name = Text::copy_of(alloc, name)?;
    let added = match sort {
        Sort::Table => catalog.add_table(table(alloc, name)?),
        Sort::View => catalog.add_view(view(name)),
        Sort::Function => catalog.add_function(function(alloc, name)),
        Sort::Param => catalog.add_param(param(name)),
    };
    match added {
        Ok(()) => Ok(ADDED),
        Err(AddRefusal::Duplicate) => Ok(TAKEN),
        Err(AddRefusal::OutOfMemory) => Err(AllocError),
    }
}

const NO_MEASURES: Measures = Measures {
    weight: 0,
    depth: 0,
    sets: 0,
};

fn table(alloc: Global, name: Text) -> Result<TableDef, AllocError> {
    Ok(TableDef {
        name,
        file: Text::copy_of(alloc, "t.csv")?,
        columns: Items::new(alloc),
    })
}

fn view(name: Text) -> ViewDef {
    ViewDef {
        name,
        query: Written::NoTree { place: 0 },
        measures: NO_MEASURES,
    }
}

fn function(alloc: Global, name: Text) -> FunctionDef {
    FunctionDef {
        name,
        arguments: Items::new(alloc),
        body: Written::Nested,
        measures: NO_MEASURES,
    }
}

fn param(name: Text) -> ParamDef {
    ParamDef {
        name,
        ty: SqlType::Int64,
        value: Value::Null,
    }
}
