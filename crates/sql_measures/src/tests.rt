//! Depths and weights of queries whose measures are known.
use crate::{depth, expr_depth, expr_weight, weight};
use sql_ast::{Body, Cube, CubeKind, Expr, GroupItem, Groups, Item, Query, Select, Term};
use sql_types::{Boxed, Items, Text};
use std::alloc::{AllocError, Global};
use std::test::Fail;

fn one() -> Expr {
    Expr::Integer { value: 1, place: 0 }
}

/// `NOT NOT .. TRUE`
fn negated(alloc: Global, times: u64) -> Result<Expr, AllocError> {
    let mut operators = Items::new(alloc);
    for place in 0..times {
        operators.push(place)?;
    }
    let operand = Boxed::new(
        alloc,
        Expr::Bool {
            value: true,
            place: 0,
        },
    )?;
    Ok(Expr::Not {
        operators,
        operand,
        place: 0,
    })
}

/// `1, 1 ..`
fn ones(alloc: Global, count: u64) -> Result<Items<Item<Expr>>, AllocError> {
    let mut items = Items::new(alloc);
    for _ in 0..count {
        items.push(Item::Expr {
            expr: one(),
            alias: None,
            place: 0,
        })?;
    }
    Ok(items)
}

/// `GROUP BY CUBE (1, 1 ..)`
fn cube(alloc: Global, count: u64) -> Result<Groups<Expr>, AllocError> {
    let mut items = Items::new(alloc);
    for _ in 0..count {
        items.push(GroupItem::Expr { expr: one() })?;
    }
    let cube = Cube {
        kind: CubeKind::Cube,
        items,
        place: 0,
    };
    Ok(Groups::Cube { cube, place: 0 })
}

/// `SELECT items [GROUP BY groups]`
fn query_of(
    alloc: Global,
    items: Items<Item<Expr>>,
    grouping: Option<Groups<Expr>>,
) -> Result<Query, AllocError> {
    let select = Boxed::new(
        alloc,
        Select {
            distinct: false,
            as_struct: false,
            items,
            from: None,
            filter: None,
            grouping,
            having: None,
            place: 0,
        },
    )?;
    Ok(Query {
        ctes: Items::new(alloc),
        body: Body {
            first: Term::Select { select },
            rest: Items::new(alloc),
            place: 0,
        },
        order: Items::new(alloc),
        limit: None,
        place: 0,
    })
}

/// The depth of a SELECT of a negated TRUE.
fn negated_depth(alloc: Global, times: u64) -> Result<u64, AllocError> {
    let mut items = Items::new(alloc);
    items.push(Item::Expr {
        expr: negated(alloc, times)?,
        alias: None,
        place: 0,
    })?;
    let query = query_of(alloc, items, None)?;
    Ok(depth(&query))
}

/// The weight of a SELECT of ones.
fn ones_weight(alloc: Global, count: u64) -> Result<u64, AllocError> {
    let query = query_of(alloc, ones(alloc, count)?, None)?;
    Ok(weight(&query))
}

/// The weight of a SELECT of a one by a CUBE of ones.
fn cube_weight(alloc: Global, count: u64) -> Result<u64, AllocError> {
    let items = ones(alloc, 1)?;
    let query = query_of(alloc, items, Some(cube(alloc, count)?))?;
    Ok(weight(&query))
}

/// The weight of a name.
fn name_weight(alloc: Global, name: &str) -> Result<u64, AllocError> {
    let name = Text::copy_of(alloc, name)?;
    Ok(expr_weight(&Expr::Name { name, place: 0 }))
}

// A query adds 2, a SELECT 8, each NOT 1 and a literal 1.
#[test]
fn depths(rt: HostRuntime) -> Result<(), Fail> {
    let alloc = rt.alloc();
    for (times, deep) in [(0, 11), (389, 400), (390, 401), (1989, 2000)] {
        assert_eq!(rt; negated_depth(alloc, times)?, deep);
    }
    let expr = negated(alloc, 7)?;
    assert_eq!(rt; expr_depth(&expr), 8);
    Ok(())
}

// SELECT counts 1, and each item 1 and its expression.
#[test]
fn weights(rt: HostRuntime) -> Result<(), Fail> {
    let alloc = rt.alloc();
    for (count, weighs) in [(1, 3), (10, 21), (9999, 19999)] {
        assert_eq!(rt; ones_weight(alloc, count)?, weighs);
    }
    Ok(())
}

// The list and the keys count once per set: 1 + 2 ^ n * 2 + (1 + 2 ^ n * n).
#[test]
fn cubes(rt: HostRuntime) -> Result<(), Fail> {
    let alloc = rt.alloc();
    for (count, weighs) in [(1, 8), (12, 57346), (64, u64::MAX), (70, u64::MAX)] {
        assert_eq!(rt; cube_weight(alloc, count)?, weighs);
    }
    Ok(())
}

// Every name adds its length divided by 32.
#[test]
fn long_names(rt: HostRuntime) -> Result<(), Fail> {
    let alloc = rt.alloc();
    assert_eq!(rt; name_weight(alloc, "abc")?, 1);
    assert_eq!(rt; name_weight(alloc, "abcdefghijklmnopqrstuvwxyz_01234")?, 2);
    Ok(())
}
