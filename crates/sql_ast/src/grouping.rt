//! GROUP BY. `E` is an expression.
use sql_types::Items;

/// What follows GROUP BY.
#[derive(Drop)]
pub enum Groups<E> {
    /// `expr {"," expr}`
    Keys {
        keys: Items<E>,
        place: u64,
    },
    /// `()`
    Empty {
        place: u64,
    },
    /// `GROUPING SETS (..)`
    Sets {
        sets: Items<GroupSet<E>>,
        place: u64,
    },
    /// `ROLLUP (..)` or `CUBE (..)`
    Cube {
        cube: Cube<E>,
        place: u64,
    },
}

/// One of the grouping sets: an item, or a ROLLUP or CUBE that stands for several sets.
#[derive(Drop)]
pub enum GroupSet<E> {
    Item { item: GroupItem<E> },
    Cube { cube: Cube<E> },
}

/// ROLLUP or CUBE.
#[derive(Clone, Copy, Debug, PartialEq, Eq)]
pub enum CubeKind {
    Rollup,
    Cube,
}

/// `ROLLUP (..)` or `CUBE (..)`
#[derive(Drop)]
pub struct Cube<E> {
    pub kind: CubeKind,
    pub items: Items<GroupItem<E>>,
    pub place: u64,
}

/// An expression, or a list of them in brackets, which may be empty.
#[derive(Drop)]
pub enum GroupItem<E> {
    Expr { expr: E },
    List { exprs: Items<E>, place: u64 },
}
