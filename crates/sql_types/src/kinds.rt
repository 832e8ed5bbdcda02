//! Kinds of joins and set operations, and the items of a sort.
use lists::Items;

/// The five joins.
#[derive(Clone, Copy, Debug, PartialEq, Eq)]
pub enum JoinKind {
    Cross,
    Inner,
    Left,
    Right,
    Full,
}

/// The six set operations.
#[derive(Clone, Copy, Debug, PartialEq, Eq)]
pub enum SetKind {
    UnionAll,
    UnionDistinct,
    IntersectAll,
    IntersectDistinct,
    ExceptAll,
    ExceptDistinct,
}

/// One item of an order: the place of the sort value in the row, from 0 (for an aggregate, in its list of
/// arguments), the direction, and where NULL goes.
#[derive(Clone, Copy, Debug, PartialEq, Eq)]
pub struct SortItem {
    pub place: usize,
    pub descending: bool,
    pub nulls_first: bool,
}

/// The items of an order, the first decides first.
pub type SortItems = Items<SortItem>;
