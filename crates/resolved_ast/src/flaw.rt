//! What makes a tree invalid.

/// What a node breaks. Of several the first in this order counts.
#[derive(Clone, Copy, Debug, PartialEq, Eq)]
pub enum FlawKind {
    /// A column that it makes has no number of its own, or a query of a WITH list has the number of an earlier one.
    Id,
    /// A column or a query to which it refers isn't in sight there, with this name and type.
    Unseen,
    /// A subquery's list isn't that of the outer columns that it uses, in the order of their first use.
    Outers,
    /// A type isn't the one that the parts have or that the place needs.
    Typing,
    /// The number or the form of its parts isn't what it takes.
    Shape,
}

/// The first flaw of a tree: the number of the faulty node in the order of the tree's text, from 0, and what it breaks.
#[derive(Clone, Copy, Debug, PartialEq, Eq)]
pub struct Flaw {
    pub place: u64,
    pub kind: FlawKind,
}
