//! Groups.
use sql_types::{Items, Values};

/// A group: the values of its keys, and the numbers of its rows, which are counted from 0 and rise.
#[derive(Drop)]
pub struct Group {
    pub key: Values,
    pub rows: Items<usize>,
}

/// The groups in the order of their first rows.
pub type Groups = Items<Group>;
